//! Core types in a component: recursion groups with guards, and module types.
ghost use Rattle.std.specs.Prelude.{IfOk};
ghost use Rattle.wenc_view.specs.Prelude.{read_guarded, module_declaration_lists, core_type_lists};
ghost use Rattle.wenc_view.specs.Prelude.{AreCounted};
ghost use Rattle.wenc_view.specs.Prelude.{module_declaration_seen, core_type_seen};
ghost use Rattle.wenc_read.specs.Prelude.{Gives, IsWithin, read_by};
ghost use Rattle.wenc_types.specs.Prelude.{read_outer_type, ModuleDeclaration};
ghost use Rattle.wenc_types.specs.Prelude.{module_declaration_sound, module_declaration_lawful};
ghost use Rattle.wenc_types.specs.Prelude.{CoreType, core_type_sound, core_type_lawful};

use crate::composites::{GroupView, SubView, open};
use crate::list_of::ListOf;
use crate::view::{View, text_of};
use wenc_base::EntityType;
use wenc_read::{Expected, Refusal, byte};

/// A declaration of a module type, in place.
#[derive(Clone, Copy)]
pub enum ModuleDeclView<'a> {
    /// An import of the module.
    Import {
        /// The name of the module to import from.
        module: &'a str,
        /// The name of the import in that module.
        name: &'a str,
        /// The type of the import.
        ty: EntityType,
    },
    /// A type, or a group of types.
    Type(GroupView<'a>),
    /// An alias of a core type of an enclosing scope.
    Alias {
        /// The number of scopes outwards.
        count: u32,
        /// The index of the core type in that scope.
        index: u32,
    },
    /// An export of the module.
    Export {
        /// The name of the export.
        name: &'a str,
        /// The type of the export.
        ty: EntityType,
    },
}

/// A core type of a component, in place.
#[derive(Clone, Copy)]
pub enum CoreTypeView<'a> {
    /// Core types.
    Group(GroupView<'a>),
    /// The type of a module, by its declarations.
    Module(ListOf<'a, ModuleDeclView<'a>>),
}

/// Reads an alias of an enclosing component's type, after its first byte.
#[tactic(auto, unfolding(wenc_base::specs::Readers::choose))]
fn outer_type(bytes: &[u8]) -> Result<(ModuleDeclView<'_>, &[u8]), Refusal>
    ensures found { Gives (λ x. (module_declaration_seen x.0, x.1.now)) result
        (read_outer_type (λ d. d) bytes.now) }
    ensures place { IsWithin (λ x. x.1.now) bytes.now result }
    ensures counted { IfOk result
        (λ x. AreCounted bytes.now (module_declaration_lists x.0) x.1.now) }
{
    match byte(bytes)? {
        (0x10, rest) => match byte(rest)? {
            (0x01, rest) => {
                let (count, rest) = u32::view_of(rest)?;
                let (index, rest) = u32::view_of(rest)?;
                Ok((ModuleDeclView::Alias { count, index }, rest))
            }
            _ => Err(Refusal::at(rest, Expected::From(1, 1))),
        },
        _ => Err(Refusal::at(bytes, Expected::From(0x10, 0x10))),
    }
}

impl<'a> View<'a> for ModuleDeclView<'a> {
    ghost Value = { ModuleDeclaration };

    ghost view = { module_declaration_seen };

    ghost reading = { read_by module_declaration_sound module_declaration_lawful };

    ghost lists = { module_declaration_lists };

    #[tactic(auto, unfolding(wenc_base::specs::Readers::choose))]
    fn view_of(bytes: &'a [u8]) -> Result<(ModuleDeclView<'a>, &'a [u8]), Refusal> {
        match byte(bytes)? {
            (0x00, rest) => {
                let (module, rest) = text_of(rest)?;
                let (name, rest) = text_of(rest)?;
                let (ty, rest) = EntityType::view_of(rest)?;
                Ok((ModuleDeclView::Import { module, name, ty }, rest))
            }
            (0x01, rest) => {
                let (ty, rest) = GroupView::view_of(rest)?;
                Ok((ModuleDeclView::Type(ty), rest))
            }
            (0x02, rest) => outer_type(rest),
            (0x03, rest) => {
                let (name, rest) = text_of(rest)?;
                let (ty, rest) = EntityType::view_of(rest)?;
                Ok((ModuleDeclView::Export { name, ty }, rest))
            }
            _ => Err(Refusal::at(bytes, Expected::From(0, 3))),
        }
    }
}

/// Reads a type that isn't final, after its guard.
#[tactic(auto, unfolding(wenc_base::specs::Readers::choose))]
fn guarded(bytes: &[u8]) -> Result<(CoreTypeView<'_>, &[u8]), Refusal>
    ensures found { Gives (λ x. (core_type_seen x.0, x.1.now)) result
        (read_guarded bytes.now) }
    ensures place { IsWithin (λ x. x.1.now) bytes.now result }
    ensures counted { IfOk result (λ x. AreCounted bytes.now (core_type_lists x.0) x.1.now) }
{
    match byte(bytes)? {
        (0x50, rest) => {
            let (ty, rest) = open(rest)?;
            Ok((CoreTypeView::Group(GroupView::Sub(ty)), rest))
        }
        _ => Err(Refusal::at(bytes, Expected::From(0x50, 0x50))),
    }
}

impl<'a> View<'a> for CoreTypeView<'a> {
    ghost Value = { CoreType };

    ghost view = { core_type_seen };

    ghost reading = { read_by core_type_sound core_type_lawful };

    ghost lists = { core_type_lists };

    #[tactic(auto, unfolding(wenc_base::specs::Readers::choose))]
    fn view_of(bytes: &'a [u8]) -> Result<(CoreTypeView<'a>, &'a [u8]), Refusal> {
        match byte(bytes)? {
            (0x50, rest) => {
                let (decls, rest) = ListOf::view_of(rest)?;
                Ok((CoreTypeView::Module(decls), rest))
            }
            (0x4e, rest) => {
                let (types, rest) = ListOf::view_of(rest)?;
                Ok((CoreTypeView::Group(GroupView::Rec(types)), rest))
            }
            (0x00, rest) => guarded(rest),
            _ => match SubView::view_of(bytes) {
                Ok((ty, rest)) => Ok((CoreTypeView::Group(GroupView::Sub(ty)), rest)),
                Err(refusal) => Err(refusal.or(bytes, Expected::CoreType)),
            },
        }
    }
}
