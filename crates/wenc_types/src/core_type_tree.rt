//! Core types of components, as trees.
ghost use Rattle.std.specs.Prelude.{refl};
ghost use Rattle.wenc_base.specs.Prelude.{as_seen, serves_itself};
ghost use Rattle.wenc_types.specs.Prelude.{core_type, core_type_view, core_type_lawful, alike_by};
ghost use Rattle.wenc_types.specs.Prelude.{composite_sees, group_sees, declaration_sees};
ghost use Rattle.wenc_types.specs.Prelude.{core_type_sees, module_declaration};
ghost use Rattle.wenc_types.specs.Prelude.{module_declaration_view, module_declaration_lawful};

use std::alloc::{Allocator, Global};
use wenc_base::{
    Delimited, DelimitedEq, Encode, EntityType, Fault, GroupTree, Guarded, Prefix, Verbatim,
};

/// A core type that a component defines, as a tree: core types, or the type of a module (component
/// model, binary format, "Core Definitions").
///
/// ```
/// let answer = ModuleDecl::Export {
///     name: String::from_str(alloc, "answer")?,
///     ty: EntityType::Function(0),
/// };
/// let function = FuncType::new(alloc, [].into_iter(), [ValType::I32].into_iter())?;
/// let ty = SubType {
///     is_final: true,
///     supertype_idx: None,
///     composite_type: CompositeType::Func(function),
/// };
/// let tree = CoreTypeTree::Module(vec![in alloc; ModuleDecl::Type(GroupTree::Sub(ty)), answer]?);
/// ```
#[derive(Drop)]
#[derive_where(PartialEq, Eq)]
pub enum CoreTypeTree<A: Allocator = Global> {
    /// Core types. A single one that others may extend is preceded by a byte `00`, since it would
    /// otherwise begin like a module type.
    Group(GroupTree<A>),
    /// The type of a module, as its declarations in order. More than 4294967295 can't be encoded.
    Module(Vec<ModuleDecl<A>, A>),
}

impl<A: Allocator> Encode for CoreTypeTree<A> {
    ghost piece = { λ t. core_type (core_type_view t) };

    fn encode<B: Allocator>(&self, sink: &mut Vec<u8, B>) -> Result<(), Fault> {
        match self {
            CoreTypeTree::Group(group) => Guarded(true, group).encode(sink),
            CoreTypeTree::Module(decls) => Prefix(0x50, &decls.as_slice()).encode(sink),
        }
    }
}

impl<A: Allocator> Delimited for CoreTypeTree<A> {
    ghost reads_back = { as_seen core_type_view core_type_lawful };

    ghost written = { λ _. serves_itself };
}

impl<A: Allocator> DelimitedEq for CoreTypeTree<A> {
    ghost alike = { alike_by _ _ (core_type_sees _ _
        (declaration_sees _
        (λ m n k l t e f. rw (e, f) refl)
        (group_sees _ _
        (λ _ _. composite_sees _ (λ f g p r. rw (p, r) refl) (λ s t e. rw e refl))
        (λ s t. refl) (λ ts us. refl))
        (λ n l t e. rw e refl))
        (λ g h. refl) (λ ds es. refl)) };
}

/// A declaration of a module type (component model, binary format, "Core Definitions"). A string of
/// more than 4294967295 bytes can't be encoded.
#[derive(Drop)]
#[derive_where(PartialEq, Eq)]
pub enum ModuleDecl<A: Allocator = Global> {
    /// An import of the module.
    Import {
        /// The name of the module to import from.
        module: String<A>,
        /// The name of the import in that module.
        name: String<A>,
        /// The type of the import. Type indices are of this module type's index space.
        ty: EntityType,
    },
    /// A type, or a group of types, which takes the next type index.
    Type(GroupTree<A>),
    /// An alias of a core type of an enclosing scope, which takes the next type index.
    Alias {
        /// The number of scopes outwards: 0 is this module type.
        count: u32,
        /// The index of the core type in that scope.
        index: u32,
    },
    /// An export of the module.
    Export {
        /// The name of the export.
        name: String<A>,
        /// The type of the export. Type indices are of this module type's index space.
        ty: EntityType,
    },
}

impl<A: Allocator> Encode for ModuleDecl<A> {
    ghost piece = { λ d. module_declaration (module_declaration_view d) };

    fn encode<B: Allocator>(&self, sink: &mut Vec<u8, B>) -> Result<(), Fault> {
        match self {
            ModuleDecl::Import { module, name, ty } => {
                Prefix(0x00, &(module.as_str(), name.as_str(), *ty)).encode(sink)
            }
            ModuleDecl::Type(group) => Prefix(0x01, group).encode(sink),
            ModuleDecl::Alias { count, index } => {
                let sort_and_kind = Verbatim(&[0x10, 0x01]);
                Prefix(0x02, &(sort_and_kind, *count, *index)).encode(sink)
            }
            ModuleDecl::Export { name, ty } => Prefix(0x03, &(name.as_str(), *ty)).encode(sink),
        }
    }
}

impl<A: Allocator> Delimited for ModuleDecl<A> {
    ghost reads_back = { as_seen module_declaration_view module_declaration_lawful };

    ghost written = { λ _. serves_itself };
}

impl<A: Allocator> DelimitedEq for ModuleDecl<A> {
    ghost alike = { alike_by _ _ (declaration_sees _
        (λ m n k l t e f. rw (e, f) refl)
        (group_sees _ _
        (λ _ _. composite_sees _ (λ f g p r. rw (p, r) refl) (λ s t e. rw e refl))
        (λ s t. refl) (λ ts us. refl))
        (λ n l t e. rw e refl)) };
}
