//! Types that components define, in place. Component types and instance types nest, down to a
//! depth.
ghost use Rattle.std.specs.Prelude.{◌∷◌, ◌≡◌, ◌+◌, ◌<◌, ◌≤◌, Ok, IfOk, IfSome, MatchOption};
ghost use Rattle.wenc_base.specs.Prelude.{times};
ghost use Rattle.wenc_read.specs.Prelude.{Gives, IsWithin, IsWithinNested};
ghost use Rattle.wenc_types.specs.Prelude.{read_imported, read_exported};
ghost use Rattle.wenc_types.specs.Prelude.{read_component_declaration, read_instance_declaration};
ghost use Rattle.wenc_types.specs.Prelude.{read_type, read_component_type, read_instance_type};
ghost use Rattle.wenc_types.specs.Prelude.{read_resource_type, read_signature, FunctionType};
ghost use Rattle.wenc_view.specs.Prelude.{GivesNested, GivesFirst, members_of, type_seen};
ghost use Rattle.wenc_view.specs.Prelude.{instance_declaration_seen, component_declaration_seen};
ghost use Rattle.wenc_view.specs.Prelude.{component_members, instance_members, type_nests};
ghost use Rattle.wenc_view.specs.Prelude.{instance_declaration_nests, component_declaration_nests};
ghost use Rattle.wenc_view.specs.Prelude.{type_lists, instance_declaration_lists};
ghost use Rattle.wenc_view.specs.Prelude.{component_declaration_lists, AreCounted};

use crate::core_type_views::CoreTypeView;
use crate::defined_types::DefinedView;
use crate::extern_names::NameView;
use crate::list_of::ListOf;
use crate::pairs::both;
use crate::view::View;
use wenc_base::ValType;
use wenc_parts::{Alias, ComponentTypeRef, ComponentValType, ResultList};
use wenc_read::{Expected, NestedRefusal, Refusal, byte, u32_of};

/// The declarations of a component type, as an iterator, which reads them when they are asked for.
#[derive(Clone, Copy)]
pub struct ComponentDecls<'a> {
    /// The maximum nesting depth of types in a declaration.
    pub depth_left: u32,
    /// The number of remaining declarations.
    pub left: u32,
    /// The bytes from the next declaration on.
    pub bytes: &'a [u8],
}

/// The declarations of an instance type, as an iterator, which reads them when they are asked for.
#[derive(Clone, Copy)]
pub struct InstanceDecls<'a> {
    /// The maximum nesting depth of types in a declaration.
    pub depth_left: u32,
    /// The number of remaining declarations.
    pub left: u32,
    /// The bytes from the next declaration on.
    pub bytes: &'a [u8],
}

/// A type that a component defines, in place.
#[derive(Clone, Copy)]
pub enum TypeView<'a> {
    /// A type of values.
    Defined(DefinedView<'a>),
    /// The type of a function.
    Func {
        /// Whether it is asynchronous.
        is_async: bool,
        /// Its parameters.
        params: ListOf<'a, (&'a str, ComponentValType)>,
        /// The type of its result.
        result: Option<ComponentValType>,
    },
    /// The type of a component.
    Component(ComponentDecls<'a>),
    /// The type of an instance.
    Instance(InstanceDecls<'a>),
    /// A resource type.
    Resource {
        /// How it is represented.
        rep: ValType,
        /// The index of its destructor.
        dtor: Option<u32>,
    },
}

/// A declaration of an instance type, in place.
#[derive(Clone, Copy)]
pub enum InstanceDeclView<'a> {
    /// A core type.
    CoreType(CoreTypeView<'a>),
    /// A type.
    Type(TypeView<'a>),
    /// An alias.
    Alias(Alias<'a>),
    /// An export.
    Export {
        /// Its name.
        name: NameView<'a>,
        /// Its type.
        ty: ComponentTypeRef,
    },
}

/// A declaration of a component type, in place.
#[derive(Clone, Copy)]
pub enum ComponentDeclView<'a> {
    /// An import.
    Import {
        /// Its name.
        name: NameView<'a>,
        /// Its type.
        ty: ComponentTypeRef,
    },
    /// What an instance type may declare too.
    Decl(InstanceDeclView<'a>),
}

/// Reads a function type, after its first byte.
#[inline(always)]
fn function_type(is_async: bool, bytes: &[u8]) -> Result<(TypeView<'_>, &[u8]), Refusal>
    ensures found { Gives (λ x. (type_seen x.0, x.1.now)) result
        (read_signature is_async FunctionType bytes.now) }
    ensures place { IsWithin (λ x. x.1.now) bytes.now result }
    ensures flat { IfOk result (λ x. type_nests x.0 ≡ 0) }
    ensures counted { IfOk result (λ x. AreCounted bytes.now (type_lists x.0) x.1.now) }
{
    let (params, rest) = ListOf::view_of(bytes)?;
    let (answer, rest) = ResultList::view_of(rest)?;
    let ty = TypeView::Func {
        is_async,
        params,
        result: answer.0,
    };
    Ok((ty, rest))
}

/// Reads a resource type, after its first byte.
fn resource_type(bytes: &[u8]) -> Result<(TypeView<'_>, &[u8]), Refusal>
    ensures found { Gives (λ x. (type_seen x.0, x.1.now)) result
        (read_resource_type bytes.now) }
    ensures place { IsWithin (λ x. x.1.now) bytes.now result }
    ensures flat { IfOk result (λ x. type_nests x.0 ≡ 0) }
    ensures counted { IfOk result (λ x. AreCounted bytes.now (type_lists x.0) x.1.now) }
{
    let (rep, rest) = ValType::view_of(bytes)?;
    let (dtor, rest) = Option::view_of(rest)?;
    Ok((TypeView::Resource { rep, dtor }, rest))
}

/// Reads a type (component model, binary format, "Type Definitions") in which component types and
/// instance types nest at most `depth_left` deep. Returns it and the bytes after it. Its
/// declarations are read over, and again when they are asked for.
///
/// # Errors
///
/// Fails with `Flat` if no type begins the bytes, and with `TooDeep` if types nest deeper.
#[cycle(types)]
#[tactic(auto, using(wenc_types::specs::laws::ComponentTypes::one_level), unfolding(wenc_base::specs::Readers::choose))]
pub fn type_at<'a>(
    depth_left: u32,
    bytes: &'a [u8],
) -> Result<(TypeView<'a>, &'a [u8]), NestedRefusal>
    ensures found { GivesNested (λ x. (type_seen x.0, x.1.now)) result
        (read_type depth_left bytes.now) }
    ensures place { IsWithinNested (λ x. x.1.now) bytes.now result }
    ensures within { IfOk result (λ x. type_nests x.0 ≤ depth_left) }
    ensures deep { IfOk result (λ x. 0 < type_nests x.0 → type_nests x.0 ≡ depth_left) }
    ensures counted { IfOk result (λ x. AreCounted bytes.now (type_lists x.0) x.1.now) }
{
    match byte(bytes)? {
        (0x41, rest) => component_type(depth_left, rest),
        (0x42, rest) => instance_type(depth_left, rest),
        (0x40, rest) => Ok(function_type(false, rest)?),
        (0x43, rest) => Ok(function_type(true, rest)?),
        (0x3f, rest) => Ok(resource_type(rest)?),
        _ => {
            let (ty, rest) = DefinedView::view_of(bytes)?;
            Ok((TypeView::Defined(ty), rest))
        }
    }
}

/// Reads a component type, after its first byte.
#[cycle(types)]
fn component_type<'a>(
    depth_left: u32,
    bytes: &'a [u8],
) -> Result<(TypeView<'a>, &'a [u8]), NestedRefusal>
    ensures found { GivesNested (λ x. (type_seen x.0, x.1.now)) result
        (read_component_type depth_left bytes.now) }
    ensures place { IsWithinNested (λ x. x.1.now) (0x41 ∷ bytes.now) result }
    ensures within { IfOk result (λ x. type_nests x.0 ≤ depth_left) }
    ensures deep { IfOk result (λ x. 0 < type_nests x.0 → type_nests x.0 ≡ depth_left) }
    ensures counted { IfOk result (λ x. AreCounted bytes.now (type_lists x.0) x.1.now) }
{
    if depth_left == 0 {
        return Err(NestedRefusal::TooDeep(bytes.len().saturating_add(1)));
    }
    let depth_left = depth_left - 1;
    let (left, start) = u32_of(bytes)?;
    let rest = component_decls(depth_left, left, start)?;
    let decls = ComponentDecls {
        depth_left,
        left,
        bytes: start,
    };
    Ok((TypeView::Component(decls), rest))
}

/// Reads an instance type, after its first byte.
#[cycle(types)]
fn instance_type<'a>(
    depth_left: u32,
    bytes: &'a [u8],
) -> Result<(TypeView<'a>, &'a [u8]), NestedRefusal>
    ensures found { GivesNested (λ x. (type_seen x.0, x.1.now)) result
        (read_instance_type depth_left bytes.now) }
    ensures place { IsWithinNested (λ x. x.1.now) (0x42 ∷ bytes.now) result }
    ensures within { IfOk result (λ x. type_nests x.0 ≤ depth_left) }
    ensures deep { IfOk result (λ x. 0 < type_nests x.0 → type_nests x.0 ≡ depth_left) }
    ensures counted { IfOk result (λ x. AreCounted bytes.now (type_lists x.0) x.1.now) }
{
    if depth_left == 0 {
        return Err(NestedRefusal::TooDeep(bytes.len().saturating_add(1)));
    }
    let depth_left = depth_left - 1;
    let (left, start) = u32_of(bytes)?;
    let rest = instance_decls(depth_left, left, start)?;
    let decls = InstanceDecls {
        depth_left,
        left,
        bytes: start,
    };
    Ok((TypeView::Instance(decls), rest))
}

/// Reads over `count` declarations of a component type. Returns the bytes after them.
#[cycle(types)]
fn component_decls<'a>(
    depth_left: u32,
    count: u32,
    bytes: &'a [u8],
) -> Result<&'a [u8], NestedRefusal>
    ensures found { GivesNested
        (λ rest. (
          members_of (read_component_declaration (read_type depth_left)) count bytes.now,
          rest.now,
        ))
        result (times (read_component_declaration (read_type depth_left)) count bytes.now) }
    ensures place { IsWithinNested (λ rest. rest.now) bytes.now result }
{
    let mut rest = bytes;
    for _ in 0..count {
        match component_decl(depth_left, rest) {
            Ok((_, after)) => rest = after,
            Err(refusal) => return Err(refusal.of_many(bytes, count)),
        }
    }
    Ok(rest)
}

/// Reads over `count` declarations of an instance type. Returns the bytes after them.
#[cycle(types)]
fn instance_decls<'a>(
    depth_left: u32,
    count: u32,
    bytes: &'a [u8],
) -> Result<&'a [u8], NestedRefusal>
    ensures found { GivesNested
        (λ rest. (
          members_of (read_instance_declaration (read_type depth_left)) count bytes.now,
          rest.now,
        ))
        result (times (read_instance_declaration (read_type depth_left)) count bytes.now) }
    ensures place { IsWithinNested (λ rest. rest.now) bytes.now result }
{
    let mut rest = bytes;
    for _ in 0..count {
        match instance_decl(depth_left, rest) {
            Ok((_, after)) => rest = after,
            Err(refusal) => return Err(refusal.of_many(bytes, count)),
        }
    }
    Ok(rest)
}

/// Reads a declaration of a component type.
#[cycle(types)]
#[tactic(auto, using(wenc_read::specs::laws::Tables::first_there), unfolding(wenc_base::specs::Readers::choose))]
fn component_decl<'a>(
    depth_left: u32,
    bytes: &'a [u8],
) -> Result<(ComponentDeclView<'a>, &'a [u8]), NestedRefusal>
    ensures found { GivesNested (λ x. (component_declaration_seen x.0, x.1.now)) result
        (read_component_declaration (read_type depth_left) bytes.now) }
    ensures place { IsWithinNested (λ x. x.1.now) bytes.now result }
    ensures within { IfOk result (λ x. component_declaration_nests x.0 ≤ depth_left) }
    ensures deep { IfOk result
        (λ x. 0 < component_declaration_nests x.0 → component_declaration_nests x.0 ≡ depth_left) }
    ensures counted { IfOk result
        (λ x. AreCounted bytes.now (component_declaration_lists x.0) x.1.now) }
{
    match byte(bytes)? {
        (0x03, rest) => Ok(imported(rest)?),
        _ => match instance_decl(depth_left, bytes) {
            Ok((decl, rest)) => Ok((ComponentDeclView::Decl(decl), rest)),
            Err(refusal) => Err(refusal.or(bytes, Expected::From(0, 4))),
        },
    }
}

/// Reads a declaration of an instance type.
#[cycle(types)]
#[tactic(auto, unfolding(wenc_base::specs::Readers::choose))]
fn instance_decl<'a>(
    depth_left: u32,
    bytes: &'a [u8],
) -> Result<(InstanceDeclView<'a>, &'a [u8]), NestedRefusal>
    ensures found { GivesNested (λ x. (instance_declaration_seen x.0, x.1.now)) result
        (read_instance_declaration (read_type depth_left) bytes.now) }
    ensures place { IsWithinNested (λ x. x.1.now) bytes.now result }
    ensures within { IfOk result (λ x. instance_declaration_nests x.0 ≤ depth_left) }
    ensures deep { IfOk result
        (λ x. 0 < instance_declaration_nests x.0 → instance_declaration_nests x.0 ≡ depth_left) }
    ensures counted { IfOk result
        (λ x. AreCounted bytes.now (instance_declaration_lists x.0) x.1.now) }
{
    match byte(bytes)? {
        (0x00, rest) => {
            let (ty, rest) = CoreTypeView::view_of(rest)?;
            Ok((InstanceDeclView::CoreType(ty), rest))
        }
        (0x01, rest) => {
            let (ty, rest) = type_at(depth_left, rest)?;
            Ok((InstanceDeclView::Type(ty), rest))
        }
        (0x02, rest) => {
            let (alias, rest) = Alias::view_of(rest)?;
            Ok((InstanceDeclView::Alias(alias), rest))
        }
        (0x04, rest) => Ok(exported(rest)?),
        _ => Err(NestedRefusal::Flat(Refusal::at(bytes, Expected::InstanceDecl))),
    }
}

/// Reads an import declaration, after its first byte.
fn imported(bytes: &[u8]) -> Result<(ComponentDeclView<'_>, &[u8]), Refusal>
    ensures found { Gives (λ x. (component_declaration_seen x.0, x.1.now)) result
        (read_imported bytes.now) }
    ensures place { IsWithin (λ x. x.1.now) bytes.now result }
    ensures flat { IfOk result (λ x. component_declaration_nests x.0 ≡ 0) }
    ensures counted { IfOk result
        (λ x. AreCounted bytes.now (component_declaration_lists x.0) x.1.now) }
{
    let (name, ty, rest) = both(bytes)?;
    Ok((ComponentDeclView::Import { name, ty }, rest))
}

/// Reads an export declaration, after its first byte.
fn exported(bytes: &[u8]) -> Result<(InstanceDeclView<'_>, &[u8]), Refusal>
    ensures found { Gives (λ x. (instance_declaration_seen x.0, x.1.now)) result
        (read_exported bytes.now) }
    ensures place { IsWithin (λ x. x.1.now) bytes.now result }
    ensures flat { IfOk result (λ x. instance_declaration_nests x.0 ≡ 0) }
    ensures counted { IfOk result
        (λ x. AreCounted bytes.now (instance_declaration_lists x.0) x.1.now) }
{
    let (name, ty, rest) = both(bytes)?;
    Ok((InstanceDeclView::Export { name, ty }, rest))
}

impl<'a> Iterator for ComponentDecls<'a> {
    type Item = ComponentDeclView<'a>;

    ghost use Rattle.std.specs.Iterator.{at_most};

    ghost remaining = { λ l. at_most l.left };

    ghost next_gives = { λ a r b. GivesFirst component_declaration_seen (component_members a) r
        (component_members b) × IfSome r (λ d. component_declaration_nests d ≤ a.depth_left)
        × (b.depth_left ≡ a.depth_left)
        × MatchOption r (b ≡ a) (λ d. (a.left ≡ b.left + 1)
        × (read_component_declaration (read_type a.depth_left) a.bytes.now
        ≡ Ok (component_declaration_seen d, b.bytes.now))
        × AreCounted a.bytes.now (component_declaration_lists d) b.bytes.now
        × (0 < component_declaration_nests d → component_declaration_nests d ≡ a.depth_left)) };

    fn next(&mut self) -> Option<ComponentDeclView<'a>> {
        if self.left == 0 {
            return None;
        }
        match component_decl(self.depth_left, self.bytes) {
            Ok((decl, rest)) => {
                self.left -= 1;
                self.bytes = rest;
                Some(decl)
            }
            Err(_) => None,
        }
    }
}

impl<'a> Iterator for InstanceDecls<'a> {
    type Item = InstanceDeclView<'a>;

    ghost use Rattle.std.specs.Iterator.{at_most};

    ghost remaining = { λ l. at_most l.left };

    ghost next_gives = { λ a r b. GivesFirst instance_declaration_seen (instance_members a) r
        (instance_members b) × IfSome r (λ d. instance_declaration_nests d ≤ a.depth_left)
        × (b.depth_left ≡ a.depth_left)
        × MatchOption r (b ≡ a) (λ d. (a.left ≡ b.left + 1)
        × (read_instance_declaration (read_type a.depth_left) a.bytes.now
        ≡ Ok (instance_declaration_seen d, b.bytes.now))
        × AreCounted a.bytes.now (instance_declaration_lists d) b.bytes.now
        × (0 < instance_declaration_nests d → instance_declaration_nests d ≡ a.depth_left)) };

    fn next(&mut self) -> Option<InstanceDeclView<'a>> {
        if self.left == 0 {
            return None;
        }
        match instance_decl(self.depth_left, self.bytes) {
            Ok((decl, rest)) => {
                self.left -= 1;
                self.bytes = rest;
                Some(decl)
            }
            Err(_) => None,
        }
    }
}
