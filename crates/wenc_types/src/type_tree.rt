//! Types of components, as trees.
ghost use Rattle.std.specs.Prelude.{OnOk};
ghost use Rattle.wenc_base.specs.Prelude.{Appends, list_in_order, ◌▸◌, ◌⨾◌, as_seen, serves_itself};
ghost use Rattle.wenc_parts.specs.Prelude.{extern_name, name_tree_view, type_reference};
ghost use Rattle.wenc_types.specs.Prelude.{function_type, function_view, def_type, type_view};
ghost use Rattle.wenc_types.specs.Prelude.{instance_declaration, instance_declaration_view};
ghost use Rattle.wenc_types.specs.Prelude.{component_declaration, component_declaration_view};
ghost use Rattle.wenc_types.specs.Prelude.{type_lawful, instance_declaration_lawful};
ghost use Rattle.wenc_types.specs.Prelude.{component_declaration_lawful};

use crate::core_type_tree::CoreTypeTree;
use crate::defined_tree::DefinedTree;
use std::alloc::{Allocator, Global};
use wenc_base::{Delimited, Encode, Fault, Prefix, Tagged, ValType};
use wenc_parts::{AliasTree, ComponentTypeRef, ComponentValType, NameTree, ResultList};

/// A type that a component defines, as a tree of any depth (component model, binary format, "Type
/// Definitions").
///
/// ```
/// let function = TypeTree::Func {
///     is_async: false,
///     params: Vec::new(alloc),
///     result: None,
/// };
/// let name = NameTree::from(String::from_str(alloc, "stop")?);
/// let ty = ComponentTypeRef::Func(0);
/// let decls = vec![in alloc;
///     InstanceDecl::Type(function),
///     InstanceDecl::Export { name, ty },
/// ]?;
/// let tree = TypeTree::Instance(decls);
/// ```
#[cycle(types)]
#[derive(Drop)]
pub enum TypeTree<A: Allocator = Global> {
    /// A defined type: a type of values.
    Defined(DefinedTree<A>),
    /// The type of a function.
    Func {
        /// Whether the function is asynchronous.
        is_async: bool,
        /// The name and the type of each parameter, in order. More than 4294967295 can't be
        /// encoded, nor can a name of more than 4294967295 bytes.
        params: Vec<(String<A>, ComponentValType), A>,
        /// The type of the result, if there is one.
        result: Option<ComponentValType>,
    },
    /// The type of a component, as its declarations in order. More than 4294967295 can't be
    /// encoded.
    Component(Vec<ComponentDecl<A>, A>),
    /// The type of an instance, as its declarations in order. More than 4294967295 can't be
    /// encoded.
    Instance(Vec<InstanceDecl<A>, A>),
    /// A resource type.
    Resource {
        /// The representation of a resource.
        rep: ValType,
        /// The index of the destructor, a core function, if there is one.
        dtor: Option<u32>,
    },
}

/// A declaration of an instance type (component model, binary format, "Type Definitions").
#[cycle(types)]
#[derive(Drop)]
pub enum InstanceDecl<A: Allocator = Global> {
    /// A core type, which takes the next index in the index space of core types.
    CoreType(CoreTypeTree<A>),
    /// A type, which takes the next index in the index space of types.
    Type(TypeTree<A>),
    /// An alias, which takes the next index in the index space of its kind. A string of more than
    /// 4294967295 bytes can't be encoded.
    Alias(AliasTree<A>),
    /// An export of the instance.
    Export {
        /// The name of the export. A string of more than 4294967295 bytes can't be encoded.
        name: NameTree<A>,
        /// The type of the export. Type indices are of this instance type's index space.
        ty: ComponentTypeRef,
    },
}

/// A declaration of a component type (component model, binary format, "Type Definitions").
#[cycle(types)]
#[derive(Drop)]
pub enum ComponentDecl<A: Allocator = Global> {
    /// An import of the component.
    Import {
        /// The name of the import. A string of more than 4294967295 bytes can't be encoded.
        name: NameTree<A>,
        /// The type of the import. Type indices are of this component type's index space.
        ty: ComponentTypeRef,
    },
    /// A declaration that an instance type can have too.
    Decl(InstanceDecl<A>),
}

impl<A: Allocator> Encode for TypeTree<A> {
    ghost piece = { λ t. def_type (type_view t) };

    #[cycle(encode)]
    fn encode<B: Allocator>(&self, sink: &mut Vec<u8, B>) -> Result<(), Fault> {
        match self {
            TypeTree::Defined(ty) => ty.encode(sink),
            TypeTree::Func {
                is_async,
                params,
                result,
            } => encode_function(*is_async, params, *result, sink),
            TypeTree::Component(decls) => encode_members(0x41, decls, sink),
            TypeTree::Instance(decls) => encode_members(0x42, decls, sink),
            TypeTree::Resource { rep, dtor } => Prefix(0x3f, &(*rep, *dtor)).encode(sink),
        }
    }
}

impl<A: Allocator> Encode for InstanceDecl<A> {
    ghost piece = { λ d. instance_declaration (instance_declaration_view d) };

    #[cycle(encode)]
    fn encode<B: Allocator>(&self, sink: &mut Vec<u8, B>) -> Result<(), Fault> {
        match self {
            InstanceDecl::CoreType(ty) => Prefix(0x00, ty).encode(sink),
            InstanceDecl::Type(ty) => encode_tagged(0x01, ty, sink),
            InstanceDecl::Alias(alias) => Prefix(0x02, &alias.as_alias()).encode(sink),
            InstanceDecl::Export { name, ty } => encode_extern(0x04, name, *ty, sink),
        }
    }
}

impl<A: Allocator> Encode for ComponentDecl<A> {
    ghost piece = { λ d. component_declaration (component_declaration_view d) };

    #[cycle(encode)]
    fn encode<B: Allocator>(&self, sink: &mut Vec<u8, B>) -> Result<(), Fault> {
        match self {
            ComponentDecl::Import { name, ty } => encode_extern(0x03, name, *ty, sink),
            ComponentDecl::Decl(decl) => decl.encode(sink),
        }
    }
}

impl<A: Allocator> Delimited for TypeTree<A> {
    ghost reads_back = { as_seen type_view type_lawful };

    ghost written = { λ _. serves_itself };
}

impl<A: Allocator> Delimited for InstanceDecl<A> {
    ghost reads_back = { as_seen instance_declaration_view instance_declaration_lawful };

    ghost written = { λ _. serves_itself };
}

impl<A: Allocator> Delimited for ComponentDecl<A> {
    ghost reads_back = { as_seen component_declaration_view component_declaration_lawful };

    ghost written = { λ _. serves_itself };
}

/// Appends a tag, then a value.
fn encode_tagged<T: Encode, A: Allocator>(
    tag: u8,
    value: &T,
    sink: &mut Vec<u8, A>,
) -> Result<(), Fault>
    ensures appended { Appends (tag ▸ T.piece value.now).text (T.piece value.now).Cause
        (T.unfinished value.now) sink.old.items sink.new.items result }
    ensures fits { OnOk result (T.piece value.now).Fits }
{
    Tagged(tag, value).encode(sink)
}

/// Appends a tag, the number of values, then each.
fn encode_members<T: Encode, A: Allocator, B: Allocator>(
    tag: u8,
    values: &Vec<T, A>,
    sink: &mut Vec<u8, B>,
) -> Result<(), Fault>
    ensures appended { let members = tag ▸ list_in_order T.piece values.now.items in
        Appends members.text members.Cause ⊥ sink.old.items sink.new.items result }
    ensures fits { OnOk result (tag ▸ list_in_order T.piece values.now.items).Fits }
{
    Prefix(tag, &values.as_slice()).encode(sink)
}

/// Appends the type of a function, whose tag says whether it is asynchronous.
fn encode_function<A: Allocator, B: Allocator>(
    is_async: bool,
    params: &Vec<(String<A>, ComponentValType), A>,
    answer: Option<ComponentValType>,
    sink: &mut Vec<u8, B>,
) -> Result<(), Fault>
    ensures appended { let function = function_type
        (function_view is_async params.now.items answer) in
        Appends function.text function.Cause ⊥ sink.old.items sink.new.items result }
    ensures fits { OnOk result
        (function_type (function_view is_async params.now.items answer)).Fits }
{
    let tag = if is_async { 0x43 } else { 0x40 };
    Prefix(tag, &(params.as_slice(), ResultList(answer))).encode(sink)
}

/// Appends a tag, which says whether the item is imported or exported, then a name and the item's
/// type.
fn encode_extern<A: Allocator, B: Allocator>(
    tag: u8,
    name: &NameTree<A>,
    ty: ComponentTypeRef,
    sink: &mut Vec<u8, B>,
) -> Result<(), Fault>
    ensures appended { let item = tag ▸
        (extern_name (name_tree_view name.now) ⨾ type_reference ty) in
        Appends item.text item.Cause ⊥ sink.old.items sink.new.items result }
    ensures fits { OnOk result
        (tag ▸ (extern_name (name_tree_view name.now) ⨾ type_reference ty)).Fits }
{
    Prefix(tag, &(name.as_name(), ty)).encode(sink)
}
