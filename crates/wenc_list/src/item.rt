//! The items of sections: the trees that commands are made from.
ghost use Rattle.std.specs.Prelude.{◌≡◌};
ghost use Rattle.wenc_builder.specs.Prelude.{canonical_space, indices_in, defines};
ghost use Rattle.wenc_list.specs.Prelude.{item_view, item_seen};
ghost use Rattle.wenc_sections.specs.Prelude.{canon_view};

use crate::item_view::ItemView;
use std::alloc::{AllocError, Allocator, Global};
use wenc_builder::Space;
use wenc_decode::TreeOf;
use wenc_parts::{AliasTree, ComponentExportKind, ComponentTypeRef, NameTree};
use wenc_sections::{CanonTree, CoreInstanceTree, InstanceTree};
use wenc_types::{CoreTypeTree, TypeTree};

/// An item of a component, as read (component model, binary format, "Component Definitions"). Its
/// indices may be out of range.
#[derive(Drop)]
pub enum ItemTree<A: Allocator = Global> {
    /// A core module, as its bytes, which aren't read.
    Module(Vec<u8, A>),
    /// A core instance: an instance of a core module, or inline exports of core items.
    CoreInstance(CoreInstanceTree<A>),
    /// A core type, boxed since it is far larger than the others.
    CoreType(Box<CoreTypeTree<A>, A>),
    /// A nested component, as its bytes, which aren't read.
    Component(Vec<u8, A>),
    /// An instance: an instance of a component, or inline exports of items.
    Instance(InstanceTree<A>),
    /// An alias.
    Alias(AliasTree<A>),
    /// A type.
    Type(TypeTree<A>),
    /// A canonical function.
    Canon(CanonTree<A>),
    /// A start function, called at instantiation.
    Start {
        /// The index of the function.
        function: u32,
        /// The indices of the values that are its arguments.
        args: Vec<u32, A>,
        /// The number of its results.
        results: u32,
    },
    /// An import.
    Import {
        /// Its name.
        name: NameTree<A>,
        /// The type of the imported item.
        ty: ComponentTypeRef,
    },
    /// An export.
    Export {
        /// Its name.
        name: NameTree<A>,
        /// The kind of the exported item.
        kind: ComponentExportKind,
        /// The index of the exported item.
        index: u32,
        /// The ascribed type, if any.
        ty: Option<ComponentTypeRef>,
    },
    /// A custom section.
    Custom {
        /// Its name.
        name: String<A>,
        /// The bytes after its name.
        data: Vec<u8, A>,
    },
}

/// Returns the space of a canonical function: of component functions if it is lifted, otherwise of
/// core functions.
fn canon_space<A: Allocator>(canon: &CanonTree<A>) -> Space
    ensures { result ≡ canonical_space (canon_view canon.now) }
{
    match canon {
        CanonTree::Lift { .. } => Space::Funcs,
        _ => Space::CoreFuncs,
    }
}

impl<A: Allocator> ItemTree<A> {
    ghost use Rattle.std.specs.Prelude.{option_map};

    /// Returns the index space in which the item takes indices, and their number; `None` for a
    /// custom section.
    pub fn indices(&self) -> Option<(Space, u32)>
        ensures { option_map (λ p. indices_in p.0 p.1) result ≡ defines (item_view self.now) }
    {
        match self {
            ItemTree::Module(_) => Some((Space::CoreModules, 1)),
            ItemTree::CoreInstance(_) => Some((Space::CoreInstances, 1)),
            ItemTree::CoreType(_) => Some((Space::CoreTypes, 1)),
            ItemTree::Component(_) => Some((Space::Components, 1)),
            ItemTree::Instance(_) => Some((Space::Instances, 1)),
            ItemTree::Alias(alias) => Some((Space::of_alias(&alias.as_alias()), 1)),
            ItemTree::Type(_) => Some((Space::Types, 1)),
            ItemTree::Canon(canon) => Some((canon_space(canon), 1)),
            ItemTree::Start { results, .. } => Some((Space::Values, *results)),
            ItemTree::Import { ty, .. } => Some((Space::from(ty.kind()), 1)),
            ItemTree::Export { kind, .. } => Some((Space::from(*kind), 1)),
            ItemTree::Custom { .. } => None,
        }
    }
}

impl<'a, A: Allocator + Copy> TreeOf<ItemView<'a>, A> for ItemTree<A> {
    ghost is_copy = { λ t v. item_view t ≡ item_seen v };

    #[inline(always)]
    fn tree_of(alloc: A, view: ItemView<'a>) -> Result<ItemTree<A>, AllocError> {
        match view {
            ItemView::Module(bytes) => Ok(ItemTree::Module(Vec::from_slice(alloc, bytes)?)),
            ItemView::CoreInstance(instance) => {
                let instance = CoreInstanceTree::tree_of(alloc, instance)?;
                Ok(ItemTree::CoreInstance(instance))
            }
            ItemView::CoreType(ty) => {
                let ty = CoreTypeTree::tree_of(alloc, ty)?;
                Ok(ItemTree::CoreType(Box::new(alloc, ty)?))
            }
            ItemView::Component(bytes) => Ok(ItemTree::Component(Vec::from_slice(alloc, bytes)?)),
            ItemView::Instance(instance) => {
                let instance = InstanceTree::tree_of(alloc, instance)?;
                Ok(ItemTree::Instance(instance))
            }
            ItemView::Alias(alias) => Ok(ItemTree::Alias(AliasTree::tree_of(alloc, alias)?)),
            ItemView::Type(ty) => Ok(ItemTree::Type(TypeTree::tree_of(alloc, ty)?)),
            ItemView::Canon(canon) => Ok(ItemTree::Canon(CanonTree::tree_of(alloc, canon)?)),
            ItemView::Start {
                function,
                args,
                results,
            } => {
                let args = Vec::tree_of(alloc, args)?;
                Ok(ItemTree::Start {
                    function,
                    args,
                    results,
                })
            }
            ItemView::Import { name, ty } => {
                let name = NameTree::tree_of(alloc, name)?;
                Ok(ItemTree::Import { name, ty })
            }
            ItemView::Export {
                name,
                kind,
                index,
                ty,
            } => {
                let name = NameTree::tree_of(alloc, name)?;
                Ok(ItemTree::Export {
                    name,
                    kind,
                    index,
                    ty,
                })
            }
            ItemView::Custom { name, data } => {
                let name = String::from_str(alloc, name)?;
                let data = Vec::from_slice(alloc, data)?;
                Ok(ItemTree::Custom { name, data })
            }
        }
    }
}
