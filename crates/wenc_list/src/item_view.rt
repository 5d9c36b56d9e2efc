//! Items that borrow from the component that they are read from.
ghost use Rattle.std.specs.Prelude.{◌≡◌};
ghost use Rattle.wenc_builder.specs.Prelude.{canonical_space, indices_in, defines};
ghost use Rattle.wenc_list.specs.Prelude.{item_seen};
ghost use Rattle.wenc_view.specs.Prelude.{canon_seen};

use wenc_builder::Space;
use wenc_parts::{Alias, ComponentExportKind, ComponentTypeRef};
use wenc_view::{
    CanonView, CoreInstanceView, CoreTypeView, InstanceView, ListOf, NameView, TypeView,
};

/// An item of a component, which borrows from the component (component model, binary format,
/// "Component Definitions"). Its indices may be out of range.
#[derive(Clone, Copy)]
pub enum ItemView<'a> {
    /// A core module, as its bytes, which aren't read.
    Module(&'a [u8]),
    /// A core instance: an instance of a core module, or inline exports of core items.
    CoreInstance(CoreInstanceView<'a>),
    /// A core type.
    CoreType(CoreTypeView<'a>),
    /// A nested component, as its bytes, which aren't read.
    Component(&'a [u8]),
    /// An instance: an instance of a component, or inline exports of items.
    Instance(InstanceView<'a>),
    /// An alias.
    Alias(Alias<'a>),
    /// A type.
    Type(TypeView<'a>),
    /// A canonical function.
    Canon(CanonView<'a>),
    /// A start function, called at instantiation.
    Start {
        /// The index of the function.
        function: u32,
        /// The indices of the values that are its arguments.
        args: ListOf<'a, u32>,
        /// The number of its results.
        results: u32,
    },
    /// An import.
    Import {
        /// Its name.
        name: NameView<'a>,
        /// The type of the imported item.
        ty: ComponentTypeRef,
    },
    /// An export.
    Export {
        /// Its name.
        name: NameView<'a>,
        /// The kind of the exported item.
        kind: ComponentExportKind,
        /// The index of the exported item.
        index: u32,
        /// The ascribed type, if any.
        ty: Option<ComponentTypeRef>,
    },
    /// A custom section.
    Custom {
        /// Its name.
        name: &'a str,
        /// The bytes after its name.
        data: &'a [u8],
    },
}

/// Returns the space of a canonical function: of component functions if it is lifted, otherwise of
/// core functions.
fn canon_space(canon: CanonView<'_>) -> Space
    ensures { result ≡ canonical_space (canon_seen canon.entry) }
{
    match canon {
        CanonView::Lift { .. } => Space::Funcs,
        _ => Space::CoreFuncs,
    }
}

impl<'a> ItemView<'a> {
    ghost use Rattle.std.specs.Prelude.{option_map};

    /// Returns the index space in which the item takes indices, and their number; `None` for a
    /// custom section.
    pub fn indices(&self) -> Option<(Space, u32)>
        ensures { option_map (λ p. indices_in p.0 p.1) result ≡ defines (item_seen self.now) }
    {
        match *self {
            ItemView::Module(_) => Some((Space::CoreModules, 1)),
            ItemView::CoreInstance(_) => Some((Space::CoreInstances, 1)),
            ItemView::CoreType(_) => Some((Space::CoreTypes, 1)),
            ItemView::Component(_) => Some((Space::Components, 1)),
            ItemView::Instance(_) => Some((Space::Instances, 1)),
            ItemView::Alias(alias) => Some((Space::of_alias(&alias), 1)),
            ItemView::Type(_) => Some((Space::Types, 1)),
            ItemView::Canon(canon) => Some((canon_space(canon), 1)),
            ItemView::Start { results, .. } => Some((Space::Values, results)),
            ItemView::Import { ty, .. } => Some((Space::from(ty.kind()), 1)),
            ItemView::Export { kind, .. } => Some((Space::from(kind), 1)),
            ItemView::Custom { .. } => None,
        }
    }
}
