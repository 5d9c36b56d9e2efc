//! Owned copies of instances.
ghost use Rattle.std.specs.Prelude.{◌≡◌};
ghost use Rattle.std.specs.String.{string_bytes};
ghost use Rattle.wenc_parts.specs.Prelude.{name_tree_view};
ghost use Rattle.wenc_sections.specs.Prelude.{named_pair, named_triple, core_instance_tree_view};
ghost use Rattle.wenc_sections.specs.Prelude.{instance_tree_view};
ghost use Rattle.wenc_view.specs.Prelude.{name_seen, core_instance_seen, instance_seen};

use crate::trees::TreeOf;
use std::alloc::{AllocError, Allocator};
use wenc_base::ExportKind;
use wenc_parts::{ComponentExportKind, ModuleArg, NameTree};
use wenc_sections::{CoreInstanceTree, InstanceTree};
use wenc_view::{CoreInstanceView, InstanceView, NameView};

/// A named argument of a core module.
impl<'a, A: Allocator + Copy> TreeOf<(&'a str, ModuleArg), A> for (String<A>, ModuleArg) {
    ghost is_copy = { λ t v. named_pair string_bytes t ≡ named_pair (λ s. s.now) v };

    fn tree_of(alloc: A, view: (&'a str, ModuleArg)) -> Result<(String<A>, ModuleArg), AllocError> {
        let name = String::from_str(alloc, view.0)?;
        Ok((name, view.1))
    }
}

/// A named inline export of a core instance.
impl<'a, A: Allocator + Copy> TreeOf<(&'a str, ExportKind, u32), A>
    for (String<A>, ExportKind, u32) {
    ghost is_copy = { λ t v. named_triple string_bytes t ≡ named_triple (λ s. s.now) v };

    fn tree_of(
        alloc: A,
        view: (&'a str, ExportKind, u32),
    ) -> Result<(String<A>, ExportKind, u32), AllocError> {
        let name = String::from_str(alloc, view.0)?;
        Ok((name, view.1, view.2))
    }
}

impl<'a, A: Allocator + Copy> TreeOf<CoreInstanceView<'a>, A> for CoreInstanceTree<A> {
    ghost is_copy = { λ t v. core_instance_tree_view t ≡ core_instance_seen v };

    fn tree_of(alloc: A, view: CoreInstanceView<'a>) -> Result<CoreInstanceTree<A>, AllocError> {
        match view {
            CoreInstanceView::Instantiate { module, args } => {
                let args = Vec::tree_of(alloc, args)?;
                Ok(CoreInstanceTree::Instantiate { module, args })
            }
            CoreInstanceView::Exports(exports) => {
                let exports = Vec::tree_of(alloc, exports)?;
                Ok(CoreInstanceTree::Exports(exports))
            }
        }
    }
}

/// A named argument of a component.
impl<'a, A: Allocator + Copy> TreeOf<(&'a str, ComponentExportKind, u32), A>
    for (String<A>, ComponentExportKind, u32) {
    ghost is_copy = { λ t v. named_triple string_bytes t ≡ named_triple (λ s. s.now) v };

    fn tree_of(
        alloc: A,
        view: (&'a str, ComponentExportKind, u32),
    ) -> Result<(String<A>, ComponentExportKind, u32), AllocError> {
        let name = String::from_str(alloc, view.0)?;
        Ok((name, view.1, view.2))
    }
}

/// A named inline export of an instance.
impl<'a, A: Allocator + Copy> TreeOf<(NameView<'a>, ComponentExportKind, u32), A>
    for (NameTree<A>, ComponentExportKind, u32) {
    ghost is_copy = { λ t v. named_triple name_tree_view t ≡ named_triple name_seen v };

    fn tree_of(
        alloc: A,
        view: (NameView<'a>, ComponentExportKind, u32),
    ) -> Result<(NameTree<A>, ComponentExportKind, u32), AllocError> {
        let name = NameTree::tree_of(alloc, view.0)?;
        Ok((name, view.1, view.2))
    }
}

impl<'a, A: Allocator + Copy> TreeOf<InstanceView<'a>, A> for InstanceTree<A> {
    ghost is_copy = { λ t v. instance_tree_view t ≡ instance_seen v };

    fn tree_of(alloc: A, view: InstanceView<'a>) -> Result<InstanceTree<A>, AllocError> {
        match view {
            InstanceView::Instantiate { component, args } => {
                let args = Vec::tree_of(alloc, args)?;
                Ok(InstanceTree::Instantiate { component, args })
            }
            InstanceView::Exports(exports) => {
                let exports = Vec::tree_of(alloc, exports)?;
                Ok(InstanceTree::Exports(exports))
            }
        }
    }
}
