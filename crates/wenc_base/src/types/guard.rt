//! Core types in a component, some of which are preceded by a byte `00`.
ghost use Rattle.wenc_base.specs.Prelude.{Single, standing, sub_view, rec_type_view};

use super::{GroupTree, SubType};
use crate::encode::{Encode, Prefix};
use crate::fault::Fault;
use std::alloc::Allocator;

/// A type or a group, and whether guards are written.
///
/// With guards, as in a component, a single type that isn't final is preceded by a byte `00`
/// (component model, binary format, "Core Definitions").
#[derive(Clone, Copy)]
pub struct Guarded<'a, T>(pub bool, pub &'a T);

impl<'a, A: Allocator> Encode for Guarded<'a, SubType<A>> {
    ghost piece = { λ g. standing g.0 (Single (sub_view g.1.now)) };

    fn encode<B: Allocator>(&self, sink: &mut Vec<u8, B>) -> Result<(), Fault> {
        if self.0 && !self.1.is_final {
            return Prefix(0x00, self.1).encode(sink);
        }
        self.1.encode(sink)
    }
}

impl<'a, A: Allocator> Encode for Guarded<'a, GroupTree<A>> {
    ghost piece = { λ g. standing g.0 (rec_type_view g.1.now) };

    fn encode<B: Allocator>(&self, sink: &mut Vec<u8, B>) -> Result<(), Fault> {
        match self.1 {
            GroupTree::Sub(ty) => Guarded(self.0, ty).encode(sink),
            GroupTree::Rec(_) => self.1.encode(sink),
        }
    }
}
