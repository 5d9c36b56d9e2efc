//! Methods that add built-in canonical functions.
ghost use Rattle.wenc_builder.specs.Prelude.{Enters, EntersListed, canonical_tree_entry};

use super::ComponentBuilder;
use super::kind::Kind;
use std::alloc::Allocator;
use wenc_base::{Fault, Prefix, ValType};
use wenc_canon::rows::Row;
use wenc_canon::{AddsBuiltin, AddsRow, AddsSlot, AddsSlotRow, CanonicalOption, Fields};
use wenc_sections::Space;

impl<A: Allocator> AddsRow for ComponentBuilder<A> {
    ghost use Rattle.std.specs.Prelude.{None};

    type Answer = u32;

    ghost adds = { λ old new result function.
        Enters old new result (canonical_tree_entry None function) };

    ghost adds_with = { λ steps options old new result function.
        EntersListed steps options old new result
        (λ os. canonical_tree_entry None (function os)) };

    fn add_row<F: Fields>(&mut self, row: Row, fields: &F) -> Result<u32, Fault> {
        self.add(
            Kind::CanonicalFunction,
            Space::CoreFuncs,
            Some(row.0),
            &Prefix(row.1, fields),
        )
    }

    fn add_row_with<F: Fields, I: Iterator<Item = CanonicalOption> + Drop>(
        &mut self,
        row: Row,
        fields: &F,
        options: I,
    ) -> Result<u32, Fault> {
        self.add_listed(
            Kind::CanonicalFunction,
            Space::CoreFuncs,
            Some(row.0),
            &Prefix(row.1, fields),
            options,
            &(),
        )
    }
}

impl<A: Allocator + Clone> AddsSlotRow for ComponentBuilder<A> {
    fn add_slot_row(&mut self, row: Row, ty: ValType, slot: u32) -> Result<u32, Fault> {
        if !self.is_finished() {
            return Err(Fault::Unfinished);
        }
        let alloc = self.spaces.allocator().clone()?;
        let word = row.0;
        let name = format!(in alloc; "{word} {slot}")?;
        self.add(
            Kind::CanonicalFunction,
            Space::CoreFuncs,
            Some(name.as_str()),
            &Prefix(row.1, &(ty, slot)),
        )
    }
}

/// Each method adds the function with its own name as its debug name, and returns its index in the
/// space of core functions.
impl<A: Allocator> AddsBuiltin for ComponentBuilder<A> {}

/// Each method adds the function, and returns its index in the space of core functions. Its debug
/// name is its own name, followed by the slot's number.
impl<A: Allocator + Clone> AddsSlot for ComponentBuilder<A> {}
