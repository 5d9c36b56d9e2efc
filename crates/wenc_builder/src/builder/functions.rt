//! Methods that lift and lower functions.
ghost use Rattle.std.specs.Iterator.{IsFinite};
ghost use Rattle.std.specs.Option.{option_copied};
ghost use Rattle.wenc_builder.specs.Prelude.{EntersListed, canonical_entry};
ghost use Rattle.wenc_canon.specs.Prelude.{Lift, Lower};

use super::ComponentBuilder;
use super::kind::Kind;
use std::alloc::Allocator;
use wenc_base::{Fault, Prefix, Tagged};
use wenc_canon::{CanonicalOption, rows};
use wenc_sections::Space;

/// Lifted and lowered functions: each method adds one with an optional debug name, and returns its
/// index (component model, binary format, "Canonical Definitions"). Options are written in the
/// iterator's order. Each fails as documented on `ComponentBuilder`.
impl<A: Allocator> ComponentBuilder<A> {
    /// Lowers the component function with this index to a core function (`canon lower`).
    pub fn lower_func<I: Iterator<Item = CanonicalOption> + Drop>(
        &mut self,
        debug_name: Option<&str>,
        func_index: u32,
        options: I,
    ) -> Result<u32, Fault>
        requires can { I.can_next options }
        requires ends { IsFinite (I.remaining options) }
        ensures { EntersListed I.next_gives options self.old self.new result
            (λ os. canonical_entry (option_copied debug_name.entry) (Lower func_index os)) }
    {
        // Without options it takes fewer instructions than a second `Prefix`.
        let lead = Tagged(rows::PLAIN, &func_index);
        self.add_listed(
            Kind::CanonicalFunction,
            Space::CoreFuncs,
            debug_name,
            &Prefix(rows::LOWER.1, &lead),
            options,
            &(),
        )
    }

    /// Lifts the core function with this index to a component function of the type with index
    /// `type_index` (`canon lift`).
    pub fn lift_func<I: Iterator<Item = CanonicalOption> + Drop>(
        &mut self,
        debug_name: Option<&str>,
        core_func_index: u32,
        type_index: u32,
        options: I,
    ) -> Result<u32, Fault>
        requires can { I.can_next options }
        requires ends { IsFinite (I.remaining options) }
        ensures { EntersListed I.next_gives options self.old self.new result
            (λ os. canonical_entry (option_copied debug_name.entry)
            (Lift core_func_index os type_index)) }
    {
        // Without options it takes fewer instructions than a second `Prefix`.
        let lead = Tagged(rows::PLAIN, &core_func_index);
        self.add_listed(
            Kind::CanonicalFunction,
            Space::Funcs,
            debug_name,
            &Prefix(rows::LIFT.1, &lead),
            options,
            &type_index,
        )
    }
}
