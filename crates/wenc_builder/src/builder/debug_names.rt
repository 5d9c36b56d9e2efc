//! The subsections of debug names.
ghost use Rattle.std.specs.Prelude.{◌≡◌, ◌++◌, ℕ, List, map, OnOk, OnErr, IfErr};
ghost use Rattle.wenc_base.specs.Prelude.{Written, IsWarranted, member_cause, each};
ghost use Rattle.wenc_builder.specs.Prelude.{space_names, none_named};

use super::spaces::SPACES;
use std::alloc::{Allocator, Global};
use wenc_base::{Encode, Fault, NameMap};
use wenc_sections::{NamesOf, Space};

/// The subsection with the names in one space; nothing if there are none.
#[derive(Clone, Copy)]
pub struct SpaceNames<'a, A: Allocator = Global>(pub Space, pub &'a NameMap<A>);

impl<'a, A: Allocator> Encode for SpaceNames<'a, A> {
    ghost piece = { λ n. space_names (n.0, n.1.now) };

    fn encode<B: Allocator>(&self, sink: &mut Vec<u8, B>) -> Result<(), Fault> {
        if self.1.is_empty() {
            return Ok(());
        }
        NamesOf(self.0, self.1).encode(sink)
    }
}

/// The subsections of all spaces, in order.
#[derive(Clone, Copy)]
pub struct Subsections<'a, A: Allocator = Global>(pub [SpaceNames<'a, A>; SPACES]);

impl<'a, A: Allocator> Encode for Subsections<'a, A> {
    ghost piece = { λ s. each (λ n. space_names (n.0, n.1.now)) s.0 };

    fn encode<B: Allocator>(&self, sink: &mut Vec<u8, B>) -> Result<(), Fault> {
        let start = sink.len();
        match encode_each(&self.0, sink) {
            Ok(()) => Ok(()),
            Err(fault) => {
                sink.truncate(start);
                Err(fault)
            }
        }
    }
}

/// Appends each subsection, up to the first that fails.
fn encode_each<A: Allocator, B: Allocator>(
    names: &[SpaceNames<'_, A>],
    sink: &mut Vec<u8, B>,
) -> Result<(), Fault>
    ensures ok { OnOk result
        (Written (λ n. space_names (n.0, n.1.now)) sink.old.items names.now sink.new.items) }
    ensures err { OnErr result ((more : List ℕ) × (sink.new.items ≡ sink.old.items ++ more)) }
    ensures warranted { IfErr result (IsWarranted
        (member_cause (λ n. (space_names (n.0, n.1.now)).Cause) names.now)) }
{
    for one in names {
        one.encode(sink)?;
    }
    Ok(())
}

impl<'a, A: Allocator> Subsections<'a, A> {
    /// Returns whether no space has a name.
    pub fn is_empty(&self) -> bool
        ensures { result ≡ none_named (map (λ n. (n.0, n.1.now)) self.now.0) }
    {
        are_empty(&self.0)
    }
}

/// Returns whether none of these has a name.
fn are_empty<A: Allocator>(names: &[SpaceNames<'_, A>]) -> bool
    ensures { result ≡ none_named (map (λ n. (n.0, n.1.now)) names.now) }
{
    for one in names {
        if !one.1.is_empty() {
            return false;
        }
    }
    true
}
