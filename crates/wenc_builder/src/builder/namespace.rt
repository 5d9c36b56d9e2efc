//! An index space: the number of its items, and their debug names.
ghost use Rattle.std.specs.Option.{option_copied};
ghost use Rattle.std.specs.Prelude.{◌≡◌, ◌≤◌, [], length, take, OnOk, OnErr, IfErr};
ghost use Rattle.wenc_base.specs.Prelude.{IsWarranted, holding};
ghost use Rattle.wenc_builder.specs.Prelude.{Fault as FaultSpec, no_names, namespace_with};
ghost use Rattle.wenc_builder.specs.Prelude.{SpaceCause, space_view};

use std::alloc::{Allocator, Global};
use std::marker::Model;
use wenc_base::{Fault, NameMap};

/// An index space: the number of its items, and the names of some.
#[derive(Drop)]
pub struct Namespace<A: Allocator = Global> {
    count: u32,
    names: NameMap<A>,
}

impl<A: Allocator> Model for Namespace<A> {
    ghost use Rattle.wenc_builder.specs.Prelude.{Namespace, NamesFit, space_view};

    ghost Value = { Namespace };

    ghost view = { λ s. space_view s.count s.names.count s.names.body };

    ghost invariant = { λ s. NamesFit s.names };
}

impl<A: Allocator> Namespace<A> {
    /// Creates a space without items.
    #[tactic(auto, using(wenc_base::proofs::Groups::size_1))]
    pub fn new(alloc: A) -> Self
        ensures { result ≡ no_names }
    {
        Namespace {
            count: 0,
            names: NameMap::new(alloc),
        }
    }

    /// Returns the number of items.
    pub fn count(&self) -> u32
        ensures { result ≡ self.now.count }
    {
        self.count
    }

    /// Returns the names.
    pub fn names(&self) -> &NameMap<A>
        ensures { result.now ≡ holding [] self.now.named self.now.names }
    {
        &self.names
    }

    /// Returns the number of bytes that the names take.
    pub fn names_len(&self) -> usize
        ensures { result ≡ length self.now.names }
    {
        self.names.names_len()
    }

    /// Adds `number` items, the first of them with an optional name. A failed call changes nothing.
    #[tactic(auto, using(crate::proofs::Mapped::unnamed_free))]
    #[inline(always)]
    pub fn add(&mut self, number: u32, name: Option<&str>) -> Result<(), Fault>
        ensures ok { OnOk result
            (self.new ≡ namespace_with self.old number (option_copied name.entry)) }
        ensures free { OnOk result ((fault : FaultSpec)
            → SpaceCause (namespace_with self.old number (option_copied name.entry)) fault → ⊥) }
        ensures err { OnErr result (self.new ≡ self.old) }
        ensures warranted { IfErr result (IsWarranted
            (SpaceCause (namespace_with self.old number (option_copied name.entry)))) }
    {
        let Some(count) = self.count.checked_add(number) else {
            return Err(Fault::TooMany);
        };
        match name {
            None => {
                self.count = count;
                Ok(())
            }
            Some(name) => match self.names.append(self.count, name) {
                Ok(()) => {
                    self.count = count;
                    Ok(())
                }
                Err(fault) => Err(fault),
            },
        }
    }

    /// Restores the space to a state in which it had `count` items, `named` names, and `len` bytes
    /// of names. Allocates nothing.
    pub fn cut_back(&mut self, count: u32, named: u32, len: usize)
        requires { (named ≤ self.old.named) × (len ≤ length self.old.names) }
        ensures { self.new ≡ space_view count named (take len self.old.names) }
    {
        self.names.cut_back(named, len);
        self.count = count;
    }
}
