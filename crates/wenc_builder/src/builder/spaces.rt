//! The index spaces of a component.
ghost use Rattle.std.specs.Prelude.{◌≡◌, ◌<◌, length, map, OnOk, OnErr, IfOk, IfErr};
ghost use Rattle.std.specs.Option.{option_copied};
ghost use Rattle.wenc_base.specs.Prelude.{IsMemory, IsWarranted, NoCause};
ghost use Rattle.wenc_builder.specs.Prelude.{namespace_at, SpaceCause, by_space, names_held};
ghost use Rattle.wenc_builder.specs.Prelude.{empty_spaces, namespace_with};
ghost use Rattle.wenc_builder.specs.Prelude.{spaces_with, some_in, undo_at, IsOf, undone};

use super::debug_names::{SpaceNames, Subsections};
use super::namespace::Namespace;
use std::alloc::{Allocator, Global};
use std::marker::Model;
use wenc_base::{Fault, NameMap};
use wenc_sections::Space;

/// The number of spaces.
pub const SPACES: usize = 13;

/// The state of a space before an item took an index in it.
#[derive(Clone, Copy)]
pub struct Undo {
    /// The space.
    pub space: Space,
    /// The number of its items.
    pub count: u32,
    /// The number of items with a name.
    pub named: u32,
    /// The number of bytes of those names.
    pub len: usize,
}

/// All index spaces.
#[derive(Drop)]
pub struct Spaces<A: Allocator = Global> {
    spaces: Vec<Namespace<A>, A>,
}

impl<A: Allocator> Model for Spaces<A> {
    ghost use Rattle.std.specs.Prelude.{◌≡◌, List, length};
    ghost use Rattle.wenc_builder.specs.Prelude.{Namespace};

    ghost Value = { List Namespace };

    ghost view = { λ s. s.spaces.items };

    ghost invariant = { λ s. length s.spaces.items ≡ 13 };
}

impl<A: Allocator> Spaces<A> {
    /// Creates spaces without items. Fails only if an allocation fails (`Memory`).
    pub fn new(alloc: A) -> Result<Self, Fault>
    where
        A: Copy,
        ensures ok { IfOk result (λ s. s ≡ empty_spaces) }
        ensures refused { IfErr result IsMemory }
    {
        let mut spaces = Vec::with_capacity(alloc, SPACES)?;
        for _ in 0..SPACES {
            spaces.push(Namespace::new(alloc))?;
        }
        Ok(Spaces { spaces })
    }

    /// Returns the allocator of the spaces' names.
    pub(super) fn allocator(&self) -> &A {
        self.spaces.allocator()
    }

    /// Returns the number of items in a space.
    pub fn count(&self, space: Space) -> u32
        ensures { result ≡ (namespace_at self.now space).count }
    {
        self.spaces[space.number()].count()
    }

    /// Returns the names in a space.
    pub fn names(&self, space: Space) -> &NameMap<A>
        ensures { result.now ≡ names_held (namespace_at self.now space) }
    {
        self.spaces[space.number()].names()
    }

    /// Returns the names in all spaces, in the order of a name section.
    pub fn sorted_names(&self) -> Subsections<'_, A>
        ensures { map (λ n. (n.0, n.1.now)) result.0
            ≡ by_space (λ k. names_held (namespace_at self.now k)) }
    {
        Subsections([
            SpaceNames(Space::CoreFuncs, self.names(Space::CoreFuncs)),
            SpaceNames(Space::CoreTables, self.names(Space::CoreTables)),
            SpaceNames(Space::CoreMemories, self.names(Space::CoreMemories)),
            SpaceNames(Space::CoreGlobals, self.names(Space::CoreGlobals)),
            SpaceNames(Space::CoreTags, self.names(Space::CoreTags)),
            SpaceNames(Space::CoreTypes, self.names(Space::CoreTypes)),
            SpaceNames(Space::CoreModules, self.names(Space::CoreModules)),
            SpaceNames(Space::CoreInstances, self.names(Space::CoreInstances)),
            SpaceNames(Space::Instances, self.names(Space::Instances)),
            SpaceNames(Space::Funcs, self.names(Space::Funcs)),
            SpaceNames(Space::Types, self.names(Space::Types)),
            SpaceNames(Space::Components, self.names(Space::Components)),
            SpaceNames(Space::Values, self.names(Space::Values)),
        ])
    }

    /// Takes `number` indices in a space, the first of them with an optional name, and returns the
    /// first. A failed call changes nothing.
    #[inline(always)]
    pub fn add(&mut self, space: Space, number: u32, name: Option<&str>) -> Result<u32, Fault>
        ensures index { IfOk result (λ i. i ≡ (namespace_at self.old space).count) }
        ensures ok { OnOk result (self.new
            ≡ spaces_with self.old (some_in space number) (option_copied name.entry)) }
        ensures free { OnOk result (NoCause (SpaceCause (namespace_with
            (namespace_at self.old space) number (option_copied name.entry)))) }
        ensures err { OnErr result (self.new ≡ self.old) }
        ensures warranted { IfErr result (IsWarranted (SpaceCause (namespace_with
            (namespace_at self.old space) number (option_copied name.entry)))) }
        ensures all { length self.old ≡ 13 }
    {
        let one = &mut self.spaces[space.number()];
        let index = one.count();
        if let Err(fault) = one.add(number, name) {
            return Err(fault);
        }
        Ok(index)
    }

    /// Returns the state of a space, to which `go_back` can return.
    pub fn state(&self, space: Space) -> Undo
        ensures { result ≡ undo_at space (namespace_at self.now space) }
    {
        let one = &self.spaces[space.number()];
        Undo {
            space,
            count: one.count(),
            named: one.names().len(),
            len: one.names_len(),
        }
    }

    /// Restores a space to an earlier state. Allocates nothing.
    pub fn go_back(&mut self, undo: Undo)
        requires { IsOf self.old undo }
        ensures { self.new ≡ undone self.old undo }
    {
        self.spaces[undo.space.number()].cut_back(undo.count, undo.named, undo.len);
    }
}
