//! Methods that add items given as trees.
ghost use Rattle.std.specs.Option.{option_copied};
ghost use Rattle.wenc_builder.specs.Prelude.{Enters, core_instance_entry, instance_entry};
ghost use Rattle.wenc_builder.specs.Prelude.{canonical_tree_entry};
ghost use Rattle.wenc_sections.specs.Prelude.{canon_view, core_instance_tree_view};
ghost use Rattle.wenc_sections.specs.Prelude.{instance_tree_view};

use super::ComponentBuilder;
use super::kind::Kind;
use std::alloc::Allocator;
use wenc_base::Fault;
use wenc_canon::AddsSlot;
use wenc_sections::{CanonTree, CoreInstanceTree, InstanceTree, Space};

/// Items given as trees, for commands: each method adds one with an optional debug name, and
/// returns its index. Each fails as documented on `ComponentBuilder`.
impl<A: Allocator> ComponentBuilder<A> {
    /// Adds a core instance: an instance of a core module, or inline exports of core items
    /// (component model, binary format, "Instance Definitions").
    pub fn core_instance_tree<B: Allocator>(
        &mut self,
        debug_name: Option<&str>,
        instance: &CoreInstanceTree<B>,
    ) -> Result<u32, Fault>
        ensures { Enters self.old self.new result (core_instance_entry
            (option_copied debug_name.entry) (core_instance_tree_view instance.now)) }
    {
        self.add(
            Kind::CoreInstance,
            Space::CoreInstances,
            debug_name,
            instance,
        )
    }

    /// Adds an instance: an instance of a component, or inline exports of items (component model,
    /// binary format, "Instance Definitions").
    pub fn instance_tree<B: Allocator>(
        &mut self,
        debug_name: Option<&str>,
        instance: &InstanceTree<B>,
    ) -> Result<u32, Fault>
        ensures { Enters self.old self.new result (instance_entry
            (option_copied debug_name.entry) (instance_tree_view instance.now)) }
    {
        self.add(Kind::Instance, Space::Instances, debug_name, instance)
    }

    /// Adds a canonical function (component model, binary format, "Canonical Definitions"). A
    /// lifted or lowered function has the debug name `debug_name`, if any; a built-in one has its
    /// own name, whatever `debug_name` is.
    pub fn canonical_tree<B: Allocator>(
        &mut self,
        debug_name: Option<&str>,
        function: &CanonTree<B>,
    ) -> Result<u32, Fault>
    where
        A: Clone,
        ensures { Enters self.old self.new result (canonical_tree_entry
            (option_copied debug_name.entry) (canon_view function.now)) }
    {
        match function {
            CanonTree::Lift { .. } => self.add_canonical(Space::Funcs, debug_name, function),
            CanonTree::Lower { .. } => self.add_canonical(Space::CoreFuncs, debug_name, function),
            CanonTree::ContextGet { ty, slot } => self.context_get(*ty, *slot),
            CanonTree::ContextSet { ty, slot } => self.context_set(*ty, *slot),
            _ => self.add_canonical(Space::CoreFuncs, Some(function.name()), function),
        }
    }
}
