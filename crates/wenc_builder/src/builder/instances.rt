//! Methods that add instances.
ghost use Rattle.std.specs.Iterator.{IsFinite};
ghost use Rattle.std.specs.Option.{option_copied};
ghost use Rattle.std.specs.Prelude.{map};
ghost use Rattle.wenc_builder.specs.Prelude.{EntersListed, core_instance_entry, instance_entry};
ghost use Rattle.wenc_parts.specs.Prelude.{extern_name_view};
ghost use Rattle.wenc_sections.specs.Prelude.{CoreInstantiate, CoreExports, named_pair};
ghost use Rattle.wenc_sections.specs.Prelude.{Instantiate, Exports, named_triple};

use super::ComponentBuilder;
use super::kind::Kind;
use std::alloc::Allocator;
use wenc_base::{ExportKind, Fault, Named, Prefix};
use wenc_parts::{ComponentExportKind, ComponentExternName, ModuleArg};
use wenc_sections::Space;
use wenc_sections::instances::{CORE_EXPORTS, CORE_INSTANTIATE, EXPORTS, INSTANTIATE};

/// Instances of core modules and of components: each method adds one with an optional debug name,
/// and returns its index (component model, binary format, "Instance Definitions"). The items of an
/// iterator are written in its order. Each fails as documented on `ComponentBuilder`.
impl<A: Allocator> ComponentBuilder<A> {
    /// Instantiates the core module with this index, with these named arguments.
    pub fn core_instantiate<'a, I: Iterator<Item = (&'a str, ModuleArg)> + Drop>(
        &mut self,
        debug_name: Option<&str>,
        module_index: u32,
        args: I,
    ) -> Result<u32, Fault>
        requires can { I.can_next args }
        requires ends { IsFinite (I.remaining args) }
        ensures { EntersListed I.next_gives args self.old self.new result
            (λ items. core_instance_entry (option_copied debug_name.entry)
            (CoreInstantiate module_index (map (named_pair (λ s. s.now)) items))) }
    {
        let lead = Prefix(CORE_INSTANTIATE, &module_index);
        self.add_listed(
            Kind::CoreInstance,
            Space::CoreInstances,
            debug_name,
            &lead,
            args,
            &(),
        )
    }

    /// Adds a core instance that exports core items, each by its name, its kind and its index.
    pub fn core_instantiate_exports<'a, I: Iterator<Item = (&'a str, ExportKind, u32)> + Drop>(
        &mut self,
        debug_name: Option<&str>,
        exports: I,
    ) -> Result<u32, Fault>
        requires can { I.can_next exports }
        requires ends { IsFinite (I.remaining exports) }
        ensures { EntersListed I.next_gives exports self.old self.new result
            (λ items. core_instance_entry (option_copied debug_name.entry)
            (CoreExports (map (named_triple (λ s. s.now)) items))) }
    {
        let lead = Prefix(CORE_EXPORTS, &());
        self.add_listed(
            Kind::CoreInstance,
            Space::CoreInstances,
            debug_name,
            &lead,
            exports,
            &(),
        )
    }

    /// Instantiates the component with this index, with these arguments, each by its name, its kind
    /// and its index.
    pub fn instantiate<S: Named + Drop, I: Iterator<Item = (S, ComponentExportKind, u32)> + Drop>(
        &mut self,
        debug_name: Option<&str>,
        component_index: u32,
        args: I,
    ) -> Result<u32, Fault>
        requires can { I.can_next args }
        requires ends { IsFinite (I.remaining args) }
        ensures { EntersListed I.next_gives args self.old self.new result
            (λ items. instance_entry (option_copied debug_name.entry)
            (Instantiate component_index (map (named_triple S.named) items))) }
    {
        let lead = Prefix(INSTANTIATE, &component_index);
        self.add_listed(
            Kind::Instance,
            Space::Instances,
            debug_name,
            &lead,
            args,
            &(),
        )
    }

    /// Adds an instance that exports items, each by its name, its kind and its index.
    pub fn instantiate_exports<
        'a,
        N: Allocator + Drop,
        I: Iterator<Item = (ComponentExternName<'a, N>, ComponentExportKind, u32)> + Drop,
    >(&mut self, debug_name: Option<&str>, exports: I) -> Result<u32, Fault>
        requires can { I.can_next exports }
        requires ends { IsFinite (I.remaining exports) }
        ensures { EntersListed I.next_gives exports self.old self.new result
            (λ items. instance_entry (option_copied debug_name.entry)
            (Exports (map (named_triple extern_name_view) items))) }
    {
        let lead = Prefix(EXPORTS, &());
        self.add_listed(
            Kind::Instance,
            Space::Instances,
            debug_name,
            &lead,
            exports,
            &(),
        )
    }
}
