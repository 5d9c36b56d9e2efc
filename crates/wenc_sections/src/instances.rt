//! The sections of core instances and of component instances.
ghost use Rattle.std.specs.Prelude.{map};
ghost use Rattle.std.specs.Iterator.{IsFinite};
ghost use Rattle.wenc_base.specs.Prelude.{AddsListed, HasForm};
ghost use Rattle.wenc_parts.specs.Prelude.{extern_name_view};
ghost use Rattle.wenc_sections.specs.Prelude.{CoreInstantiate, CoreExports, core_instance};
ghost use Rattle.wenc_sections.specs.Prelude.{Instantiate, Exports, instance, named_pair};
ghost use Rattle.wenc_sections.specs.Prelude.{named_triple};

use crate::counted::{Counted, CountedKind};
use std::alloc::{Allocator, Global};
use wenc_base::{ExportKind, Fault, Named, Prefix};
use wenc_parts::{ComponentExportKind, ComponentExternName, ComponentSectionId, ModuleArg};

/// The tag of a core instance that instantiates a module (component model, binary format,
/// `core:instanceexpr`).
pub const CORE_INSTANTIATE: u8 = 0x00;

/// The tag of a core instance that only exports items (component model, binary format,
/// `core:instanceexpr`).
pub const CORE_EXPORTS: u8 = 0x01;

/// The tag of an instance that instantiates a component (component model, binary format,
/// `instanceexpr`).
pub const INSTANTIATE: u8 = 0x00;

/// The tag of an instance that only exports items (component model, binary format, `instanceexpr`).
pub const EXPORTS: u8 = 0x01;

/// The kind of core instance sections.
pub struct CoreInstances;

impl CountedKind for CoreInstances {
    ghost use Rattle.wenc_sections.specs.Prelude.{ComponentSectionId};

    ghost ID = { ComponentSectionId.CoreInstance };

    const ID: ComponentSectionId = ComponentSectionId::CoreInstance;

    ghost is_item = { HasForm core_instance };
}

/// The section of core instances (component model, binary format, "Core Instance Definitions").
///
/// ```
/// let mut component = Component::new(alloc)?;
/// component.section(&ModuleSection(&Module::new(alloc)?))?;
/// let mut functions = CanonicalFunctionSection::new(alloc);
/// functions.task_cancel()?;
/// component.section(&functions)?;
/// let mut instances = InstanceSection::new(alloc);
/// instances.export_items([("cancel", ExportKind::Func, 0)].into_iter())?;
/// instances.instantiate(0, [("env", ModuleArg::Instance(0))].into_iter())?;
/// component.section(&instances)?;
/// let bytes = component.finish();
/// ```
pub type InstanceSection<A = Global> = Counted<CoreInstances, A>;

impl<A: Allocator> Counted<CoreInstances, A> {
    /// Instantiates the core module with this index, with these named arguments.
    ///
    /// # Errors
    ///
    /// Fails with `TooMany` if the number of instances or arguments would exceed 4294967295, and
    /// with `TooLarge` if the bytes of the section or of a name would.
    pub fn instantiate<S: Named + Drop, I: Iterator<Item = (S, ModuleArg)> + Drop>(
        &mut self,
        module_index: u32,
        args: I,
    ) -> Result<(), Fault>
        requires can { I.can_next args }
        requires ends { IsFinite (I.remaining args) }
        ensures { AddsListed I.next_gives args
            (λ vs. core_instance (CoreInstantiate module_index (map (named_pair S.named) vs)))
            self.old self.new result }
    {
        let lead = Prefix(CORE_INSTANTIATE, &module_index);
        self.items.add_listed(&lead, args, &())
    }

    /// Adds a core instance that exports these items: the name of each, its kind, and its
    /// index.
    ///
    /// # Errors
    ///
    /// Fails as `instantiate` does, for exports instead of arguments.
    pub fn export_items<S: Named + Drop, I: Iterator<Item = (S, ExportKind, u32)> + Drop>(
        &mut self,
        exports: I,
    ) -> Result<(), Fault>
        requires can { I.can_next exports }
        requires ends { IsFinite (I.remaining exports) }
        ensures { AddsListed I.next_gives exports
            (λ vs. core_instance (CoreExports (map (named_triple S.named) vs)))
            self.old self.new result }
    {
        let lead = Prefix(CORE_EXPORTS, &());
        self.items.add_listed(&lead, exports, &())
    }
}

/// The kind of component instance sections.
pub struct Instances;

impl CountedKind for Instances {
    ghost use Rattle.wenc_sections.specs.Prelude.{ComponentSectionId};

    ghost ID = { ComponentSectionId.Instance };

    const ID: ComponentSectionId = ComponentSectionId::Instance;

    ghost is_item = { HasForm instance };
}

/// The section of component instances (component model, binary format, "Instance Definitions").
///
/// ```
/// let mut component = Component::new(alloc)?;
/// let mut imports = ComponentImportSection::new(alloc);
/// imports.import("file".into(), ComponentTypeRef::Type(TypeBounds::SubResource))?;
/// component.section(&imports)?;
/// component.section(&NestedComponentSection(&Component::new(alloc)?))?;
/// let mut instances = ComponentInstanceSection::new(alloc);
/// let name: ComponentExternName = "file".into();
/// instances.export_items([(name, ComponentExportKind::Type, 0)].into_iter())?;
/// let files = ("files", ComponentExportKind::Instance, 0);
/// instances.instantiate(0, [files].into_iter())?;
/// component.section(&instances)?;
/// let bytes = component.finish();
/// ```
pub type ComponentInstanceSection<A = Global> = Counted<Instances, A>;

impl<A: Allocator> Counted<Instances, A> {
    /// Instantiates the component with this index, with these arguments: the name of each, its
    /// kind, and its index.
    ///
    /// # Errors
    ///
    /// Fails with `TooMany` if the number of instances or arguments would exceed 4294967295, and
    /// with `TooLarge` if the bytes of the section or of a name would.
    pub fn instantiate<S: Named + Drop, I: Iterator<Item = (S, ComponentExportKind, u32)> + Drop>(
        &mut self,
        component_index: u32,
        args: I,
    ) -> Result<(), Fault>
        requires can { I.can_next args }
        requires ends { IsFinite (I.remaining args) }
        ensures { AddsListed I.next_gives args
            (λ vs. instance (Instantiate component_index (map (named_triple S.named) vs)))
            self.old self.new result }
    {
        let lead = Prefix(INSTANTIATE, &component_index);
        self.items.add_listed(&lead, args, &())
    }

    /// Adds an instance that exports these items: the name of each, its kind, and its index.
    ///
    /// # Errors
    ///
    /// Fails as `instantiate` does, for exports instead of arguments.
    pub fn export_items<
        'a,
        N: Allocator + Drop,
        I: Iterator<Item = (ComponentExternName<'a, N>, ComponentExportKind, u32)> + Drop,
    >(&mut self, exports: I) -> Result<(), Fault>
        requires can { I.can_next exports }
        requires ends { IsFinite (I.remaining exports) }
        ensures { AddsListed I.next_gives exports
            (λ vs. instance (Exports (map (named_triple extern_name_view) vs)))
            self.old self.new result }
    {
        let lead = Prefix(EXPORTS, &());
        self.items.add_listed(&lead, exports, &())
    }
}
