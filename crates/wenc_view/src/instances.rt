//! Instances of core modules and of components, by arguments or by inline exports.
ghost use Rattle.std.specs.Prelude.{ℕ, List};
ghost use Rattle.wenc_base.specs.Prelude.{name_sound, name_lawful, core_export_kind_sound};
ghost use Rattle.wenc_base.specs.Prelude.{core_export_kind_lawful, u32_sound, u32_lawful};
ghost use Rattle.wenc_view.specs.Prelude.{ModuleArg as Value', core_instance_seen, instance_seen};
ghost use Rattle.wenc_view.specs.Prelude.{name_seen, core_instance_lists, instance_lists};
ghost use Rattle.wenc_parts.specs.Prelude.{module_argument_sound, module_argument_lawful};
ghost use Rattle.wenc_parts.specs.Prelude.{component_export_kind_sound};
ghost use Rattle.wenc_parts.specs.Prelude.{component_export_kind_lawful, ExternName};
ghost use Rattle.wenc_parts.specs.Prelude.{extern_name_sound, extern_name_lawful};
ghost use Rattle.wenc_read.specs.Prelude.{read_by};
ghost use Rattle.wenc_sections.specs.Prelude.{named_pair, named_triple, pair_sound, pair_lawful};
ghost use Rattle.wenc_sections.specs.Prelude.{triple_sound, triple_lawful, CoreInstance};
ghost use Rattle.wenc_sections.specs.Prelude.{core_instance_sound, core_instance_lawful};
ghost use Rattle.wenc_sections.specs.Prelude.{instance_sound, instance_lawful};

use crate::extern_names::NameView;
use crate::list_of::ListOf;
use crate::view::{View, text_of};
use wenc_base::ExportKind;
use wenc_parts::{ComponentExportKind, ModuleArg};
use wenc_read::{Expected, Refusal, byte};

/// A core instance, in place.
#[derive(Clone, Copy)]
pub enum CoreInstanceView<'a> {
    /// Instantiates a core module with these arguments.
    Instantiate {
        /// The index of the module.
        module: u32,
        /// The arguments, in order.
        args: ListOf<'a, (&'a str, ModuleArg)>,
    },
    /// Groups core items.
    Exports(ListOf<'a, (&'a str, ExportKind, u32)>),
}

/// An instance, in place.
#[derive(Clone, Copy)]
pub enum InstanceView<'a> {
    /// Instantiates a component with these arguments.
    Instantiate {
        /// The index of the component.
        component: u32,
        /// The arguments, in order.
        args: ListOf<'a, (&'a str, ComponentExportKind, u32)>,
    },
    /// Groups items.
    Exports(ListOf<'a, (NameView<'a>, ComponentExportKind, u32)>),
}

impl<'a> View<'a> for ModuleArg {
    ghost Value = { Value' };

    ghost view = { λ a. a };

    ghost reading = { read_by module_argument_sound module_argument_lawful };

    #[tactic(auto, unfolding(wenc_base::specs::Readers::choose))]
    #[inline(always)]
    fn view_of(bytes: &'a [u8]) -> Result<(ModuleArg, &'a [u8]), Refusal> {
        match byte(bytes)? {
            (0x12, rest) => {
                let (instance, rest) = u32::view_of(rest)?;
                Ok((ModuleArg::Instance(instance), rest))
            }
            _ => Err(Refusal::at(bytes, Expected::From(0x12, 0x12))),
        }
    }
}

/// A named argument of a core module.
impl<'a> View<'a> for (&'a str, ModuleArg) {
    ghost Value = { List ℕ × Value' };

    ghost view = { named_pair (λ s. s.now) };

    ghost reading = { read_by (pair_sound name_sound module_argument_sound) (pair_lawful name_lawful module_argument_lawful) };

    fn view_of(bytes: &'a [u8]) -> Result<((&'a str, ModuleArg), &'a [u8]), Refusal> {
        let (name, rest) = text_of(bytes)?;
        let (value, rest) = ModuleArg::view_of(rest)?;
        Ok(((name, value), rest))
    }
}

/// A named inline export of a core instance.
impl<'a> View<'a> for (&'a str, ExportKind, u32) {
    ghost use Rattle.wenc_view.specs.Prelude.{ExportKind as Kind};

    ghost Value = { List ℕ × Kind × ℕ };

    ghost view = { named_triple (λ s. s.now) };

    ghost reading = { read_by (triple_sound name_sound core_export_kind_sound u32_sound) (triple_lawful name_lawful core_export_kind_lawful u32_lawful) };

    #[inline(always)]
    fn view_of(bytes: &'a [u8]) -> Result<((&'a str, ExportKind, u32), &'a [u8]), Refusal> {
        let (name, rest) = text_of(bytes)?;
        let (kind, rest) = ExportKind::view_of(rest)?;
        let (index, rest) = u32::view_of(rest)?;
        Ok(((name, kind, index), rest))
    }
}

impl<'a> View<'a> for CoreInstanceView<'a> {
    ghost Value = { CoreInstance };

    ghost view = { core_instance_seen };

    ghost reading = { read_by core_instance_sound core_instance_lawful };

    ghost lists = { core_instance_lists };

    #[tactic(auto, unfolding(wenc_base::specs::Readers::choose))]
    #[inline(always)]
    fn view_of(bytes: &'a [u8]) -> Result<(CoreInstanceView<'a>, &'a [u8]), Refusal> {
        match byte(bytes)? {
            (0x00, rest) => {
                let (module, rest) = u32::view_of(rest)?;
                let (args, rest) = ListOf::view_of(rest)?;
                Ok((CoreInstanceView::Instantiate { module, args }, rest))
            }
            (0x01, rest) => {
                let (exports, rest) = ListOf::view_of(rest)?;
                Ok((CoreInstanceView::Exports(exports), rest))
            }
            _ => Err(Refusal::at(bytes, Expected::From(0, 1))),
        }
    }
}

/// A named argument of a component.
impl<'a> View<'a> for (&'a str, ComponentExportKind, u32) {
    ghost use Rattle.wenc_view.specs.Prelude.{ComponentExportKind as Kind};

    ghost Value = { List ℕ × Kind × ℕ };

    ghost view = { named_triple (λ s. s.now) };

    ghost reading = { read_by (triple_sound name_sound component_export_kind_sound u32_sound) (triple_lawful name_lawful component_export_kind_lawful u32_lawful) };

    fn view_of(
        bytes: &'a [u8],
    ) -> Result<((&'a str, ComponentExportKind, u32), &'a [u8]), Refusal> {
        let (name, rest) = text_of(bytes)?;
        let (kind, rest) = ComponentExportKind::view_of(rest)?;
        let (index, rest) = u32::view_of(rest)?;
        Ok(((name, kind, index), rest))
    }
}

/// A named inline export of an instance.
impl<'a> View<'a> for (NameView<'a>, ComponentExportKind, u32) {
    ghost use Rattle.wenc_view.specs.Prelude.{ComponentExportKind as Kind};

    ghost Value = { ExternName × Kind × ℕ };

    ghost view = { named_triple name_seen };

    ghost reading = { read_by (triple_sound extern_name_sound component_export_kind_sound u32_sound) (triple_lawful extern_name_lawful component_export_kind_lawful u32_lawful) };

    fn view_of(
        bytes: &'a [u8],
    ) -> Result<((NameView<'a>, ComponentExportKind, u32), &'a [u8]), Refusal> {
        let (name, rest) = NameView::view_of(bytes)?;
        let (kind, rest) = ComponentExportKind::view_of(rest)?;
        let (index, rest) = u32::view_of(rest)?;
        Ok(((name, kind, index), rest))
    }
}

impl<'a> View<'a> for InstanceView<'a> {
    ghost use Rattle.wenc_sections.specs.Prelude.{Instance};

    ghost Value = { Instance };

    ghost view = { instance_seen };

    ghost reading = { read_by instance_sound instance_lawful };

    ghost lists = { instance_lists };

    #[tactic(auto, unfolding(wenc_base::specs::Readers::choose))]
    fn view_of(bytes: &'a [u8]) -> Result<(InstanceView<'a>, &'a [u8]), Refusal> {
        match byte(bytes)? {
            (0x00, rest) => {
                let (component, rest) = u32::view_of(rest)?;
                let (args, rest) = ListOf::view_of(rest)?;
                Ok((InstanceView::Instantiate { component, args }, rest))
            }
            (0x01, rest) => {
                let (exports, rest) = ListOf::view_of(rest)?;
                Ok((InstanceView::Exports(exports), rest))
            }
            _ => Err(Refusal::at(bytes, Expected::From(0, 1))),
        }
    }
}
