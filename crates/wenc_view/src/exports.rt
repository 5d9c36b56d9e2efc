//! Sorts of items.
ghost use Rattle.wenc_view.specs.Prelude.{ComponentExportKind as Value'};
ghost use Rattle.wenc_parts.specs.Prelude.{component_export_kind_sound};
ghost use Rattle.wenc_parts.specs.Prelude.{component_export_kind_lawful};
ghost use Rattle.wenc_read.specs.Prelude.{read_by};

use crate::view::View;
use wenc_parts::ComponentExportKind;
use wenc_read::{Expected, Refusal, byte};

impl<'a> View<'a> for ComponentExportKind {
    ghost Value = { Value' };

    ghost view = { λ k. k };

    ghost reading = { read_by component_export_kind_sound component_export_kind_lawful };

    #[tactic(auto, unfolding(wenc_base::specs::Readers::choose))]
    #[inline(always)]
    fn view_of(bytes: &'a [u8]) -> Result<(ComponentExportKind, &'a [u8]), Refusal> {
        match byte(bytes)? {
            (0x00, rest) => match byte(rest)? {
                (0x11, rest) => Ok((ComponentExportKind::Module, rest)),
                _ => Err(Refusal::at(rest, Expected::From(0x11, 0x11))),
            },
            (0x01, rest) => Ok((ComponentExportKind::Func, rest)),
            (0x02, rest) => Ok((ComponentExportKind::Value, rest)),
            (0x03, rest) => Ok((ComponentExportKind::Type, rest)),
            (0x05, rest) => Ok((ComponentExportKind::Instance, rest)),
            (0x04, rest) => Ok((ComponentExportKind::Component, rest)),
            _ => Err(Refusal::at(bytes, Expected::From(0, 5))),
        }
    }
}
