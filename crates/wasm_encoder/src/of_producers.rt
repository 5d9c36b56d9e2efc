//! Conversion of a producers section to the command that adds it.
ghost use Rattle.std.specs.Prelude.{◌≡◌, List, Err, IfErr, IfOk, false};
ghost use Rattle.wasm_encoder.specs.Prelude.{Add, command_view};
ghost use Rattle.wenc_base.specs.Prelude.{IsWarranted, list, Contains, EncodeCause, held_text};
ghost use Rattle.wenc_base.specs.Prelude.{is_finished, Producers, producers_field, producers_label};
ghost use Rattle.wenc_base.specs.declared.fault.Fault.TheVariants.{Unfinished};
ghost use Rattle.wenc_builder.specs.Prelude.{custom_entry};

use crate::command::Command;
use std::alloc::Allocator;
use wenc_base::{Fault, ProducersSection};

/// Returns the command that adds a producers section, the custom section named `producers`, with
/// these fields as its data (tool conventions, "Producers Section").
///
/// # Errors
///
/// Fails with `Memory` if an allocation fails, and with `Unfinished` if the section is unfinished.
pub fn producers_command<A: Allocator + Copy, B: Allocator>(
    alloc: A,
    producers: &ProducersSection<B>,
) -> Result<Command<A>, Fault>
    ensures fields { (fields : List Producers) → Contains producers_field producers.now fields
        → IfOk result (λ command. command_view command
        ≡ Add (custom_entry producers_label (list producers_field fields).text)) }
    ensures bytes { IfOk result (λ command. command_view command
        ≡ Add (custom_entry producers_label (held_text producers.now))) }
    ensures refused { IfErr result (IsWarranted (EncodeCause producers.now)) }
    ensures unfinished { is_finished producers.now ≡ false → result ≡ Err Unfinished }
{
    let mut data = Vec::new(alloc);
    producers.encode_data(&mut data)?;
    let name = String::from_str(alloc, "producers")?;
    Ok(Command::Custom { name, data })
}
