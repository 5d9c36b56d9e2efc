//! Types and sections of another crate, unknown to the crates below.
ghost use Rattle.std.specs.Prelude.{◌≡◌, ◌++◌, OnOk, true};
ghost use Rattle.proved_parts.specs.Prelude.{light, read_light, light_lawful, light_written};
ghost use Rattle.proved_parts.specs.Prelude.{Light as Light', light_alike};
ghost use Rattle.wenc_base.specs.Prelude.{list, option, ◌⨾◌, nothing, refused_for, verbatim};
ghost use Rattle.wenc_base.specs.declared.fault.Fault.TheVariants.{TooLarge, Unfinished};

use std::alloc::Allocator;
use wenc_base::{Delimited, DelimitedEq, Encode, Fault, Section};
use wenc_parts::ComponentSection;

/// A type with a byte for each value.
#[derive(Clone, Copy, Debug, PartialEq, Eq)]
pub enum Light {
    Red,
    Green,
}

impl Encode for Light {
    ghost piece = { light };

    fn encode<A: Allocator>(&self, sink: &mut Vec<u8, A>) -> Result<(), Fault> {
        let byte = match self {
            Light::Red => 0x72,
            Light::Green => 0x67,
        };
        sink.push(byte)?;
        Ok(())
    }
}

impl Delimited for Light {
    ghost reads_back = { record {
      Seen = Light';
      seen = λ l. l;
      form = light;
      readable = ((λ fuel. read_light), light_lawful);
    } };

    ghost written = { light_written };
}

impl DelimitedEq for Light {
    ghost alike = { light_alike _ };
}

/// Appends a list of values, and then an optional one.
pub fn write_all<T: Delimited + Drop, A: Allocator>(
    values: &[T],
    last: Option<T>,
    sink: &mut Vec<u8, A>,
) -> Result<(), Fault>
    ensures items { OnOk result
        (sink.new.items ≡
        sink.old.items ++ (list T.piece values.now ⨾ option T.piece last).text) }
    ensures fits { OnOk result (list T.piece values.now ⨾ option T.piece last).Fits }
{
    (values, last).encode(sink)
}

/// A section with these bytes as its content.
#[derive(Clone, Copy)]
pub struct Own<'a>(pub &'a [u8]);

impl<'a> Encode for Own<'a> {
    ghost piece = { λ s. verbatim s.0.now };

    fn encode<A: Allocator>(&self, sink: &mut Vec<u8, A>) -> Result<(), Fault> {
        sink.extend_from_slice(self.0)?;
        Ok(())
    }
}

impl<'a> Section for Own<'a> {
    ghost section_id = { λ _. 98 };

    fn id(&self) -> u8 {
        98
    }
}

impl<'a> ComponentSection for Own<'a> {
    ghost section_id = { λ _. 99 };

    fn id(&self) -> u8 {
        99
    }
}

/// A section that is always too large.
#[derive(Clone, Copy)]
pub struct Large;

impl Encode for Large {
    ghost piece = { λ _. refused_for (λ fault. fault ≡ TooLarge) nothing };

    fn encode<A: Allocator>(&self, _sink: &mut Vec<u8, A>) -> Result<(), Fault> {
        Err(Fault::TooLarge)
    }
}

impl Section for Large {
    ghost section_id = { λ _. 96 };

    fn id(&self) -> u8 {
        96
    }
}

impl ComponentSection for Large {
    ghost section_id = { λ _. 97 };

    fn id(&self) -> u8 {
        97
    }
}

/// An item that was begun, and may not have been ended.
#[derive(Clone, Copy)]
pub struct Item {
    pub is_open: bool,
}

impl Encode for Item {
    ghost piece = { λ item.
        refused_for (λ fault. (item.is_open ≡ true) × (fault ≡ Unfinished)) nothing };

    ghost unfinished = { λ item. item.is_open ≡ true };

    fn encode<A: Allocator>(&self, _sink: &mut Vec<u8, A>) -> Result<(), Fault> {
        if self.is_open {
            return Err(Fault::Unfinished);
        }
        Ok(())
    }
}

impl ComponentSection for Item {
    ghost section_id = { λ _. 95 };

    fn id(&self) -> u8 {
        95
    }
}
