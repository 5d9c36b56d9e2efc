//! Separate sections: bytes to copy, and what comes before them after the id.
ghost use Rattle.std.specs.Prelude.{◌≡◌, length};
ghost use Rattle.wenc_builder.specs.Prelude.{custom_lead};

use std::alloc::Allocator;
use std::marker::Model;
use wenc_base::{CustomSection, Encode, Fault, Short, section_size};

/// Bytes to be copied: `first`, with `head` in place of the last `gap` of them, then `more`.
#[derive(Drop)]
pub struct SectionBody<'a> {
    pub first: &'a [u8],
    pub gap: usize,
    pub head: Short,
    pub more: &'a [u8],
}

impl<'a> Model for SectionBody<'a> {
    ghost use Rattle.std.specs.Prelude.{List, ℕ, ◌-◌, ◌≤◌, ◌++◌, length, take};

    ghost Value = { List ℕ };

    ghost view = { λ r. take (length r.first.now - r.gap) r.first.now ++ (r.head ++ r.more.now) };

    ghost invariant = { λ r. (r.gap ≤ length r.first.now) × (length r.head ≤ r.gap) };
}

impl<'a> SectionBody<'a> {
    /// Returns these bytes, without a gap.
    pub fn whole(bytes: &'a [u8]) -> SectionBody<'a>
        ensures { result ≡ bytes.now }
    {
        SectionBody {
            first: bytes,
            gap: 0,
            head: Short::new(),
            more: &[],
        }
    }

    /// Returns the number of bytes.
    pub fn len(&self) -> usize
        ensures { result ≡ length self.now }
    {
        // 32 bits: `head` fits the gap, and `first` and `more` have less than 2^31 bytes each.
        self.first.len() - self.gap + self.head.as_slice().len() + self.more.len()
    }
}

/// The number of bytes that follow. Encoding more than 4294967295 fails with `TooLarge`.
#[derive(Clone, Copy)]
pub struct Size(pub usize);

impl Encode for Size {
    ghost use Rattle.wenc_base.specs.Prelude.{size};

    ghost piece = { λ s. size s.0 };

    fn encode<A: Allocator>(&self, sink: &mut Vec<u8, A>) -> Result<(), Fault> {
        match u32::try_from(self.0) {
            Ok(size) => size.encode(sink),
            Err(_) => Err(Fault::TooLarge),
        }
    }
}

/// What precedes the data of a custom section: its size and its name. Encoding it fails with
/// `TooLarge` if the section would have more than 4294967295 bytes.
#[derive(Clone, Copy)]
pub struct CustomLead<'a>(pub &'a CustomSection<'a>);

impl<'a> Encode for CustomLead<'a> {
    ghost piece = { λ l. custom_lead l.0.now.name.now l.0.now.data.now };

    fn encode<A: Allocator>(&self, sink: &mut Vec<u8, A>) -> Result<(), Fault> {
        let CustomSection { name, data } = *self.0;
        let Ok(name_len) = u32::try_from(name.len()) else {
            return Err(Fault::TooLarge);
        };
        let size = section_size(name_len, u64::from(name_len) + data.len() as u64)?;
        (size, name).encode(sink)
    }
}
