//! Custom sections.
ghost use Rattle.wenc_base.specs.Prelude.{custom, verbatim};

use crate::encode::{Encode, Verbatim, extend_in_room};
use crate::fault::Fault;
use crate::holder::section_size;
use crate::section::{Section, SectionId};
use crate::short::Short;
use std::alloc::Allocator;

/// A custom section, to which the standard gives no meaning (WebAssembly 3.0, binary format,
/// "Custom Section").
///
/// Encoding fails with `TooLarge` if more than 4294967295 bytes follow the section's size.
///
/// ```
/// let mut component = Component::new(alloc)?;
/// component.section(&CustomSection {
///     name: "notes",
///     data: &[0x2a],
/// })?;
/// let bytes = component.finish();
/// ```
#[derive(Clone, Copy)]
pub struct CustomSection<'a> {
    /// The name.
    pub name: &'a str,
    /// The bytes after the name.
    pub data: &'a [u8],
}

impl<'a> Encode for CustomSection<'a> {
    ghost piece = { λ s. custom (record { label = s.name.now; bytes = s.data.now }) };

    #[tactic(auto, using(crate::proofs::Groups::size_of_u32))]
    fn encode<A: Allocator>(&self, sink: &mut Vec<u8, A>) -> Result<(), Fault> {
        let name = self.name.as_bytes();
        let Ok(name_len) = u32::try_from(name.len()) else {
            return Err(Fault::TooLarge);
        };
        let size = section_size(name_len, u64::from(name_len) + self.data.len() as u64)?;
        let mut lead = Short::new();
        lead.unsigned(u64::from(size));
        lead.unsigned(u64::from(name_len));
        let lead = lead.as_slice();
        // 32 bits: name and data have less than 2^31 bytes each. A sum that saturates is more than
        // can be reserved.
        sink.try_reserve((lead.len() + name.len()).saturating_add(self.data.len()))?;
        extend_in_room(sink, lead);
        extend_in_room(sink, name);
        extend_in_room(sink, self.data);
        Ok(())
    }
}

impl<'a> Section for CustomSection<'a> {
    ghost section_id = { λ _. 0 };

    fn id(&self) -> u8 {
        u8::from(SectionId::Custom)
    }
}

/// A custom section given by the bytes that follow its id, its size included (WebAssembly 3.0,
/// binary format, "Custom Section").
///
/// The bytes are written unchanged, and nothing checks that they form such a section. Encoding
/// fails only if an allocation fails.
#[derive(Clone, Copy)]
pub struct RawCustomSection<'a>(pub &'a [u8]);

impl<'a> Encode for RawCustomSection<'a> {
    ghost piece = { λ s. verbatim s.0.now };

    fn encode<A: Allocator>(&self, sink: &mut Vec<u8, A>) -> Result<(), Fault> {
        Verbatim(self.0).encode(sink)
    }
}

impl<'a> Section for RawCustomSection<'a> {
    ghost section_id = { λ _. 0 };

    fn id(&self) -> u8 {
        u8::from(SectionId::Custom)
    }
}
