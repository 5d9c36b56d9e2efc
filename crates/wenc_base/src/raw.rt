//! Sections of any id, given by their bytes.
ghost use Rattle.wenc_base.specs.Prelude.{byte_list};

use crate::encode::Encode;
use crate::fault::Fault;
use crate::section::Section;
use std::alloc::Allocator;

/// A section with any id, from 0 to 255, given by its contents (WebAssembly 3.0, binary format,
/// "Sections").
///
/// Encoding fails with `TooLarge` if the contents have more than 4294967295 bytes.
#[derive(Clone, Copy)]
pub struct RawSection<'a> {
    /// The id.
    pub id: u8,
    /// The contents: the bytes after the size.
    pub data: &'a [u8],
}

impl<'a> Encode for RawSection<'a> {
    ghost piece = { λ s. byte_list s.data.now };

    fn encode<A: Allocator>(&self, sink: &mut Vec<u8, A>) -> Result<(), Fault> {
        self.data.encode(sink)
    }
}

impl<'a> Section for RawSection<'a> {
    ghost section_id = { λ s. s.id };

    fn id(&self) -> u8 {
        self.id
    }
}
