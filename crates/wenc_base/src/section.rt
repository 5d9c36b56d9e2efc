//! The trait `Section`, and the ids of sections in core modules.
ghost use Rattle.std.specs.Prelude.{◌≡◌, ℕ, OnOk};
ghost use Rattle.wenc_base.specs.Prelude.{Appends, ◌▸◌};

use crate::encode::{Encode, Tagged};
use crate::fault::Fault;
use std::alloc::Allocator;

/// A section of a core module (WebAssembly 3.0, binary format, "Sections"). You may implement this
/// trait for types of your own.
pub trait Section: Encode {
    /// What `id` returns.
    ghost section_id: { Self → ℕ };

    /// Returns the section's id, from 0 to 255.
    fn id(&self) -> u8
        ensures { result ≡ section_id self.now };

    /// Appends the section's id and its encoding.
    ///
    /// # Errors
    ///
    /// Fails as `encode` does; `sink` is then unchanged.
    fn append_to<A: Allocator>(&self, sink: &mut Vec<u8, A>) -> Result<(), Fault>
    where
        Self: Sized,
        ensures appended { Appends (section_id self.now ▸ Self.piece self.now).text
            (Self.piece self.now).Cause (Self.unfinished self.now)
            sink.old.items sink.new.items result }
        ensures fits { OnOk result (Self.piece self.now).Fits }
    {
        Tagged(self.id(), self).encode(sink)
    }
}

/// The ids of sections in a core module (WebAssembly 3.0, binary format, "Sections"): only that of
/// the section which this crate writes.
#[derive(Clone, Copy, Debug, PartialEq, Eq)]
#[repr(u8)]
pub enum SectionId {
    /// A custom section.
    Custom = 0,
}

impl From<SectionId> for u8 {
    ghost from_gives = { λ _ n. n ≡ 0 };

    fn from(id: SectionId) -> u8 {
        id as u8
    }
}
