//! Values preceded by their size.
ghost use Rattle.wenc_base.specs.Prelude.{sized_in_order};

use super::Encode;
use super::front::put_number;
use crate::fault::Fault;
use std::alloc::Allocator;

/// A value preceded by its size in bytes.
///
/// Encoding fails as that of the value does, or with `TooLarge` if the value has more than
/// 4294967295 bytes.
#[derive(Clone, Copy)]
pub struct WithSize<'a, T>(pub &'a T);

impl<'a, T: Encode> Encode for WithSize<'a, T> {
    ghost piece = { λ s. sized_in_order (T.piece s.0.now) };

    ghost unfinished = { λ s. T.unfinished s.0.now };

    fn encode<A: Allocator>(&self, sink: &mut Vec<u8, A>) -> Result<(), Fault> {
        let start = sink.len();
        self.0.encode(sink)?;
        let Ok(size) = u32::try_from(sink.len() - start) else {
            sink.truncate(start);
            return Err(Fault::TooLarge);
        };
        put_number(size, start, sink)
    }
}
