//! An input, read to its end.
ghost use Rattle.wenc.specs.Prelude.{ReadsWhole};

use crate::failure::Failure;
use std::alloc::Allocator;
use std::io::Read;

/// The maximum number of reads up to an input's end.
pub const MAX_READS: u32 = 16_777_216;

const CHUNK_SIZE: usize = 8192;

/// Reads an input to its end.
///
/// # Errors
///
/// Fails with `Transfer` at the first read that fails, and if none of `max_reads` reads finds the
/// end, and with `Fault` if an allocation fails.
pub fn read_all<A: Allocator, R: Read>(
    alloc: A,
    input: &mut R,
    max_reads: u32,
) -> Result<Vec<u8, A>, Failure>
    ensures { ReadsWhole result (R.remaining input.old) (R.remaining input.new) }
{
    let mut text = Vec::new(alloc);
    let mut chunk = [0; CHUNK_SIZE];
    for _ in 0..max_reads {
        let Ok(count) = input.read(&mut chunk) else {
            return Err(Failure::Transfer);
        };
        if count == 0 {
            return Ok(text);
        }
        text.extend_from_slice(&chunk[..count])?;
    }
    Err(Failure::Transfer)
}
