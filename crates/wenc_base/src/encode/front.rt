//! Numbers inserted before bytes that are already written.
ghost use Rattle.std.specs.Prelude.{◌≡◌, ℕ, ◌+◌, ◌<◌, ◌≤◌, ◌++◌, List, length, take, drop, OnOk};
ghost use Rattle.std.specs.Prelude.{OnErr, IfErr};
ghost use Rattle.wenc_base.specs.Prelude.{IsMemory, unsigned_text};

use super::{Encode, insert_before};
use crate::fault::Fault;
use crate::short::Short;
use std::alloc::Allocator;

/// Inserts a number before the bytes from `start` on.
///
/// # Errors
///
/// Fails only if an allocation fails; the bytes from `start` on are then removed.
#[inline(never)]
pub fn put_number<A: Allocator>(
    number: u32,
    start: usize,
    sink: &mut Vec<u8, A>,
) -> Result<(), Fault>
    requires { start ≤ length sink.old.items }
    ensures ok { OnOk result (sink.new.items
        ≡ take start sink.old.items ++ unsigned_text number ++ drop start sink.old.items) }
    ensures err { OnErr result (sink.new.items ≡ take start sink.old.items) }
    ensures warranted { IfErr result IsMemory }
{
    if number < 1 << 7 {
        return insert_before(number as u8, start, sink);
    }
    let mut text = Short::new();
    text.unsigned(u64::from(number));
    let text = text.as_slice();
    match sink.extend_from_slice(text) {
        Ok(()) => {
            put_in_front(sink.as_mut_slice(), start, text);
            Ok(())
        }
        Err(failed) => {
            sink.truncate(start);
            Err(Fault::from(failed))
        }
    }
}

/// Replaces the byte at `start` by a number. Most numbers have one byte, and then this doesn't
/// allocate.
///
/// # Errors
///
/// Fails only if an allocation fails; the bytes from `start` on are then removed.
#[tactic(auto, using(crate::proofs::Groups::put_over))]
pub fn put_number_over<A: Allocator>(
    number: u32,
    start: usize,
    sink: &mut Vec<u8, A>,
) -> Result<(), Fault>
    requires { start < length sink.old.items }
    ensures ok { OnOk result (sink.new.items
        ≡ take start sink.old.items ++ unsigned_text number ++ drop (start + 1) sink.old.items) }
    ensures err { OnErr result (sink.new.items ≡ take start sink.old.items) }
    ensures warranted { IfErr result IsMemory }
{
    if number < 1 << 7 {
        sink[start] = number as u8;
        return Ok(());
    }
    put_long_number_over(number, start, sink)
}

/// Replaces the byte at `start` by a number of any length. If it fails, the bytes from `start` on
/// are removed.
#[cold]
#[inline(never)]
fn put_long_number_over<A: Allocator>(
    number: u32,
    start: usize,
    sink: &mut Vec<u8, A>,
) -> Result<(), Fault>
    requires { start < length sink.old.items }
    ensures ok { OnOk result (sink.new.items
        ≡ take start sink.old.items ++ unsigned_text number ++ drop (start + 1) sink.old.items) }
    ensures err { OnErr result (sink.new.items ≡ take start sink.old.items) }
    ensures warranted { IfErr result IsMemory }
{
    // 32 bits: an offset in a vector, which has less than 2^31 bytes.
    match put_number(number, start + 1, sink) {
        Ok(()) => {
            sink.remove(start);
            Ok(())
        }
        Err(fault) => {
            sink.truncate(start);
            Err(fault)
        }
    }
}

/// Writes `text` before the bytes from `start` on. These move behind it, and as many bytes as it
/// has are lost at the end.
fn put_in_front(bytes: &mut [u8], start: usize, text: &[u8])
    requires { start + length text.now ≤ length bytes.old }
    ensures { (before behind last : List ℕ) → bytes.old ≡ before ++ behind ++ last
        → length before ≡ start → length last ≡ length text.now
        → bytes.new ≡ before ++ text.now ++ behind }
{
    // 32 bits: an offset in the slice.
    let behind = start + text.len();
    let end = bytes.len() - text.len();
    bytes.copy_within(start..end, behind);
    bytes[start..behind].copy_from_slice(text);
}
