//! Numbers.
ghost use Rattle.std.specs.Prelude.{◌≡◌, ◌^◌, ◌≤◌, ◌<◌, ◌+◌, ◌-◌, ◌*◌, length, IfOk, IfErr};
ghost use Rattle.wenc_base.specs.Prelude.{read_groups, read_u32, read_u64, read_index, read_byte};
ghost use Rattle.wenc_read.specs.Prelude.{Gives, IsWithin, byte_error, number_error};

use crate::expected::Expected;
use crate::refusal::Refusal;

/// Reads the first byte. Fails if there is none.
#[inline(always)]
pub fn byte(bytes: &[u8]) -> Result<(u8, &[u8]), Refusal>
    ensures found { Gives (λ x. (x.0, x.1.now)) result (read_byte bytes.now) }
    ensures refused { IfErr result (λ e. e ≡ byte_error bytes.now) }
    ensures shorter { IfOk result (λ x. length x.1.now < length bytes.now) }
    ensures place { IsWithin (λ x. x.1.now) bytes.now result }
{
    match bytes {
        [] => Err(Refusal::at(bytes, Expected::Bytes(1))),
        [first, rest @ ..] => Ok((*first, rest)),
    }
}

/// Reads a number of 32 bits, whose last byte is below `top`, after at most `room` other bytes. It
/// is a number in the bytes `whole`, from the first of them on.
#[tactic(auto, using(crate::proofs::Numbers::too_large), unfolding(wenc_base::specs::reading::Numbers::read_groups))]
fn short_groups<'a>(
    top: u8,
    room: u8,
    whole: &[u8],
    bytes: &'a [u8],
) -> Result<(u32, &'a [u8]), Refusal>
    requires small { top ≤ 128 }
    requires part { length bytes.now ≤ length whole.now }
    ensures found { Gives (λ x. (x.0, x.1.now)) result (read_groups top (2 ^ 32) room bytes.now) }
    ensures refused { IfErr result (λ e. e ≡ number_error top 32 whole.now room bytes.now) }
    ensures place { IsWithin (λ x. x.1.now) whole.now result }
{
    let (first, rest) = byte(bytes)?;
    if first < top {
        return Ok((u32::from(first), rest));
    }
    if room == 0 {
        return Err(Refusal::at(whole, Expected::Bits(32)));
    }
    if first < 128 {
        return Err(Refusal::at(bytes, Expected::Index));
    }
    let (high, rest) = short_groups(top, room - 1, whole, rest)?;
    match u32::try_from(u64::from(first) - 128 + 128 * u64::from(high)) {
        Ok(n) => Ok((n, rest)),
        Err(_) => Err(Refusal::at(whole, Expected::Bits(32))),
    }
}

/// Reads a number of 64 bits, whose last byte comes after at most `room` others. It is a number in
/// the bytes `whole`, from the first of them on.
#[tactic(auto, using(crate::proofs::Numbers::too_large), unfolding(wenc_base::specs::reading::Numbers::read_groups))]
fn long_groups<'a>(room: u8, whole: &[u8], bytes: &'a [u8]) -> Result<(u64, &'a [u8]), Refusal>
    requires { length bytes.now ≤ length whole.now }
    ensures found { Gives (λ x. (x.0, x.1.now)) result (read_groups 128 (2 ^ 64) room bytes.now) }
    ensures refused { IfErr result (λ e. e ≡ number_error 128 64 whole.now room bytes.now) }
    ensures place { IsWithin (λ x. x.1.now) whole.now result }
{
    let (first, rest) = byte(bytes)?;
    if first < 128 {
        return Ok((u64::from(first), rest));
    }
    if room == 0 {
        return Err(Refusal::at(whole, Expected::Bits(64)));
    }
    let (high, rest) = long_groups(room - 1, whole, rest)?;
    match u64::try_from(u128::from(first) - 128 + 128 * u128::from(high)) {
        Ok(n) => Ok((n, rest)),
        Err(_) => Err(Refusal::at(whole, Expected::Bits(64))),
    }
}

/// Returns the number spelled by a first byte, which isn't the last one, and by the bytes after it,
/// whose value is `high`.
fn joined(low: u8, high: u32) -> u32
    requires low { 128 ≤ low }
    requires high { high < 2 ^ 25 }
    ensures { result ≡ low - 128 + 128 * high }
{
    u32::from(low) - 128 + 128 * high
}

/// Reads a number of 32 bits in at most 5 bytes, whose last byte is below `top`. Most numbers take
/// at most three.
#[tactic(auto, using(crate::proofs::Numbers::too_large), unfolding(wenc_base::specs::reading::Numbers::read_groups))]
#[inline(always)]
fn short_number(top: u8, bytes: &[u8]) -> Result<(u32, &[u8]), Refusal>
    requires { top ≤ 128 }
    ensures found { Gives (λ x. (x.0, x.1.now)) result (read_groups top (2 ^ 32) 4 bytes.now) }
    ensures refused { IfErr result (λ e. e ≡ number_error top 32 bytes.now 4 bytes.now) }
    ensures place { IsWithin (λ x. x.1.now) bytes.now result }
{
    match bytes {
        [first, rest @ ..] if *first < top => Ok((u32::from(*first), rest)),
        [first, second, rest @ ..] if *first >= 128 && *second < top => {
            Ok((joined(*first, u32::from(*second)), rest))
        }
        [first, second, third, rest @ ..] if *first >= 128 && *second >= 128 && *third < top => {
            let high = joined(*second, u32::from(*third));
            Ok((joined(*first, high), rest))
        }
        _ => short_groups(top, 4, bytes, bytes),
    }
}

/// Reads a number of 32 bits (WebAssembly 3.0, binary format, "Integers"). Fails if the bytes begin
/// with none of at most 5 bytes.
#[inline(always)]
pub fn u32_of(bytes: &[u8]) -> Result<(u32, &[u8]), Refusal>
    ensures found { Gives (λ x. (x.0, x.1.now)) result (read_u32 bytes.now) }
    ensures refused { IfErr result (λ e. e ≡ number_error 128 32 bytes.now 4 bytes.now) }
    ensures place { IsWithin (λ x. x.1.now) bytes.now result }
{
    short_number(128, bytes)
}

/// Reads a number of 64 bits (WebAssembly 3.0, binary format, "Integers"). Fails if the bytes begin
/// with none of at most 10 bytes.
pub fn u64_of(bytes: &[u8]) -> Result<(u64, &[u8]), Refusal>
    ensures found { Gives (λ x. (x.0, x.1.now)) result (read_u64 bytes.now) }
    ensures refused { IfErr result (λ e. e ≡ number_error 128 64 bytes.now 9 bytes.now) }
    ensures place { IsWithin (λ x. x.1.now) bytes.now result }
{
    long_groups(9, bytes, bytes)
}

/// Reads an index, from 0 to 4294967295, that is written as a signed number of 33 bits (WebAssembly
/// 3.0, binary format, "Heap Types"). Fails if the bytes begin with none of at most 5 bytes.
#[inline(always)]
pub fn index_of(bytes: &[u8]) -> Result<(u32, &[u8]), Refusal>
    ensures found { Gives (λ x. (x.0, x.1.now)) result (read_index bytes.now) }
    ensures refused { IfErr result (λ e. e ≡ number_error 64 32 bytes.now 4 bytes.now) }
    ensures place { IsWithin (λ x. x.1.now) bytes.now result }
{
    short_number(64, bytes)
}
