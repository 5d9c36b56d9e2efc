//! The trait `Encode`, which appends numbers and other values to a vector of bytes.
ghost use Rattle.std.specs.Prelude.{◌≡◌, ◌+◌, ◌<◌, ◌≤◌, ◌^◌, ◌++◌, ◌∷◌, [], length, vec_len};
ghost use Rattle.std.specs.Prelude.{vec_capacity, take, drop, OnOk, OnErr, IfErr, true, false, Err};
ghost use Rattle.wenc_base.specs.Prelude.{Appends, size_cause, AreBytes, number_size};
ghost use Rattle.wenc_base.specs.Prelude.{unsigned_text, signed_text, Piece, ◌▸◌, nothing, flag};
ghost use Rattle.wenc_base.specs.Prelude.{u64 as long_number, count, i64 as signed_number, name};
ghost use Rattle.wenc_base.specs.Prelude.{byte_list, option, in_order, verbatim, IsMemory};

mod front;
mod named;
mod sized;
mod slices;

use crate::fault::Fault;
use crate::number::encoding_size;
use crate::short::Short;
pub use named::Named;
pub use sized::WithSize;
pub use slices::encode_list;
use std::alloc::Allocator;

/// A value with an encoding in the binary format (WebAssembly 3.0, binary format, "Values").
///
/// You may implement this trait for types of your own.
///
/// ```
/// let mut sink = Vec::new(alloc);
/// "f".encode(&mut sink)?;
/// [1u32, 2].as_slice().encode(&mut sink)?;
/// ```
pub trait Encode {
    /// The bytes of the value, and the causes for which it can't be encoded.
    ghost piece: { Self → Piece };

    /// The value contains something that was begun and not ended. This error comes before all
    /// others.
    ghost unfinished: { Self → Type 0 } = { λ _. ⊥ };

    /// Appends the value's encoding to `sink`. If it succeeds, the value fits its form.
    ///
    /// # Errors
    ///
    /// Fails if an allocation fails or if the value can't be encoded; `sink` is then unchanged.
    fn encode<A: Allocator>(&self, sink: &mut Vec<u8, A>) -> Result<(), Fault>
        ensures appended { Appends (piece self.now).text (piece self.now).Cause
            (unfinished self.now) sink.old.items sink.new.items result }
        ensures fits { OnOk result (piece self.now).Fits };
}

/// Encodes to no bytes.
impl Encode for () {
    ghost piece = { λ _. nothing };

    fn encode<A: Allocator>(&self, _sink: &mut Vec<u8, A>) -> Result<(), Fault> {
        Ok(())
    }
}

impl Encode for bool {
    ghost piece = { λ b. flag b };

    fn encode<A: Allocator>(&self, sink: &mut Vec<u8, A>) -> Result<(), Fault> {
        encode_byte(u8::from(*self), sink)
    }
}

impl Encode for u32 {
    ghost use Rattle.wenc_base.specs.Prelude.{u32 as number};

    ghost piece = { λ n. number n };

    fn encode<A: Allocator>(&self, sink: &mut Vec<u8, A>) -> Result<(), Fault> {
        encode_number(u64::from(*self), sink)
    }
}

impl Encode for u64 {
    ghost piece = { λ n. long_number n };

    fn encode<A: Allocator>(&self, sink: &mut Vec<u8, A>) -> Result<(), Fault> {
        encode_number(*self, sink)
    }
}

/// Encodes as a 32-bit number. Fails with `TooMany` if the number is above 4294967295.
impl Encode for usize {
    ghost piece = { count };

    fn encode<A: Allocator>(&self, sink: &mut Vec<u8, A>) -> Result<(), Fault> {
        match u32::try_from(*self) {
            Ok(n) => n.encode(sink),
            Err(_) => Err(Fault::TooMany),
        }
    }
}

impl Encode for i64 {
    ghost piece = { signed_number };

    #[tactic(auto, using(crate::proofs::Groups::signed_texts))]
    fn encode<A: Allocator>(&self, sink: &mut Vec<u8, A>) -> Result<(), Fault> {
        if *self < 0 || *self >= 1 << 20 || !has_room(sink, 3) {
            return encode_long_signed(*self, sink);
        }
        let n = *self as u64;
        if n < 1 << 6 {
            extend_in_room(sink, &[n as u8]);
        } else if n < 1 << 13 {
            extend_in_room(sink, &[(n % 128) as u8 + 128, (n / 128) as u8]);
        } else {
            extend_in_room(
                sink,
                &[
                    (n % 128) as u8 + 128,
                    (n / 128 % 128) as u8 + 128,
                    (n / 128 / 128) as u8,
                ],
            );
        }
        Ok(())
    }
}

/// Appends the encoding of any signed number, whatever the spare capacity.
#[tactic(auto, using(crate::proofs::Groups::signed_length))]
#[cold]
#[inline(never)]
fn encode_long_signed<A: Allocator>(n: i64, sink: &mut Vec<u8, A>) -> Result<(), Fault>
    ensures { Appends (signed_text n) (λ _. ⊥) ⊥ sink.old.items sink.new.items result }
{
    let mut text = Short::new();
    text.signed(n);
    sink.extend_from_slice(text.as_slice())?;
    Ok(())
}

impl Encode for &str {
    ghost piece = { λ s. name s.now };

    fn encode<A: Allocator>(&self, sink: &mut Vec<u8, A>) -> Result<(), Fault> {
        encode_bytes(self.as_bytes(), sink)
    }
}

impl<A: Allocator> Encode for String<A> {
    ghost use Rattle.std.specs.String.{string_bytes};

    ghost piece = { λ s. name (string_bytes s) };

    fn encode<B: Allocator>(&self, sink: &mut Vec<u8, B>) -> Result<(), Fault> {
        self.as_str().encode(sink)
    }
}

impl Encode for &[u8] {
    ghost piece = { λ bytes. byte_list bytes.now };

    fn encode<A: Allocator>(&self, sink: &mut Vec<u8, A>) -> Result<(), Fault> {
        encode_bytes(self, sink)
    }
}

/// Appends the number of bytes, then the bytes, with a single reservation.
#[tactic(auto, using(crate::proofs::Groups::groups_below))]
fn encode_bytes<A: Allocator>(bytes: &[u8], sink: &mut Vec<u8, A>) -> Result<(), Fault>
    ensures appended { Appends (unsigned_text (length bytes.now) ++ bytes.now)
        (size_cause (length bytes.now)) ⊥ sink.old.items sink.new.items result }
    ensures fits { OnOk result ((length bytes.now < 2 ^ 32) × AreBytes bytes.now) }
{
    if let [byte] = bytes {
        if has_room(sink, 2) {
            extend_in_room(sink, &[1, *byte]);
            return Ok(());
        }
    }
    encode_short_bytes(bytes, sink)
}

/// Appends the number of bytes, then the bytes. Fast path: below 128 bytes, within the capacity.
#[tactic(auto, using(crate::proofs::Groups::groups_below))]
#[inline(never)]
fn encode_short_bytes<A: Allocator>(bytes: &[u8], sink: &mut Vec<u8, A>) -> Result<(), Fault>
    ensures appended { Appends (unsigned_text (length bytes.now) ++ bytes.now)
        (size_cause (length bytes.now)) ⊥ sink.old.items sink.new.items result }
    ensures fits { OnOk result ((length bytes.now < 2 ^ 32) × AreBytes bytes.now) }
{
    // 32 bits: at most 128.
    if bytes.len() >= 1 << 7 || !has_room(sink, 1 + bytes.len()) {
        return encode_long_bytes(bytes, sink);
    }
    short_number_in_room(bytes.len() as u8, sink);
    extend_in_room(sink, bytes);
    Ok(())
}

/// Appends the number of bytes, then the bytes, however many, with a single reservation.
#[cold]
#[inline(never)]
fn encode_long_bytes<A: Allocator>(bytes: &[u8], sink: &mut Vec<u8, A>) -> Result<(), Fault>
    ensures appended { Appends (unsigned_text (length bytes.now) ++ bytes.now)
        (size_cause (length bytes.now)) ⊥ sink.old.items sink.new.items result }
    ensures fits { OnOk result ((length bytes.now < 2 ^ 32) × AreBytes bytes.now) }
{
    let Ok(len) = u32::try_from(bytes.len()) else {
        return Err(Fault::TooLarge);
    };
    // 32 bits: a slice has less than 2^31 bytes.
    sink.try_reserve(encoding_size(len) + bytes.len())?;
    number_in_room(len, sink);
    extend_in_room(sink, bytes);
    Ok(())
}

/// Appends the encoding of a number. Fast path: at most three bytes, within the capacity.
#[tactic(auto, using(crate::proofs::Groups::unsigned_texts))]
fn encode_number<A: Allocator>(n: u64, sink: &mut Vec<u8, A>) -> Result<(), Fault>
    ensures { Appends (unsigned_text n) (λ _. ⊥) ⊥ sink.old.items sink.new.items result }
{
    if n >= 1 << 21 || !has_room(sink, 3) {
        return encode_long(n, sink);
    }
    if n < 1 << 7 {
        extend_in_room(sink, &[n as u8]);
    } else if n < 1 << 14 {
        extend_in_room(sink, &[(n % 128) as u8 + 128, (n / 128) as u8]);
    } else {
        extend_in_room(
            sink,
            &[
                (n % 128) as u8 + 128,
                (n / 128 % 128) as u8 + 128,
                (n / 128 / 128) as u8,
            ],
        );
    }
    Ok(())
}

/// Appends the encoding of a number. Fast path: four or five bytes, within the capacity.
#[tactic(auto, using(crate::proofs::Groups::text_4, crate::proofs::Groups::text_5))]
#[inline(never)]
fn encode_long<A: Allocator>(n: u64, sink: &mut Vec<u8, A>) -> Result<(), Fault>
    ensures { Appends (unsigned_text n) (λ _. ⊥) ⊥ sink.old.items sink.new.items result }
{
    if n < 1 << 21 || n >= 1 << 35 || !has_room(sink, 5) {
        return encode_any(n, sink);
    }
    if n < 1 << 28 {
        extend_in_room(
            sink,
            &[
                (n % 128) as u8 + 128,
                (n / 128 % 128) as u8 + 128,
                (n / 128 / 128 % 128) as u8 + 128,
                (n / 128 / 128 / 128) as u8,
            ],
        );
    } else {
        extend_in_room(
            sink,
            &[
                (n % 128) as u8 + 128,
                (n / 128 % 128) as u8 + 128,
                (n / 128 / 128 % 128) as u8 + 128,
                (n / 128 / 128 / 128 % 128) as u8 + 128,
                (n / 128 / 128 / 128 / 128) as u8,
            ],
        );
    }
    Ok(())
}

/// Appends the encoding of any number, whatever the spare capacity.
#[tactic(auto, using(crate::proofs::Groups::groups_length))]
#[cold]
#[inline(never)]
fn encode_any<A: Allocator>(n: u64, sink: &mut Vec<u8, A>) -> Result<(), Fault>
    ensures { Appends (unsigned_text n) (λ _. ⊥) ⊥ sink.old.items sink.new.items result }
{
    let mut text = Short::new();
    text.unsigned(n);
    sink.extend_from_slice(text.as_slice())?;
    Ok(())
}

/// Appends the encoding of a number within the capacity, without allocating.
#[tactic(auto, using(crate::proofs::Groups::size_of_u32, crate::proofs::Groups::unsigned_texts))]
#[inline(never)]
pub(crate) fn number_in_room<A: Allocator>(n: u32, sink: &mut Vec<u8, A>)
    requires { vec_len sink.old + number_size n ≤ vec_capacity sink.old }
    ensures items { sink.new.items ≡ sink.old.items ++ unsigned_text n }
    ensures len { vec_len sink.new ≡ vec_len sink.old + number_size n }
    ensures capacity { vec_capacity sink.old ≤ vec_capacity sink.new }
{
    if n < 1 << 7 {
        extend_in_room(sink, &[n as u8]);
    } else if n < 1 << 14 {
        extend_in_room(sink, &[(n % 128) as u8 + 128, (n / 128) as u8]);
    } else {
        let mut text = Short::new();
        text.unsigned(u64::from(n));
        extend_in_room(sink, text.as_slice());
    }
}

/// Appends the encoding of a number below 128, which is one byte, within the capacity.
#[tactic(auto, using(crate::proofs::Groups::groups_below))]
#[inline]
fn short_number_in_room<A: Allocator>(n: u8, sink: &mut Vec<u8, A>)
    requires short { n < 128 }
    requires room { vec_len sink.old < vec_capacity sink.old }
    ensures items { sink.new.items ≡ sink.old.items ++ unsigned_text n }
    ensures len { vec_len sink.new ≡ vec_len sink.old + 1 }
    ensures capacity { vec_capacity sink.old ≤ vec_capacity sink.new }
{
    extend_in_room(sink, &[n]);
}

/// Returns whether the spare capacity suffices for `more` bytes.
#[inline]
pub(crate) fn has_room<A: Allocator>(sink: &Vec<u8, A>, more: usize) -> bool
    ensures { result ≡ true → vec_len sink.now + more ≤ vec_capacity sink.now }
{
    more <= sink.capacity() - sink.len()
}

/// Appends a byte.
///
/// # Errors
///
/// Fails only if an allocation fails; `sink` is then unchanged.
#[inline]
pub fn encode_byte<A: Allocator>(byte: u8, sink: &mut Vec<u8, A>) -> Result<(), Fault>
    ensures { Appends (byte ∷ []) (λ _. ⊥) ⊥ sink.old.items sink.new.items result }
{
    if !has_room(sink, 1) {
        return encode_byte_apart(byte, sink);
    }
    push_in_room(sink, byte);
    Ok(())
}

/// Appends a byte for which there is no spare capacity.
#[cold]
#[inline(never)]
fn encode_byte_apart<A: Allocator>(byte: u8, sink: &mut Vec<u8, A>) -> Result<(), Fault>
    ensures { Appends (byte ∷ []) (λ _. ⊥) ⊥ sink.old.items sink.new.items result }
{
    sink.push(byte)?;
    Ok(())
}

/// Appends the encodings of two numbers within the capacity: of `n`, which has at most three bytes,
/// and of `last`, which has one.
#[tactic(auto, using(crate::proofs::Groups::unsigned_texts))]
#[inline(always)]
pub(crate) fn short_numbers_in_room<A: Allocator>(n: u32, last: u8, sink: &mut Vec<u8, A>)
    requires first { n < 2097152 }
    requires last { last < 128 }
    requires room { vec_len sink.old + 4 ≤ vec_capacity sink.old }
    ensures items { sink.new.items ≡ sink.old.items ++ (unsigned_text n ++ unsigned_text last) }
    ensures len { vec_len sink.new ≡ vec_len sink.old + (number_size n + 1) }
    ensures short { number_size n ≤ 3 }
    ensures capacity { vec_capacity sink.old ≤ vec_capacity sink.new }
{
    if n < 1 << 7 {
        extend_in_room(sink, &[n as u8, last]);
    } else if n < 1 << 14 {
        extend_in_room(sink, &[(n % 128) as u8 + 128, (n / 128) as u8, last]);
    } else {
        extend_in_room(
            sink,
            &[
                (n % 128) as u8 + 128,
                (n / 128 % 128) as u8 + 128,
                (n / 128 / 128) as u8,
                last,
            ],
        );
    }
}

/// Appends a byte within the capacity, without allocating.
#[inline]
fn push_in_room<A: Allocator>(sink: &mut Vec<u8, A>, byte: u8)
    requires { vec_len sink.old < vec_capacity sink.old }
    ensures items { sink.new.items ≡ sink.old.items ++ byte ∷ [] }
    ensures len { vec_len sink.new ≡ vec_len sink.old + 1 }
    ensures capacity { vec_capacity sink.old ≤ vec_capacity sink.new }
{
    match sink.push(byte) {
        Ok(()) => (),
        Err(_) => unreachable!(),
    }
}

/// Appends bytes within the capacity, without allocating. The spare capacity of `sink` has to
/// suffice.
#[inline]
pub fn extend_in_room<A: Allocator>(sink: &mut Vec<u8, A>, bytes: &[u8])
    requires { vec_len sink.old + length bytes.now ≤ vec_capacity sink.old }
    ensures items { sink.new.items ≡ sink.old.items ++ bytes.now }
    ensures len { vec_len sink.new ≡ vec_len sink.old + length bytes.now }
    ensures capacity { vec_capacity sink.old ≤ vec_capacity sink.new }
{
    match sink.extend_from_slice(bytes) {
        Ok(()) => (),
        Err(_) => unreachable!(),
    }
}

/// A byte that says what follows, such as an opcode, then a value. Fails with the first error met.
#[derive(Clone, Copy)]
pub struct Prefix<'a, T>(pub u8, pub &'a T);

impl<'a, T: Encode> Encode for Prefix<'a, T> {
    ghost piece = { λ p. p.0 ▸ T.piece p.1.now };

    #[inline(always)]
    fn encode<A: Allocator>(&self, sink: &mut Vec<u8, A>) -> Result<(), Fault> {
        let start = sink.len();
        if let Err(fault) = encode_byte(self.0, sink) {
            return Err(fault);
        }
        match self.1.encode(sink) {
            Ok(()) => Ok(()),
            Err(fault) => cut(sink, start, fault),
        }
    }
}

/// A prefix and its value, which may be unfinished.
#[derive(Clone, Copy)]
pub struct Tagged<'a, T>(pub u8, pub &'a T);

/// An error of the value takes precedence over an allocation failure for the byte, so that an
/// unfinished value always fails as unfinished: without spare capacity, the value is written first.
impl<'a, T: Encode> Encode for Tagged<'a, T> {
    ghost piece = { λ t. t.0 ▸ T.piece t.1.now };

    ghost unfinished = { λ t. T.unfinished t.1.now };

    #[inline(always)]
    fn encode<A: Allocator>(&self, sink: &mut Vec<u8, A>) -> Result<(), Fault> {
        let start = sink.len();
        if push_if_room(sink, self.0) {
            return match self.1.encode(sink) {
                Ok(()) => Ok(()),
                Err(fault) => cut(sink, start, fault),
            };
        }
        match self.1.encode(sink) {
            Ok(()) => insert_before(self.0, start, sink),
            Err(fault) => Err(fault),
        }
    }
}

/// Appends a byte if there is spare capacity for it, and returns whether there was.
#[inline]
fn push_if_room<A: Allocator>(sink: &mut Vec<u8, A>, byte: u8) -> bool
    ensures pushed { result ≡ true → sink.new.items ≡ sink.old.items ++ byte ∷ [] }
    ensures same { result ≡ false → sink.new.items ≡ sink.old.items }
{
    if !has_room(sink, 1) {
        return false;
    }
    push_in_room(sink, byte);
    true
}

/// Removes the bytes from `start` on, and fails.
#[cold]
#[inline]
pub(crate) fn cut<A: Allocator>(
    sink: &mut Vec<u8, A>,
    start: usize,
    fault: Fault,
) -> Result<(), Fault>
    ensures items { sink.new.items ≡ take start sink.old.items }
    ensures failed { result ≡ Err fault }
{
    sink.truncate(start);
    Err(fault)
}

/// Does what `cut` does, out of line: calls whose lists succeed then take fewer instructions.
#[cold]
#[inline(never)]
pub(crate) fn cut_apart<A: Allocator>(
    sink: &mut Vec<u8, A>,
    start: usize,
    fault: Fault,
) -> Result<(), Fault>
    ensures items { sink.new.items ≡ take start sink.old.items }
    ensures failed { result ≡ Err fault }
{
    cut(sink, start, fault)
}

/// Inserts a byte before the bytes from `start` on. If it fails, these are removed.
#[cold]
#[inline(never)]
fn insert_before<A: Allocator>(byte: u8, start: usize, sink: &mut Vec<u8, A>) -> Result<(), Fault>
    requires { start ≤ length sink.old.items }
    ensures ok { OnOk result (sink.new.items
        ≡ take start sink.old.items ++ byte ∷ drop start sink.old.items) }
    ensures err { OnErr result (sink.new.items ≡ take start sink.old.items) }
    ensures warranted { IfErr result IsMemory }
{
    if let Err(failed) = sink.insert(start, byte) {
        sink.truncate(start);
        return Err(Fault::from(failed));
    }
    Ok(())
}

/// Encodes as the byte `00`, or as the byte `01` and the value.
impl<T: Encode> Encode for Option<T> {
    ghost use Rattle.std.specs.Prelude.{Some};

    ghost piece = { option T.piece };

    ghost unfinished = { λ o. (x : T) × (o ≡ Some x) × T.unfinished x };

    #[inline(always)]
    fn encode<A: Allocator>(&self, sink: &mut Vec<u8, A>) -> Result<(), Fault> {
        match self {
            None => encode_byte(0x00, sink),
            Some(value) => Tagged(0x01, value).encode(sink),
        }
    }
}

/// Encodes one value, then the other. Fails with the first error met.
impl<T: Encode, U: Encode> Encode for (T, U) {
    ghost piece = { λ p. in_order (T.piece p.0) (U.piece p.1) };

    ghost unfinished = { λ p. T.unfinished p.0 };

    #[inline(always)]
    fn encode<A: Allocator>(&self, sink: &mut Vec<u8, A>) -> Result<(), Fault> {
        let start = sink.len();
        if let Err(fault) = self.0.encode(sink) {
            return Err(fault);
        }
        match self.1.encode(sink) {
            Ok(()) => Ok(()),
            Err(fault) => cut(sink, start, fault),
        }
    }
}

/// Encodes three values in order. Fails with the first error met.
impl<T: Encode, U: Encode, V: Encode> Encode for (T, U, V) {
    ghost piece = { λ t. in_order (T.piece t.0) (in_order (U.piece t.1) (V.piece t.2)) };

    ghost unfinished = { λ t. T.unfinished t.0 };

    #[inline(always)]
    fn encode<A: Allocator>(&self, sink: &mut Vec<u8, A>) -> Result<(), Fault> {
        let start = sink.len();
        if let Err(fault) = self.0.encode(sink) {
            return Err(fault);
        }
        if let Err(fault) = self.1.encode(sink) {
            return cut(sink, start, fault);
        }
        match self.2.encode(sink) {
            Ok(()) => Ok(()),
            Err(fault) => cut(sink, start, fault),
        }
    }
}

/// A borrowed value, encoded as the value itself.
#[derive(Clone, Copy)]
pub struct ByRef<'a, T>(pub &'a T);

impl<'a, T: Encode> Encode for ByRef<'a, T> {
    ghost piece = { λ l. T.piece l.0.now };

    ghost unfinished = { λ l. T.unfinished l.0.now };

    #[inline(always)]
    fn encode<A: Allocator>(&self, sink: &mut Vec<u8, A>) -> Result<(), Fault> {
        self.0.encode(sink)
    }
}

/// Bytes that are written unchanged.
#[derive(Clone, Copy)]
pub struct Verbatim<'a>(pub &'a [u8]);

impl<'a> Encode for Verbatim<'a> {
    ghost piece = { λ v. verbatim v.0.now };

    #[inline(always)]
    fn encode<A: Allocator>(&self, sink: &mut Vec<u8, A>) -> Result<(), Fault> {
        match self.0 {
            [] => Ok(()),
            [byte] => encode_byte(*byte, sink),
            bytes => {
                sink.extend_from_slice(bytes)?;
                Ok(())
            }
        }
    }
}
