//! The kept prefix of a holder: bytes before its members.
ghost use Rattle.std.specs.Prelude.{◌≡◌, ◌+◌, ◌-◌, ◌<◌, ◌≤◌, ◌^◌, ◌++◌, [], true, false, length};
ghost use Rattle.std.specs.Prelude.{take, drop, vec_len, vec_capacity, OnOk, OnErr, IfOk, IfErr};
ghost use Rattle.wenc_base.specs.Prelude.{Appends, IsMemory, IsWarranted, either, NoCause};
ghost use Rattle.wenc_base.specs.Prelude.{AreBytes, is_finished, holding, gone_back, content_size};
ghost use Rattle.wenc_base.specs.Prelude.{all_bytes, with_kept, filled, EncodeCause};
ghost use Rattle.wenc_base.specs.declared.fault.Fault.TheVariants.{Unfinished};

use super::Holder;
use crate::encode::{Encode, extend_in_room};
use crate::fault::Fault;
use std::alloc::Allocator;

/// The kept prefix: bytes before the members, for callers that store several sections in one
/// vector.
impl<A: Allocator> Holder<A> {
    /// Returns the length of the kept prefix.
    pub fn kept_len(&self) -> usize
        ensures { result ≡ length self.now.kept }
    {
        self.kept
    }

    /// Returns the kept prefix.
    pub fn kept(&self) -> &[u8]
        ensures { result.now ≡ self.now.kept }
    {
        &self.bytes[..self.kept]
    }

    /// Moves the members into the kept prefix, appends the encoding of `more` to it, and leaves the
    /// holder without members. Returns the total number of bytes before the call.
    ///
    /// # Errors
    ///
    /// Fails with `Unfinished` while a member is open, else as encoding `more` does. The holder is
    /// then unchanged.
    pub fn keep_all<E: Encode>(&mut self, more: &E) -> Result<usize, Fault>
        ensures ok { OnOk result (self.new ≡ holding
            (all_bytes self.old ++ (E.piece more.now).text) 0 []) }
        ensures fits { OnOk result (E.piece more.now).Fits }
        ensures bytes { OnOk result (AreBytes (E.piece more.now).text) }
        ensures before { IfOk result (λ len. len ≡ length (all_bytes self.old)) }
        ensures finished { OnOk result (is_finished self.old ≡ true) }
        ensures free { OnOk result (NoCause (E.piece more.now).Cause) }
        ensures err { OnErr result (self.new ≡ self.old) }
        ensures warranted { IfErr result (IsWarranted
            (either (E.piece more.now).Cause (EncodeCause self.old))) }
        ensures unfinished_first { is_finished self.old ≡ false → result ≡ Err Unfinished }
        ensures unfinished_value { E.unfinished more.now → result ≡ Err Unfinished }
    {
        if !self.is_finished() {
            return Err(Fault::Unfinished);
        }
        let len = self.bytes.len();
        append(more, &mut self.bytes)?;
        self.kept = self.bytes.len();
        self.count = 0;
        Ok(len)
    }

    /// Moves the members into the kept prefix, replaces its bytes from `start` to `end` by `head`,
    /// which isn't longer, and appends `lead` and `bytes`. The holder is left without members.
    ///
    /// The holder has to be finished. `start` and `end` are byte offsets into all its bytes.
    /// `bytes` is copied once, to its final position.
    ///
    /// # Errors
    ///
    /// Fails only if an allocation fails; the holder is then unchanged.
    pub fn keep_bytes(
        &mut self,
        start: usize,
        end: usize,
        head: &[u8],
        lead: &[u8],
        bytes: &[u8],
    ) -> Result<(), Fault>
        requires finished { is_finished self.old ≡ true }
        requires within { (start ≤ end) × (end ≤ length (all_bytes self.old)) }
        requires short { length head.now ≤ end - start }
        ensures ok { OnOk result (self.new ≡ holding
            (filled (all_bytes self.old) start end head.now ++ (lead.now ++ bytes.now)) 0 []) }
        ensures err { OnErr result (self.new ≡ self.old) }
        ensures refused { IfErr result IsMemory }
    {
        // 32 bits: each slice has less than 2^31 bytes.
        self.bytes.try_reserve(lead.len() + bytes.len())?;
        fill(&mut self.bytes, start, end, head);
        extend_in_room(&mut self.bytes, lead);
        extend_in_room(&mut self.bytes, bytes);
        self.kept = self.bytes.len();
        self.count = 0;
        Ok(())
    }

    /// Goes back to the first `len` bytes, of which the first `kept` are the kept prefix, and the
    /// others are the encodings of `count` members. Does not allocate.
    ///
    /// The holder has to be finished, and the section of the members has to have at most 4294967295
    /// bytes after its size.
    pub fn go_back(&mut self, kept: usize, len: usize, count: u32)
        requires finished { is_finished self.old ≡ true }
        requires within { (kept ≤ len) × (len ≤ length (all_bytes self.old)) }
        requires fits { content_size count (len - kept) < 2 ^ 32 }
        ensures { self.new ≡ gone_back self.old kept len count }
    {
        self.bytes.truncate(len);
        self.kept = kept;
        self.count = count;
    }

    /// Replaces the bytes from `start` to `end` of the kept prefix by `bytes`, which isn't longer.
    /// Does not allocate.
    #[inline]
    pub fn fill_kept(&mut self, start: usize, end: usize, bytes: &[u8])
        requires within { (start ≤ end) × (end ≤ length self.old.kept) }
        requires short { length bytes.now ≤ end - start }
        ensures { self.new ≡ with_kept self.old (filled self.old.kept start end bytes.now) }
    {
        fill(&mut self.bytes, start, end, bytes);
        self.kept -= end - start - bytes.len();
    }
}

/// Appends the encoding of a value. Its elements are bytes, as all that a vector of bytes contains.
#[inline]
fn append<E: Encode, A: Allocator>(value: &E, sink: &mut Vec<u8, A>) -> Result<(), Fault>
    ensures appended { Appends (E.piece value.now).text (E.piece value.now).Cause
        (E.unfinished value.now) sink.old.items sink.new.items result }
    ensures fits { OnOk result (E.piece value.now).Fits }
    ensures bytes { OnOk result (AreBytes (E.piece value.now).text) }
{
    value.encode(sink)
}

/// Replaces the bytes from `start` to `end` by `head`; the bytes after them move up to it.
#[inline]
fn fill<A: Allocator>(bytes: &mut Vec<u8, A>, start: usize, end: usize, head: &[u8])
    requires within { (start ≤ end) × (end ≤ length bytes.old.items) }
    requires short { length head.now ≤ end - start }
    ensures items { bytes.new.items ≡ filled bytes.old.items start end head.now }
    ensures len { vec_len bytes.new ≤ vec_len bytes.old }
    ensures capacity { vec_capacity bytes.old ≤ vec_capacity bytes.new }
{
    if start == end {
        return;
    }
    let spare = end - start - head.len();
    let len = bytes.len();
    move_up(bytes.as_mut_slice(), start, end, head);
    bytes.truncate(len - spare);
}

/// Replaces the bytes from `start` to `end` of a slice by `head`; the bytes after them move up to
/// it, and the last bytes of the slice become unused.
#[tactic(auto, using(crate::proofs::Kept::filled))]
#[inline]
fn move_up(bytes: &mut [u8], start: usize, end: usize, head: &[u8])
    requires within { (start ≤ end) × (end ≤ length bytes.old) }
    requires short { length head.now ≤ end - start }
    ensures { take (length bytes.old - (end - start - length head.now)) bytes.new
        ≡ take start bytes.old ++ (head.now ++ drop end bytes.old) }
{
    // 32 bits: an offset in the slice.
    let to = start + head.len();
    bytes[start..to].copy_from_slice(head);
    let len = bytes.len();
    bytes.copy_within(end..len, to);
}
