//! `Holder`, the storage of counted sections and types: the number of their members, and the
//! members' encodings.
ghost use Rattle.std.specs.Prelude.{◌≡◌, ◌+◌, ◌-◌, ◌<◌, ◌≤◌, ◌^◌, ◌⊎◌, ◌++◌, length, OnOk, OnErr};
ghost use Rattle.std.specs.Prelude.{IfOk, IfErr, true, false, take, drop, List, ℕ, Err};
ghost use Rattle.std.specs.Iterator.{IsFinite};
ghost use Rattle.std.specs.Iterator.Runs.{SomeRun, WholeRun};
ghost use Rattle.wenc_base.specs.Prelude.{Appends, Appended, IsWarranted, IsMemory, no_members};
ghost use Rattle.wenc_base.specs.Prelude.{all_bytes, holding, is_finished, content_size};
ghost use Rattle.wenc_base.specs.Prelude.{section_text, cut_to, OneMoreCause, AddsMember};
ghost use Rattle.wenc_base.specs.Prelude.{AddsListed, listed, held_members, held_section};
ghost use Rattle.wenc_base.specs.Prelude.{EncodeCause, ExtendsListed, member_appended};
ghost use Rattle.wenc_base.specs.Prelude.{no_room_in_holder, verbatim, Fault as FaultSpec};
ghost use Rattle.wenc_base.specs.declared.fault.Fault.TheVariants.{TooLarge, Unfinished};

mod kept;
mod openings;

use crate::encode::{Encode, Verbatim, cut_apart, encode_list, extend_in_room};
use crate::fault::Fault;
use crate::number::encoding_size;
use crate::short::Short;
use openings::{Opening, keep_in_room};
use std::alloc::{Allocator, Global};
use std::marker::Model;

/// The largest size that can be encoded: that of a counted section, its count included.
const LIMIT: u64 = 4294967295;

/// Returns the size of a section with `count` members whose encodings have `body` bytes in total:
/// the bytes of the encoded count, and `body`. Does not allocate.
///
/// # Errors
///
/// Fails only with `TooLarge`, if the size would exceed 4294967295.
pub fn section_size(count: u32, body: u64) -> Result<u32, Fault>
    ensures ok { IfOk result (λ size. (size ≡ content_size count body) × (size < 2 ^ 32)) }
    ensures refused { IfErr result (λ fault.
        (fault ≡ TooLarge) × (2 ^ 32 ≤ content_size count body)) }
{
    let lead = encoding_size(count) as u64;
    if LIMIT - lead < body {
        return Err(Fault::TooLarge);
    }
    Ok((lead + body) as u32)
}

/// The number of members of a counted section or type, and the members' encodings, concatenated.
///
/// A call that fails leaves the holder unchanged.
///
/// ```
/// let mut holder = Holder::new(alloc);
/// holder.add_encoded(&("f", 0u32))?;
/// let mut sink = Vec::new(alloc);
/// holder.encode_section(&mut sink)?;
/// ```
#[derive(Drop)]
pub struct Holder<A: Allocator = Global> {
    /// The kept prefix, then the encodings of the members.
    bytes: Vec<u8, A>,
    kept: usize,
    count: u32,
    /// Where the last member begins, while it is open.
    opening: Option<Opening>,
}

impl<A: Allocator> Model for Holder<A> {
    ghost use Rattle.std.specs.Prelude.{◌<◌, ◌≤◌, ◌^◌, length, take, drop, IfSome};
    ghost use Rattle.wenc_base.specs.Prelude.{HolderState, content_size};

    ghost Value = { HolderState };

    ghost view = { λ h. record {
      kept = take h.kept h.bytes.items;
      count = h.count;
      body = drop h.kept h.bytes.items;
      opening = h.opening;
    } };

    ghost invariant = { λ h. (h.kept ≤ length h.bytes.items) ×
        (content_size h.count (length (drop h.kept h.bytes.items)) < 2 ^ 32) ×
        IfSome h.opening (λ o. o.member_start < 2 ^ 32) };
}

impl<A: Allocator> Holder<A> {
    /// Creates a holder without members. Does not allocate.
    #[tactic(auto, using(crate::proofs::Groups::size_1))]
    pub fn new(alloc: A) -> Self
        ensures { result ≡ no_members }
    {
        Holder {
            bytes: Vec::new(alloc),
            kept: 0,
            count: 0,
            opening: None,
        }
    }

    /// Creates a holder from bytes of which the first `kept` are the kept prefix, and the others
    /// are the encodings of `count` members. Does not allocate.
    ///
    /// `kept` is at most the number of bytes, and the section of the members has to have at most
    /// 4294967295 bytes after its size.
    pub fn over(bytes: Vec<u8, A>, kept: usize, count: u32) -> Self
        requires within { kept ≤ length bytes.items }
        requires fits { content_size count (length (drop kept bytes.items)) < 2 ^ 32 }
        ensures { result ≡ holding (take kept bytes.items) count (drop kept bytes.items) }
    {
        Holder {
            bytes,
            kept,
            count,
            opening: None,
        }
    }

    /// Returns all bytes, the length of the kept prefix, the number of members, and whether the
    /// holder is finished.
    pub fn into_parts(self) -> (Vec<u8, A>, usize, u32, bool)
        ensures bytes { result.0.items ≡ all_bytes self }
        ensures kept { result.1 ≡ length self.kept }
        ensures count { result.2 ≡ self.count }
        ensures finished { result.3 ≡ is_finished self }
        ensures fits { content_size self.count (length self.body) < 2 ^ 32 }
    {
        let finished = self.is_finished();
        let Holder {
            bytes,
            kept,
            count,
            opening: _,
        } = self;
        (bytes, kept, count, finished)
    }

    /// Returns the number of members, an open one included.
    pub fn len(&self) -> u32
        ensures count { result ≡ self.now.count }
        ensures fits { content_size self.now.count (length self.now.body) < 2 ^ 32 }
    {
        self.count
    }

    /// Returns the encodings of the members, concatenated.
    pub fn as_slice(&self) -> &[u8]
        ensures { result.now ≡ self.now.body }
    {
        &self.bytes[self.kept..]
    }

    /// Returns whether no member is open.
    pub fn is_finished(&self) -> bool
        ensures { result ≡ is_finished self.now }
    {
        self.opening.is_none()
    }

    /// Returns a copy of the holder.
    ///
    /// # Errors
    ///
    /// Fails only if an allocation fails.
    pub fn clone(&self) -> Result<Self, Fault>
    where
        A: Clone,
        ensures same { IfOk result (λ h. h ≡ self.now) }
        ensures refused { IfErr result IsMemory }
    {
        let mut bytes = Vec::new(self.bytes.allocator().clone()?);
        bytes.extend_from_slice(self.bytes.as_slice())?;
        Ok(Holder {
            bytes,
            kept: self.kept,
            count: self.count,
            opening: self.opening,
        })
    }

    /// Adds a member with this encoding, unchanged.
    ///
    /// # Errors
    ///
    /// Fails with `Unfinished` while a member is open, with `TooMany` if the number of members
    /// would exceed 4294967295, and with `TooLarge` if the size of their section would.
    pub fn add(&mut self, text: &[u8]) -> Result<(), Fault>
        ensures { AddsMember (verbatim text.now) self.old self.new result }
    {
        self.add_encoded(&Verbatim(text))
    }

    /// Adds a member with the encoding of this value.
    ///
    /// # Errors
    ///
    /// Fails as `add` does, or as the value's `encode` does.
    pub fn add_encoded<E: Encode>(&mut self, value: &E) -> Result<(), Fault>
        ensures added { AddsMember (E.piece value.now) self.old self.new result }
        ensures unfinished_value { E.unfinished value.now → result ≡ Err Unfinished }
    {
        if !self.is_finished() {
            return Err(Fault::Unfinished);
        }
        let start = self.bytes.len();
        match value.encode(&mut self.bytes) {
            Ok(()) => end_member(&mut self.bytes, self.kept, start, &mut self.count),
            Err(fault) => Err(fault),
        }
    }

    /// Adds a member: the encoding of `lead`, the values as a list, the encoding of `tail`.
    ///
    /// The member is open until the call returns.
    ///
    /// # Errors
    ///
    /// Fails as `add` does, or as encoding `lead`, the values or `tail` does.
    pub fn add_listed<E: Encode, T: Encode + Drop, I: Iterator<Item = T> + Drop, F: Encode>(
        &mut self,
        lead: &E,
        values: I,
        tail: &F,
    ) -> Result<(), Fault>
        requires can { I.can_next values }
        requires ends { IsFinite (I.remaining values) }
        ensures added { AddsListed I.next_gives values
            (listed (E.piece lead.now) T.piece (F.piece tail.now)) self.old self.new result }
        ensures unfinished_lead { E.unfinished lead.now → result ≡ Err Unfinished }
    {
        if !self.is_finished() {
            return Err(Fault::Unfinished);
        }
        if let Err(fault) = self.open(&[]) {
            return Err(self.refusal_of_lead(lead, fault));
        }
        match self.append_between(lead, values, tail) {
            Ok(()) => {
                self.finish_member();
                Ok(())
            }
            Err(fault) => {
                self.discard_unfinished();
                Err(fault)
            }
        }
    }

    /// Appends the encoding of `lead`, the values as a list, and the encoding of `tail` to the open
    /// member. There has to be one.
    ///
    /// # Errors
    ///
    /// Fails as `append` does, or as encoding `lead`, the values or `tail` does.
    pub fn append_between<E: Encode, T: Encode + Drop, I: Iterator<Item = T> + Drop, F: Encode>(
        &mut self,
        lead: &E,
        values: I,
        tail: &F,
    ) -> Result<(), Fault>
        requires unfinished { is_finished self.old ≡ false }
        requires can { I.can_next values }
        requires ends { IsFinite (I.remaining values) }
        ensures appended { ExtendsListed I.next_gives values self.old self.new result
            (member_appended self.old) (no_room_in_holder self.old)
            (listed (E.piece lead.now) T.piece (F.piece tail.now)) }
        ensures unfinished_lead { E.unfinished lead.now → result ≡ Err Unfinished }
    {
        let start = self.bytes.len();
        let written = encode_listed(lead, values, tail, &mut self.bytes);
        keep_written(written, &mut self.bytes, self.kept, start, self.count)
    }

    /// Returns the error for a member that can't be opened: that of encoding its lead, if there is
    /// one, else `fault`.
    #[cold]
    #[inline(never)]
    fn refusal_of_lead<E: Encode>(&mut self, lead: &E, fault: Fault) -> Fault
        ensures same { self.new ≡ self.old }
        ensures returned { (result ≡ fault) ⊎ IsWarranted (E.piece lead.now).Cause result }
        ensures unfinished_lead { E.unfinished lead.now → result ≡ Unfinished }
    {
        let start = self.bytes.len();
        match lead.encode(&mut self.bytes) {
            Ok(()) => {
                self.bytes.truncate(start);
                fault
            }
            Err(first) => first,
        }
    }

    /// Removes the last members, so that `len` remain, in the first `bytes` bytes of their
    /// encodings. Does not allocate.
    ///
    /// The holder has to be finished, and neither argument may exceed what it has. Nothing checks
    /// that `bytes` is where a member ends.
    pub fn cut_back(&mut self, len: u32, bytes: usize)
        requires finished { is_finished self.old ≡ true }
        requires within { (len ≤ self.old.count) × (bytes ≤ length self.old.body) }
        ensures { self.new ≡ cut_to self.old len bytes }
    {
        // 32 bits: an offset in the vector.
        self.bytes.truncate(self.kept + bytes);
        self.count = len;
    }

    /// Appends the section's size, the number of members, and their encodings.
    ///
    /// # Errors
    ///
    /// Fails with `Unfinished` while a member is open, else only if an allocation fails.
    #[tactic(auto, using(crate::proofs::Groups::size_of_u32))]
    pub fn encode_section<B: Allocator>(&self, sink: &mut Vec<u8, B>) -> Result<(), Fault>
        ensures appended { Appends (section_text self.now) (EncodeCause self.now)
            (is_finished self.now ≡ false) sink.old.items sink.new.items result }
        ensures fits { OnOk result (held_section self.now).Fits }
    {
        if !self.is_finished() {
            return Err(Fault::Unfinished);
        }
        let body = self.as_slice();
        let size = section_size(self.count, body.len() as u64)?;
        let mut lead = Short::new();
        lead.unsigned(u64::from(size));
        lead.unsigned(u64::from(self.count));
        let lead = lead.as_slice();
        // 32 bits: a slice has less than 2^31 bytes.
        sink.try_reserve(lead.len() + body.len())?;
        extend_in_room(sink, lead);
        extend_in_room(sink, body);
        Ok(())
    }
}

/// Encodes the number of members, then the members. Fails with `Unfinished` while a member is open,
/// else only if an allocation fails.
impl<A: Allocator> Encode for Holder<A> {
    ghost piece = { held_members };

    ghost unfinished = { λ h. is_finished h ≡ false };

    fn encode<B: Allocator>(&self, sink: &mut Vec<u8, B>) -> Result<(), Fault> {
        if !self.is_finished() {
            return Err(Fault::Unfinished);
        }
        (self.count, Verbatim(self.as_slice())).encode(sink)
    }
}

/// Appends the encodings of a value, a list of values, and another value, and stops at the first
/// error.
fn encode_listed<
    E: Encode,
    T: Encode + Drop,
    I: Iterator<Item = T> + Drop,
    F: Encode,
    A: Allocator,
>(lead: &E, values: I, tail: &F, sink: &mut Vec<u8, A>) -> Result<(), Fault>
    requires can { I.can_next values }
    requires ends { IsFinite (I.remaining values) }
    ensures ok { OnOk result (WholeRun I.next_gives values (λ run.
        Appended sink.old.items (listed (E.piece lead.now) T.piece (F.piece tail.now) run.items)
        sink.new.items)) }
    ensures err { OnErr result ((more : List ℕ) × (sink.new.items ≡ sink.old.items ++ more)) }
    ensures warranted { IfErr result (λ fault. SomeRun I.next_gives values (λ run. IsWarranted
        (listed (E.piece lead.now) T.piece (F.piece tail.now) run.items).Cause fault)) }
    ensures unfinished_first { E.unfinished lead.now → result ≡ Err Unfinished }
{
    if let Err(fault) = lead.encode(sink) {
        return Err(fault);
    }
    match encode_list(values, sink) {
        Ok(()) => tail.encode(sink),
        Err(fault) => Err(fault),
    }
}

/// Keeps what was written from `start` on, or removes it and fails, if that failed or if there is
/// no room for it.
#[inline]
fn keep_written<A: Allocator>(
    written: Result<(), Fault>,
    bytes: &mut Vec<u8, A>,
    kept: usize,
    start: usize,
    count: u32,
) -> Result<(), Fault>
    requires { (kept ≤ start) × (start ≤ length bytes.old.items) }
    ensures failed { IfErr written (λ fault. result ≡ Err fault) }
    ensures fits { OnOk result (content_size count (length (drop kept bytes.old.items)) < 2 ^ 32) }
    ensures same { OnOk result (bytes.new.items ≡ bytes.old.items) }
    ensures err { OnErr result (bytes.new.items ≡ take start bytes.old.items) }
    ensures warranted { OnOk written (IfErr result (λ fault. (fault ≡ TooLarge)
        × (2 ^ 32 ≤ content_size count (length (drop kept bytes.old.items))))) }
{
    match written {
        Ok(()) => keep_in_room(bytes, kept, start, count),
        Err(fault) => cut_apart(bytes, start, fault),
    }
}

/// Counts a member that was written from `start` on. If there is no room for it, removes it and
/// fails.
fn end_member<A: Allocator>(
    bytes: &mut Vec<u8, A>,
    kept: usize,
    start: usize,
    count: &mut u32,
) -> Result<(), Fault>
    requires { (kept ≤ start) × (start ≤ length bytes.old.items) }
    ensures counted { OnOk result (count.new ≡ count.old + 1) }
    ensures fits { OnOk result
        (content_size count.new (length (drop kept bytes.old.items)) < 2 ^ 32) }
    ensures same { OnOk result (bytes.new.items ≡ bytes.old.items) }
    ensures err { OnErr result (bytes.new.items ≡ take start bytes.old.items) }
    ensures uncounted { OnErr result (count.new ≡ count.old) }
    ensures free { (fault : FaultSpec)
        → OneMoreCause count.old (length (drop kept bytes.old.items)) fault → OnOk result ⊥ }
    ensures warranted { IfErr result (OneMoreCause count.old (length (drop kept bytes.old.items))) }
{
    match next_count(*count, bytes.len() - kept) {
        Ok(next) => {
            *count = next;
            Ok(())
        }
        Err(fault) => cut_apart(bytes, start, fault),
    }
}

/// Returns the number of members with one more, when their encodings then have `body` bytes in
/// total.
#[inline]
pub(crate) fn next_count(count: u32, body: usize) -> Result<u32, Fault>
    ensures ok { IfOk result (λ next. (next ≡ count + 1) × (content_size next body < 2 ^ 32)) }
    ensures free { (fault : FaultSpec) → OneMoreCause count body fault → OnOk result ⊥ }
    ensures warranted { IfErr result (OneMoreCause count body) }
{
    let Some(next) = count.checked_add(1) else {
        return Err(Fault::TooMany);
    };
    size_fits(next, body as u64)?;
    Ok(next)
}

/// Fails with `TooLarge`, and no other error, if a section would be too large. Fast path: far below
/// the limit.
#[tactic(auto, using(crate::proofs::Groups::size_of_u32))]
#[inline]
pub(crate) fn size_fits(count: u32, body: u64) -> Result<(), Fault>
    ensures ok { OnOk result (content_size count body < 2 ^ 32) }
    ensures refused { IfErr result (λ fault.
        (fault ≡ TooLarge) × (2 ^ 32 ≤ content_size count body)) }
{
    if body <= LIMIT - 5 {
        return Ok(());
    }
    large_fits(count, body)
}

/// Fails with `TooLarge`, and no other error, if a section would be too large, by its exact size.
#[cold]
#[inline(never)]
fn large_fits(count: u32, body: u64) -> Result<(), Fault>
    ensures ok { OnOk result (content_size count body < 2 ^ 32) }
    ensures refused { IfErr result (λ fault.
        (fault ≡ TooLarge) × (2 ^ 32 ≤ content_size count body)) }
{
    section_size(count, body)?;
    Ok(())
}
