//! Members that are written in several calls.
ghost use Rattle.std.specs.Prelude.{◌≡◌, ◌≤◌, ◌<◌, ◌^◌, [], false, length, take, drop, OnOk, OnErr};
ghost use Rattle.std.specs.Prelude.{IfErr};
ghost use Rattle.wenc_base.specs.Prelude.{list, verbatim, behind_bytes, is_finished, content_size};
ghost use Rattle.wenc_base.specs.Prelude.{AddCause, ExtendsListed, GivesUp, member_appended};
ghost use Rattle.wenc_base.specs.Prelude.{member_ended, member_given_up, no_room_in_holder};
ghost use Rattle.wenc_base.specs.Prelude.{is_opened, BeginsMember, AppendsToMember};
ghost use Rattle.wenc_base.specs.declared.fault.Fault.TheVariants.{TooLarge, Unfinished};
ghost use Rattle.std.specs.Iterator.{IsFinite};

use super::{Holder, next_count, size_fits};
use crate::encode::{Encode, Verbatim};
use crate::fault::Fault;
use std::alloc::Allocator;

/// An open member: one that is being written.
#[derive(Clone, Copy)]
pub struct Opening {
    /// Where the member begins, as an offset into the members' bytes.
    pub member_start: usize,
    /// Where the member's lead ends, as an offset into the members' bytes.
    pub lead_end: usize,
}

/// A member that is written in several calls. From `open` on the holder is unfinished, until the
/// member is ended (`close`, `finish_member`) or discarded (`discard_unfinished`).
impl<A: Allocator> Holder<A> {
    /// Opens a member that begins with these bytes. With an empty `lead` this doesn't allocate.
    ///
    /// # Errors
    ///
    /// Fails as `add` does.
    pub fn open(&mut self, lead: &[u8]) -> Result<(), Fault>
        ensures opened { BeginsMember self.old self.new result lead.now }
        ensures no_memory { lead.now ≡ [] → IfErr result (AddCause self.old [] (λ _. ⊥)) }
    {
        if self.opening.is_some() {
            return Err(Fault::Unfinished);
        }
        let member_start = self.bytes.len() - self.kept;
        // 32 bits: the vector and the slice have less than 2^31 bytes each.
        let lead_end = member_start + lead.len();
        let next = next_count(self.count, lead_end)?;
        if !lead.is_empty() {
            self.bytes.extend_from_slice(lead)?;
        }
        self.count = next;
        self.opening = Some(Opening {
            member_start,
            lead_end,
        });
        Ok(())
    }

    /// Returns whether a member is open that consists of its lead alone.
    pub fn is_opened(&self) -> bool
        ensures { result ≡ is_opened self.now }
    {
        match self.opening {
            Some(opening) => self.bytes.len() - self.kept == opening.lead_end,
            None => false,
        }
    }

    /// Appends these bytes to the open member. There has to be one.
    ///
    /// # Errors
    ///
    /// Fails with `TooLarge` if the size of the members' section would exceed 4294967295. The
    /// holder is then unchanged.
    pub fn append(&mut self, text: &[u8]) -> Result<(), Fault>
        requires { is_finished self.old ≡ false }
        ensures { AppendsToMember self.old self.new (member_appended self.old text.now) result
            (verbatim text.now) }
    {
        self.append_encoded(&Verbatim(text))
    }

    /// Appends the encoding of this value to the open member. There has to be one.
    ///
    /// # Errors
    ///
    /// Fails as `append` does, or as the value's `encode` does.
    #[inline(always)]
    pub fn append_encoded<E: Encode>(&mut self, value: &E) -> Result<(), Fault>
        requires { is_finished self.old ≡ false }
        ensures appended { AppendsToMember self.old self.new
            (member_appended self.old (E.piece value.now).text) result (E.piece value.now) }
        ensures unfinished_value { E.unfinished value.now → result ≡ Err Unfinished }
    {
        let start = self.bytes.len();
        match value.encode(&mut self.bytes) {
            Ok(()) => keep_in_room(&mut self.bytes, self.kept, start, self.count),
            Err(fault) => Err(fault),
        }
    }

    /// Appends these bytes to the open member, then the values as a list. There has to be an open
    /// member.
    ///
    /// # Errors
    ///
    /// Fails as `append` does, or as encoding the values does.
    pub fn append_listed<T: Encode + Drop, I: Iterator<Item = T> + Drop>(
        &mut self,
        lead: &[u8],
        values: I,
    ) -> Result<(), Fault>
        requires unfinished { is_finished self.old ≡ false }
        requires can { I.can_next values }
        requires ends { IsFinite (I.remaining values) }
        ensures { ExtendsListed I.next_gives values self.old self.new result
            (member_appended self.old) (no_room_in_holder self.old)
            (λ vs. behind_bytes lead.now (list T.piece vs)) }
    {
        self.append_between(&Verbatim(lead), values, &())
    }

    /// Appends the last bytes of the open member and ends it. There has to be an open member.
    ///
    /// # Errors
    ///
    /// Fails as `append` does; the member then stays open.
    pub fn close(&mut self, text: &[u8]) -> Result<(), Fault>
        requires { is_finished self.old ≡ false }
        ensures { AppendsToMember self.old self.new
            (member_ended (member_appended self.old text.now)) result
            (verbatim text.now) }
    {
        self.append(text)?;
        self.finish_member();
        Ok(())
    }

    /// Ends the open member, if there is one. Does not allocate.
    pub fn finish_member(&mut self)
        ensures { self.new ≡ member_ended self.old }
    {
        self.opening = None;
    }

    /// Discards the open member, and returns whether there was one. The holder is then as it was
    /// before `open`. Does not allocate.
    pub fn discard_unfinished(&mut self) -> bool
        ensures { GivesUp self.new (member_given_up self.old) (is_finished self.old) result }
    {
        match self.opening {
            Some(opening) => {
                // 32 bits: an offset in the vector.
                self.bytes.truncate(self.kept + opening.member_start);
                self.count = self.count.saturating_sub(1);
                self.opening = None;
                true
            }
            None => false,
        }
    }
}

/// Removes what was written from `start` on and fails, if there is no room for it.
pub(super) fn keep_in_room<A: Allocator>(
    bytes: &mut Vec<u8, A>,
    kept: usize,
    start: usize,
    count: u32,
) -> Result<(), Fault>
    requires { (kept ≤ start) × (start ≤ length bytes.old.items) }
    ensures fits { OnOk result (content_size count (length (drop kept bytes.old.items)) < 2 ^ 32) }
    ensures same { OnOk result (bytes.new.items ≡ bytes.old.items) }
    ensures err { OnErr result (bytes.new.items ≡ take start bytes.old.items) }
    ensures warranted { IfErr result (λ fault. (fault ≡ TooLarge)
        × (2 ^ 32 ≤ content_size count (length (drop kept bytes.old.items)))) }
{
    if let Err(fault) = size_fits(count, (bytes.len() - kept) as u64) {
        bytes.truncate(start);
        return Err(fault);
    }
    Ok(())
}
