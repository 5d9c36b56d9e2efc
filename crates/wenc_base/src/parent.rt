//! The trait `Parent`: the parents of encoders, which are a holder, or a type, a section or a
//! builder that contains one.
ghost use Rattle.std.specs.Iterator.{IsFinite};
ghost use Rattle.std.specs.Prelude.{◌≡◌, ℕ, List, ◌++◌, Bool, true, false};
ghost use Rattle.wenc_base.specs.Prelude.{list, Extends, ExtendsListed, Ends, EndsListed};
ghost use Rattle.wenc_base.specs.Prelude.{MakesWhole, behind_bytes, Fault as FaultSpec};
ghost use Rattle.wenc_base.specs.Prelude.{is_finished, member_appended, member_ended};
ghost use Rattle.wenc_base.specs.Prelude.{no_room_in_holder, is_opened, opened_is_unfinished};
ghost use Rattle.wenc_base.specs.Prelude.{member_appended_twice};
ghost use Rattle.wenc_base.specs.declared.fault.Fault.TheVariants.{Unfinished};

use crate::encode::Encode;
use crate::fault::Fault;
use crate::holder::Holder;
use std::alloc::Allocator;

/// The parent of an encoder: a value with an open member, which the encoder borrows and writes.
///
/// Only a complete member can be ended: the caller of `end_member` proves that the bytes written
/// form a member of the kind that was opened.
pub trait Parent {
    /// No member is open.
    ghost finished: { Self → Bool };

    /// A member is open that consists of its lead alone.
    ghost opened: { Self → Bool };

    /// The parent with these bytes appended to the open member.
    ghost appended: { Self → List ℕ → Self };

    /// The bytes written since the member was opened form a complete member of its kind.
    ghost is_whole: { Self → Type 0 };

    /// The parent with the member ended.
    ghost ended: { Self → Self };

    /// Why these bytes can't be appended to the member.
    ghost refuses: { Self → List ℕ → FaultSpec → Type 0 };

    /// A member that consists of its lead alone is open.
    ghost begins: { (x : Self) → opened x ≡ true → finished x ≡ false };

    /// The member stays open when bytes are appended.
    ghost stays: { (x : Self) (text : List ℕ)
        → finished x ≡ false → finished (appended x text) ≡ false };

    /// Appending twice appends the concatenation.
    ghost joins: { (x : Self) (text more : List ℕ)
        → appended (appended x text) more ≡ appended x (text ++ more) };

    /// Appends the encoding of a value to the open member. If it fails, nothing changes.
    fn append_value<E: Encode>(&mut self, value: &E) -> Result<(), Fault>
        requires { finished self.old ≡ false }
        ensures appended { Extends self.old self.new
            (Self.appended self.old (E.piece value.now).text) result (E.piece value.now)
            (refuses self.old (E.piece value.now).text) }
        ensures unfinished_value { E.unfinished value.now → result ≡ Err Unfinished };

    /// Appends these bytes to the open member, then the values as a list. If it fails, nothing
    /// changes.
    fn append_list<T: Encode + Drop, I: Iterator<Item = T> + Drop>(
        &mut self,
        lead: &[u8],
        values: I,
    ) -> Result<(), Fault>
        requires unfinished { finished self.old ≡ false }
        requires can { I.can_next values }
        requires ends { IsFinite (I.remaining values) }
        ensures { ExtendsListed I.next_gives values self.old self.new result (appended self.old)
            (refuses self.old) (λ vs. behind_bytes lead.now (list T.piece vs)) };

    /// Ends the open member, which is complete. Does not allocate.
    fn end_member(&mut self)
        requires { ∥ is_whole self.old ∥₁ }
        ensures { self.new ≡ ended self.old };

    /// Appends the encoding of a value to the open member, which completes it, and ends it. If it
    /// fails, nothing changes.
    fn end_with<E: Encode>(&mut self, value: &E) -> Result<(), Fault>
        requires unfinished { finished self.old ≡ false }
        requires whole { MakesWhole is_whole appended self.old (E.piece value.now) }
        ensures ended { Ends appended Self.ended refuses self.old self.new result
            (E.piece value.now) }
        ensures unfinished_value { E.unfinished value.now → result ≡ Err Unfinished }
    {
        match self.append_value(value) {
            Ok(()) => {
                self.end_member();
                Ok(())
            }
            Err(fault) => Err(fault),
        }
    }

    /// Appends these bytes to the open member, then the values as a list, which completes it, and
    /// ends it. If it fails, nothing changes.
    fn end_with_list<T: Encode + Drop, I: Iterator<Item = T> + Drop>(
        &mut self,
        lead: &[u8],
        values: I,
    ) -> Result<(), Fault>
        requires unfinished { finished self.old ≡ false }
        requires whole { (vs : List T)
            → MakesWhole is_whole appended self.old (behind_bytes lead.now (list T.piece vs)) }
        requires can { I.can_next values }
        requires ends { IsFinite (I.remaining values) }
        ensures { EndsListed appended Self.ended refuses I.next_gives values self.old self.new
            result (λ vs. behind_bytes lead.now (list T.piece vs)) }
    {
        match self.append_list(lead, values) {
            Ok(()) => {
                self.end_member();
                Ok(())
            }
            Err(fault) => Err(fault),
        }
    }
}

impl<A: Allocator> Parent for Holder<A> {
    ghost finished = { is_finished };

    ghost opened = { is_opened };

    ghost appended = { member_appended };

    // The members of a holder are arbitrary bytes.
    ghost is_whole = { λ _. Unit {0} };

    ghost ended = { member_ended };

    ghost refuses = { no_room_in_holder };

    ghost begins = { opened_is_unfinished };

    ghost stays = { λ _ _ unfinished. unfinished };

    ghost joins = { member_appended_twice };

    fn append_value<E: Encode>(&mut self, value: &E) -> Result<(), Fault> {
        self.append_encoded(value)
    }

    fn append_list<T: Encode + Drop, I: Iterator<Item = T> + Drop>(
        &mut self,
        lead: &[u8],
        values: I,
    ) -> Result<(), Fault> {
        self.append_listed(lead, values)
    }

    fn end_member(&mut self) {
        self.finish_member();
    }
}
