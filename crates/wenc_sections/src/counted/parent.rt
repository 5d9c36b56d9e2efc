//! Sections whose items are written by encoders.
ghost use Rattle.std.specs.Prelude.{◌≡◌, true};
ghost use Rattle.wenc_base.specs.Prelude.{is_finished, ContainsSome, GivesUp, member_given_up};
ghost use Rattle.wenc_base.specs.Prelude.{member_appended, member_text, member_ended};
ghost use Rattle.wenc_base.specs.Prelude.{no_room_in_holder, is_opened, opened_is_unfinished};
ghost use Rattle.wenc_base.specs.Prelude.{member_appended_twice};

use super::{Counted, CountedKind};
use std::alloc::Allocator;
use wenc_base::{Encode, Fault, Parent};

/// A kind whose items are written by encoders.
pub trait EncoderKind: CountedKind {}

/// A call that begins an item leaves the section unfinished until the encoder has ended the item.
/// Until then, adding to the section or encoding it fails with `Unfinished`.
impl<K: EncoderKind, A: Allocator> Counted<K, A> {
    /// Returns whether no item is being written. The section then consists of complete items,
    /// whatever calls were made.
    pub fn is_finished(&self) -> bool
        ensures finished { result ≡ is_finished self.now }
        ensures items { is_finished self.now ≡ true → ∥ ContainsSome K.is_item self.now ∥₁ }
    {
        self.items.is_finished()
    }

    /// Discards the item that is being written, and returns whether there was one. The section is
    /// then as it was before that item. Does not allocate.
    pub fn discard_unfinished(&mut self) -> bool
        ensures { GivesUp self.new (member_given_up self.old) (is_finished self.old) result }
    {
        self.items.discard_unfinished()
    }
}

impl<K: EncoderKind, A: Allocator> Parent for Counted<K, A> {
    ghost finished = { is_finished };

    ghost opened = { is_opened };

    ghost appended = { member_appended };

    ghost is_whole = { λ s. K.is_item (member_text s) };

    ghost ended = { member_ended };

    ghost refuses = { no_room_in_holder };

    ghost begins = { opened_is_unfinished };

    ghost stays = { λ _ _ unfinished. unfinished };

    ghost joins = { member_appended_twice };

    fn append_value<E: Encode>(&mut self, value: &E) -> Result<(), Fault> {
        self.items.append_encoded(value)
    }

    fn append_list<T: Encode + Drop, I: Iterator<Item = T> + Drop>(
        &mut self,
        lead: &[u8],
        values: I,
    ) -> Result<(), Fault> {
        self.items.append_listed(lead, values)
    }

    fn end_member(&mut self) {
        self.items.finish_member();
    }
}
