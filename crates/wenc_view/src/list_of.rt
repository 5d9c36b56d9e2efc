//! Lists that are read on demand.
ghost use Rattle.std.specs.Prelude.{◌≡◌, ◌+◌, List, [], ◌∷◌, Ok, MatchOption};
ghost use Rattle.std.specs.Iterator.{at_most};
ghost use Rattle.wenc_base.specs.Prelude.{times, list};
ghost use Rattle.wenc_read.specs.Prelude.{Gives, reading_list, IsWithin};
ghost use Rattle.wenc_view.specs.Prelude.{members_of, list_view, GivesFirst, AreCounted};
ghost use Rattle.wenc_view.specs.Prelude.{place_of};

use crate::view::View;
use std::marker::PhantomData;
use wenc_read::{Refusal, u32_of};

/// A list, as an iterator over its members, which are read when they are asked for.
///
/// A list of an item was read over once with the item, so that all of its members are there.
#[derive_where(Clone, Copy)]
pub struct ListOf<'a, T> {
    /// The number of remaining members.
    pub left: u32,
    /// The bytes from the next member on, to the end of the section.
    pub bytes: &'a [u8],
    of: PhantomData<T>,
}

/// Reads over `count` values. Returns the bytes after them.
fn passed<'a, T: View<'a>>(count: u32, bytes: &'a [u8]) -> Result<&'a [u8], Refusal>
    ensures found { Gives (λ rest. (members_of T.reading.read count bytes.now, rest.now)) result
        (times T.reading.read count bytes.now) }
    ensures place { IsWithin (λ rest. rest.now) bytes.now result }
{
    let mut rest = bytes;
    for _ in 0..count {
        match T::view_of(rest) {
            Ok((_, after)) => rest = after,
            Err(refusal) => return Err(refusal.of_many(bytes, count)),
        }
    }
    Ok(rest)
}

impl<'a, T: View<'a>> View<'a> for ListOf<'a, T> {
    ghost Value = { List T.Value };

    ghost view = { λ l. list_view T.reading.read l };

    ghost reading = { reading_list T.reading };

    ghost lists = { λ l. place_of T.reading.read l ∷ [] };

    fn view_of(bytes: &'a [u8]) -> Result<(ListOf<'a, T>, &'a [u8]), Refusal> {
        let (left, start) = u32_of(bytes)?;
        let rest = passed::<T>(left, start)?;
        let list = ListOf {
            left,
            bytes: start,
            of: PhantomData,
        };
        Ok((list, rest))
    }
}

impl<'a, T: View<'a>> Iterator for ListOf<'a, T> {
    type Item = T;

    ghost remaining = { λ l. at_most l.left };

    ghost next_gives = { λ a r b.
        GivesFirst T.view (list_view T.reading.read a) r (list_view T.reading.read b)
        × MatchOption r (b ≡ a) (λ x. (a.left ≡ b.left + 1)
        × (T.reading.read a.bytes.now ≡ Ok (T.view x, b.bytes.now))
        × AreCounted a.bytes.now (T.lists x) b.bytes.now) };

    #[inline]
    fn next(&mut self) -> Option<T> {
        if self.left == 0 {
            return None;
        }
        match T::view_of(self.bytes) {
            Ok((value, rest)) => {
                self.left -= 1;
                self.bytes = rest;
                Some(value)
            }
            Err(_) => None,
        }
    }
}
