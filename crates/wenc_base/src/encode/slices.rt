//! Lists, from slices and from iterators.
ghost use Rattle.std.specs.Prelude.{◌≡◌, ◌<◌, ◌++◌, List, ℕ, length, ◌^◌, OnOk, OnErr, IfOk, IfErr};
ghost use Rattle.std.specs.Iterator.{IsFinite};
ghost use Rattle.std.specs.Iterator.Runs.{SomeRun, WholeRun};
ghost use Rattle.wenc_base.specs.Prelude.{Appended, list_in_order, drawn_in_order, Written};
ghost use Rattle.wenc_base.specs.Prelude.{IsWarranted, member_cause};

use super::front::put_number_over;
use crate::encode::{Encode, cut, cut_apart, encode_byte};
use crate::fault::Fault;
use std::alloc::Allocator;

/// Encodes the number of values, then each. Fails with the first error met.
impl<T: Encode> Encode for &[T] {
    ghost piece = { λ vs. list_in_order T.piece vs.now };

    fn encode<A: Allocator>(&self, sink: &mut Vec<u8, A>) -> Result<(), Fault> {
        let start = sink.len();
        self.len().encode(sink)?;
        match encode_each(self, sink) {
            Ok(()) => Ok(()),
            Err(fault) => cut(sink, start, fault),
        }
    }
}

/// Appends the encoding of each value, and stops at the first error.
fn encode_each<T: Encode, A: Allocator>(values: &[T], sink: &mut Vec<u8, A>) -> Result<(), Fault>
    ensures ok { OnOk result (Written T.piece sink.old.items values.now sink.new.items) }
    ensures err { OnErr result ((more : List ℕ) × (sink.new.items ≡ sink.old.items ++ more)) }
    ensures warranted { IfErr result
        (IsWarranted (member_cause (λ v. (T.piece v).Cause) values.now)) }
{
    for value in values {
        value.encode(sink)?;
    }
    Ok(())
}

/// Appends the number of values that the iterator yields, then each. The values are not collected:
/// each is dropped once it is written.
///
/// # Errors
///
/// Fails with the first error met: of a value, `TooMany` if there are more than 4294967295 values,
/// or an allocation failure. `sink` is then unchanged.
pub fn encode_list<T: Encode + Drop, I: Iterator<Item = T> + Drop, A: Allocator>(
    values: I,
    sink: &mut Vec<u8, A>,
) -> Result<(), Fault>
    requires can { I.can_next values }
    requires ends { IsFinite (I.remaining values) }
    ensures ok { OnOk result (WholeRun I.next_gives values (λ run.
        Appended sink.old.items (drawn_in_order T.piece run.items) sink.new.items)) }
    ensures err { OnErr result (sink.new.items ≡ sink.old.items) }
    ensures warranted { IfErr result (λ fault. SomeRun I.next_gives values (λ run.
        IsWarranted (drawn_in_order T.piece run.items).Cause fault)) }
{
    let start = sink.len();
    if let Err(fault) = encode_byte(0, sink) {
        return Err(fault);
    }
    match encode_all(values, sink) {
        Ok(count) => put_number_over(count, start, sink),
        Err(fault) => cut_apart(sink, start, fault),
    }
}

/// Appends the encoding of each value that the iterator yields, and stops at the first error.
/// Returns their number.
fn encode_all<T: Encode + Drop, I: Iterator<Item = T> + Drop, A: Allocator>(
    values: I,
    sink: &mut Vec<u8, A>,
) -> Result<u32, Fault>
    requires can { I.can_next values }
    requires ends { IsFinite (I.remaining values) }
    ensures ok { IfOk result (λ count. WholeRun I.next_gives values (λ run.
        (length run.items ≡ count) × (count < 2 ^ 32)
        × Written T.piece sink.old.items run.items sink.new.items)) }
    ensures err { OnErr result ((more : List ℕ) × (sink.new.items ≡ sink.old.items ++ more)) }
    ensures warranted { IfErr result (λ fault. SomeRun I.next_gives values (λ run.
        IsWarranted (drawn_in_order T.piece run.items).Cause fault)) }
{
    let mut count: u32 = 0;
    for value in values {
        if let Err(fault) = value.encode(sink) {
            return Err(fault);
        }
        if count == u32::MAX {
            return Err(Fault::TooMany);
        }
        count += 1;
    }
    Ok(count)
}
