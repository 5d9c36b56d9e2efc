//! Values that contain others, lists, and members that are written in several calls.

use std::alloc::Allocator;
use wenc_base::{ByRef, Encode, Fault, Holder, Parent, Tagged, WithSize, encode_list};

/// Encodes some values, one after the other.
pub fn values<A: Allocator>(sink: &mut Vec<u8, A>) -> Result<(), Fault> {
    (128u32, "a", false).encode(sink)?;
    Some(5u32).encode(sink)?;
    [true, false].as_slice().encode(sink)
}

/// Encodes values that contain others.
pub fn around<A: Allocator>(sink: &mut Vec<u8, A>) -> Result<(), Fault> {
    Tagged(0x2a, &7u32).encode(sink)?;
    ByRef(&128u32).encode(sink)?;
    WithSize(&"ab").encode(sink)?;
    encode_list([1u32, 128].into_iter(), sink)
}

/// Adds a list between two values.
pub fn listed<A: Allocator>(holder: &mut Holder<A>) -> Result<(), Fault> {
    holder.add_listed(&true, [1u32, 128].into_iter(), &"g")
}

/// Appends to a member, if one is being written.
pub fn appended<A: Allocator>(holder: &mut Holder<A>) -> Result<(), Fault> {
    if holder.is_finished() {
        return Err(Fault::Unfinished);
    }
    holder.append_listed(&[2, 3], ["g"].into_iter())
}

/// Appends to the member of a parent, if one is being written.
pub fn parent<A: Allocator>(holder: &mut Holder<A>) -> Result<(), Fault> {
    if holder.is_finished() {
        return Err(Fault::Unfinished);
    }
    holder.append_list(&[0x60], [1u32, 128].into_iter())
}

/// Ends the member of a parent, if one is being written.
pub fn ended<A: Allocator>(holder: &mut Holder<A>) -> Result<(), Fault> {
    if holder.is_finished() {
        return Err(Fault::Unfinished);
    }
    holder.end_with_list(&[8], ["f"].into_iter())
}
