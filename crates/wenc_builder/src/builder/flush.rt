//! The head of a section, before its items, and how a section is closed.
ghost use Rattle.std.specs.Prelude.{◌≡◌, ◌+◌, ◌<◌, ◌≤◌, ◌^◌, length, Some};
ghost use Rattle.wenc_base.specs.Prelude.{number_size, with_kept};
ghost use Rattle.wenc_builder.specs.Prelude.{kind_id, section_head as head_text};
ghost use Rattle.wenc_builder.specs.Prelude.{open_head as open_head_text, SectionIsIn, SectionFits};
ghost use Rattle.wenc_builder.specs.Prelude.{earlier_view, closed_with, kept_with};

use super::earlier::Earlier;
use super::kind::Kind;
use std::alloc::Allocator;
use wenc_base::{Holder, Short, encoding_size};

/// The number of bytes reserved before a section's items: enough for its id, its size and its count
/// at their longest.
pub const GAP: usize = 11;

/// Returns the id, the size and the count of a section whose items take `body` bytes.
#[tactic(auto, using(wenc_base::proofs::Groups::size_at_most_5))]
#[inline(never)]
pub fn section_head(kind: Kind, count: u32, body: usize) -> Short
    requires { number_size count + body < 2 ^ 32 }
    ensures { result ≡ head_text (kind_id kind) count (number_size count + body) }
{
    // 32 bits: a vector has less than 2^31 bytes.
    let size = encoding_size(count) + body;
    let mut head = Short::new();
    head.push(kind.id());
    head.unsigned(size as u64);
    head.unsigned(u64::from(count));
    head
}

/// Returns the id, the size and the count of a section, where size and count take one byte each.
#[tactic(auto, using(wenc_base::proofs::Groups::groups_below))]
fn short_head(kind: Kind, count: u8, body: u8) -> [u8; 3]
    requires count { count < 128 }
    requires body { body < 127 }
    ensures { result ≡ head_text (kind_id kind) count (number_size count + body) }
{
    [kind.id(), 1 + body, count]
}

/// Returns the id, the size and the count of the open section, or nothing if none is open.
pub fn open_head(kind: Option<Kind>, count: u32, body: usize) -> Short
    requires { number_size count + body < 2 ^ 32 }
    ensures { result ≡ open_head_text kind count body }
{
    match kind {
        None => Short::new(),
        Some(kind) => section_head(kind, count, body),
    }
}

/// Closes the section before the members, which remain after a gap. Returns the number of closed
/// bytes. Allocates nothing.
#[tactic(auto, using(wenc_base::proofs::Groups::size_at_most_5))]
pub fn close_earlier<A: Allocator>(holder: &mut Holder<A>, earlier: &Earlier) -> usize
    requires within { earlier.now.items_end ≤ length holder.old.kept }
    requires section { SectionIsIn earlier.now.kind earlier.now.closed_len earlier.now.items_end }
    requires fits { SectionFits (earlier_view holder.old.kept earlier.now) }
    ensures holder { holder.new ≡ with_kept holder.old (kept_with holder.old.kept earlier.now) }
    ensures len { result ≡ length (closed_with holder.old.kept earlier.now) }
{
    match earlier.kind {
        None => earlier.closed_len,
        Some(kind) => {
            // 32 bits: an offset in the holder's bytes.
            let start = earlier.closed_len + GAP;
            let body = earlier.items_end - start;
            if earlier.count < 1 << 7 && body < 127 {
                let head = short_head(kind, earlier.count as u8, body as u8);
                holder.fill_kept(earlier.closed_len, start, &head);
                return earlier.items_end - (GAP - 3);
            }
            close_long(holder, kind, earlier)
        }
    }
}

/// Closes the earlier section if it has more items or bytes than `short_head` takes.
#[tactic(auto, using(wenc_base::proofs::Groups::size_at_most_5))]
#[cold]
#[inline(never)]
fn close_long<A: Allocator>(holder: &mut Holder<A>, kind: Kind, earlier: &Earlier) -> usize
    requires kind { earlier.now.kind ≡ Some kind }
    requires within { earlier.now.items_end ≤ length holder.old.kept }
    requires section { SectionIsIn earlier.now.kind earlier.now.closed_len earlier.now.items_end }
    requires fits { SectionFits (earlier_view holder.old.kept earlier.now) }
    ensures holder { holder.new ≡ with_kept holder.old (kept_with holder.old.kept earlier.now) }
    ensures len { result ≡ length (closed_with holder.old.kept earlier.now) }
{
    // 32 bits: an offset in the holder's bytes.
    let start = earlier.closed_len + GAP;
    let head = section_head(kind, earlier.count, earlier.items_end - start);
    let head = head.as_slice();
    holder.fill_kept(earlier.closed_len, start, head);
    earlier.items_end - (GAP - head.len())
}
