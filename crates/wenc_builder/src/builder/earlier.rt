//! The section before an item that opens another one.
ghost use Rattle.wenc_builder.specs.Prelude.{kept_before, SectionIsIn};

use super::flush::GAP;
use super::kind::Kind;

/// The section, if any, before an item that opens another one: its kind, the number of its items,
/// the number of bytes closed before it, and where its items end.
#[derive(Clone, Copy)]
pub struct Earlier {
    /// The kind of its items, or `None` if no section was open.
    pub kind: Option<Kind>,
    /// The number of its items.
    pub count: u32,
    /// The number of bytes closed before it.
    pub closed_len: usize,
    /// The byte offset at which its items end.
    pub items_end: usize,
}

impl Earlier {
    ghost use Rattle.std.specs.Prelude.{◌≡◌};

    /// Returns the number of bytes before its items.
    pub fn kept(self) -> usize
        requires { SectionIsIn self.kind self.closed_len self.items_end }
        ensures { result ≡ kept_before self.kind self.closed_len }
    {
        match self.kind {
            None => self.closed_len,
            // 32 bits: an offset in the holder's bytes.
            Some(_) => self.closed_len + GAP,
        }
    }
}
