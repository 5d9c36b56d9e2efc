//! Name maps.
ghost use Rattle.std.specs.Prelude.{◌≡◌, ◌==◌, ◌<◌, ◌≤◌, ◌^◌, [], length, IfOk, IfErr};
ghost use Rattle.wenc_base.specs.Prelude.{IsMemory, no_members, holding, held_text, cut_to};
ghost use Rattle.wenc_base.specs.Prelude.{AddsMember, NameAssociation, name_association, verbatim};

use crate::encode::{
    Encode, Verbatim, extend_in_room, has_room, number_in_room, short_numbers_in_room,
};
use crate::fault::Fault;
use crate::holder::next_count;
use crate::number::encoding_size;
use std::alloc::{Allocator, Global};
use std::marker::Model;

/// Names of items, each with its item's index, in the order in which they were appended
/// (WebAssembly 3.0, binary format, "Name Maps").
///
/// A call that fails leaves the map unchanged.
///
/// ```
/// let mut names = NameMap::new(alloc);
/// names.append(0, "now")?;
/// let mut sink = Vec::new(alloc);
/// names.encode(&mut sink)?;
/// ```
#[derive(Drop)]
pub struct NameMap<A: Allocator = Global> {
    count: u32,
    /// The encodings of the names, each preceded by that of its index.
    names: Vec<u8, A>,
}

impl<A: Allocator> Model for NameMap<A> {
    ghost use Rattle.std.specs.Prelude.{◌<◌, ◌^◌, [], length};
    ghost use Rattle.wenc_base.specs.Prelude.{HolderState, holding, content_size};

    ghost Value = { HolderState };

    ghost view = { λ m. holding [] m.count m.names.items };

    ghost invariant = { λ m. content_size m.count (length m.names.items) < 2 ^ 32 };
}

/// The number of bytes from which on another short name could be too many.
const NEARLY_FULL: u64 = (1 << 32) - 256;

impl<A: Allocator> NameMap<A> {
    /// Creates an empty map. Does not allocate.
    #[tactic(auto, using(crate::proofs::Groups::size_1))]
    pub fn new(alloc: A) -> Self
        ensures { result ≡ no_members }
    {
        NameMap {
            count: 0,
            names: Vec::new(alloc),
        }
    }

    /// Names the item with this index. Indices may come in any order.
    ///
    /// # Errors
    ///
    /// Fails with `TooMany` if the number of names would exceed 4294967295, and with `TooLarge` if
    /// the bytes of the name or of the map would.
    #[tactic(auto, using(crate::proofs::Groups::size_of_u32))]
    #[inline(always)]
    pub fn append(&mut self, idx: u32, name: &str) -> Result<(), Fault>
        ensures { let entry : NameAssociation = record { index = idx; name = name.now } in
            AddsMember (name_association entry) self.old self.new result }
    {
        if idx < 1 << 21
            && name.len() < 1 << 7
            && (self.names.len() as u64) < NEARLY_FULL
            && self.count < u32::MAX
            // 32 bits: less than 132.
            && has_room(&self.names, 4 + name.len())
        {
            short_numbers_in_room(idx, name.len() as u8, &mut self.names);
            extend_in_room(&mut self.names, name.as_bytes());
            self.count += 1;
            return Ok(());
        }
        self.append_long(idx, name)
    }

    /// Names the item with this index, whatever the name and the spare capacity.
    #[tactic(auto, using(crate::proofs::Groups::size_of_u32))]
    #[cold]
    #[inline(never)]
    fn append_long(&mut self, idx: u32, name: &str) -> Result<(), Fault>
        ensures { let entry : NameAssociation = record { index = idx; name = name.now } in
            AddsMember (name_association entry) self.old self.new result }
    {
        let body = self.names.len();
        let Ok(len) = u32::try_from(name.len()) else {
            return Err(Fault::TooLarge);
        };
        // 32 bits: a slice has less than 2^31 bytes.
        let more = encoding_size(idx) + encoding_size(len) + name.len();
        // A sum that saturates, on 32 bits, is too large for a section.
        let count = next_count(self.count, body.saturating_add(more))?;
        self.names.try_reserve(more)?;
        number_in_room(idx, &mut self.names);
        number_in_room(len, &mut self.names);
        extend_in_room(&mut self.names, name.as_bytes());
        self.count = count;
        Ok(())
    }

    /// Returns the number of bytes of the names, without their count.
    pub fn names_len(&self) -> usize
        ensures { result ≡ length self.now.body }
    {
        self.names.len()
    }

    /// Returns the number of bytes that `encode` appends.
    pub fn size(&self) -> usize
        ensures is { result ≡ length (held_text self.now) }
        ensures fits { result < 2 ^ 32 }
    {
        // 32 bits: a vector has less than 2^31 bytes.
        encoding_size(self.count) + self.names.len()
    }

    /// Returns the number of names. A map is never unfinished.
    pub fn len(&self) -> u32
        ensures count { result ≡ self.now.count }
        ensures finished { self.now ≡ holding [] self.now.count self.now.body }
    {
        self.count
    }

    /// Returns whether there are no names.
    pub fn is_empty(&self) -> bool
        ensures { result ≡ (self.now.count == 0) }
    {
        self.count == 0
    }

    /// Removes the last names, so that `len` remain, in the first `bytes` bytes after the map's
    /// count. Does not allocate.
    ///
    /// Neither argument may exceed what the map has. Nothing checks that `bytes` is where a name
    /// ends.
    #[tactic(auto, using(crate::proofs::Groups::size_monotone))]
    pub fn cut_back(&mut self, len: u32, bytes: usize)
        requires { (len ≤ self.old.count) × (bytes ≤ length self.old.body) }
        ensures { self.new ≡ cut_to self.old len bytes }
    {
        self.names.truncate(bytes);
        self.count = len;
    }

    /// Returns a copy of the map.
    ///
    /// # Errors
    ///
    /// Fails only if an allocation fails.
    pub fn clone(&self) -> Result<Self, Fault>
    where
        A: Clone,
        ensures same { IfOk result (λ m. m ≡ self.now) }
        ensures refused { IfErr result IsMemory }
    {
        let mut names = Vec::new(self.names.allocator().clone()?);
        names.extend_from_slice(self.names.as_slice())?;
        Ok(NameMap {
            count: self.count,
            names,
        })
    }
}

/// Encodes the number of names, then each, preceded by its index. Fails only if an allocation
/// fails.
impl<A: Allocator> Encode for NameMap<A> {
    ghost piece = { λ m. verbatim (held_text m) };

    fn encode<B: Allocator>(&self, sink: &mut Vec<u8, B>) -> Result<(), Fault> {
        (self.count, Verbatim(self.names.as_slice())).encode(sink)
    }
}
