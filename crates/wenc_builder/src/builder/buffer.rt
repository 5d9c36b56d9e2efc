//! The bytes of a component, whose last section may be open.
ghost use Rattle.std.specs.Prelude.{◌≡◌, ◌-◌, ◌≤◌, ◌++◌, length, take, OnOk, OnErr, IfOk, IfErr};
ghost use Rattle.std.specs.Prelude.{is_none, None, Err, false};
ghost use Rattle.std.specs.Iterator.{IsFinite};
ghost use Rattle.wenc_base.specs.Prelude.{AreBytes, list, IsMemory, IsWarranted, NoCause};
ghost use Rattle.wenc_base.specs.Prelude.{behind_bytes, listed, Extends, ExtendsListed};
ghost use Rattle.wenc_base.specs.declared.fault.Fault.TheVariants.{Unfinished};
ghost use Rattle.wenc_builder.specs.Prelude.{sections_text, SectionCause, NoRoom, kind_id};
ghost use Rattle.wenc_builder.specs.Prelude.{OpensAnother, nothing_buffered, buffer_begun};
ghost use Rattle.wenc_builder.specs.Prelude.{section_begun, buffer_appended, section_appended};
ghost use Rattle.wenc_builder.specs.Prelude.{buffer_ended, buffer_given_up, AppendsSection};
ghost use Rattle.wenc_builder.specs.Prelude.{with_bytes};

use super::earlier::Earlier;
use super::flush::{GAP, close_earlier, open_head, section_head};
use super::kind::Kind;
use super::section_body::SectionBody;
use std::alloc::{Allocator, Global};
use std::marker::Model;
use wenc_base::{ByRef, Encode, Fault, Holder, Verbatim};
use wenc_parts::Component;

/// All sections of a component in one holder, which keeps the closed bytes and a gap. Its members
/// are the items of the open section.
#[derive(Drop)]
pub struct Buffer<A: Allocator = Global> {
    holder: Holder<A>,
    /// The number of closed bytes.
    closed_len: usize,
    /// The kind of the members, if a section is open.
    kind: Option<Kind>,
    /// The previous section, while an item that opens another section is being written.
    earlier: Option<Earlier>,
}

impl<A: Allocator> Model for Buffer<A> {
    ghost use Rattle.wenc_builder.specs.Prelude.{Buffered, buffer_view, IsLaidOut};

    ghost Value = { Buffered };

    ghost view = { λ b. buffer_view b.holder b.closed_len b.kind b.earlier };

    ghost invariant = { λ b. IsLaidOut b.holder b.closed_len b.kind b.earlier };
}

impl<A: Allocator> Buffer<A> {
    /// Creates a buffer with a component's header and no section. Fails only if an allocation fails
    /// (`Memory`).
    #[tactic(auto, using(wenc_base::proofs::Groups::size_1))]
    pub fn new(alloc: A) -> Result<Self, Fault>
        ensures ok { IfOk result (λ b. b ≡ nothing_buffered) }
        ensures refused { IfErr result IsMemory }
    {
        let bytes = Component::new(alloc)?.finish();
        let closed_len = bytes.len();
        Ok(Buffer {
            holder: Holder::over(bytes, closed_len, 0),
            closed_len,
            kind: None,
            earlier: None,
        })
    }

    /// Returns whether no item is being written.
    pub fn is_finished(&self) -> bool
        ensures { result ≡ is_none self.now.writing }
    {
        self.holder.is_finished()
    }

    /// Begins an item of this kind. A failed call changes nothing.
    pub fn open(&mut self, kind: Kind) -> Result<(), Fault>
        requires { self.old.writing ≡ None }
        ensures ok { OnOk result (self.new ≡ buffer_begun self.old (kind_id kind)) }
        ensures free { OnOk result
            (NoCause (SectionCause (section_begun self.old (kind_id kind)))) }
        ensures err { OnErr result (self.new ≡ self.old) }
        ensures warranted { IfErr result (IsWarranted
            (SectionCause (section_begun self.old (kind_id kind)))) }
    {
        match self.kind {
            Some(open) => {
                if open != kind {
                    return self.open_apart(kind);
                }
                self.holder.open(&[])
            }
            None => self.open_apart(kind),
        }
    }

    /// Begins an item that doesn't belong to the open section. Fails only if an allocation fails
    /// (`Memory`); nothing has changed then.
    #[inline(never)]
    fn open_apart(&mut self, kind: Kind) -> Result<(), Fault>
        requires settled { self.old.writing ≡ None }
        requires apart { OpensAnother self.old.settled.current (kind_id kind) }
        ensures ok { OnOk result (self.new ≡ buffer_begun self.old (kind_id kind)) }
        ensures err { OnErr result (self.new ≡ self.old) }
        ensures refused { IfErr result IsMemory }
    {
        let count = self.holder.len();
        let items_end = self.holder.keep_all(&Verbatim(&[0; GAP]))?;
        self.earlier = Some(Earlier {
            kind: self.kind,
            count,
            closed_len: self.closed_len,
            items_end,
        });
        self.kind = Some(kind);
        self.holder.open(&[])
    }

    /// Appends a value's encoding to the item being written. A failed call changes nothing.
    pub fn append_encoded<E: Encode>(&mut self, value: &E) -> Result<(), Fault>
        requires { is_none self.old.writing ≡ false }
        ensures appended { Extends self.old self.new
            (buffer_appended self.old (E.piece value.now).text) result (E.piece value.now)
            (NoRoom (section_appended self.old (E.piece value.now).text)) }
        ensures unfinished_value { E.unfinished value.now → result ≡ Err Unfinished }
    {
        self.holder.append_encoded(value)
    }

    /// Appends these bytes to the item being written, then the values as a list. A failed call
    /// changes nothing.
    pub fn append_listed<T: Encode + Drop, I: Iterator<Item = T> + Drop>(
        &mut self,
        lead: &[u8],
        values: I,
    ) -> Result<(), Fault>
        requires unfinished { is_none self.old.writing ≡ false }
        requires can { I.can_next values }
        requires ends { IsFinite (I.remaining values) }
        ensures { ExtendsListed I.next_gives values self.old self.new result
            (buffer_appended self.old) (λ bytes. NoRoom (section_appended self.old bytes))
            (λ vs. behind_bytes lead.now (list T.piece vs)) }
    {
        self.holder.append_listed(lead, values)
    }

    /// Appends the encoding of `lead`, the values as a list, and the encoding of `tail` to the item
    /// being written. A failed call changes nothing.
    pub fn append_between<E: Encode, T: Encode + Drop, I: Iterator<Item = T> + Drop, F: Encode>(
        &mut self,
        lead: &E,
        values: I,
        tail: &F,
    ) -> Result<(), Fault>
        requires unfinished { is_none self.old.writing ≡ false }
        requires can { I.can_next values }
        requires ends { IsFinite (I.remaining values) }
        ensures { ExtendsListed I.next_gives values self.old self.new result
            (buffer_appended self.old) (λ bytes. NoRoom (section_appended self.old bytes))
            (listed (E.piece lead.now) T.piece (F.piece tail.now)) }
    {
        self.holder.append_between(lead, values, tail)
    }

    /// Ends the item being written, which belongs to its section from now on. Allocates nothing.
    pub fn finish_member(&mut self)
        requires { is_none self.old.writing ≡ false }
        ensures { self.new ≡ buffer_ended self.old }
    {
        self.holder.finish_member();
        if let Some(earlier) = &self.earlier {
            self.closed_len = close_earlier(&mut self.holder, earlier);
            self.earlier = None;
        }
    }

    /// Discards the item being written. Allocates nothing.
    #[cold]
    #[inline(never)]
    pub fn discard(&mut self)
        requires { is_none self.old.writing ≡ false }
        ensures { self.new ≡ buffer_given_up self.old }
    {
        self.holder.discard_unfinished();
        if let Some(earlier) = self.earlier {
            let kept = earlier.kept();
            self.holder.go_back(kept, earlier.items_end, earlier.count);
            self.closed_len = earlier.closed_len;
            self.kind = earlier.kind;
            self.earlier = None;
        }
    }

    /// Writes a separate section after all others, none of which is open afterwards: the encoding
    /// of `lead`, and these bytes, which are written to their final position.
    ///
    /// # Errors
    ///
    /// Fails as the `encode` of `lead` does, or if an allocation fails. Nothing has changed then.
    pub fn add_section<E: Encode>(&mut self, lead: &E, bytes: &SectionBody<'_>) -> Result<(), Fault>
        requires { self.old.writing ≡ None }
        ensures stood { AppendsSection self.old self.new result
            (with_bytes (E.piece lead.now) bytes.now) }
        ensures bytes { OnOk result (AreBytes (E.piece lead.now).text) }
        ensures unfinished_value { E.unfinished lead.now → result ≡ Err Unfinished }
    {
        if self.kind.is_none() && bytes.gap == 0 && bytes.more.is_empty() {
            self.holder.keep_all(&(ByRef(lead), Verbatim(bytes.first)))?;
            self.closed_len = self.holder.kept_len();
            return Ok(());
        }
        let head = bytes.head.as_slice();
        self.write_section(lead, bytes.first, bytes.gap, head, bytes.more)
    }

    /// Writes the encoding of `lead` and these bytes as `add_section` does, with `head` in place of
    /// the last `gap` bytes of `first`.
    #[tactic(auto, using(wenc_base::proofs::Groups::size_at_most_5))]
    fn write_section<E: Encode>(
        &mut self,
        lead: &E,
        first: &[u8],
        gap: usize,
        head: &[u8],
        more: &[u8],
    ) -> Result<(), Fault>
        requires settled { self.old.writing ≡ None }
        requires gap_is_in { gap ≤ length first.now }
        requires short { length head.now ≤ gap }
        ensures stood { AppendsSection self.old self.new result (with_bytes (E.piece lead.now)
            (take (length first.now - gap) first.now ++ (head.now ++ more.now))) }
        ensures bytes { OnOk result (AreBytes (E.piece lead.now).text) }
        ensures unfinished_value { E.unfinished lead.now → result ≡ Err Unfinished }
    {
        let count = self.holder.len();
        let kept = self.holder.kept_len();
        let own_head = open_head(self.kind, count, self.holder.as_slice().len());
        let own_head = own_head.as_slice();
        let items_end = self.holder.keep_all(lead)?;
        if let Err(fault) = self
            .holder
            .keep_bytes(self.closed_len, kept, own_head, first, more)
        {
            self.holder.go_back(kept, items_end, count);
            return Err(fault);
        }
        let end = self.holder.kept_len() - more.len();
        self.holder.fill_kept(end - gap, end, head);
        self.closed_len = self.holder.kept_len();
        self.kind = None;
        Ok(())
    }

    /// Returns all bytes, including the open section, which stays open in this buffer.
    #[tactic(auto, using(wenc_base::proofs::Groups::size_at_most_5))]
    pub fn ready(&self) -> SectionBody<'_>
        requires { self.now.writing ≡ None }
        ensures { result ≡ sections_text self.now.settled }
    {
        let more = self.holder.as_slice();
        SectionBody {
            first: self.holder.kept(),
            gap: self.holder.kept_len() - self.closed_len,
            head: open_head(self.kind, self.holder.len(), more.len()),
            more,
        }
    }

    /// Returns all bytes, with the open section in place. Allocates nothing.
    pub fn finish(self) -> Vec<u8, A>
        requires { self.writing ≡ None }
        ensures { result.items ≡ sections_text self.settled }
    {
        let Buffer {
            mut holder,
            closed_len,
            kind,
            earlier: _,
        } = self;
        if let Some(kind) = kind {
            let head = section_head(kind, holder.len(), holder.as_slice().len());
            holder.fill_kept(closed_len, holder.kept_len(), head.as_slice());
        }
        let (bytes, _, _, _) = holder.into_parts();
        bytes
    }
}
