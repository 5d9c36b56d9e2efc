//! The errors of reading.
ghost use Rattle.std.specs.Prelude.{◌≡◌, ◌≤◌, length};
ghost use Rattle.wenc_read.specs.Prelude.{flaw_of, left_of, expected_at, expected_before, or_else};
ghost use Rattle.wenc_read.specs.Prelude.{unless_between, unless_few, in_flat};
ghost use Rattle.wenc_read.specs.declared.refusal.NestedRefusal.TheVariants.{Flat};

use crate::expected::Expected;

/// The error of reading a form that doesn't nest: the bytes don't begin with a value of the form.
#[derive(Clone, Copy, Debug, PartialEq, Eq)]
pub struct Refusal {
    /// The number of bytes from the place on at which they can't be read on.
    pub left: usize,
    /// What can be read there.
    pub expected: Expected,
}

impl Refusal {
    /// Returns the error of bytes that should begin with something else.
    #[inline(always)]
    pub fn at(bytes: &[u8], expected: Expected) -> Refusal
        ensures { result ≡ expected_at bytes.now expected }
    {
        Refusal {
            left: bytes.len(),
            expected,
        }
    }

    /// Returns the error of bytes that should begin with something else, from the byte before them
    /// on.
    #[inline(always)]
    pub fn before(bytes: &[u8], expected: Expected) -> Refusal
        ensures { result ≡ expected_before bytes.now expected }
    {
        Refusal {
            left: bytes.len().saturating_add(1),
            expected,
        }
    }

    /// Returns the error of a form that may begin these bytes with other bytes too: if the first
    /// byte can't be read, this is expected in its place.
    #[cold]
    pub fn or(self, bytes: &[u8], expected: Expected) -> Refusal
        ensures error { result ≡ or_else bytes.now expected self }
        ensures place { self.left ≤ length bytes.now → result.left ≤ length bytes.now }
    {
        match self.expected {
            Expected::Bits(_) => self,
            _ if self.left == bytes.len() => Refusal::at(bytes, expected),
            _ => self,
        }
    }

    /// Returns the error of a value in these bytes that begins with a byte from `first` to `last`:
    /// if another one is there, that is why.
    #[cold]
    pub fn unless_from(self, first: u8, last: u8, bytes: &[u8]) -> Refusal
        ensures error { result ≡ unless_between first last bytes.now self }
        ensures place { self.left ≤ length bytes.now → result.left ≤ length bytes.now }
    {
        match bytes {
            [byte, ..] if *byte < first || last < *byte => {
                Refusal::at(bytes, Expected::From(first, last))
            }
            _ => self,
        }
    }

    /// Returns the error of so many values in these bytes, which take a byte or more each: if there
    /// are fewer bytes, that is why.
    #[cold]
    pub fn of_many(self, bytes: &[u8], count: u32) -> Refusal
        ensures error { result ≡ unless_few count bytes.now self }
        ensures place { self.left ≤ length bytes.now → result.left ≤ length bytes.now }
    {
        if bytes.len() < count as usize {
            return Refusal::at(bytes, Expected::Bytes(count));
        }
        self
    }
}

/// The error of reading a form that may nest.
#[derive(Clone, Copy, Debug, PartialEq, Eq)]
pub enum NestedRefusal {
    /// Any non-nesting error.
    Flat(Refusal),
    /// A type in the bytes nests too deep. The number of bytes from its first one on.
    TooDeep(usize),
}

impl NestedRefusal {
    /// Returns the error as `Refusal::or` does.
    #[cold]
    pub fn or(self, bytes: &[u8], expected: Expected) -> NestedRefusal
        ensures flaw { flaw_of result ≡ flaw_of self }
        ensures error { result ≡ in_flat (or_else bytes.now expected) self }
        ensures place { left_of self ≤ length bytes.now → left_of result ≤ length bytes.now }
    {
        match self {
            NestedRefusal::Flat(refusal) => NestedRefusal::Flat(refusal.or(bytes, expected)),
            NestedRefusal::TooDeep(_) => self,
        }
    }

    /// Returns the error as `Refusal::of_many` does.
    #[cold]
    pub fn of_many(self, bytes: &[u8], count: u32) -> NestedRefusal
        ensures flaw { flaw_of result ≡ flaw_of self }
        ensures error { result ≡ in_flat (unless_few count bytes.now) self }
        ensures place { left_of self ≤ length bytes.now → left_of result ≤ length bytes.now }
    {
        match self {
            NestedRefusal::Flat(refusal) => NestedRefusal::Flat(refusal.of_many(bytes, count)),
            NestedRefusal::TooDeep(_) => self,
        }
    }
}

impl From<Refusal> for NestedRefusal {
    ghost from_gives = { λ refusal e. e ≡ Flat refusal };

    fn from(refusal: Refusal) -> NestedRefusal {
        NestedRefusal::Flat(refusal)
    }
}
