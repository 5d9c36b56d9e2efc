//! The trait `Named`: strings that are encoded as names.
ghost use Rattle.std.specs.Prelude.{ℕ, List};
ghost use Rattle.wenc_base.specs.Prelude.{Serves, name, serves_itself};

use crate::encode::Encode;
use crate::fault::Fault;
use std::alloc::Allocator;

/// An owned or borrowed string, encoded as a name. You may implement this trait for types of your
/// own.
pub trait Named: Encode {
    /// The bytes of the name.
    ghost named: { Self → List ℕ };

    /// The value is encoded as the name with these bytes.
    ghost as_name: { (s : Self) → Serves (Self.piece s) (name (named s)) };
}

impl Named for &str {
    ghost named = { λ s. s.now };

    ghost as_name = { λ _. serves_itself };
}

impl<A: Allocator> Named for String<A> {
    ghost use Rattle.std.specs.String.{string_bytes};

    ghost named = { λ s. string_bytes s };

    ghost as_name = { λ _. serves_itself };
}

/// A borrowed string, encoded as a name.
impl<A: Allocator> Encode for &String<A> {
    ghost use Rattle.std.specs.String.{string_bytes};

    ghost piece = { λ s. name (string_bytes s.now) };

    fn encode<B: Allocator>(&self, sink: &mut Vec<u8, B>) -> Result<(), Fault> {
        self.as_str().encode(sink)
    }
}

impl<A: Allocator> Named for &String<A> {
    ghost use Rattle.std.specs.String.{string_bytes};

    ghost named = { λ s. string_bytes s.now };

    ghost as_name = { λ _. serves_itself };
}
