//! The fields after the opcodes of builtins.
ghost use Rattle.std.specs.Prelude.{List};
ghost use Rattle.wenc_base.specs.Prelude.{IsWritten, serves_itself, byte};
ghost use Rattle.wenc_canon.specs.Prelude.{Field, Values, fields, two_fields, Index, Flag, Zero};
ghost use Rattle.wenc_canon.specs.Prelude.{CoreType, Results};

use std::alloc::Allocator;
use wenc_base::{Encode, Fault, ValType, encode_byte};
use wenc_parts::ResultList;

/// The fields after the opcode of a builtin, and before its options if it takes any (component
/// model, binary format, "Canonical Definitions").
pub trait Fields: Encode {
    /// The kinds of the fields, in order.
    ghost kinds: { List Field };

    /// The values of the fields.
    ghost values: { Self → Values kinds };

    /// The value is encoded as its fields are.
    ghost written: { IsWritten Self.piece values (fields kinds) };
}

/// States that a waiting function can't be cancelled: the byte `00`.
#[derive(Clone, Copy)]
pub struct NotCancellable;

impl Encode for NotCancellable {
    ghost piece = { λ _. byte 0x00 };

    fn encode<A: Allocator>(&self, sink: &mut Vec<u8, A>) -> Result<(), Fault> {
        encode_byte(0x00, sink)
    }
}

impl Fields for () {
    ghost use Rattle.std.specs.Prelude.{[]};

    ghost kinds = { [] };

    ghost values = { λ _. tt };

    ghost written = { λ _. serves_itself };
}

impl Fields for u32 {
    ghost use Rattle.std.specs.Prelude.{◌∷◌, []};

    ghost kinds = { Index ∷ [] };

    ghost values = { λ n. n };

    ghost written = { λ _. serves_itself };
}

impl Fields for bool {
    ghost use Rattle.std.specs.Prelude.{◌∷◌, []};

    ghost kinds = { Flag ∷ [] };

    ghost values = { λ b. b };

    ghost written = { λ _. serves_itself };
}

impl Fields for NotCancellable {
    ghost use Rattle.std.specs.Prelude.{◌∷◌, []};

    ghost kinds = { Zero ∷ [] };

    ghost values = { λ _. tt };

    ghost written = { λ _. serves_itself };
}

impl Fields for (u32, u32) {
    ghost use Rattle.std.specs.Prelude.{◌∷◌, []};

    ghost kinds = { Index ∷ Index ∷ [] };

    ghost values = { λ p. p };

    ghost written = { λ p. two_fields Index Index p.0 p.1 };
}

impl Fields for (u32, bool) {
    ghost use Rattle.std.specs.Prelude.{◌∷◌, []};

    ghost kinds = { Index ∷ Flag ∷ [] };

    ghost values = { λ p. p };

    ghost written = { λ p. two_fields Index Flag p.0 p.1 };
}

impl Fields for (ValType, u32) {
    ghost use Rattle.std.specs.Prelude.{◌∷◌, []};

    ghost kinds = { CoreType ∷ Index ∷ [] };

    ghost values = { λ p. p };

    ghost written = { λ p. two_fields CoreType Index p.0 p.1 };
}

impl Fields for (NotCancellable, u32) {
    ghost use Rattle.std.specs.Prelude.{◌∷◌, []};

    ghost kinds = { Zero ∷ Index ∷ [] };

    ghost values = { λ p. (tt, p.1) };

    ghost written = { λ p. two_fields Zero Index tt p.1 };
}

impl Fields for ResultList {
    ghost use Rattle.std.specs.Prelude.{◌∷◌, []};

    ghost kinds = { Results ∷ [] };

    ghost values = { λ r. r.0 };

    ghost written = { λ _. serves_itself };
}
