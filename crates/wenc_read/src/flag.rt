//! Flags.
ghost use Rattle.std.specs.Prelude.{◌≡◌, IfErr};
ghost use Rattle.wenc_base.specs.Prelude.{read_flag};
ghost use Rattle.wenc_read.specs.Prelude.{Gives, IsWithin, flag_error};

use crate::expected::Expected;
use crate::number::byte;
use crate::refusal::Refusal;

/// Reads a flag, a byte 0 or 1 (component model, binary format, "Canonical Definitions"). Fails
/// if no such byte begins the bytes.
#[tactic(auto, unfolding(wenc_base::specs::Readers::choose))]
pub fn flag_of(bytes: &[u8]) -> Result<(bool, &[u8]), Refusal>
    ensures found { Gives (λ x. (x.0, x.1.now)) result (read_flag bytes.now) }
    ensures refused { IfErr result (λ e. e ≡ flag_error bytes.now) }
    ensures place { IsWithin (λ x. x.1.now) bytes.now result }
{
    match byte(bytes)? {
        (0, rest) => Ok((false, rest)),
        (1, rest) => Ok((true, rest)),
        _ => Err(Refusal::at(bytes, Expected::From(0, 1))),
    }
}
