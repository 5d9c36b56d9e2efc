//! Sections, and the bytes in them.
ghost use Rattle.std.specs.Prelude.{◌≡◌, IfErr};
ghost use Rattle.wenc_base.specs.Prelude.{AreBytes};
ghost use Rattle.wenc_list.specs.Prelude.{read_frame, frame_error};
ghost use Rattle.wenc_read.specs.Prelude.{Gives, IsWithin};

use wenc_read::{Expected, Refusal, byte, u32_of};

/// Shows that a slice of bytes has only bytes. The call does nothing.
pub(crate) fn are_bytes(bytes: &[u8])
    ensures { AreBytes bytes.now }
{}

/// Splits off the section that begins the bytes. Returns its id, at most 11, its content, and the
/// bytes after it.
#[inline(always)]
pub(crate) fn frame(bytes: &[u8]) -> Result<((u8, &[u8]), &[u8]), Refusal>
    ensures found { Gives (λ x. ((x.0.0, x.0.1.now), x.1.now)) result (read_frame bytes.now) }
    ensures place { IsWithin (λ x. x.1.now) bytes.now result }
    ensures refused { IfErr result (λ e. e ≡ frame_error bytes.now) }
{
    let (id, rest) = byte(bytes)?;
    if id > 11 {
        return Err(Refusal::at(bytes, Expected::From(0, 11)));
    }
    let (size, rest) = u32_of(rest)?;
    let len = size as usize;
    if rest.len() < len {
        return Err(Refusal::at(rest, Expected::Bytes(size)));
    }
    let (content, rest) = rest.split_at(len);
    Ok(((id, content), rest))
}
