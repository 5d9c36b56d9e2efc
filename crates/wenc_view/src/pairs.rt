//! Two values, one after the other.
ghost use Rattle.wenc_read.specs.Prelude.{Gives, IsWithin};
ghost use Rattle.wenc_sections.specs.Prelude.{read_pair};

use crate::view::View;
use wenc_read::Refusal;

/// Reads two values, one after the other. Returns them and the bytes after them.
#[inline(never)]
pub(crate) fn both<'a, T: View<'a>, U: View<'a>>(
    bytes: &'a [u8],
) -> Result<(T, U, &'a [u8]), Refusal>
    ensures found { Gives (λ x. ((T.view x.0, U.view x.1), x.2.now)) result
        (read_pair T.reading.read U.reading.read bytes.now) }
    ensures place { IsWithin (λ x. x.2.now) bytes.now result }
{
    let (first, rest) = T::view_of(bytes)?;
    let (second, rest) = U::view_of(rest)?;
    Ok((first, second, rest))
}
