//! A law about names and parts.
ghost use Rattle.wenc_list.specs.Prelude.{part, subsection_by_id, read_names, read_part};
ghost use Rattle.wenc_read.specs.Prelude.{IsExactAt};

use crate::sections::are_bytes;

/// The readers of names and of parts are exact: what `part_of` returns, and what `names_in` returns
/// of such a part, is read widely, with the bytes that follow, and they return whatever is read so.
/// A subsection is read as its id says: as a raw one only if its id has no content of its own.
pub fn names_are_exact(bytes: &[u8])
    ensures names { IsExactAt subsection_by_id read_names bytes.now }
    ensures parts { IsExactAt part read_part bytes.now }
{
    are_bytes(bytes);
}
