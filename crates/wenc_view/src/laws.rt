//! Laws about the definitions. A call of one does nothing.
ghost use Rattle.std.specs.Prelude.{◌≡◌, ◌≤◌, ◌<◌, ℕ, List, Ok, Err};
ghost use Rattle.wenc_base.specs.Prelude.{Wide, Deep};
ghost use Rattle.wenc_view.specs.Prelude.{OpensTypes};
ghost use Rattle.wenc_read.specs.Prelude.{IsExact};
ghost use Rattle.wenc_types.specs.Prelude.{DefType, def_type, depth, read_type};

use crate::view::View;

/// The reader of each `View` type is exact: what `view_of` returns is read widely, with the bytes
/// that follow, and it returns whatever is read so.
pub fn views_are_exact<'a, T: View<'a>>()
    ensures { IsExact T.reading.form T.reading.read }
{}

/// What `type_at` returns is read widely, with the bytes that follow, and no deeper than its depth.
/// It returns whatever is read so; if that is deeper, it fails with `TooDeep`, and only if so many
/// types open inside one another.
pub fn types_are_exact()
    ensures given_is_read { (levels : ℕ) (t : DefType) (bytes rest : List ℕ)
        → read_type levels bytes ≡ Ok (t, rest)
        → (depth t ≤ levels) × (def_type t).Reads Wide bytes rest }
    ensures read_is_given { (levels : ℕ) (t : DefType) (bytes rest : List ℕ) → depth t ≤ levels
        → (def_type t).Reads Wide bytes rest → read_type levels bytes ≡ Ok (t, rest) }
    ensures deeper { (levels : ℕ) (t : DefType) (bytes rest : List ℕ) → levels < depth t
        → (def_type t).Reads Wide bytes rest → read_type levels bytes ≡ Err Deep }
    ensures too_deep { (levels : ℕ) (bytes : List ℕ) → read_type levels bytes ≡ Err Deep
        → OpensTypes levels bytes }
{}
