//! The bytes with which a form can begin.
ghost use Rattle.std.specs.Prelude.{◌≡◌, ◌<◌, ℕ, suc, List, ◌∷◌, Ok, true, is_ok};
ghost use Rattle.wenc_base.specs.Prelude.{Sub, read_sub_type};
ghost use Rattle.wenc_read.specs.Expected.{is_in};
ghost use Rattle.wenc_types.specs.Prelude.{DefType, read_type};

use wenc_list::laws::expected_bytes_begin;
use wenc_read::Expected;
use wenc_read::laws::expected_core_bytes_begin;

/// Returns the bytes with which a core type can begin: none is read that begins with another byte,
/// and after each of them some bytes make one that is.
pub fn beginnings_of_core_types() -> [(u8, u8); 4]
    ensures others { (b : ℕ) (rest : List ℕ) (x : Sub × List ℕ)
        → read_sub_type (b ∷ rest) ≡ Ok x → is_in result b ≡ true }
    ensures each { (b : ℕ) → b < 256 → is_in result b ≡ true
        → (rest : List ℕ) × (is_ok (read_sub_type (b ∷ rest)) ≡ true) }
{
    expected_core_bytes_begin();
    Expected::SubType.ranges()
}

/// Returns the bytes with which a type of a component can begin, where another one may open in it.
pub fn beginnings_of_types() -> [(u8, u8); 4]
    ensures others { (levels b : ℕ) (rest : List ℕ) (x : DefType × List ℕ)
        → read_type (suc levels) (b ∷ rest) ≡ Ok x → is_in result b ≡ true }
    ensures each { (levels b : ℕ) → b < 256 → is_in result b ≡ true
        → (rest : List ℕ) × (is_ok (read_type (suc levels) (b ∷ rest)) ≡ true) }
{
    expected_bytes_begin();
    Expected::Type.ranges()
}
