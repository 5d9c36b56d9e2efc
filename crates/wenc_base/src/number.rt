//! The size of an encoded number.
ghost use Rattle.std.specs.Prelude.{◌≡◌, ◌≤◌};
ghost use Rattle.wenc_base.specs.Prelude.{number_size};

/// Returns the number of bytes in the encoding of a number, from 1 to 5.
#[tactic(auto, using(crate::proofs::Groups::sizes))]
pub fn encoding_size(n: u32) -> usize
    ensures is { result ≡ number_size n }
    ensures at_least_one { 1 ≤ result }
    ensures at_most_five { result ≤ 5 }
{
    if n < 1 << 7 {
        1
    } else if n < 1 << 14 {
        2
    } else if n < 1 << 21 {
        3
    } else if n < 1 << 28 {
        4
    } else {
        5
    }
}
