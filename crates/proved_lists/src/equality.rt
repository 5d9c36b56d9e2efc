//! Two faults of a listing are equal if and only if they are the same.
ghost use Rattle.std.specs.Prelude.{◌≡◌, ◌↔◌, IsTrue};

use wenc_list::ListFault;

pub fn faults_of_listing(one: ListFault, other: ListFault) -> bool
    ensures { IsTrue result ↔ (one ≡ other) }
{
    one == other
}
