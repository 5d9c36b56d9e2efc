//! Listings of components that were built.
ghost use Rattle.std.specs.Prelude.{◌≡◌, ◌↔◌, ◌⊎◌, ℕ, List};
ghost use Rattle.wasm_encoder.specs.Prelude.{ListFault};
ghost use Rattle.wenc_base.specs.Prelude.{Wide};
ghost use Rattle.wenc_builder.specs.Prelude.{Item, HasNoRaw, Section, runs, Reading, whole};
ghost use Rattle.wenc_builder.specs.Prelude.{IsEncodable};
ghost use Rattle.wenc_list.specs.Prelude.{AreWithin, IsFaultOf};
ghost use Rattle.wenc_list.specs.declared.fault.ListFault.TheVariants.{Memory, TooDeep};

use super::one_reading;
use wenc_list::laws::faults_of_what_is_read;

/// The component of items, none of them raw, has one listing: the sections into which they are cut.
/// Only two faults are possible instead: a failed allocation, and a type deeper than 100, if one of
/// the items is or has such a type.
pub fn listed()
    ensures sections { (xs : List Item) → HasNoRaw xs → IsEncodable xs
        → (ss : List Section) → Reading Wide (whole xs) ss ↔ (ss ≡ runs xs) }
    ensures no_fault { (xs : List Item) → HasNoRaw xs → IsEncodable xs → AreWithin 100 (runs xs)
        → (fault : ListFault) → IsFaultOf (whole xs) fault → fault ≡ Memory }
    ensures too_deep { (xs : List Item) → HasNoRaw xs → IsEncodable xs
        → (fault : ListFault) → IsFaultOf (whole xs) fault
        → (fault ≡ Memory) ⊎ ((place : ℕ) × (fault ≡ TooDeep place)
        × (AreWithin 100 (runs xs) → ⊥)) }
{
    one_reading();
    faults_of_what_is_read();
}
