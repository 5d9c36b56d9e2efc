//! Hashes agree with equality.
ghost use Rattle.std.specs.Prelude.{◌≡◌, IsTrue};
ghost use Rattle.proved_parts.specs.Prelude.{ComponentTypeRef as TypeRefSpec};
ghost use Rattle.proved_parts.specs.Prelude.{TypeBounds as BoundsSpec};
ghost use Rattle.proved_parts.specs.Prelude.{ComponentValType as ValueSpec};
ghost use Rattle.proved_parts.specs.Prelude.{PrimitiveValType as PrimitiveSpec};

use std::hash::Hash;
use wenc_parts::{ComponentTypeRef, ComponentValType, PrimitiveValType, TypeBounds};

/// Shows that equal values write the same to a hasher.
pub fn hashes_agree<T: Hash>()
    ensures { (x y : T) → IsTrue (T.eq x y) → T.hash_input x ≡ T.hash_input y }
{}

/// Shows the same for each type of these crates that has a hash.
pub fn hashes_of_parts_agree()
    ensures bounds { (x y : BoundsSpec) → IsTrue (⟦<TypeBounds as PartialEq>⟧.eq x y)
        → ⟦<TypeBounds as Hash>⟧.hash_input x ≡ ⟦<TypeBounds as Hash>⟧.hash_input y }
    ensures references { (x y : TypeRefSpec) → IsTrue (⟦<ComponentTypeRef as PartialEq>⟧.eq x y)
        → ⟦<ComponentTypeRef as Hash>⟧.hash_input x ≡ ⟦<ComponentTypeRef as Hash>⟧.hash_input y }
    ensures primitives { (x y : PrimitiveSpec)
        → IsTrue (⟦<PrimitiveValType as PartialEq>⟧.eq x y)
        → ⟦<PrimitiveValType as Hash>⟧.hash_input x ≡ ⟦<PrimitiveValType as Hash>⟧.hash_input y }
    ensures value_types { (x y : ValueSpec) → IsTrue (⟦<ComponentValType as PartialEq>⟧.eq x y)
        → ⟦<ComponentValType as Hash>⟧.hash_input x ≡ ⟦<ComponentValType as Hash>⟧.hash_input y }
{
    hashes_agree::<TypeBounds>();
    hashes_agree::<ComponentTypeRef>();
    hashes_agree::<PrimitiveValType>();
    hashes_agree::<ComponentValType>();
}
