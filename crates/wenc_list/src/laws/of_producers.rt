//! A law about producers.
ghost use Rattle.std.specs.Prelude.{◌≡◌, ℕ, List, [], Ok};
ghost use Rattle.wenc_base.specs.Prelude.{Producers, Wide, list, producers_field};
ghost use Rattle.wenc_list.specs.Prelude.{Part, parts_in, producers_parts};

/// The parts in bytes are those of the fields that all of them are read as. Bytes that aren't read
/// so have no parts.
pub fn parts_are_of_fields()
    ensures found { (fields : List Producers) (bytes : List ℕ)
        → (list producers_field fields).Reads Wide bytes []
        → parts_in bytes ≡ Ok (producers_parts fields) }
    ensures read { (bytes : List ℕ) (ps : List Part) → parts_in bytes ≡ Ok ps
        → (fields : List Producers) × (list producers_field fields).Reads Wide bytes []
        × (ps ≡ producers_parts fields) }
{}
