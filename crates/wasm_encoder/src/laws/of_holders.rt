//! Laws about the contents of sections.
ghost use Rattle.std.specs.Prelude.{◌++◌, List, ℕ};
ghost use Rattle.wasm_encoder.specs.Prelude.{FormName, value_of, form_of};
ghost use Rattle.wenc_base.specs.Prelude.{counted, HolderState, Contains, ContainsSome};
ghost use Rattle.wenc_base.specs.Prelude.{held_section, HasForm, Spelling};

/// The contract of a section's `encode` states the members of a finished section by their
/// encodings: these are the encodings of a list of encodable values, which the section contains.
/// This holds for values of any form.
pub fn what_is_finished_has_some()
    ensures { (f : FormName) (section : HolderState) → ContainsSome (HasForm (form_of f)) section
        → (values : List (value_of f)) × Contains (form_of f) section values }
{}

/// A section of some values of a form whose number and size have 32 bits, as the contract of its
/// `encode` says, can be encoded, and is read as these values, counted, whatever follows.
pub fn sections_are_read()
    ensures fits { (f : FormName) (section : HolderState) (values : List (value_of f))
        → Contains (form_of f) section values → (held_section section).Fits
        → (counted (form_of f) values).Fits }
    ensures read { (f : FormName) (section : HolderState) (values : List (value_of f))
        → Contains (form_of f) section values → (held_section section).Fits
        → (mode : Spelling) (rest : List ℕ)
        → (counted (form_of f) values).Reads mode ((held_section section).text ++ rest) rest }
{}
