//! Laws about the definitions: the encodings of numbers, in words; that every form, and a whole
//! component, is read as it is written, and in one way only; that a section's encoding is that of
//! its contents. A call of a law does nothing.
ghost use Rattle.std.specs.Prelude.{◌≡◌, ◌↔◌, ◌+◌, ℕ, ℤ, ◌^◌, ◌<◌, ◌++◌, ◌∷◌, [], List, FitsSigned};
ghost use Rattle.std.specs.Prelude.{true, Ok};
ghost use Rattle.std.specs.Int.{w64};
ghost use Rattle.wasm_encoder.specs.Prelude.{IndexSpace, FormName, value_of, form_of};
ghost use Rattle.wenc_base.specs.Prelude.{RecType, rec_type, NoCause, FormLaws, name, counted};
ghost use Rattle.wenc_base.specs.Prelude.{HolderState, Contains, EncodeCause, is_finished};
ghost use Rattle.wenc_base.specs.Prelude.{held_members, held_section, Accepted, unsigned_text};
ghost use Rattle.wenc_base.specs.Prelude.{signed_text, IsUnsignedText, IsSignedText, member_begun};
ghost use Rattle.wenc_base.specs.Prelude.{member_appended, member_ended, member_given_up, Spelling};
ghost use Rattle.wenc_base.specs.Prelude.{Strict, Wide, ◌▸◌, refused_for, verbatim, Producers};
ghost use Rattle.wenc_base.specs.Prelude.{FieldCause, producers_field, producers_section};
ghost use Rattle.wenc_base.specs.Prelude.{producers_held};
ghost use Rattle.wenc_base.specs.declared.fault.Fault.TheVariants.{Unfinished};
ghost use Rattle.wenc_builder.specs.Prelude.{Item, HasNoRaw, Section, runs, component, Reading};
ghost use Rattle.wenc_builder.specs.Prelude.{whole, SectionsHaveNoRaw, AreEncodable, IsEncodable};
ghost use Rattle.wenc_canon.specs.Prelude.{Builtin, row, Values, Adds};
ghost use Rattle.wenc_types.specs.Prelude.{ModuleDeclaration, ModuleRecType, module_type, CoreType};
ghost use Rattle.wenc_types.specs.Prelude.{core_type, DefType, ComponentType, InstanceType};
ghost use Rattle.wenc_types.specs.Prelude.{InstanceDeclaration, ComponentDeclaration, CoreTyped};
ghost use Rattle.wenc_types.specs.Prelude.{Typed, components_of, instances_of, def_type, TypeState};
ghost use Rattle.wenc_types.specs.Prelude.{NoneBegun, ModuleDeclares, ComponentDeclares};
ghost use Rattle.wenc_types.specs.Prelude.{InstanceDeclares, type_begun, type_appended, type_ended};
ghost use Rattle.wenc_types.specs.Prelude.{type_given_up};
ghost use Rattle.wenc_types.specs.ComponentTypes as component;
ghost use Rattle.wenc_types.specs.declared.counts.IndexSpace.TheVariants as spaces;

mod of_builders;
mod of_holders;
mod of_listings;

pub use of_builders::{
    an_item_becomes_its_command, core_functions_are_entries, counts_never_fall,
    encoded_types_are_entries, functions_are_entries, held_items_tell_bytes,
    indices_are_no_primitives, listed_types_are_entries, named_indices_ascend, neighbours_differ,
    nested_runs, one_item_counts_once, one_kind_is_one_section,
};
pub use of_holders::{sections_are_read, what_is_finished_has_some};
pub use of_listings::listed;
use wenc_base::{Delimited, DelimitedEq};

/// The encoding of an unsigned number is the shortest list of bytes that spells it, and the only
/// one of its length.
pub fn unsigned_text_in_words()
    ensures is { (n : ℕ) → n < 2 ^ 64 → IsUnsignedText (unsigned_text n) n }
    ensures only { (n : ℕ) (bytes : List ℕ) → n < 2 ^ 64
        → IsUnsignedText bytes n → bytes ≡ unsigned_text n }
{}

/// The encoding of a signed number is the shortest list of bytes that spells it, and the only one
/// of its length.
pub fn signed_text_in_words()
    ensures is { (z : ℤ) → FitsSigned w64 z → IsSignedText (signed_text z) z }
    ensures only { (z : ℤ) (bytes : List ℕ) → FitsSigned w64 z
        → IsSignedText bytes z → bytes ≡ signed_text z }
{}

/// If the encodings of two encodable values, each followed by any bytes, are equal, so are the
/// values (for references, the values that they refer to), and so are the bytes that follow.
pub fn texts_tell_values<T: Delimited>(a: &T, b: &T)
    ensures { (T.piece a.now).Fits → (T.piece b.now).Fits → (r s : List ℕ)
        → (T.piece a.now).text ++ r ≡ (T.piece b.now).text ++ s
        → (T.reads_back.seen a.now ≡ T.reads_back.seen b.now) × (r ≡ s) }
{}

/// If the encodings of two comparable, encodable values, each followed by any bytes, are equal, so
/// are the values by `==`, and so are the bytes that follow.
pub fn texts_tell_equals<T: DelimitedEq>(a: &T, b: &T)
    ensures { (T.piece a.now).Fits → (T.piece b.now).Fits → (r s : List ℕ)
        → (T.piece a.now).text ++ r ≡ (T.piece b.now).text ++ s
        → (T.eq a.now b.now ≡ true) × (r ≡ s) }
{
    texts_tell_values(a, b);
}

/// A value of each `Delimited` type is read as it is written, strictly in no other way, and in one
/// way only; no value's encoding begins another's; and an encodable value is no cause of an error.
pub fn values_are_lawful<T: Delimited>()
    ensures { FormLaws T.reads_back.form }
{}

/// If the encodings of two encodable values of one form, each followed by any bytes, are equal, so
/// are the values, and so are the bytes that follow. This holds for every form, each by its name,
/// but the raw sections.
pub fn delimited()
    ensures { (f : FormName) (a b : value_of f) (r s : List ℕ)
        → (form_of f a).Fits → (form_of f b).Fits
        → (form_of f a).text ++ r ≡ (form_of f b).text ++ s → (a ≡ b) × (r ≡ s) }
{}

/// From the same bytes no form reads two values or two rests, be it strictly, widely, or one of
/// each. The encoding of an encodable value is read as that value, whatever follows. What is read
/// strictly is the encoding of an encodable value, and it is read widely too. An encodable value is
/// no cause of an error, and no value of a form is unfinished.
pub fn reads_once()
    ensures once { (f : FormName) (v w : value_of f) (mode other : Spelling) (bytes r s : List ℕ)
        → (form_of f v).Reads mode bytes r → (form_of f w).Reads other bytes s
        → (v ≡ w) × (r ≡ s) }
    ensures text_is_read { (f : FormName) (v : value_of f) (mode : Spelling) (rest : List ℕ)
        → (form_of f v).Fits → (form_of f v).Reads mode ((form_of f v).text ++ rest) rest }
    ensures strict_is_text { (f : FormName) (v : value_of f) (bytes rest : List ℕ)
        → (form_of f v).Reads Strict bytes rest → bytes ≡ (form_of f v).text ++ rest }
    ensures strict_fits { (f : FormName) (v : value_of f) (bytes rest : List ℕ)
        → (form_of f v).Reads Strict bytes rest → (form_of f v).Fits }
    ensures strict_is_wide { (f : FormName) (v : value_of f) (bytes rest : List ℕ)
        → (form_of f v).Reads Strict bytes rest → (form_of f v).Reads Wide bytes rest }
    ensures fits_is_free { (f : FormName) (v : value_of f) → (form_of f v).Fits
        → NoCause (form_of f v).Cause }
    ensures never_unfinished { (f : FormName) (v : value_of f)
        → (form_of f v).Cause Unfinished → ⊥ }
{}

/// No bytes are a component with one list of sections and with another, be it strictly, widely, or
/// one of each. The encoding of any encodable sections without a raw item, empty ones included, is
/// read as these; so the component of a list of such items is read as the runs of that list, and as
/// nothing else. What is read strictly is the encoding of encodable sections.
pub fn one_reading()
    ensures once { (mode other : Spelling) (bytes : List ℕ) (ss ts : List Section)
        → Reading mode bytes ss → Reading other bytes ts → ss ≡ ts }
    ensures of_sections { (mode : Spelling) (ss : List Section) → SectionsHaveNoRaw ss
        → AreEncodable ss → Reading mode (component ss).text ss }
    ensures of_items { (mode : Spelling) (xs : List Item) (ss : List Section) → HasNoRaw xs
        → IsEncodable xs → (Reading mode (whole xs) ss ↔ (ss ≡ runs xs)) }
    ensures strict_is_text { (bytes : List ℕ) (ss : List Section) → Reading Strict bytes ss
        → bytes ≡ (component ss).text }
    ensures strict_fits { (bytes : List ℕ) (ss : List Section) → Reading Strict bytes ss
        → AreEncodable ss }
{}

/// Two lists of encodable items, none of them raw, are equal if the bytes of their components are.
pub fn one_list()
    ensures { (xs ys : List Item) → HasNoRaw xs → HasNoRaw ys → IsEncodable xs → IsEncodable ys
        → whole xs ≡ whole ys → xs ≡ ys }
{}

/// The encoding of a section that contains some items, of whatever form, is their size, their
/// number and the items. That of a module type, a component type or an instance type with some
/// declarators is a byte, their number and these.
pub fn sections_are_their_items()
    ensures sections { (f : FormName) (section : HolderState) (items : List (value_of f))
        → Contains (form_of f) section items
        → (held_section section).text ≡ (counted (form_of f) items).text }
    ensures module_types { (t : TypeState) (ds : List ModuleDeclaration) → ModuleDeclares t ds
        → (0x50 ▸ held_members t.held).text ≡ (module_type ds).text }
    ensures component_types { (t : TypeState) (ds : List ComponentDeclaration)
        → ComponentDeclares t ds
        → (0x41 ▸ held_members t.held).text ≡ (def_type (ComponentType (components_of ds))).text }
    ensures instance_types { (t : TypeState) (ds : List InstanceDeclaration)
        → InstanceDeclares t ds
        → (0x42 ▸ held_members t.held).text ≡ (def_type (InstanceType (instances_of ds))).text }
    ensures producers { (section : HolderState) (fields : List Producers)
        → Contains producers_field section fields
        → (producers_held section).text ≡ (producers_section fields).text }
{}

/// A section that contained some values of a form, and accepted one more, contains these and that
/// one. The same holds for the fields of a producers section, for whole types with declarators that
/// a section accepts, and for encodings that a holder accepts verbatim.
pub fn what_is_added_is_contained()
    ensures value { (f : FormName) (v : value_of f) (members : List (value_of f))
        (old new : HolderState) → Accepted (form_of f v) old new → Contains (form_of f) old members
        → Contains (form_of f) new (members ++ v ∷ []) }
    ensures field { (f : Producers) (name : List ℕ) (tools : HolderState) (fields : List Producers)
        (old new : HolderState)
        → Accepted (refused_for (FieldCause old name tools) (producers_field f)) old new
        → Contains producers_field old fields → Contains producers_field new (fields ++ f ∷ []) }
    ensures whole_type { (t : DefType) (written : HolderState) (types : List DefType)
        (old new : HolderState)
        → Accepted (refused_for (EncodeCause written) (def_type t)) old new
        → Contains def_type old types → Contains def_type new (types ++ t ∷ []) }
    ensures text { (text : List ℕ) (members : List (List ℕ)) (old new : HolderState)
        → Accepted (verbatim text) old new → Contains verbatim old members
        → Contains verbatim new (members ++ text ∷ []) }
{}

/// A member that is written piece by piece, a type of a section, and a type that a module type, a
/// component type or an instance type declares: discarded, it leaves no trace; ended, it is one
/// more member, if it can be encoded.
pub fn openings_are_members()
    ensures given_up { (h : HolderState) (lead more : List ℕ) → is_finished h ≡ true
        → member_given_up (member_appended (member_begun h lead) more) ≡ h }
    ensures ended { (h : HolderState) (members : List (List ℕ)) (lead more : List ℕ)
        → Contains verbatim h members
        → Contains verbatim (member_ended (member_appended (member_begun h lead) more))
        (members ++ (lead ++ more) ∷ []) }
    ensures type_ended_in_section { (section : HolderState) (t : DefType) (types : List DefType)
        → (def_type t).Fits → Contains def_type section types
        → Contains def_type
        (member_ended (member_appended (member_begun section []) (def_type t).text))
        (types ++ t ∷ []) }
    ensures core_type_ended_in_section { (section : HolderState) (t : CoreType)
        (types : List CoreType) → (core_type t).Fits → Contains core_type section types
        → Contains core_type
        (member_ended (member_appended (member_begun section []) (core_type t).text))
        (types ++ t ∷ []) }
    ensures type_given_up { (t : TypeState) (space : IndexSpace) (text : List ℕ) → NoneBegun t
        → type_given_up (type_appended (type_begun space t) text) ≡ t }
    ensures type_ended_in_module { (t : TypeState) (g : RecType) (ds : List ModuleDeclaration)
        → (rec_type g).Fits → ModuleDeclares t ds
        → ModuleDeclares (type_ended (type_appended (type_begun spaces.«Type» t) (rec_type g).text))
        (ds ++ ModuleRecType g ∷ []) }
    ensures type_ended_in_component { (t : TypeState) (ty : DefType)
        (ds : List ComponentDeclaration) → (def_type ty).Fits → ComponentDeclares t ds
        → ComponentDeclares
        (type_ended (type_appended (type_begun spaces.«Type» t) (def_type ty).text))
        (ds ++ component.Declared (Typed ty) ∷ []) }
    ensures core_type_ended_in_component { (t : TypeState) (ty : CoreType)
        (ds : List ComponentDeclaration) → (core_type ty).Fits → ComponentDeclares t ds
        → ComponentDeclares
        (type_ended (type_appended (type_begun spaces.CoreType t) (core_type ty).text))
        (ds ++ component.Declared (CoreTyped ty) ∷ []) }
    ensures type_ended_in_instance { (t : TypeState) (ty : DefType) (ds : List InstanceDeclaration)
        → (def_type ty).Fits → InstanceDeclares t ds
        → InstanceDeclares
        (type_ended (type_appended (type_begun spaces.«Type» t) (def_type ty).text))
        (ds ++ Typed ty ∷ []) }
    ensures core_type_ended_in_instance { (t : TypeState) (ty : CoreType)
        (ds : List InstanceDeclaration) → (core_type ty).Fits → InstanceDeclares t ds
        → InstanceDeclares
        (type_ended (type_appended (type_begun spaces.CoreType t) (core_type ty).text))
        (ds ++ CoreTyped ty ∷ []) }
{}

/// A call that adds a builtin and returns `Ok` has added it: there is one function more, so a call
/// that leaves the section as it was can't return `Ok`.
pub fn an_added_function_is_one_more()
    ensures one_more { (old new : HolderState) (i : Builtin) (values : Values (row i).fields)
        → Adds old new (Ok tt) i values → new.count ≡ old.count + 1 }
    ensures not_the_same { (section : HolderState) (i : Builtin) (values : Values (row i).fields)
        → Adds section section (Ok tt) i values → ⊥ }
{}
