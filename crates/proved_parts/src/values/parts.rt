//! Worked parts.
ghost use Rattle.std.specs.Prelude.{◌≡◌, [], ◌∷◌, Some, None};
ghost use Rattle.proved_parts.specs.Prelude.{ExportKind, ComponentOuterAliasKind, ComponentTypeRef};
ghost use Rattle.wenc_base.specs.Prelude.{Wide};
ghost use Rattle.wenc_parts.specs.Prelude.{value_type, plain_name, extern_name, type_reference};
ghost use Rattle.wenc_parts.specs.Prelude.{alias, CoreInstanceExport, Outer};
ghost use Rattle.wenc_parts.specs.declared.types.ComponentValType.TheVariants as values;

/// Shows the encodings of parts, and other spellings that are read.
#[tactic(auto, unfolding(wenc_base::specs::Number::groups))]
pub fn parts()
    // a type index is encoded as a signed number
    ensures index_63 { (value_type (values.«Type» 63)).text ≡ 0x3f ∷ [] }
    ensures index_64 { (value_type (values.«Type» 64)).text ≡ 0xc0 ∷ 0x00 ∷ [] }
    ensures largest_index { (value_type (values.«Type» 4294967295)).text
        ≡ 0xff ∷ 0xff ∷ 0xff ∷ 0xff ∷ 0x0f ∷ [] }
    ensures padded_index { (value_type (values.«Type» 64)).Reads Wide
        (0xc0 ∷ 0x80 ∷ 0x80 ∷ 0x80 ∷ 0x00 ∷ []) [] }
    ensures module { (type_reference (ComponentTypeRef.Module 5)).text ≡ 0x00 ∷ 0x11 ∷ 0x05 ∷ [] }
    // the tag "t" of core instance 0
    ensures core_export { (alias (CoreInstanceExport 0 ExportKind.Tag (0x74 ∷ []))).text
        ≡ 0x00 ∷ 0x04 ∷ 0x01 ∷ 0x00 ∷ 0x01 ∷ 0x74 ∷ [] }
    ensures outer_type { (alias (Outer ComponentOuterAliasKind.CoreType 1 2)).text
        ≡ 0x00 ∷ 0x10 ∷ 0x02 ∷ 0x01 ∷ 0x02 ∷ [] }
    ensures name { (extern_name (plain_name (0x66 ∷ []))).text ≡ 0x00 ∷ 0x01 ∷ 0x66 ∷ [] }
    ensures older_name { (extern_name (plain_name (0x66 ∷ []))).Reads Wide
        (0x01 ∷ 0x01 ∷ 0x66 ∷ []) [] }
    // "a" that implements "i" and has the empty external id
    ensures options { (extern_name (record {
      name = 0x61 ∷ [];
      implements = Some (0x69 ∷ []);
      version_suffix = None;
      external_id = Some [];
    })).text
        ≡ 0x02 ∷ 0x01 ∷ 0x61 ∷ 0x02 ∷ 0x00 ∷ 0x01 ∷ 0x69 ∷ 0x02 ∷ 0x00 ∷ [] }
{}
