//! Worked types of components: their encodings, and how deep they nest.
ghost use Rattle.std.specs.Prelude.{◌≡◌, true, false, [], ◌∷◌, Some, None};
ghost use Rattle.proved_parts.specs.Prelude.{ValType, ComponentOuterAliasKind, TypeBounds};
ghost use Rattle.wenc_base.specs.Prelude.{Func, Single};
ghost use Rattle.wenc_parts.specs.Prelude.{Outer, plain_name};
ghost use Rattle.wenc_parts.specs.declared.imports.ComponentTypeRef.TheVariants as references;
ghost use Rattle.wenc_parts.specs.declared.types.ComponentValType.TheVariants as values;
ghost use Rattle.wenc_parts.specs.declared.types.PrimitiveValType.TheVariants.{String, U8, U32};
ghost use Rattle.wenc_types.specs.Prelude.{DefinedType, FunctionType, ComponentType, InstanceType};
ghost use Rattle.wenc_types.specs.Prelude.{ResourceType, CoreTyped, Typed, Aliased, Exported};
ghost use Rattle.wenc_types.specs.Prelude.{Imported, Declared, no_instance, and_instance};
ghost use Rattle.wenc_types.specs.Prelude.{no_component, and_component, def_type, depth, Grouped};
ghost use Rattle.wenc_types.specs.Prelude.{Record, Variant, OptionOf, ResultOf, MapOf};
ghost use Rattle.wenc_types.specs.Prelude.{FixedLengthList, Own, def_val_type, function_type};

/// Shows the encodings of value types and function types.
#[tactic(auto, unfolding(wenc_base::specs::Number::groups))]
pub fn defined_types()
    ensures no_fields { (def_val_type (Record [])).text ≡ 0x72 ∷ 0x00 ∷ [] }
    // "a" without a value, and "b" with a string
    ensures cases { (def_val_type (Variant (record { name = 0x61 ∷ []; ty = None }
        ∷ record { name = 0x62 ∷ []; ty = Some (values.Primitive String) } ∷ []))).text
        ≡ 0x71 ∷ 0x02 ∷ 0x01 ∷ 0x61 ∷ 0x00 ∷ 0x00 ∷ 0x01 ∷ 0x62 ∷ 0x01 ∷ 0x73 ∷ 0x00 ∷ [] }
    ensures error_alone { (def_val_type (ResultOf None (Some (values.Primitive String)))).text
        ≡ 0x6a ∷ 0x00 ∷ 0x01 ∷ 0x73 ∷ [] }
    ensures map { (def_val_type (MapOf (values.Primitive String) (values.Primitive U32))).text
        ≡ 0x63 ∷ 0x73 ∷ 0x79 ∷ [] }
    ensures fixed_length { (def_val_type (FixedLengthList (values.Primitive U8) 128)).text
        ≡ 0x67 ∷ 0x7d ∷ 0x80 ∷ 0x01 ∷ [] }
    ensures handle { (def_val_type (Own 64)).text ≡ 0x69 ∷ 0x40 ∷ [] }
    // "a" and "b" are strings, and so is the result
    ensures function { (function_type (record {
      is_async = false;
      params = record { name = 0x61 ∷ []; ty = values.Primitive String }
          ∷ record { name = 0x62 ∷ []; ty = values.Primitive String } ∷ [];
      answer = Some (values.Primitive String);
    })).text
        ≡ 0x40 ∷ 0x02 ∷ 0x01 ∷ 0x61 ∷ 0x73 ∷ 0x01 ∷ 0x62 ∷ 0x73 ∷ 0x00 ∷ 0x73 ∷ [] }
    ensures asynchronous { (function_type (record {
      is_async = true;
      params = [];
      answer = None;
    })).text
        ≡ 0x43 ∷ 0x00 ∷ 0x01 ∷ 0x00 ∷ [] }
{}

/// Shows the encodings of component types, instance types and resource types.
#[tactic(auto, unfolding(wenc_base::specs::Number::groups))]
pub fn component_types()
    ensures no_declarations { (def_type (ComponentType no_component)).text ≡ 0x41 ∷ 0x00 ∷ [] }
    ensures nested { (def_type (InstanceType
        (and_instance (Typed (InstanceType no_instance)) no_instance))).text
        ≡ 0x42 ∷ 0x01 ∷ 0x01 ∷ 0x42 ∷ 0x00 ∷ [] }
    ensures nested_depth { depth (InstanceType
        (and_instance (Typed (InstanceType no_instance)) no_instance)) ≡ 2 }
    // an optional string, exported as "t"
    ensures instance { (def_type (InstanceType
        (and_instance (Typed (DefinedType (OptionOf (values.Primitive String))))
        (and_instance (Exported (plain_name (0x74 ∷ [])) (references.«Type» (TypeBounds.Eq 0)))
        no_instance)))).text
        ≡ 0x42 ∷ 0x02 ∷ 0x01 ∷ 0x6b ∷ 0x73 ∷ 0x04 ∷ 0x00 ∷ 0x01 ∷ 0x74 ∷ 0x03 ∷ 0x00 ∷ 0x00 ∷ [] }
    // a core function type that isn't final, an imported resource "r", and an alias
    ensures component { (def_type (ComponentType
        (and_component (Declared (CoreTyped (Grouped (Single
        (record { is_final = false; supertype = None; composite = Func [] [] })))))
        (and_component (Imported (plain_name (0x72 ∷ []))
        (references.«Type» TypeBounds.SubResource))
        (and_component (Declared (Aliased (Outer ComponentOuterAliasKind.CoreType 1 0)))
        no_component))))).text
        ≡ 0x41 ∷ 0x03 ∷ 0x00 ∷ 0x00 ∷ 0x50 ∷ 0x00 ∷ 0x60 ∷ 0x00 ∷ 0x00 ∷ 0x03 ∷ 0x00 ∷ 0x01 ∷ 0x72
        ∷ 0x03 ∷ 0x01 ∷ 0x02 ∷ 0x00 ∷ 0x10 ∷ 0x02 ∷ 0x01 ∷ 0x00 ∷ [] }
    ensures resource { (def_type (ResourceType ValType.I32 None)).text ≡ 0x3f ∷ 0x7f ∷ 0x00 ∷ [] }
    ensures ended_resource { (def_type (ResourceType ValType.I32 (Some 3))).text
        ≡ 0x3f ∷ 0x7f ∷ 0x01 ∷ 0x03 ∷ [] }
{}
