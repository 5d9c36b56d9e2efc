//! Worked encodings of canonical functions.
ghost use Rattle.std.specs.Prelude.{◌≡◌, [], ◌∷◌, Some, None, true};
ghost use Rattle.proved_parts.specs.Prelude.{ValType, CanonicalOption};
ghost use Rattle.wenc_base.specs.Prelude.{Wide, counted};
ghost use Rattle.wenc_canon.specs.Prelude.{canonical, Lift, Lower, OfBuiltin};
ghost use Rattle.wenc_canon.specs.Canonicals as rows;

/// Shows the encodings of functions and of a section, and another spelling that is read.
#[tactic(auto, unfolding(wenc_base::specs::Number::groups))]
pub fn canonical_functions()
    // core function 1 is lifted to type 2
    ensures lift { (canonical
        (Lift 1 (CanonicalOption.Memory 0 ∷ CanonicalOption.Async ∷ []) 2)).text
        ≡ 0x00 ∷ 0x00 ∷ 0x01 ∷ 0x02 ∷ 0x03 ∷ 0x00 ∷ 0x06 ∷ 0x02 ∷ [] }
    ensures lower { (canonical (Lower 3 [])).text ≡ 0x01 ∷ 0x00 ∷ 0x03 ∷ 0x00 ∷ [] }
    ensures padded_lower { (canonical (Lower 3 [])).Reads Wide
        (0x01 ∷ 0x00 ∷ 0x83 ∷ 0x00 ∷ 0x00 ∷ []) [] }
    ensures without_result { (canonical (OfBuiltin rows.TaskReturn (None, []))).text
        ≡ 0x09 ∷ 0x01 ∷ 0x00 ∷ 0x00 ∷ [] }
    ensures cancel { (canonical (OfBuiltin rows.StreamCancelRead (3, true))).text
        ≡ 0x11 ∷ 0x03 ∷ 0x01 ∷ [] }
    ensures poll { (canonical (OfBuiltin rows.WaitableSetPoll (tt, 0))).text
        ≡ 0x21 ∷ 0x00 ∷ 0x00 ∷ [] }
    ensures section { (counted canonical (OfBuiltin rows.ContextGet (ValType.I32, 0)
        ∷ OfBuiltin rows.TaskCancel tt ∷ [])).text
        ≡ 0x05 ∷ 0x02 ∷ 0x0a ∷ 0x7f ∷ 0x00 ∷ 0x05 ∷ [] }
{}
