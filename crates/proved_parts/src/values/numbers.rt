//! Worked numbers and core value types.
ghost use Rattle.std.specs.Prelude.{◌≡◌, ℕ, negsuc, true, false, ◌∷◌, [], List};
ghost use Rattle.wenc_base.specs.Prelude.{unsigned_text, signed_text, index, u32 as number, Strict};
ghost use Rattle.wenc_base.specs.Prelude.{Wide, reference_to};
ghost use Rattle.wenc_base.specs.declared.types.AbstractHeapType.TheVariants.{Func, Any};
ghost use Rattle.wenc_base.specs.declared.types.HeapType.TheVariants.{Abstract, Concrete};

use wenc_read::laws::readers_are_exact;

/// Shows the encodings of some numbers, what is read as 2, and two lists of bytes that aren't a
/// number of 32 bits.
pub fn numbers()
    ensures last_of_one { (index 63).text ≡ 0x3f ∷ [] }
    ensures first_of_two { (index 64).text ≡ 0xc0 ∷ 0x00 ∷ [] }
    ensures largest { (index 4294967295).text ≡ 0xff ∷ 0xff ∷ 0xff ∷ 0xff ∷ 0x0f ∷ [] }
    ensures below_zero { signed_text (negsuc 0) ≡ 0x7f ∷ [] }
    ensures lowest_of_one { signed_text (negsuc 63) ≡ 0x40 ∷ [] }
    ensures highest_of_two { signed_text (negsuc 64) ≡ 0xbf ∷ 0x7f ∷ [] }
    ensures three { unsigned_text 624485 ≡ 0xe5 ∷ 0x8e ∷ 0x26 ∷ [] }
    ensures padded { (number 2).Reads Wide (0x82 ∷ 0x80 ∷ 0x80 ∷ 0x80 ∷ 0x00 ∷ []) [] }
    ensures too_long { (n : ℕ) (rest : List ℕ)
        → (number n).Reads Wide (0x82 ∷ 0x80 ∷ 0x80 ∷ 0x80 ∷ 0x80 ∷ 0x00 ∷ []) rest → ⊥ }
    ensures too_large { (n : ℕ) (rest : List ℕ)
        → (number n).Reads Wide (0xff ∷ 0xff ∷ 0xff ∷ 0xff ∷ 0x1f ∷ []) rest → ⊥ }
{
    readers_are_exact();
}

/// Shows the encodings of some references, what else is read widely as a nullable one, and that it
/// isn't read strictly.
#[tactic(auto, unfolding(wenc_base::specs::Number::groups))]
pub fn value_types()
    ensures func { (reference_to true (Abstract Func)).text ≡ 0x70 ∷ [] }
    ensures func_not_null { (reference_to false (Abstract Func)).text ≡ 0x64 ∷ 0x70 ∷ [] }
    ensures any { (reference_to true (Abstract Any)).text ≡ 0x63 ∷ 0x6e ∷ [] }
    ensures type_64 { (reference_to true (Concrete 64)).text ≡ 0x63 ∷ 0xc0 ∷ 0x00 ∷ [] }
    ensures short_any { (reference_to true (Abstract Any)).Reads Wide (0x6e ∷ []) [] }
    ensures long_func { (reference_to true (Abstract Func)).Reads Wide (0x63 ∷ 0x70 ∷ []) [] }
    ensures no_short_any { (rest : List ℕ)
        → (reference_to true (Abstract Any)).Reads Strict (0x6e ∷ []) rest → ⊥ }
{}
