//! The laws of forms applied to another crate's type, also in a list and in an option.
ghost use Rattle.std.specs.Prelude.{◌≡◌, ◌++◌, ℕ, List, true};
ghost use Rattle.std.specs.Cmp.Lexicographic.{pointwise};
ghost use Rattle.std.specs.Option.{option_eq};
ghost use Rattle.proved_parts.specs.Prelude.{light};
ghost use Rattle.wenc_base.specs.Prelude.{FormLaws, list, option};

use proved_parts::strangers::own::Light;
use wasm_encoder::laws::{texts_tell_equals, values_are_lawful};

/// Shows that another crate's form obeys the laws of the format's forms.
pub fn lights_are_lawful()
    ensures { FormLaws light }
{
    values_are_lawful::<Light>();
}

/// Shows that the encoding of a list of lights, followed by any bytes, determines the lights, and
/// the bytes that follow.
pub fn lights_are_told(a: &&[Light], b: &&[Light])
    ensures { (list light a.now.now).Fits → (list light b.now.now).Fits → (r s : List ℕ)
        → (list light a.now.now).text ++ r ≡ (list light b.now.now).text ++ s
        → (pointwise ⟦<Light as PartialEq>⟧.eq a.now.now b.now.now ≡ true) × (r ≡ s) }
{
    texts_tell_equals(a, b);
}

/// Shows that the encoding of an optional light, followed by any bytes, determines the light, and
/// the bytes that follow. An optional light is always encodable.
pub fn optional_lights_are_told(a: &Option<Light>, b: &Option<Light>)
    ensures { (r s : List ℕ)
        → (option light a.now).text ++ r ≡ (option light b.now).text ++ s
        → (option_eq ⟦<Light as PartialEq>⟧.eq a.now b.now ≡ true) × (r ≡ s) }
{
    texts_tell_equals(a, b);
}
