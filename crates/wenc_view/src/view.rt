//! The trait `View`, and the parts of every form.
ghost use Rattle.std.specs.Prelude.{◌≡◌, ◌+◌, ◌-◌, List, [], length, IfOk, IfErr};
ghost use Rattle.std.specs.Str.{valid_up_to};
ghost use Rattle.wenc_base.specs.Prelude.{u32_sound, u32_lawful, read_name, name_sound};
ghost use Rattle.wenc_base.specs.Prelude.{name_lawful};
ghost use Rattle.wenc_read.specs.Prelude.{Gives, IsWithin, read_by, reading_option, Reading};
ghost use Rattle.wenc_read.specs.declared.expected.Expected.TheVariants.{Utf8};
ghost use Rattle.wenc_view.specs.Prelude.{name_error, AreCounted, Place};

use std::str::Utf8Error;
use wenc_read::{Expected, Refusal, byte, flag_of, u32_of};

/// A value that can be read from the beginning of bytes, and borrows from them (component model,
/// binary format, from "Component Definitions" on). Nothing is allocated.
///
/// ```
/// let (numbers, rest) = ListOf::view_of(bytes)?;
/// let mut sum: u64 = 0;
/// for number in numbers {
///     let number: u32 = number;
///     sum = sum.saturating_add(u64::from(number));
/// }
/// ```
pub trait View<'a>: Sized + Copy {
    /// The value in contracts.
    ghost Value: { Type 0 };

    ghost view: { Self → Value };

    /// The reader that finds the value: what is read widely as its form, and nothing else.
    ghost reading: { Reading Value };

    /// Where its lists are: in the bytes, one behind the other, each behind its count and with as
    /// many members.
    ghost lists: { Self → List Place } = { λ _. [] };

    /// Reads the value that begins the bytes, in any of its spellings. Returns it and the bytes
    /// after it.
    ///
    /// # Errors
    ///
    /// Fails if no value begins the bytes.
    fn view_of(bytes: &'a [u8]) -> Result<(Self, &'a [u8]), Refusal>
        ensures found { Gives (λ x. (view x.0, x.1.now)) result (reading.read bytes.now) }
        ensures place { IsWithin (λ x. x.1.now) bytes.now result }
        ensures counted { IfOk result (λ x. AreCounted bytes.now (lists x.0) x.1.now) };
}

impl<'a> View<'a> for u32 {
    ghost use Rattle.std.specs.Prelude.{ℕ};

    ghost Value = { ℕ };

    ghost view = { λ n. n };

    ghost reading = { read_by u32_sound u32_lawful };

    #[inline(always)]
    fn view_of(bytes: &'a [u8]) -> Result<(u32, &'a [u8]), Refusal> {
        u32_of(bytes)
    }
}

/// Returns the error of a text, before these bytes, that isn't UTF-8.
#[cold]
fn not_utf8(text: &[u8], after: &[u8], error: Utf8Error) -> Refusal
    ensures { result ≡ record {
      left = length text.now - valid_up_to error + length after.now;
      expected = Utf8;
    } }
{
    let left = text.len().saturating_sub(error.valid_up_to());
    Refusal {
        left: left.saturating_add(after.len()),
        expected: Expected::Utf8,
    }
}

/// Reads a string after its length in bytes (WebAssembly 3.0, binary format, "Names"), in place.
///
/// # Errors
///
/// Fails if there is no length, the length exceeds the bytes that are left, or the string isn't
/// UTF-8.
#[tactic(auto, unfolding(wenc_base::specs::reading::Forms::text_at))]
#[inline(always)]
pub fn text_of(bytes: &[u8]) -> Result<(&str, &[u8]), Refusal>
    ensures found { Gives (λ x. (x.0.now, x.1.now)) result (read_name bytes.now) }
    ensures place { IsWithin (λ x. x.1.now) bytes.now result }
    ensures refused { IfErr result (λ e. e ≡ name_error bytes.now) }
{
    let (size, rest) = u32_of(bytes)?;
    let len = size as usize;
    if rest.len() < len {
        return Err(Refusal::at(rest, Expected::Bytes(size)));
    }
    let (front, after) = rest.split_at(len);
    match std::str::from_utf8(front) {
        Ok(text) => Ok((text, after)),
        Err(error) => Err(not_utf8(front, after, error)),
    }
}

impl<'a> View<'a> for &'a str {
    ghost use Rattle.std.specs.Prelude.{ℕ};

    ghost Value = { List ℕ };

    ghost view = { λ s. s.now };

    ghost reading = { read_by name_sound name_lawful };

    #[inline(always)]
    fn view_of(bytes: &'a [u8]) -> Result<(&'a str, &'a [u8]), Refusal> {
        text_of(bytes)
    }
}

/// An option: a byte `00`, or a byte `01` and a value.
impl<'a, T: View<'a>> View<'a> for Option<T> {
    ghost use Rattle.std.specs.Prelude.{Option as OptionOf, option_map};
    ghost use Rattle.std.specs.Option.{option_map_or};
    ghost use Rattle.wenc_read.specs.Prelude.{reading_option};

    ghost Value = { OptionOf T.Value };

    ghost view = { option_map T.view };

    ghost reading = { reading_option T.reading };

    ghost lists = { λ o. option_map_or T.lists o [] };

    #[tactic(auto, unfolding(wenc_base::specs::Readers::choose))]
    fn view_of(bytes: &'a [u8]) -> Result<(Option<T>, &'a [u8]), Refusal> {
        match byte(bytes)? {
            (0x00, rest) => Ok((None, rest)),
            (0x01, rest) => {
                let (value, rest) = T::view_of(rest)?;
                Ok((Some(value), rest))
            }
            _ => Err(Refusal::at(bytes, Expected::From(0, 1))),
        }
    }
}

impl<'a> View<'a> for bool {
    ghost use Rattle.std.specs.Prelude.{Bool};
    ghost use Rattle.wenc_base.specs.Prelude.{flag_sound, flag_lawful};

    ghost Value = { Bool };

    ghost view = { λ b. b };

    ghost reading = { read_by flag_sound flag_lawful };

    fn view_of(bytes: &'a [u8]) -> Result<(bool, &'a [u8]), Refusal> {
        flag_of(bytes)
    }
}
