//! Names of imports and exports, in place.
ghost use Rattle.std.specs.Prelude.{◌≡◌, ◌≤◌, length};
ghost use Rattle.wenc_parts.specs.Prelude.{ExternName, extern_name_sound, extern_name_lawful};
ghost use Rattle.wenc_parts.specs.Prelude.{option_number, with_option, read_name_option};
ghost use Rattle.wenc_read.specs.Prelude.{Gives, IsWithin, read_by};
ghost use Rattle.wenc_view.specs.Prelude.{name_seen, option_seen, read_options};

use crate::view::{View, text_of};
use wenc_read::{Expected, Refusal, byte, u32_of};

/// The name of an import or export, with its options, in place.
#[derive(Clone, Copy)]
pub struct NameView<'a> {
    /// The name.
    pub name: &'a str,
    /// The name of the interface that the item implements.
    pub implements: Option<&'a str>,
    /// The rest of the version, following the part in the name.
    pub version_suffix: Option<&'a str>,
    /// The name of the item elsewhere.
    pub external_id: Option<&'a str>,
}

/// An option of a name.
#[derive(Clone, Copy)]
enum NameOptionView<'a> {
    Implements(&'a str),
    VersionSuffix(&'a str),
    ExternalId(&'a str),
}

/// Returns the option's first byte.
fn number_of(option: &NameOptionView<'_>) -> u8
    ensures { result ≡ option_number (option_seen option.now) }
{
    match option {
        NameOptionView::Implements(_) => 0,
        NameOptionView::VersionSuffix(_) => 1,
        NameOptionView::ExternalId(_) => 2,
    }
}

/// Returns the name with this option.
fn with<'a>(option: NameOptionView<'a>, name: NameView<'a>) -> NameView<'a>
    ensures { name_seen result ≡ with_option (option_seen option.entry) (name_seen name.entry) }
{
    match option {
        NameOptionView::Implements(text) => NameView {
            implements: Some(text),
            ..name
        },
        NameOptionView::VersionSuffix(text) => NameView {
            version_suffix: Some(text),
            ..name
        },
        NameOptionView::ExternalId(text) => NameView {
            external_id: Some(text),
            ..name
        },
    }
}

/// Reads an option of a name.
#[tactic(auto, unfolding(wenc_base::specs::Readers::choose))]
fn option_of(bytes: &[u8]) -> Result<(NameOptionView<'_>, &[u8]), Refusal>
    ensures found { Gives (λ x. (option_seen x.0, x.1.now)) result (read_name_option bytes.now) }
    ensures place { IsWithin (λ x. x.1.now) bytes.now result }
{
    match byte(bytes)? {
        (0x00, rest) => {
            let (text, rest) = text_of(rest)?;
            Ok((NameOptionView::Implements(text), rest))
        }
        (0x01, rest) => {
            let (text, rest) = text_of(rest)?;
            Ok((NameOptionView::VersionSuffix(text), rest))
        }
        (0x02, rest) => {
            let (text, rest) = text_of(rest)?;
            Ok((NameOptionView::ExternalId(text), rest))
        }
        _ => Err(Refusal::at(bytes, Expected::From(0, 2))),
    }
}

/// Returns the maximum of the first byte of an option that is the first of so many.
fn most_of(count: u32) -> u8 {
    match count {
        0 | 1 => 2,
        2 => 1,
        _ => 0,
    }
}

/// Reads `count` options of a name, whose first bytes ascend from at least `least`: so there are at
/// most three of them, whatever `count` is.
fn options_from<'a>(
    name: &'a str,
    least: u8,
    count: u32,
    bytes: &'a [u8],
) -> Result<(NameView<'a>, &'a [u8]), Refusal>
    requires { least ≤ 3 }
    ensures found { Gives (λ x. (name_seen x.0, x.1.now)) result
        (read_options name.now least count bytes.now) }
    ensures place { IsWithin (λ x. x.1.now) bytes.now result }
{
    if count == 0 {
        let name = NameView {
            name,
            implements: None,
            version_suffix: None,
            external_id: None,
        };
        return Ok((name, bytes));
    }
    let most = most_of(count);
    match option_of(bytes) {
        Ok((option, rest)) => {
            let number = number_of(&option);
            if number < least {
                return Err(Refusal::at(bytes, Expected::From(least, most)));
            }
            match options_from(name, number + 1, count - 1, rest) {
                Ok((named, rest)) => Ok((with(option, named), rest)),
                Err(refusal) => Err(refusal.unless_from(least, most, bytes)),
            }
        }
        Err(refusal) => Err(refusal.unless_from(least, most, bytes)),
    }
}

/// Returns the error of bytes that begin with another number than 1 to 3.
#[cold]
fn no_count_of_options(bytes: &[u8]) -> Refusal
    ensures { result.left ≤ length bytes.now }
{
    match bytes {
        [0x81 | 0x82 | 0x83, ..] => Refusal::at(bytes, Expected::Bits(2)),
        _ => Refusal::at(bytes, Expected::OptionCount),
    }
}

impl<'a> View<'a> for NameView<'a> {
    ghost Value = { ExternName };

    ghost view = { name_seen };

    ghost reading = { read_by extern_name_sound extern_name_lawful };

    #[tactic(auto, unfolding(wenc_base::specs::Readers::choose))]
    #[inline(always)]
    fn view_of(bytes: &'a [u8]) -> Result<(NameView<'a>, &'a [u8]), Refusal> {
        match byte(bytes)? {
            (0x00 | 0x01, rest) => {
                let (name, rest) = text_of(rest)?;
                let name = NameView {
                    name,
                    implements: None,
                    version_suffix: None,
                    external_id: None,
                };
                Ok((name, rest))
            }
            (0x02, rest) => {
                let (name, rest) = text_of(rest)?;
                match u32_of(rest)? {
                    (0, _) => Err(no_count_of_options(rest)),
                    (count, options) => match options_from(name, 0, count, options) {
                        Ok((name, rest)) => Ok((name, rest)),
                        Err(_) if count > 3 => Err(no_count_of_options(rest)),
                        Err(refusal) => Err(refusal),
                    },
                }
            }
            _ => Err(Refusal::at(bytes, Expected::From(0, 2))),
        }
    }
}
