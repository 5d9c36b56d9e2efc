//! Parses numbers, flags and bytes.
ghost use Rattle.std.specs.Prelude.{◌≡◌, IfOk, option_map};
ghost use Rattle.wenc.specs.Prelude.{number_word, flag_word, hex};

use hex::FromHexError;
use std::alloc::{AllocError, Global};

/// Returns the value of decimal digits, at least one, if it is at most 4294967295.
pub fn number(word: &str) -> Option<u32>
    ensures { result ≡ number_word word.now }
{
    if word.is_empty() {
        return None;
    }
    let mut value = 0u32;
    for byte in word.as_bytes() {
        if !byte.is_ascii_digit() {
            return None;
        }
        value = value.checked_mul(10)?.checked_add(u32::from(*byte - b'0'))?;
    }
    Some(value)
}

/// Returns the flag of `0` or `1`.
pub fn flag(word: &str) -> Option<bool>
    ensures { result ≡ flag_word word.now }
{
    match word {
        "0" => Some(false),
        "1" => Some(true),
        _ => None,
    }
}

/// Returns the bytes of hexadecimal digits; no bytes for `-`.
pub fn bytes(alloc: Global, word: &str) -> Result<Option<Vec<u8>>, AllocError>
    ensures { IfOk result (λ bytes. option_map (λ v. v.items) bytes ≡ hex word.now) }
{
    if word == "-" {
        return Ok(Some(Vec::new(alloc)));
    }
    match hex::decode(alloc, word) {
        Ok(bytes) => Ok(Some(bytes)),
        Err(FromHexError::OutOfMemory) => Err(AllocError),
        Err(_) => Ok(None),
    }
}
