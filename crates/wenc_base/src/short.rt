//! A few bytes on the stack.
ghost use Rattle.std.specs.Prelude.{◌≡◌, ◌+◌, ◌-◌, ◌<◌, ◌≤◌, ◌++◌, ◌∷◌, [], length, if◌then◌else◌};
ghost use Rattle.wenc_base.specs.Prelude.{groups, complement, turned, unsigned_text, signed_text};

use std::marker::Model;

/// Up to 11 bytes on the stack: room for a section's id, size and count at their longest, or for
/// one number.
#[derive(Drop)]
pub struct Short {
    bytes: [u8; 11],
    len: usize,
}

impl Model for Short {
    ghost use Rattle.std.specs.Prelude.{List, ℕ, ◌≤◌, take};

    ghost Value = { List ℕ };

    ghost view = { λ s. take s.len s.bytes };

    ghost invariant = { λ s. s.len ≤ 11 };
}

impl Short {
    /// Creates an empty buffer.
    #[inline(always)]
    pub fn new() -> Short
        ensures { result ≡ [] }
    {
        Short {
            bytes: [0; 11],
            len: 0,
        }
    }

    /// Returns the bytes.
    #[inline(always)]
    pub fn as_slice(&self) -> &[u8]
        ensures same { result.now ≡ self.now }
        ensures short { length self.now ≤ 11 }
    {
        &self.bytes[..self.len]
    }

    /// Appends a byte. There has to be room for it.
    #[inline(always)]
    pub fn push(&mut self, byte: u8)
        requires { length self.old < 11 }
        ensures { self.new ≡ self.old ++ byte ∷ [] }
    {
        self.bytes[self.len] = byte;
        // 32 bits: at most 11.
        self.len += 1;
    }

    /// Appends the encoding of an unsigned number. There has to be room for it.
    pub fn unsigned(&mut self, n: u64)
        requires { length self.old + length (unsigned_text n) ≤ 11 }
        ensures { self.new ≡ self.old ++ unsigned_text n }
    {
        let mut rest = n;
        while rest >= 128 {
            self.push((rest % 128) as u8 + 128);
            rest /= 128;
        }
        self.push(rest as u8);
    }

    /// Appends the encoding of a signed number. There has to be room for it.
    pub fn signed(&mut self, n: i64)
        requires { length self.old + length (signed_text n) ≤ 11 }
        ensures { self.new ≡ self.old ++ signed_text n }
    {
        if n < 0 {
            self.signed_groups((-(n + 1)) as u64, true);
        } else {
            self.signed_groups(n as u64, false);
        }
    }

    /// Appends the groups of seven bits of a signed number, inverted if it is negative.
    #[tactic(auto, using(crate::proofs::Groups::writing_more))]
    fn signed_groups(&mut self, magnitude: u64, is_negative: bool)
        requires { length self.old + length (turned is_negative (groups 64 9 magnitude)) ≤ 11 }
        ensures { self.new ≡ self.old ++ turned is_negative (groups 64 9 magnitude) }
    {
        let mut rest = magnitude;
        while rest >= 64 {
            self.push(turned_byte((rest % 128) as u8 + 128, is_negative));
            rest /= 128;
        }
        self.push(turned_byte(rest as u8, is_negative));
    }
}

/// Returns a byte of a signed number, with its seven bits inverted if the number is negative.
fn turned_byte(byte: u8, is_negative: bool) -> u8
    ensures { result ≡ (if is_negative then complement byte else byte) }
{
    if !is_negative {
        byte
    } else if byte < 128 {
        127 - byte
    } else {
        255 - byte + 128
    }
}
