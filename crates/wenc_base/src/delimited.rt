//! The trait `Delimited`: values that can be read back from their encoding.
ghost use Rattle.std.specs.Cmp.{IsEquivalence};
ghost use Rattle.wenc_base.specs.Prelude.{AlikeIsEqual, itself, flag_lawful, u32_lawful};
ghost use Rattle.wenc_base.specs.Prelude.{u64_lawful, i64_lawful, name_lawful, byte_list_lawful};
ghost use Rattle.wenc_base.specs.Prelude.{as_itself, as_seen, ReadsBack, IsWritten, serves_itself};

mod made;

use crate::encode::Encode;
use std::alloc::Allocator;

/// A value whose encoding is self-delimiting: it determines the value, whatever bytes follow.
///
/// You may implement this trait for types of your own. An implementation supplies a form, a proof
/// that the form can be read, and a proof that `encode` writes what the form says.
pub trait Delimited: Encode {
    /// What is seen of a value, and how that is written and read.
    ghost reads_back: { ReadsBack Self };

    /// `encode` writes what the form says.
    ghost written: { IsWritten Self.piece reads_back.seen reads_back.form };
}

/// A `Delimited` value that can be compared: values that are seen as equal are equal.
pub trait DelimitedEq: Delimited + Eq {
    /// Equality is decided by what is seen.
    ghost alike: { IsEquivalence Self.eq → AlikeIsEqual Self.eq Self.reads_back.seen };
}

impl Delimited for bool {
    ghost reads_back = { as_itself flag_lawful };

    ghost written = { λ _. serves_itself };
}

impl DelimitedEq for bool {
    ghost alike = { itself _ };
}

impl Delimited for u32 {
    ghost reads_back = { as_itself u32_lawful };

    ghost written = { λ _. serves_itself };
}

impl DelimitedEq for u32 {
    ghost alike = { itself _ };
}

impl Delimited for u64 {
    ghost reads_back = { as_itself u64_lawful };

    ghost written = { λ _. serves_itself };
}

impl DelimitedEq for u64 {
    ghost alike = { itself _ };
}

impl Delimited for i64 {
    ghost reads_back = { as_itself i64_lawful };

    ghost written = { λ _. serves_itself };
}

impl DelimitedEq for i64 {
    ghost alike = { itself _ };
}

impl Delimited for &str {
    ghost reads_back = { as_seen (λ s. s.now) name_lawful };

    ghost written = { λ _. serves_itself };
}

impl DelimitedEq for &str {
    ghost use Rattle.std.specs.Cmp.Lexicographic.{nat_list_eq_equiv};

    ghost alike = { λ _ a b. itself _ nat_list_eq_equiv a.now b.now };
}

impl<A: Allocator> Delimited for String<A> {
    ghost use Rattle.std.specs.String.{string_bytes};

    ghost reads_back = { as_seen string_bytes name_lawful };

    ghost written = { λ _. serves_itself };
}

impl<A: Allocator> DelimitedEq for String<A> {
    ghost use Rattle.std.specs.Cmp.Lexicographic.{nat_list_eq_equiv};
    ghost use Rattle.std.specs.String.{string_bytes};

    ghost alike = { λ _ a b. itself _ nat_list_eq_equiv (string_bytes a) (string_bytes b) };
}

impl Delimited for &[u8] {
    ghost reads_back = { as_seen (λ bytes. bytes.now) byte_list_lawful };

    ghost written = { λ _. serves_itself };
}

impl DelimitedEq for &[u8] {
    ghost use Rattle.std.specs.Cmp.Lexicographic.{nat_list_eq_equiv};

    ghost alike = { λ _ a b. itself _ nat_list_eq_equiv a.now b.now };
}
