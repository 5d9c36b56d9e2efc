//! Subtypes: composite types with the type that they extend.
ghost use Rattle.std.specs.Prelude.{OnOk, Some};
ghost use Rattle.wenc_base.specs.Prelude.{Appends, option, u32 as number, ◌▸◌, ◌⨾◌, sub_type};
ghost use Rattle.wenc_base.specs.Prelude.{sub_view, sub_type_lawful, by_parts, by_kind, plain};
ghost use Rattle.wenc_base.specs.Prelude.{same_params, same_results, same_element, same_fields};
ghost use Rattle.wenc_base.specs.Prelude.{last_of_three, as_seen, serves_itself};

use super::composite::CompositeType;
use crate::delimited::{Delimited, DelimitedEq};
use crate::encode::{ByRef, Encode, Prefix};
use crate::fault::Fault;
use std::alloc::{Allocator, Global};

/// A composite type, the type that it extends, and whether it can itself be extended (WebAssembly
/// 3.0, binary format, "Recursive Types").
#[derive(Drop)]
#[derive_where(PartialEq, Eq)]
pub struct SubType<A: Allocator = Global> {
    /// Whether no type may extend it.
    pub is_final: bool,
    /// The index of the type that it extends, if there is one.
    pub supertype_idx: Option<u32>,
    /// The composite type.
    pub composite_type: CompositeType<A>,
}

impl<A: Allocator> Encode for SubType<A> {
    ghost piece = { λ s. sub_type (sub_view s) };

    fn encode<B: Allocator>(&self, sink: &mut Vec<u8, B>) -> Result<(), Fault> {
        let ty = &self.composite_type;
        match (self.is_final, self.supertype_idx) {
            (true, None) => ty.encode(sink),
            (true, Some(index)) => encode_extension(0x4f, index, ty, sink),
            (false, None) => Prefix(0x50, &Prefix(0x00, ty)).encode(sink),
            (false, Some(index)) => encode_extension(0x50, index, ty, sink),
        }
    }
}

impl<A: Allocator> Delimited for SubType<A> {
    ghost reads_back = { as_seen sub_view sub_type_lawful };

    ghost written = { λ _. serves_itself };
}

impl<A: Allocator> DelimitedEq for SubType<A> {
    ghost use Rattle.wenc_base.specs.declared.types.composite.CompositeType.TheVariants
        as composites;

    ghost alike = { λ laws. by_parts _
        (by_kind _
        (λ f g e. rw (same_params f g e, same_results f g e)
        (laws.refl (plain (composites.Func g))))
        (λ a b e. rw (same_element a b e) (laws.refl (plain (composites.Array b))))
        (λ s t e. rw (same_fields s t e) (laws.refl (plain (composites.Struct t)))))
        (λ s t final supertype same. rw (final, supertype)
        (last_of_three _ _ _ _ (laws.refl t) same)) };
}

/// Appends a tag, the index of the type that is extended, and a type.
fn encode_extension<T: Encode, A: Allocator>(
    tag: u8,
    index: u32,
    ty: &T,
    sink: &mut Vec<u8, A>,
) -> Result<(), Fault>
    ensures appended { let extension = tag ▸ (option number (Some index) ⨾ T.piece ty.now) in
        Appends extension.text extension.Cause ⊥ sink.old.items sink.new.items result }
    ensures fits { OnOk result (tag ▸ (option number (Some index) ⨾ T.piece ty.now)).Fits }
{
    Prefix(tag, &Prefix(0x01, &(index, ByRef(ty)))).encode(sink)
}

impl<A: Allocator> Encode for &SubType<A> {
    ghost piece = { λ s. sub_type (sub_view s.now) };

    fn encode<B: Allocator>(&self, sink: &mut Vec<u8, B>) -> Result<(), Fault> {
        ByRef(*self).encode(sink)
    }
}
