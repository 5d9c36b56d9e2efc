//! Groups of types that a module defines together.
ghost use Rattle.std.specs.Prelude.{refl};
ghost use Rattle.wenc_base.specs.Prelude.{rec_type, rec_type_view, group_lawful, by_group};
ghost use Rattle.wenc_base.specs.Prelude.{by_parts, by_kind, plain, same_params, same_results};
ghost use Rattle.wenc_base.specs.Prelude.{same_element, same_fields, last_of_three, as_seen};
ghost use Rattle.wenc_base.specs.Prelude.{serves_itself};

use super::sub::SubType;
use crate::delimited::{Delimited, DelimitedEq};
use crate::encode::{Encode, Prefix};
use crate::fault::Fault;
use std::alloc::{Allocator, Global};

/// One type, or a group of types that a module defines together (WebAssembly 3.0, binary format,
/// "Recursive Types").
#[derive(Drop)]
#[derive_where(PartialEq, Eq)]
pub enum GroupTree<A: Allocator = Global> {
    /// A single type.
    Sub(SubType<A>),
    /// Types that may refer to each other. More than 4294967295 can't be encoded.
    Rec(Vec<SubType<A>, A>),
}

impl<A: Allocator> Encode for GroupTree<A> {
    ghost piece = { λ g. rec_type (rec_type_view g) };

    fn encode<B: Allocator>(&self, sink: &mut Vec<u8, B>) -> Result<(), Fault> {
        match self {
            GroupTree::Sub(ty) => ty.encode(sink),
            GroupTree::Rec(types) => Prefix(0x4e, &types.as_slice()).encode(sink),
        }
    }
}

impl<A: Allocator> Delimited for GroupTree<A> {
    ghost reads_back = { as_seen rec_type_view group_lawful };

    ghost written = { λ _. serves_itself };
}

impl<A: Allocator> DelimitedEq for GroupTree<A> {
    ghost use Rattle.wenc_base.specs.declared.types.composite.CompositeType.TheVariants
        as composites;
    ghost use Rattle.wenc_base.specs.declared.types.groups.GroupTree.TheVariants as groups;

    ghost alike = { λ laws. by_group _
        (by_parts _
        (by_kind _
        (λ f g e. rw (same_params f g e, same_results f g e)
        (laws.refl (groups.Sub (plain (composites.Func g)))))
        (λ a b e. rw (same_element a b e) (laws.refl (groups.Sub (plain (composites.Array b)))))
        (λ s t e. rw (same_fields s t e) (laws.refl (groups.Sub (plain (composites.Struct t))))))
        (λ s t final supertype same. rw (final, supertype)
        (last_of_three _ _ _ _ (laws.refl (groups.Sub t)) same)))
        (λ v w same. same) };
}
