//! The number of indices that items take in each index space.
ghost use Rattle.std.specs.Prelude.{◌≡◌, ◌+◌, ◌<◌, ◌^◌, map, slice_index};
ghost use Rattle.wenc_builder.specs.Prelude.{some_in, number_in, defined_in, next_index};
ghost use Rattle.wenc_list.specs.Prelude.{Space as SpaceSpec, item_view};
ghost use Rattle.wenc_sections.specs.Prelude.{space_number};

use crate::item::ItemTree;
use std::alloc::Allocator;
use wenc_builder::Space;

/// Adds `number` to the count of a space.
#[tactic(auto, using(crate::proofs::Indices::raised))]
fn add(counts: &mut [u128; 13], space: Space, number: u32)
    requires { slice_index counts.old (space_number space) + number < 2 ^ 128 }
    ensures { (k : SpaceSpec) → slice_index counts.new (space_number k)
        ≡ slice_index counts.old (space_number k) + number_in k (some_in space number) }
{
    counts[space.number()] += u128::from(number);
}

/// Counts the indices that an item takes.
fn add_item<A: Allocator>(counts: &mut [u128; 13], item: &ItemTree<A>)
    requires { (k : SpaceSpec)
        → slice_index counts.old (space_number k) + defined_in k (item_view item.now) < 2 ^ 128 }
    ensures { (k : SpaceSpec) → slice_index counts.new (space_number k)
        ≡ slice_index counts.old (space_number k) + defined_in k (item_view item.now) }
{
    match item.indices() {
        Some((space, number)) => add(counts, space, number),
        None => {}
    }
}

/// Counts the indices that the items take.
pub(crate) fn count<A: Allocator>(counts: &mut [u128; 13], items: &[ItemTree<A>])
    requires { (k : SpaceSpec) → slice_index counts.old (space_number k)
        + next_index (map item_view items.now) k < 2 ^ 128 }
    ensures { (k : SpaceSpec) → slice_index counts.new (space_number k)
        ≡ slice_index counts.old (space_number k) + next_index (map item_view items.now) k }
{
    for item in items {
        add_item(counts, item);
    }
}
