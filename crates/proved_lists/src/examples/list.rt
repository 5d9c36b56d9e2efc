//! Examples of `wenc_list`, `wenc_view` and `wenc_decode`.

use std::alloc::{AllocError, Allocator};
use wenc_decode::TreeOf;
use wenc_list::{
    ItemTree, ItemView, ListFault, ListRefusal, Names, Sections, behind_module_header, list,
    list_or_refusal, names_in, part_of,
};
use wenc_parts::{Alias, AliasTree};
use wenc_read::{Expected, Refusal};
use wenc_view::{ListOf, View};

/// `list`: whether a component has imports.
pub fn imports<A: Allocator + Copy>(alloc: A, component: &[u8]) -> Result<bool, ListFault> {
    let listing = list(alloc, component)?;
    let mut imports = false;
    for section in &listing.sections {
        imports = imports || section.id == 10;
    }
    Ok(imports)
}

/// `list_or_refusal`: how many items of a section are before one that can't be read.
pub fn read_before<A: Allocator + Copy>(alloc: A, component: &[u8]) -> Option<u32> {
    match list_or_refusal(alloc, component) {
        Err(ListRefusal::Item { count, left, .. }) => Some(count.saturating_sub(left.left)),
        _ => None,
    }
}

/// `Sections`: the first item of a component.
pub fn first_item(component: &[u8]) -> Result<Option<ItemView<'_>>, ListFault> {
    let mut sections = Sections::new(component)?;
    match sections.next()? {
        Some(mut items) => items.next(),
        None => Ok(None),
    }
}

/// `SectionItems::next_tree`: the first item of a component as an owned value.
pub fn first_tree<A: Allocator + Copy>(
    alloc: A,
    component: &[u8],
) -> Result<Option<ItemTree<A>>, ListFault> {
    let mut sections = Sections::new(component)?;
    match sections.next()? {
        Some(mut items) => items.next_tree(alloc),
        None => Ok(None),
    }
}

/// `behind_module_header` and `part_of`: the first section of a core module.
pub fn first_section(module: &[u8]) -> Result<((u8, &[u8]), &[u8]), Refusal> {
    match behind_module_header(module) {
        Some(sections) => part_of(sections),
        None => Err(Refusal::at(module, Expected::From(0, 0))),
    }
}

/// `names_in`.
pub fn first_names(data: &[u8]) -> Result<(Names<'_>, &[u8]), Refusal> {
    let ((id, content), rest) = part_of(data)?;
    let names = names_in(id, content)?;
    Ok((names, rest))
}

/// `View`: the sum of a list of numbers, which are read one by one.
pub fn sum_of(bytes: &[u8]) -> Result<(u64, &[u8]), Refusal> {
    let (numbers, rest) = ListOf::view_of(bytes)?;
    let mut sum: u64 = 0;
    for number in numbers {
        let number: u32 = number;
        sum = sum.saturating_add(u64::from(number));
    }
    Ok((sum, rest))
}

/// `TreeOf`: an alias as an owned value.
pub fn alias_tree<A: Allocator + Copy>(
    alloc: A,
    alias: Alias<'_>,
) -> Result<AliasTree<A>, AllocError> {
    let tree = AliasTree::tree_of(alloc, alias)?;
    Ok(tree)
}
