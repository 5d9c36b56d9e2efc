//! Owned copies of what is read in place.
ghost use Rattle.std.specs.Prelude.{◌≡◌, ◌≤◌, ◌<◌, length, IfOk};
ghost use Rattle.std.specs.String.{string_bytes};
ghost use Rattle.wenc_decode.specs.Prelude.{AreCopies, OptionCopies};
ghost use Rattle.wenc_view.specs.Prelude.{list_view, name_seen, labelled_seen, case_seen};
ghost use Rattle.wenc_view.specs.Prelude.{defined_seen};
ghost use Rattle.wenc_parts.specs.Prelude.{name_tree_view, alias_tree_view, alias_view};
ghost use Rattle.wenc_types.specs.Prelude.{labelled_type_view, case_view, defined_view};

pub mod canonicals;
pub mod core_types;
pub mod instances;
pub mod type_trees;

use std::alloc::{AllocError, Allocator};
use wenc_parts::{Alias, AliasTree, ComponentValType, NameOptions, NameTree};
use wenc_types::{CaseTree, DefinedTree};
use wenc_view::{CaseView, DefinedView, ListOf, NameView, View};

/// An owned value that can be made of a borrowed one, `V`. It is allocated in `A`.
///
/// ```
/// let tree = AliasTree::tree_of(alloc, alias)?;
/// ```
pub trait TreeOf<V, A: Allocator + Copy>: Sized + Drop {
    /// Whether the value equals a borrowed one.
    ghost is_copy: { Self → V → Type 0 };

    /// Returns an owned value that equals the borrowed one.
    ///
    /// # Errors
    ///
    /// Fails if an allocation fails.
    fn tree_of(alloc: A, view: V) -> Result<Self, AllocError>
        ensures { IfOk result (λ t. is_copy t view) };
}

impl<A: Allocator + Copy> TreeOf<u32, A> for u32 {
    ghost is_copy = { λ t v. t ≡ v };

    fn tree_of(_alloc: A, view: u32) -> Result<u32, AllocError> {
        Ok(view)
    }
}

impl<A: Allocator + Copy> TreeOf<ComponentValType, A> for ComponentValType {
    ghost is_copy = { λ t v. t ≡ v };

    fn tree_of(_alloc: A, view: ComponentValType) -> Result<ComponentValType, AllocError> {
        Ok(view)
    }
}

impl<'a, A: Allocator + Copy> TreeOf<&'a str, A> for String<A> {
    ghost is_copy = { λ t v. string_bytes t ≡ v.now };

    #[inline(always)]
    fn tree_of(alloc: A, view: &'a str) -> Result<String<A>, AllocError> {
        String::from_str(alloc, view)
    }
}

impl<A: Allocator + Copy, V, T: TreeOf<V, A>> TreeOf<Option<V>, A> for Option<T> {
    ghost is_copy = { OptionCopies T.is_copy };

    fn tree_of(alloc: A, view: Option<V>) -> Result<Option<T>, AllocError> {
        match view {
            Some(value) => Ok(Some(T::tree_of(alloc, value)?)),
            None => Ok(None),
        }
    }
}

/// Returns the capacity to reserve for `count` values in these bytes: `count` if there is at least
/// a byte for each, otherwise 0. So it never exceeds the number of bytes.
pub fn room_for(count: u32, bytes: &[u8]) -> usize
    ensures fits { count ≤ length bytes.now → result ≡ count }
    ensures unmet { length bytes.now < count → result ≡ 0 }
{
    let count = count as usize;
    if count <= bytes.len() { count } else { 0 }
}

impl<'a, A: Allocator + Copy, V: View<'a>, T: TreeOf<V, A>> TreeOf<ListOf<'a, V>, A> for Vec<T, A> {
    ghost is_copy = { λ ts l. AreCopies T.is_copy V.view ts.items (list_view V.reading.read l) };

    fn tree_of(alloc: A, view: ListOf<'a, V>) -> Result<Vec<T, A>, AllocError> {
        let mut values = Vec::with_capacity(alloc, room_for(view.left, view.bytes))?;
        for value in view {
            let tree = T::tree_of(alloc, value)?;
            values.push(tree)?;
        }
        Ok(values)
    }
}

impl<'a, A: Allocator + Copy> TreeOf<Alias<'a>, A> for AliasTree<A> {
    ghost is_copy = { λ t v. alias_tree_view t ≡ alias_view v };

    #[inline(always)]
    fn tree_of(alloc: A, view: Alias<'a>) -> Result<AliasTree<A>, AllocError> {
        match view {
            Alias::InstanceExport {
                instance,
                kind,
                name,
            } => {
                let name = String::from_str(alloc, name)?;
                Ok(AliasTree::InstanceExport {
                    instance,
                    kind,
                    name,
                })
            }
            Alias::CoreInstanceExport {
                instance,
                kind,
                name,
            } => {
                let name = String::from_str(alloc, name)?;
                Ok(AliasTree::CoreInstanceExport {
                    instance,
                    kind,
                    name,
                })
            }
            Alias::Outer { kind, count, index } => Ok(AliasTree::Outer { kind, count, index }),
        }
    }
}

impl<'a, A: Allocator + Copy> TreeOf<NameView<'a>, A> for NameTree<A> {
    ghost is_copy = { λ t v. name_tree_view t ≡ name_seen v };

    #[inline(always)]
    fn tree_of(alloc: A, view: NameView<'a>) -> Result<NameTree<A>, AllocError> {
        let name = String::from_str(alloc, view.name)?;
        match (view.implements, view.version_suffix, view.external_id) {
            (None, None, None) => Ok(NameTree {
                name,
                options: None,
            }),
            (implements, version_suffix, external_id) => {
                let options = options_of(alloc, implements, version_suffix, external_id)?;
                Ok(NameTree {
                    name,
                    options: Some(options),
                })
            }
        }
    }
}

/// Returns owned options of a name that equal these.
#[cold]
#[inline(never)]
fn options_of<A: Allocator + Copy>(
    alloc: A,
    implements: Option<&str>,
    version_suffix: Option<&str>,
    external_id: Option<&str>,
) -> Result<Box<NameOptions<A>, A>, AllocError>
    ensures same_implements { IfOk result (λ o. OptionCopies (λ t v. string_bytes t ≡ v.now)
        o.value.implements implements.entry) }
    ensures same_version_suffix { IfOk result (λ o. OptionCopies (λ t v. string_bytes t ≡ v.now)
        o.value.version_suffix version_suffix.entry) }
    ensures same_external_id { IfOk result (λ o. OptionCopies (λ t v. string_bytes t ≡ v.now)
        o.value.external_id external_id.entry) }
{
    let options = NameOptions {
        implements: Option::tree_of(alloc, implements)?,
        version_suffix: Option::tree_of(alloc, version_suffix)?,
        external_id: Option::tree_of(alloc, external_id)?,
    };
    Ok(Box::new(alloc, options)?)
}

impl<'a, A: Allocator + Copy> TreeOf<(&'a str, ComponentValType), A>
    for (String<A>, ComponentValType) {
    ghost is_copy = { λ t v. labelled_type_view t ≡ labelled_seen v };

    fn tree_of(
        alloc: A,
        view: (&'a str, ComponentValType),
    ) -> Result<(String<A>, ComponentValType), AllocError> {
        let name = String::from_str(alloc, view.0)?;
        Ok((name, view.1))
    }
}

impl<'a, A: Allocator + Copy> TreeOf<CaseView<'a>, A> for CaseTree<A> {
    ghost is_copy = { λ t v. case_view t ≡ case_seen v };

    fn tree_of(alloc: A, view: CaseView<'a>) -> Result<CaseTree<A>, AllocError> {
        let name = String::from_str(alloc, view.name)?;
        Ok(CaseTree { name, ty: view.ty })
    }
}

impl<'a, A: Allocator + Copy> TreeOf<DefinedView<'a>, A> for DefinedTree<A> {
    ghost is_copy = { λ t v. defined_view t ≡ defined_seen v };

    fn tree_of(alloc: A, view: DefinedView<'a>) -> Result<DefinedTree<A>, AllocError> {
        match view {
            DefinedView::Primitive(ty) => Ok(DefinedTree::Primitive(ty)),
            DefinedView::Record(fields) => {
                let fields = Vec::tree_of(alloc, fields)?;
                Ok(DefinedTree::Record(fields))
            }
            DefinedView::Variant(cases) => {
                let cases = Vec::tree_of(alloc, cases)?;
                Ok(DefinedTree::Variant(cases))
            }
            DefinedView::List(element) => Ok(DefinedTree::List(element)),
            DefinedView::Map { key, value } => Ok(DefinedTree::Map { key, value }),
            DefinedView::FixedLengthList { element, length } => {
                Ok(DefinedTree::FixedLengthList { element, length })
            }
            DefinedView::Tuple(elements) => {
                let elements = Vec::tree_of(alloc, elements)?;
                Ok(DefinedTree::Tuple(elements))
            }
            DefinedView::Flags(names) => {
                let names = Vec::tree_of(alloc, names)?;
                Ok(DefinedTree::Flags(names))
            }
            DefinedView::Enum(names) => {
                let names = Vec::tree_of(alloc, names)?;
                Ok(DefinedTree::Enum(names))
            }
            DefinedView::Option(ty) => Ok(DefinedTree::Option(ty)),
            DefinedView::Result { ok, err } => Ok(DefinedTree::Result { ok, err }),
            DefinedView::Own(index) => Ok(DefinedTree::Own(index)),
            DefinedView::Borrow(index) => Ok(DefinedTree::Borrow(index)),
            DefinedView::Future(ty) => Ok(DefinedTree::Future(ty)),
            DefinedView::Stream(ty) => Ok(DefinedTree::Stream(ty)),
        }
    }
}
