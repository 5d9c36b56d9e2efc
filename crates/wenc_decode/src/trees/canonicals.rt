//! Owned copies of canonical functions.
ghost use Rattle.std.specs.Prelude.{◌≡◌, IfOk};
ghost use Rattle.wenc_canon.specs.Prelude.{read_canonical_option};
ghost use Rattle.wenc_sections.specs.Prelude.{canon_view};
ghost use Rattle.wenc_view.specs.Prelude.{list_view, canon_seen};

use crate::trees::TreeOf;
use std::alloc::{AllocError, Allocator};
use wenc_canon::CanonicalOption;
use wenc_sections::CanonTree;
use wenc_view::{CanonView, ListOf};

impl<A: Allocator + Copy> TreeOf<CanonicalOption, A> for CanonicalOption {
    ghost is_copy = { λ t v. t ≡ v };

    fn tree_of(_alloc: A, view: CanonicalOption) -> Result<CanonicalOption, AllocError> {
        Ok(view)
    }
}

/// Returns owned options that equal these.
fn options_of<A: Allocator + Copy>(
    alloc: A,
    options: ListOf<'_, CanonicalOption>,
) -> Result<Vec<CanonicalOption, A>, AllocError>
    ensures { IfOk result (λ os. os.items ≡ list_view read_canonical_option options.entry) }
{
    Vec::tree_of(alloc, options)
}

// Matches a view, and makes the tree with the same fields: of functions without options, of those
// with nothing but options, and of those with fields and options.
macro_rules! copied {
    (
        $alloc:ident, $view:ident;
        $($plain:ident $(($value:ident))? $({ $($field:ident),+ })?),+;
        $($of_options:ident),+;
        $($with_options:ident { $($before:ident),+ }),+
    ) => {
        match $view {
            $(CanonView::$plain $(($value))? $({ $($field),+ })? => {
                Ok(CanonTree::$plain $(($value))? $({ $($field),+ })?)
            })+
            $(CanonView::$of_options(options) => {
                let options = options_of($alloc, options)?;
                Ok(CanonTree::$of_options(options))
            })+
            $(CanonView::$with_options { $($before,)+ options } => {
                let options = options_of($alloc, options)?;
                Ok(CanonTree::$with_options { $($before,)+ options })
            })+
        }
    };
}

impl<'a, A: Allocator + Copy> TreeOf<CanonView<'a>, A> for CanonTree<A> {
    ghost is_copy = { λ t v. canon_view t ≡ canon_seen v };

    fn tree_of(alloc: A, view: CanonView<'a>) -> Result<CanonTree<A>, AllocError> {
        copied!(
            alloc, view;
            ResourceNew(ty), ResourceDrop(ty), ResourceRep(ty), TaskCancel, SubtaskCancel(async_),
            ContextGet { ty, slot }, ContextSet { ty, slot }, ThreadYield, SubtaskDrop,
            StreamNew(ty), StreamCancelRead { ty, async_ }, StreamCancelWrite { ty, async_ },
            StreamDropReadable(ty), StreamDropWritable(ty),
            FutureNew(ty), FutureCancelRead { ty, async_ }, FutureCancelWrite { ty, async_ },
            FutureDropReadable(ty), FutureDropWritable(ty), ErrorContextDrop,
            WaitableSetNew, WaitableSetWait(memory), WaitableSetPoll(memory), WaitableSetDrop,
            WaitableJoin, BackpressureInc, BackpressureDec,
            ThreadIndex, ThreadNewIndirect { ty, table }, ThreadResumeLater, ThreadSuspend,
            ThreadSuspendThenResume, ThreadYieldThenResume, ThreadSuspendThenPromote,
            ThreadYieldThenPromote, StreamForward(ty), FutureForward(ty),
            ThreadSpawnRef(ty), ThreadSpawnIndirect { ty, table }, ThreadAvailableParallelism;
            ErrorContextNew, ErrorContextDebugMessage;
            Lift { core_func, ty }, Lower { func }, TaskReturn { ty },
            StreamRead { ty }, StreamWrite { ty }, FutureRead { ty }, FutureWrite { ty }
        )
    }
}
