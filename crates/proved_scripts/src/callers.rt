//! The caller that the page CALLING.md of `wenc` shows.
ghost use Rattle.std.specs.Prelude.{[], IfSome};
ghost use Rattle.wenc.specs.Prelude.{PrintsAccepted};

use std::alloc::Global;
use wenc::run;

/// Returns the output for a script, if no command is refused.
pub fn accepted_text(alloc: Global, script: &[u8]) -> Option<Vec<u8>>
    ensures { IfSome result (λ text. PrintsAccepted script.now [] text.items) }
{
    let mut input = script;
    let mut out = Vec::new(alloc);
    let mut err = Vec::new(alloc);
    let status = run(alloc, &[], &mut input, &mut out, &mut err);
    if status == 0 { Some(out) } else { None }
}
