//! Examples of `wenc`.

use std::alloc::Global;
use wenc::run;

/// `run`.
pub fn script(alloc: Global) -> (u8, Vec<u8>) {
    let mut input: &[u8] = b"core-module 0061736d01000000\n";
    let mut out = Vec::new(alloc);
    let mut err = Vec::new(alloc);
    let status = run(alloc, &[], &mut input, &mut out, &mut err);
    (status, out)
}
