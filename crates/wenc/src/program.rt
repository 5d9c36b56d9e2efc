//! Runs the program with its arguments.
ghost use Rattle.std.specs.Prelude.{◌≡◌, ◌≢◌, ◌⊎◌, ◌↔◌, [], All, Any, IsOk, IsErr, IsTrue};
ghost use Rattle.std.specs.Bool.{OnTrue, OnFalse};
ghost use Rattle.std.specs.declared.alloc.Global.{Global};
ghost use Rattle.wenc.specs.Prelude.{IsList, EndsListing, EndsRun, Says, usage, fault_report};
ghost use Rattle.wenc.specs.Prelude.{IsStatusOf, text_of, Translates, Reads, Reported};

use crate::failure::Failure;
use crate::input::{MAX_READS, read_all};
use crate::list::run_list;
use crate::output::{send_with_hex, write_with_status};
use crate::print::answer_lines;
use crate::script::build;
use crate::status::{DONE, MALFORMED, REFUSED, TRANSFER_FAILED};
use std::alloc::{Allocator, Global};
use std::io::{Read, Write};
use wasm_encoder::Fault;

/// The output for a script.
#[derive(Drop)]
pub struct Printout<A: Allocator = Global> {
    /// The lines of the commands' results.
    pub lines: Vec<u8, A>,
    /// The component, which is printed in hexadecimal.
    pub bytes: Vec<u8, A>,
    /// The exit status.
    pub status: u8,
}

/// Returns whether a command was refused.
fn has_refusal(answers: &[Result<Option<u32>, Fault>]) -> bool
    ensures refused { OnTrue result (Any IsErr answers.now) }
    ensures accepted { OnFalse result (All IsOk answers.now) }
{
    answers.iter().any(|answer| answer.is_err())
}

/// Returns the exit status of a run with these results.
fn status_of(answers: &[Result<Option<u32>, Fault>]) -> u8
    ensures { IsStatusOf result answers.now }
{
    if has_refusal(answers) { REFUSED } else { DONE }
}

/// Runs the commands of a script, whose own data is allocated in `names`. The text is freed once
/// they ran.
pub fn translate<A: Allocator + Copy>(
    alloc: A,
    names: Global,
    text: Vec<u8, A>,
) -> Result<Printout<A>, Failure>
    ensures { Translates result text.items }
{
    let built = build(alloc, names, text.as_slice())?;
    drop(text);
    let answers = built.answers.as_slice();
    Ok(Printout {
        lines: answer_lines(alloc, answers)?,
        status: status_of(answers),
        bytes: built.bytes,
    })
}

/// Reads a script to its end, and runs its commands.
fn read_and_translate<A: Allocator + Copy, R: Read>(
    alloc: A,
    names: Global,
    input: &mut R,
) -> Result<Printout<A>, Failure>
    ensures { Reads result (R.remaining input.old) (R.remaining input.new) }
{
    let text = read_all(alloc, input, MAX_READS)?;
    translate(alloc, names, text)
}

/// Writes the output for a script, and returns its status, or `TRANSFER_FAILED` if a write failed.
fn print<A: Allocator, O: Write>(out: &mut O, printout: &Printout<A>) -> u8
    ensures { Says result printout.now.status (text_of printout.now)
        (O.contents out.old) (O.contents out.new) }
{
    match send_with_hex(out, printout.lines.as_slice(), printout.bytes.as_slice()) {
        Ok(()) => printout.status,
        Err(_) => TRANSFER_FAILED,
    }
}

/// Reports a fault, and returns the status.
fn report_fault<E: Write>(err: &mut E, fault: Fault) -> u8
    ensures { Says result 2 (fault_report fault) (E.contents err.old) (E.contents err.new) }
{
    let number = b'0' + fault.number();
    let text = [b'f', b'a', b'u', b'l', b't', b' ', number, b'\n'];
    write_with_status(err, &text, REFUSED)
}

/// Reports why nothing is printed, and returns the status.
pub fn report<A: Allocator, E: Write>(alloc: A, err: &mut E, failure: Failure) -> u8
    ensures { Reported result failure (E.contents err.old) (E.contents err.new) }
{
    match failure {
        Failure::Arguments => write_with_status(err, b"usage\n", MALFORMED),
        Failure::BadLine(line) => match format!(in alloc; "line {line}\n") {
            Ok(text) => write_with_status(err, text.as_bytes(), MALFORMED),
            Err(error) => report_fault(err, Fault::Memory(error)),
        },
        Failure::Fault(fault) => report_fault(err, fault),
        Failure::Transfer => TRANSFER_FAILED,
    }
}

/// Returns whether the arguments are the one word `list`.
fn is_list(args: &[String]) -> bool
    ensures { IsTrue result ↔ IsList args.now }
{
    match args {
        [word] => word.as_str() == "list",
        _ => false,
    }
}

/// Runs the input as a script, and returns the status.
fn run_script<A: Allocator + Copy, R: Read, O: Write, E: Write>(
    alloc: A,
    names: Global,
    input: &mut R,
    out: &mut O,
    err: &mut E,
) -> u8
    ensures ends { EndsRun result (R.remaining input.old) (R.remaining input.new)
        (O.contents out.old) (O.contents out.new) (E.contents err.old) (E.contents err.new) }
    ensures status { (result ≡ 0) ⊎ (result ≡ 1) ⊎ (result ≡ 2) ⊎ (result ≡ 4) }
{
    match read_and_translate(alloc, names, input) {
        Ok(printout) => print(out, &printout),
        Err(failure) => report(alloc, err, failure),
    }
}

/// Runs the program with these arguments, without the program's name, on this input. Returns the
/// exit status.
///
/// ```
/// let mut input: &[u8] = b"core-module 0061736d01000000\n";
/// let mut out = Vec::new(alloc);
/// let mut err = Vec::new(alloc);
/// let status = run(alloc, &[], &mut input, &mut out, &mut err);
/// ```
pub fn run<R: Read, O: Write, E: Write>(
    alloc: Global,
    args: &[String],
    input: &mut R,
    out: &mut O,
    err: &mut E,
) -> u8
    // With other arguments only the usage is printed.
    ensures usage { args.now ≢ [] → ¬ IsList args.now
        → Says result 1 usage (E.contents err.old) (E.contents err.new) }
    ensures input_kept { args.now ≢ [] → ¬ IsList args.now → input.new ≡ input.old }
    ensures output_kept { args.now ≢ [] → ¬ IsList args.now → out.new ≡ out.old }

    ensures ends { args.now ≡ [] → EndsRun result (R.remaining input.old) (R.remaining input.new)
        (O.contents out.old) (O.contents out.new) (E.contents err.old) (E.contents err.new) }

    // With `list`, a component's sections and counts are printed, or why it can't be listed.
    ensures lists { IsList args.now
        → EndsListing Global result (R.remaining input.old) (R.remaining input.new)
        (O.contents out.old) (O.contents out.new) (E.contents err.old) (E.contents err.new) }
    ensures unlisted { IsList args.now → (result ≡ 1) ⊎ (result ≡ 3) → out.new ≡ out.old }
    ensures only_list { result ≡ 3 → IsList args.now }

    ensures status { (result ≡ 0) ⊎ (result ≡ 1) ⊎ (result ≡ 2) ⊎ (result ≡ 3) ⊎ (result ≡ 4) }
{
    run_with_allocators(alloc, alloc, args, input, out, err)
}

/// Runs the program as `run` does, with two allocators: `names` allocates what the commands own
/// (names, a module's bytes, a start function's arguments), and `alloc` all else.
#[tactic(auto, using(crate::proofs::ListArgs::list_is_one))]
pub fn run_with_allocators<A: Allocator + Copy, R: Read, O: Write, E: Write>(
    alloc: A,
    names: Global,
    args: &[String],
    input: &mut R,
    out: &mut O,
    err: &mut E,
) -> u8
    ensures usage { args.now ≢ [] → ¬ IsList args.now
        → Says result 1 usage (E.contents err.old) (E.contents err.new) }
    ensures input_kept { args.now ≢ [] → ¬ IsList args.now → input.new ≡ input.old }
    ensures output_kept { args.now ≢ [] → ¬ IsList args.now → out.new ≡ out.old }

    ensures ends { args.now ≡ [] → EndsRun result (R.remaining input.old) (R.remaining input.new)
        (O.contents out.old) (O.contents out.new) (E.contents err.old) (E.contents err.new) }

    ensures lists { IsList args.now
        → EndsListing A result (R.remaining input.old) (R.remaining input.new)
        (O.contents out.old) (O.contents out.new) (E.contents err.old) (E.contents err.new) }
    ensures unlisted { IsList args.now → (result ≡ 1) ⊎ (result ≡ 3) → out.new ≡ out.old }
    ensures only_list { result ≡ 3 → IsList args.now }

    ensures status { (result ≡ 0) ⊎ (result ≡ 1) ⊎ (result ≡ 2) ⊎ (result ≡ 3) ⊎ (result ≡ 4) }
{
    if args.is_empty() {
        return run_script(alloc, names, input, out, err);
    }
    if is_list(args) {
        return run_list(alloc, input, out, err);
    }
    report(alloc, err, Failure::Arguments)
}
