//! Runs a script, line by line.
ghost use Rattle.wenc.specs.Prelude.{script, Builds, IsTextInFront, RunsLine};

use crate::failure::Failure;
use crate::line::text_command;
use std::alloc::{Allocator, Global};
use wasm_encoder::command::Running;
use wasm_encoder::{Built, Fault};

/// Returns the longest prefix of the bytes that is UTF-8, and whether that is all of them.
fn text_in_front(bytes: &[u8]) -> (&str, bool)
    ensures { IsTextInFront bytes.now result.0.now result.1 }
{
    match str::from_utf8(bytes) {
        Ok(text) => (text, true),
        Err(error) => {
            let front = &bytes[..error.valid_up_to()];
            (str::from_utf8(front).unwrap_or(""), false)
        }
    }
}

/// Runs the command of the line with this number, and keeps its result. An empty line has no
/// command.
fn run_line<A: Allocator + Copy>(
    running: &mut Running<A>,
    answers: &mut Vec<Result<Option<u32>, Fault>, A>,
    names: Global,
    line: &str,
    number: usize,
) -> Result<(), Failure>
    ensures { RunsLine result number line.now running.old running.new
        answers.old.items answers.new.items }
{
    if line.is_empty() {
        return Ok(());
    }
    match text_command(names, line)? {
        Some(command) => {
            let answer = running.run(&command);
            Ok(answers.push(answer)?)
        }
        None => Err(Failure::BadLine(number)),
    }
}

/// Runs the commands of a script one by one. A command's own data is allocated in `names`, and
/// freed before the next line is read.
///
/// # Errors
///
/// Fails at the first bad line, and if an allocation fails.
pub fn build<A: Allocator + Copy>(alloc: A, names: Global, text: &[u8]) -> Result<Built<A>, Failure>
    ensures { Builds result (script text.now) }
{
    let (front, is_whole) = text_in_front(text);
    let mut running = Running::new(alloc)?;
    let mut answers = Vec::new(alloc);
    let mut number = 1usize;
    let mut last = front;
    while let Some((line, behind)) = last.split_once('\n') {
        run_line(&mut running, &mut answers, names, line, number)?;
        // 32 bits: a text has fewer lines than bytes.
        number += 1;
        last = behind;
    }
    // The last line continues with bytes that aren't UTF-8.
    if !is_whole {
        return Err(Failure::BadLine(number));
    }
    run_line(&mut running, &mut answers, names, last, number)?;
    let bytes = running.finish()?;
    Ok(Built { answers, bytes })
}
