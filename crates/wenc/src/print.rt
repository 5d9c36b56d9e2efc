//! The lines of the commands' results.
ghost use Rattle.std.specs.Prelude.{◌≡◌, ◌++◌, IfOk, OnOk};
ghost use Rattle.std.specs.Fmt.{decimal};
ghost use Rattle.wenc.specs.Prelude.{answer_line, answer_lines, line_of};

use std::alloc::{AllocError, Allocator};
use wasm_encoder::Fault;

/// The maximum number of digits of a number.
const MOST_DIGITS: usize = 10;

/// Appends the line of a number.
fn push_number<A: Allocator>(text: &mut Vec<u8, A>, number: u32) -> Result<(), AllocError>
    ensures { OnOk result (text.new.items ≡ text.old.items ++ line_of (decimal number)) }
{
    let mut line = [b'\n'; MOST_DIGITS + 1];
    let mut start = MOST_DIGITS - 1;
    let mut rest = number;
    while rest >= 10 {
        line[start] = b'0' + (rest % 10) as u8;
        rest /= 10;
        start -= 1;
    }
    line[start] = b'0' + rest as u8;
    text.extend_from_slice(&line[start..])
}

/// Appends the line of a result.
fn push_answer<A: Allocator>(
    text: &mut Vec<u8, A>,
    given: &Result<Option<u32>, Fault>,
) -> Result<(), AllocError>
    ensures { OnOk result (text.new.items ≡ text.old.items ++ answer_line given.now) }
{
    match given {
        Ok(None) => text.extend_from_slice(b"-\n"),
        Ok(Some(index)) => push_number(text, *index),
        Err(fault) => {
            text.extend_from_slice(b"refused ")?;
            push_number(text, u32::from(fault.number()))
        }
    }
}

/// Returns the lines of the commands' results.
pub fn answer_lines<A: Allocator>(
    alloc: A,
    answers: &[Result<Option<u32>, Fault>],
) -> Result<Vec<u8, A>, AllocError>
    ensures { IfOk result (λ lines. lines.items ≡ answer_lines answers.now) }
{
    let mut text = Vec::new(alloc);
    for answer in answers {
        push_answer(&mut text, answer)?;
    }
    Ok(text)
}
