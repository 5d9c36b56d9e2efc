//! Writes to an output.
ghost use Rattle.std.specs.Prelude.{◌*◌, ◌≤◌, ◌++◌, length, OnOk};
ghost use Rattle.std.specs.Io.KnownBytes.{Appends};
ghost use Rattle.hex.specs.Hex.{encode_lower};
ghost use Rattle.wenc.specs.Prelude.{line_of, AppendsFront, Says};

use crate::failure::Failure;
use crate::status::TRANSFER_FAILED;
use hex::encode_to_slice;
use std::io::Write;

/// The number of bytes that are written in hexadecimal at a time.
const PIECE_SIZE: usize = 16_384;

/// Writes a text. Stops at the first call that fails or takes no bytes.
fn write_text<W: Write>(writer: &mut W, text: &[u8]) -> Result<(), Failure>
    ensures ok { OnOk result (Appends (W.contents writer.old) (W.contents writer.new) text.now) }
    ensures front { AppendsFront (W.contents writer.old) (W.contents writer.new) text.now }
{
    let mut rest = text;
    while !rest.is_empty() {
        let Ok(count) = writer.write(rest) else {
            return Err(Failure::Transfer);
        };
        if count == 0 {
            return Err(Failure::Transfer);
        }
        rest = &rest[count..];
    }
    Ok(())
}

/// Writes a few bytes in hexadecimal, for which `buffer` has room.
fn write_piece<W: Write>(writer: &mut W, buffer: &mut [u8], piece: &[u8]) -> Result<(), Failure>
    requires { 2 * length piece.now ≤ length buffer.old }
    ensures ok { OnOk result (Appends (W.contents writer.old) (W.contents writer.new)
        (encode_lower piece.now)) }
    ensures front { AppendsFront (W.contents writer.old) (W.contents writer.new)
        (encode_lower piece.now) }
{
    // 32 bits: `buffer` has more bytes.
    let text = &mut buffer[..2 * piece.len()];
    match encode_to_slice(piece, text) {
        Ok(()) => write_text(writer, text),
        Err(_) => unreachable!(),
    }
}

/// Writes bytes in hexadecimal, piece by piece.
fn write_hex<W: Write>(writer: &mut W, bytes: &[u8]) -> Result<(), Failure>
    ensures ok { OnOk result (Appends (W.contents writer.old) (W.contents writer.new)
        (encode_lower bytes.now)) }
    ensures front { AppendsFront (W.contents writer.old) (W.contents writer.new)
        (encode_lower bytes.now) }
{
    let mut buffer = [0; 2 * PIECE_SIZE];
    let mut rest = bytes;
    while !rest.is_empty() {
        let (piece, behind) = rest.split_at(rest.len().min(PIECE_SIZE));
        write_piece(writer, &mut buffer, piece)?;
        rest = behind;
    }
    Ok(())
}

/// Writes a text and flushes. Stops at the first call that fails or takes no bytes.
pub fn send<W: Write>(writer: &mut W, text: &[u8]) -> Result<(), Failure>
    ensures ok { OnOk result (Appends (W.contents writer.old) (W.contents writer.new) text.now) }
    ensures front { AppendsFront (W.contents writer.old) (W.contents writer.new) text.now }
{
    write_text(writer, text)?;
    writer.flush().map_err(|_| Failure::Transfer)
}

/// Writes lines, then one with the bytes in hexadecimal, and flushes. Allocates nothing. Stops at
/// the first call that fails or takes no bytes.
pub fn send_with_hex<W: Write>(writer: &mut W, lines: &[u8], bytes: &[u8]) -> Result<(), Failure>
    ensures ok { OnOk result (Appends (W.contents writer.old) (W.contents writer.new)
        (lines.now ++ line_of (encode_lower bytes.now))) }
    ensures front { AppendsFront (W.contents writer.old) (W.contents writer.new)
        (lines.now ++ line_of (encode_lower bytes.now)) }
{
    write_text(writer, lines)?;
    write_hex(writer, bytes)?;
    send(writer, b"\n")
}

/// Writes a text, and returns the status, or `TRANSFER_FAILED` if a write failed.
pub fn write_with_status<W: Write>(writer: &mut W, text: &[u8], status: u8) -> u8
    ensures { Says result status text.now (W.contents writer.old) (W.contents writer.new) }
{
    match send(writer, text) {
        Ok(()) => status,
        Err(_) => TRANSFER_FAILED,
    }
}
