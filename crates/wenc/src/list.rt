//! The subcommand `list`: the sections and counts of a component, given as bytes in hexadecimal.
ghost use Rattle.std.specs.Prelude.{◌≡◌, ◌++◌, ◌⊎◌, IfOk, OnOk, MatchResult, string_bytes, Some};
ghost use Rattle.wenc.specs.Prelude.{without_line_end, text_bytes, section_line, section_lines};
ghost use Rattle.wenc.specs.Prelude.{with_space, counts_line, listing_text, place_line, fault_line};
ghost use Rattle.wenc.specs.Prelude.{NotDecoded, ListsText, ReadsText, ReadsListing};
ghost use Rattle.wenc.specs.Prelude.{ReportsUnlisted, EndsListing, Says};
ghost use Rattle.wenc_list.specs.declared.fault.ListFault.TheVariants.{Memory};

use crate::failure::Failure;
use crate::input::{MAX_READS, read_all};
use crate::output::write_with_status;
use crate::status::{DONE, MALFORMED, TRANSFER_FAILED, UNLISTED};
use crate::unlisted::Unlisted;
use hex::FromHexError;
use std::alloc::{AllocError, Allocator};
use std::io::{Read, Write};
use wenc_list::{ListFault, ListedSection, Listing, list};

/// Returns a text without the LF at its end, if there is one.
fn without_line_end(text: &[u8]) -> &[u8]
    ensures { result.now ≡ without_line_end text.now }
{
    match text {
        [line @ .., b'\n'] => line,
        _ => text,
    }
}

/// Decodes a text in hexadecimal.
fn bytes_of<A: Allocator>(alloc: A, text: &[u8]) -> Result<Vec<u8, A>, Unlisted>
    ensures { MatchResult result (λ bytes. text_bytes text.now ≡ Some bytes.items)
        (NotDecoded text.now) }
{
    match hex::decode(alloc, without_line_end(text)) {
        Ok(bytes) => Ok(bytes),
        Err(FromHexError::OutOfMemory) => Err(Unlisted::Fault(ListFault::Memory)),
        Err(_) => Err(Unlisted::BadText),
    }
}

/// Appends the line of a section: its id, and the number of its items.
fn push_section<A: Allocator>(
    text: &mut String<A>,
    section: &ListedSection<A>,
) -> Result<(), AllocError>
    ensures { OnOk result
        (string_bytes text.new ≡ string_bytes text.old ++ section_line section.now) }
{
    writeln!(text, "{} {}", section.id, section.items.len())
}

/// Appends the lines of the sections.
fn push_sections<A: Allocator>(
    text: &mut String<A>,
    sections: &[ListedSection<A>],
) -> Result<(), AllocError>
    ensures { OnOk result
        (string_bytes text.new ≡ string_bytes text.old ++ section_lines sections.now) }
{
    for section in sections {
        push_section(text, section)?;
    }
    Ok(())
}

/// Appends the numbers, each after a space.
fn push_spaced<A: Allocator>(text: &mut String<A>, numbers: &[u128]) -> Result<(), AllocError>
    ensures { OnOk result
        (string_bytes text.new ≡ string_bytes text.old ++ with_space numbers.now) }
{
    for number in numbers {
        write!(text, " {number}")?;
    }
    Ok(())
}

/// Appends the line of the counts.
fn push_counts<A: Allocator>(text: &mut String<A>, counts: &[u128]) -> Result<(), AllocError>
    ensures { OnOk result
        (string_bytes text.new ≡ string_bytes text.old ++ counts_line counts.now) }
{
    let [first, others @ ..] = counts else {
        return text.push('\n');
    };
    write!(text, "{first}")?;
    push_spaced(text, others)?;
    text.push('\n')
}

/// Returns the output for a listing.
pub fn printed<A: Allocator>(alloc: A, listing: &Listing<A>) -> Result<Vec<u8, A>, AllocError>
    ensures { IfOk result (λ text. text.items ≡ listing_text listing.now) }
{
    let mut text = String::new(alloc);
    push_sections(&mut text, &listing.sections)?;
    push_counts(&mut text, &listing.counts)?;
    Ok(text.into_bytes())
}

/// Returns the output for the component that a text encodes in hexadecimal.
pub fn list_text<A: Allocator + Copy>(alloc: A, text: &[u8]) -> Result<Vec<u8, A>, Unlisted>
    ensures { ListsText result text.now }
{
    let bytes = bytes_of(alloc, text)?;
    let listing = list(alloc, bytes.as_slice())?;
    Ok(printed(alloc, &listing)?)
}

/// Reads a text to its end.
fn read_text<A: Allocator, R: Read>(alloc: A, input: &mut R) -> Result<Vec<u8, A>, Unlisted>
    ensures { ReadsText result (R.remaining input.old) (R.remaining input.new) }
{
    match read_all(alloc, input, MAX_READS) {
        Ok(text) => Ok(text),
        Err(Failure::Transfer) => Err(Unlisted::Transfer),
        Err(_) => Err(Unlisted::Fault(ListFault::Memory)),
    }
}

/// Reads a text to its end, and returns the output for the component that it encodes.
fn read_and_list<A: Allocator + Copy, R: Read>(
    alloc: A,
    input: &mut R,
) -> Result<Vec<u8, A>, Unlisted>
    ensures { ReadsListing result (R.remaining input.old) (R.remaining input.new) }
{
    let text = read_text(alloc, input)?;
    list_text(alloc, text.as_slice())
}

/// Reports that memory ran out, and returns the status.
fn report_memory<E: Write>(err: &mut E) -> u8
    ensures { Says result 3 (fault_line Memory) (E.contents err.old) (E.contents err.new) }
{
    write_with_status(err, b"Memory\n", UNLISTED)
}

/// Reports a fault of this name at this byte offset, and returns the status.
fn report_place<A: Allocator, E: Write>(alloc: A, err: &mut E, name: &str, place: usize) -> u8
    ensures { Says result 3 (place_line name.now place) (E.contents err.old) (E.contents err.new)
        ⊎ Says result 3 (fault_line Memory) (E.contents err.old) (E.contents err.new) }
{
    match format!(in alloc; "{name} at {place}\n") {
        Ok(text) => write_with_status(err, text.as_bytes(), UNLISTED),
        Err(_) => report_memory(err),
    }
}

/// Reports a fault, and returns the status.
fn report_fault<A: Allocator, E: Write>(alloc: A, err: &mut E, fault: ListFault) -> u8
    ensures { Says result 3 (fault_line fault) (E.contents err.old) (E.contents err.new)
        ⊎ Says result 3 (fault_line Memory) (E.contents err.old) (E.contents err.new) }
{
    match fault {
        ListFault::Memory => report_memory(err),
        ListFault::NotAComponent { place } => report_place(alloc, err, "NotAComponent", place),
        ListFault::BadSection { place } => report_place(alloc, err, "BadSection", place),
        ListFault::BadItem { place } => report_place(alloc, err, "BadItem", place),
        ListFault::TooDeep { place } => report_place(alloc, err, "TooDeep", place),
    }
}

/// Reports why nothing is listed, and returns the status.
fn report_unlisted<A: Allocator, E: Write>(alloc: A, err: &mut E, unlisted: Unlisted) -> u8
    ensures { ReportsUnlisted result unlisted (E.contents err.old) (E.contents err.new) }
{
    match unlisted {
        Unlisted::BadText => write_with_status(err, b"line 1\n", MALFORMED),
        Unlisted::Fault(fault) => report_fault(alloc, err, fault),
        Unlisted::Transfer => TRANSFER_FAILED,
    }
}

/// Lists the component that the input encodes in hexadecimal. Returns the exit status.
pub fn run_list<A: Allocator + Copy, R: Read, O: Write, E: Write>(
    alloc: A,
    input: &mut R,
    out: &mut O,
    err: &mut E,
) -> u8
    ensures ends { EndsListing A result (R.remaining input.old) (R.remaining input.new)
        (O.contents out.old) (O.contents out.new) (E.contents err.old) (E.contents err.new) }
    ensures output_kept { (result ≡ 1) ⊎ (result ≡ 3) → out.new ≡ out.old }
{
    match read_and_list(alloc, input) {
        Ok(text) => write_with_status(out, text.as_slice(), DONE),
        Err(unlisted) => report_unlisted(alloc, err, unlisted),
    }
}
