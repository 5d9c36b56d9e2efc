//! A producers section, part by part.
ghost use Rattle.std.specs.Prelude.{◌≡◌, ◌≤◌, [], length, Ok, IfOk, IfErr, MatchOption};
ghost use Rattle.wenc_list.specs.Prelude.{IsMalformed, IsNoPart, part_seen, parts_in, parts_left};
ghost use Rattle.wenc_list.specs.Prelude.{tool_seen, with_part, AreSpent, HasTakenPart, IsNoNumber};
ghost use Rattle.wenc_base.specs.Prelude.{Wide, u32 as number};
ghost use Rattle.wenc_base.specs.laws.Sections.{read_producer};
ghost use Rattle.wenc_read.specs.Prelude.{Gives, IsWithin};

use wenc_read::{Expected, Refusal, u32_of};
use wenc_view::text_of;

/// A part of a producers section.
#[derive(Clone, Copy)]
pub enum ProducersPart<'a> {
    /// The name of a field, such as `processed-by`. Its tools are next.
    Field(&'a str),
    /// A tool and its version.
    Tool(&'a str, &'a str),
}

/// The remaining parts of a producers section (tool conventions, "Producers Section"), which are
/// read one by one. Nothing is allocated.
#[derive(Clone, Copy)]
pub struct ProducersParts<'a> {
    /// The number of remaining tools of the current field.
    pub tools: u32,
    /// The number of fields after that one.
    pub fields: u32,
    /// The remaining bytes.
    pub rest: &'a [u8],
}

/// Reads the name of a tool and its version.
fn tool_of(bytes: &[u8]) -> Result<((&str, &str), &[u8]), Refusal>
    ensures found { Gives (λ x. (tool_seen x.0, x.1.now)) result (read_producer bytes.now) }
    ensures place { IsWithin (λ x. x.1.now) bytes.now result }
{
    let (name, rest) = text_of(bytes)?;
    let (version, rest) = text_of(rest)?;
    Ok(((name, version), rest))
}

impl<'a> ProducersParts<'a> {
    /// Returns all parts of the section with these bytes after its name.
    ///
    /// # Errors
    ///
    /// Fails if no number of fields begins the bytes.
    pub fn new(bytes: &'a [u8]) -> Result<ProducersParts<'a>, Refusal>
        // The number of fields begins the bytes, and all bytes after it remain.
        ensures read { IfOk result (λ p. (p.tools ≡ 0)
            × (number p.fields).Reads Wide bytes.now p.rest.now) }
        ensures begins { IfOk result (λ p. parts_left p ≡ parts_in bytes.now) }
        ensures fault { IfErr result (λ _. IsNoNumber bytes.now) }
        ensures place { IfErr result (λ e. e.left ≤ length bytes.now) }
        ensures unread { IfErr result (λ _. IsMalformed (parts_in bytes.now)) }
    {
        let (fields, rest) = u32_of(bytes)?;
        Ok(ProducersParts {
            tools: 0,
            fields,
            rest,
        })
    }

    /// Returns the next part, or `None` at the end.
    ///
    /// # Errors
    ///
    /// Fails if no part begins the remaining bytes, or bytes follow the last one. Nothing is taken
    /// then.
    pub fn next(&mut self) -> Result<Option<ProducersPart<'a>>, Refusal>
        // A returned part begins the remaining bytes, and all bytes after it remain.
        ensures read { IfOk result (λ o. MatchOption o (AreSpent self.old)
            (λ p. HasTakenPart self.old (part_seen p) self.new)) }
        // It is the first one of those that were left.
        ensures taken { IfOk result (λ o. MatchOption o (parts_left self.old ≡ Ok [])
            (λ p. parts_left self.old ≡ with_part (part_seen p) (parts_left self.new))) }
        // Otherwise nothing changes.
        ensures unchanged { IfOk result (λ o. MatchOption o (self.new ≡ self.old)
            (λ _. Unit {0})) }
        ensures refused { IfErr result (λ _. self.new ≡ self.old) }
        // An error has its cause in the remaining bytes.
        ensures fault { IfErr result (λ _. IsNoPart self.old) }
        ensures place { IfErr result (λ e. e.left ≤ length self.old.rest.now) }
        ensures unread { IfErr result (λ _. IsMalformed (parts_left self.old)) }
    {
        if self.tools > 0 {
            let ((name, version), rest) = tool_of(self.rest)?;
            self.tools -= 1;
            self.rest = rest;
            return Ok(Some(ProducersPart::Tool(name, version)));
        }
        if self.fields > 0 {
            let (field, rest) = text_of(self.rest)?;
            let (tools, rest) = u32_of(rest)?;
            *self = ProducersParts {
                tools,
                fields: self.fields - 1,
                rest,
            };
            return Ok(Some(ProducersPart::Field(field)));
        }
        if self.rest.is_empty() {
            Ok(None)
        } else {
            Err(Refusal::at(self.rest, Expected::End))
        }
    }
}
