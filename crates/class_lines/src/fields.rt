//! The fields of a line.

ghost use Rattle.std.specs.Prelude.{◌≡◌, map, IfOk};
ghost use Rattle.class_lines.specs.Fields.{is_blank, is_inside, run_of, behind_run, trimmed, fields};
ghost use Rattle.class_lines.specs.Words.{texts};

use std::alloc::{AllocError, Global};

/// Whether a byte ends a word of a line: a space, a tab, or a line feed, which no line of a text has.
pub fn is_blank(byte: u8) -> bool
    ensures { result ≡ is_blank byte }
{
    byte == b' ' || byte == b'\t' || byte == b'\n'
}

pub(crate) fn is_inside(byte: u8) -> bool
    ensures { result ≡ is_inside byte }
{
    !is_blank(byte)
}

fn skip_blanks(text: &[u8]) -> &[u8]
    ensures { result.now ≡ behind_run is_blank text.now }
{
    let len = text
        .iter()
        .position(|byte| !is_blank(*byte))
        .unwrap_or(text.len());
    text.split_at(len).1
}

fn without_blanks_at_end(text: &[u8]) -> &[u8]
    ensures { result.now ≡ trimmed text.now }
{
    let mut front = text;
    while let Some((last, before)) = front.split_last() {
        if is_inside(*last) {
            return front;
        }
        front = before;
    }
    front
}

fn split_field(text: &[u8]) -> (&[u8], &[u8])
    ensures run { result.0.now ≡ run_of is_inside text.now }
    ensures behind { result.1.now ≡ behind_run is_inside text.now }
{
    let len = text
        .iter()
        .position(|byte| !is_inside(*byte))
        .unwrap_or(text.len());
    text.split_at(len)
}

/// The fields of a line: what stands between its blanks. A field that begins with a quote goes on to
/// the end of the line, but for the blanks there.
pub(crate) fn fields(alloc: Global, line: &[u8]) -> Result<Vec<&[u8]>, AllocError>
    ensures { IfOk result (λ found. texts found.items ≡ fields line.now) }
{
    let mut found = Vec::new(alloc);
    let mut rest = skip_blanks(line);
    while !rest.is_empty() {
        if rest[0] == b'"' {
            found.push(without_blanks_at_end(rest))?;
            return Ok(found);
        }
        let (field, behind) = split_field(rest);
        found.push(field)?;
        rest = skip_blanks(behind);
    }
    Ok(found)
}
