//! The lines of a text in UTF-8 with their numbers.

ghost use Rattle.std.specs.Prelude.{◌≡◌, ◌+◌, ◌++◌, [], drop, length, IfOk, OnOk};
ghost use Rattle.std.specs.List.{cons_option};
ghost use Rattle.class_lines.specs.Fields.{run_of, behind_run};
ghost use Rattle.class_text.specs.Texts.{is_in_line, lines, line_numbered, numbered};

use class_lines::{Line, LineFault, read_text_line};
use sqlite_items::Items;
use std::alloc::{AllocError, Global};

/// A line of a text that isn't passed over. For one that isn't of the form there is no line.
#[derive(Debug, Drop)]
pub(crate) struct Numbered {
    pub(crate) number: usize,
    pub(crate) line: Option<Line>,
}

/// The lines of a text, and the number of the line behind the last.
#[derive(Debug, Drop)]
pub(crate) struct Listing {
    pub(crate) lines: Items<Numbered>,
    pub(crate) last: usize,
}

fn is_in_line(byte: u8) -> bool
    ensures { result ≡ is_in_line byte }
{
    byte != b'\n'
}

/// What stands before the first line feed, and the rest.
fn split_at_feed(text: &[u8]) -> (&[u8], &[u8])
    ensures run { result.0.now ≡ run_of is_in_line text.now }
    ensures behind { result.1.now ≡ behind_run is_in_line text.now }
{
    let len = text
        .iter()
        .position(|byte| !is_in_line(*byte))
        .unwrap_or(text.len());
    text.split_at(len)
}

/// The first line, and what stands behind its line feed.
fn split_line(text: &[u8]) -> (&[u8], &[u8])
    ensures run { result.0.now ≡ run_of is_in_line text.now }
    ensures behind { result.1.now ≡ drop 1 (behind_run is_in_line text.now) }
{
    let (line, rest) = split_at_feed(text);
    match rest {
        [_, behind @ ..] => (line, behind),
        [] => (line, rest),
    }
}

/// What a line says, with its number, unless it is passed over.
fn numbered_line(alloc: Global, number: usize, text: &[u8]) -> Result<Option<Numbered>, AllocError>
    ensures { IfOk result (λ line. line_numbered number text.now ≡ line) }
{
    match read_text_line(alloc, text) {
        Ok(Some(line)) => Ok(Some(Numbered {
            number,
            line: Some(line),
        })),
        Ok(None) => Ok(None),
        Err(LineFault::Form) => Ok(Some(Numbered { number, line: None })),
        Err(LineFault::Memory) => Err(AllocError),
    }
}

/// Adds a line, if there is one.
fn add(found: &mut Items<Numbered>, line: Option<Numbered>) -> Result<(), AllocError>
    ensures { OnOk result (found.new ≡ found.old ++ cons_option line []) }
{
    if let Some(line) = line {
        found.push(line)?;
    }
    Ok(())
}

/// The lines of a text.
pub(crate) fn listing_of(alloc: Global, text: &[u8]) -> Result<Listing, AllocError>
    ensures lines { IfOk result (λ found. found.lines ≡ numbered 1 (lines text.now)) }
    ensures last { IfOk result (λ found. found.last ≡ length (lines text.now) + 1) }
{
    let mut found = Items::new(alloc);
    let mut number = 1;
    let mut rest = text;
    while !rest.is_empty() {
        let (line, behind) = split_line(rest);
        let said = numbered_line(alloc, number, line)?;
        add(&mut found, said)?;
        number += 1;
        rest = behind;
    }
    Ok(Listing {
        lines: found,
        last: number,
    })
}
