//! What a line is.

ghost use Rattle.std.specs.Prelude.{◌≡◌, true, option_copied, IfOk, IfSome};
ghost use Rattle.class_lines.specs.Words.{Gives, texts, ended};
ghost use Rattle.class_lines.specs.declared.line.Line.{Line};
ghost use Rattle.class_lines.specs.Lines.{is_line};
ghost use Rattle.class_lines.specs.Reading.{label_before, labelled_at, unlabelled_at, step_at, caught_at, catch_at, line_at, is_passed_over, read_as};

use crate::fault::LineFault;
use crate::fields::fields;
use crate::heads::{class_line, field_line, method_line};
use crate::line::Line;
use crate::operations::operation;
use crate::words::{WordKind, end, word};
use aj_names::ByteString;
use std::alloc::Global;

/// The label before the colon at the end of a word.
#[tactic(auto, unfolding(crate::specs::Reading::label_before))]
fn label_before(word: &[u8]) -> Option<&[u8]>
    ensures { option_copied result ≡ label_before word.now }
{
    if word.is_empty() || word[word.len() - 1] != b':' {
        return None;
    }
    let label = &word[..word.len() - 1];
    if WordKind::Label.fits(label) {
        Some(label)
    } else {
        None
    }
}

/// An instruction behind a label.
fn labelled(alloc: Global, label: &[u8], words: &[&[u8]]) -> Result<Line, LineFault>
    ensures { Gives result (labelled_at label.now (texts words.now)) }
{
    let operation = operation(alloc, words)?;
    Ok(Line::Step {
        label: Some(ByteString::from_slice(alloc, label)?),
        operation,
    })
}

/// An instruction without a label.
fn unlabelled(alloc: Global, words: &[&[u8]]) -> Result<Line, LineFault>
    ensures { Gives result (unlabelled_at (texts words.now)) }
{
    Ok(Line::Step {
        label: None,
        operation: operation(alloc, words)?,
    })
}

/// A label, if there is one, a mnemonic and its operands.
#[tactic(auto, unfolding(crate::specs::Reading::step_at))]
fn step_line(alloc: Global, words: &[&[u8]]) -> Result<Line, LineFault>
    ensures { Gives result (step_at (texts words.now)) }
{
    let [first, rest @ ..] = words else {
        return Err(LineFault::Form);
    };
    match label_before(first) {
        Some(label) => labelled(alloc, label, rest),
        None => unlabelled(alloc, words),
    }
}

/// A class that is caught, or `any`.
#[tactic(auto, unfolding(crate::specs::Reading::caught_at))]
fn caught(alloc: Global, words: &[&[u8]]) -> Result<Option<ByteString>, LineFault>
    ensures { Gives result (caught_at (texts words.now)) }
{
    let [class] = words else {
        return Err(LineFault::Form);
    };
    if *class == b"any".as_slice() {
        Ok(None)
    } else if WordKind::TypeName.fits(class) {
        Ok(Some(ByteString::from_slice(alloc, class)?))
    } else {
        Err(LineFault::Form)
    }
}

/// What stands behind `catch`.
#[tactic(auto, unfolding(crate::specs::Reading::catch_at))]
fn catch_line(alloc: Global, words: &[&[u8]]) -> Result<Line, LineFault>
    ensures { Gives result (catch_at (texts words.now)) }
{
    let (from, rest) = word(alloc, words, WordKind::Label)?;
    let (to, rest) = word(alloc, rest, WordKind::Label)?;
    let (handler, rest) = word(alloc, rest, WordKind::Label)?;
    let class = caught(alloc, rest)?;
    Ok(Line::Catch {
        from,
        to,
        handler,
        class,
    })
}

/// `end` alone.
fn end_line(words: &[&[u8]]) -> Result<Line, LineFault>
    ensures { Gives result (ended (texts words.now) Line.End) }
{
    end(words)?;
    Ok(Line::End)
}

/// The line of some words, by the first.
#[tactic(auto, unfolding(crate::specs::Reading::line_at))]
fn line_of(alloc: Global, words: &[&[u8]]) -> Result<Line, LineFault>
    ensures { Gives result (line_at (texts words.now)) }
{
    let [first, rest @ ..] = words else {
        return Err(LineFault::Form);
    };
    if *first == b"class".as_slice() {
        class_line(alloc, rest)
    } else if *first == b"field".as_slice() {
        field_line(alloc, rest)
    } else if *first == b"method".as_slice() {
        method_line(alloc, rest)
    } else if *first == b"catch".as_slice() {
        catch_line(alloc, rest)
    } else if *first == b"end".as_slice() {
        end_line(rest)
    } else {
        step_line(alloc, words)
    }
}

/// Whether a line has blanks alone, or a comment.
fn is_passed_over(words: &[&[u8]]) -> bool
    ensures { result ≡ is_passed_over (texts words.now) }
{
    match words {
        [] => true,
        [first, ..] => matches!(first, [b';', ..]),
    }
}

/// What a line says, or nothing.
#[tactic(auto, unfolding(crate::specs::Reading::read_as))]
fn read(alloc: Global, line: &[u8]) -> Result<Option<Line>, LineFault>
    ensures { Gives result (read_as line.now) }
{
    let words = fields(alloc, line)?;
    if is_passed_over(words.as_slice()) {
        return Ok(None);
    }
    Ok(Some(line_of(alloc, words.as_slice())?))
}

/// What a line of a text says, or nothing where it has blanks alone or a comment, which begins with
/// `;`. The line has no line feed. Names and descriptors in it are in modified UTF-8, as those of a
/// class file, and blanks stand between its fields.
///
/// # Errors
/// `Form` where it is no line of class text. `Memory`.
pub fn read_line(alloc: Global, line: &[u8]) -> Result<Option<Line>, LineFault>
    // What is answered is what the line says, or that it says nothing, unless memory runs out.
    ensures exact { Gives result (read_as line.now) }
    // What it says is of the form, and so is read back from its text.
    ensures form { IfOk result (λ found. IfSome found (λ line. is_line line ≡ true)) }
{
    read(alloc, line)
}
