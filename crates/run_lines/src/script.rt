//! The lines that answer native calls.

ghost use Rattle.machine_values.specs.declared.script.Answer.{Answer};
ghost use Rattle.run_lines.specs.Reading.{Finds, Reads};
ghost use Rattle.run_lines.specs.Splits.{Text};
ghost use Rattle.run_lines.specs.ScriptLines.{IsThrown, IsBareAnswer, IsWordedAnswer, IsAnswer, IsLineAt, ReadsScript};

use crate::fault::{ScriptFault, WordFault};
use crate::names::read_class;
use crate::numbers::{read_int, read_long};
use crate::splits::{is_word, split_at_first};
use crate::texts::read_text;
use machine_values::{Answer, Script};
use sqlite_items::Items;
use std::alloc::Global;

/// The answer that a line of one word is.
fn bare_answer(word: &[u8]) -> Option<Answer>
    ensures { Finds (λ answer. answer) (λ answer. IsBareAnswer answer word.now) result }
{
    if is_word(word, b"null") {
        Some(Answer::Null)
    } else if is_word(word, b"void") {
        Some(Answer::Void)
    } else {
        None
    }
}

/// A thrown class and its message.
fn thrown(alloc: Global, words: &[u8]) -> Result<Answer, WordFault>
    ensures { Reads (λ answer. answer) (λ answer. IsThrown answer words.now) result }
{
    let Some((class, message)) = split_at_first(words, b' ') else {
        return Err(WordFault::Form);
    };
    let class = read_class(alloc, class)?;
    let message = read_text(alloc, message)?;
    Ok(Answer::Throw(class, message))
}

/// The answer that a keyword and what stands behind a blank are.
fn worded_answer(alloc: Global, keyword: &[u8], words: &[u8]) -> Result<Answer, WordFault>
    ensures { Reads (λ answer. answer) (λ answer. IsWordedAnswer answer keyword.now words.now) result }
{
    if is_word(keyword, b"int") {
        return match read_int(words) {
            Some(number) => Ok(Answer::Int(number)),
            None => Err(WordFault::Form),
        };
    }
    if is_word(keyword, b"long") {
        return match read_long(words) {
            Some(number) => Ok(Answer::Long(number)),
            None => Err(WordFault::Form),
        };
    }
    if is_word(keyword, b"text") {
        return Ok(Answer::Text(read_text(alloc, words)?));
    }
    if is_word(keyword, b"throw") {
        return thrown(alloc, words);
    }
    Err(WordFault::Form)
}

/// The answer that a line is, without its line feed.
fn answer(alloc: Global, line: &[u8]) -> Result<Answer, WordFault>
    ensures { Reads (λ answer. answer) (λ answer. IsAnswer answer line.now) result }
{
    match split_at_first(line, b' ') {
        Some((keyword, words)) => worded_answer(alloc, keyword, words),
        None => match bare_answer(line) {
            Some(answer) => Ok(answer),
            None => Err(WordFault::Form),
        },
    }
}

/// The answer of the first line, and what stands behind its line feed.
fn answer_at(alloc: Global, text: &[u8]) -> Result<(Answer, &[u8]), WordFault>
    ensures { Reads {Y = Answer × Text} (λ found. (found.0, found.1.now)) (λ found. IsLineAt text.now found.0 found.1) result }
{
    let Some((line, behind)) = split_at_first(text, b'\n') else {
        return Err(WordFault::Form);
    };
    Ok((answer(alloc, line)?, behind))
}

/// The answers to native calls that a text has, each on a line that ends with a line feed: `int N`,
/// `long N`, `null`, `text "..."`, `void`, or `throw CLASS "..."` with a class whose dotted name has no
/// blank. Numbers and texts are as in an entry, but a long has no `L`. `Line` names the first line of
/// another form, from 1 on; a last line without its line feed is one.
pub fn read_script(alloc: Global, text: &[u8]) -> Result<Script, ScriptFault>
    ensures { ReadsScript text.now result }
{
    let mut answers = Items::new(alloc);
    let mut rest = text;
    while !rest.is_empty() {
        match answer_at(alloc, rest) {
            Ok((answer, behind)) => {
                answers.push(answer)?;
                rest = behind;
            }
            Err(WordFault::Form) => return Err(ScriptFault::Line(answers.len() as u64 + 1)),
            Err(WordFault::Memory) => return Err(ScriptFault::Memory),
        }
    }
    Ok(Script { answers, next: 0 })
}
