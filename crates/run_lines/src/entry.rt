//! The word that names an entry method and its arguments.

ghost use Rattle.std.specs.Prelude.{List, IfOk};
ghost use Rattle.machine_values.specs.declared.script.EntryArg.{EntryArg};
ghost use Rattle.run_lines.specs.Reading.{Finds, Reads, ReadsAs};
ghost use Rattle.run_lines.specs.Splits.{Text};
ghost use Rattle.run_lines.specs.Lists.{IsWordAt, IsListAt};
ghost use Rattle.run_lines.specs.Arguments.{IsArgument, IsPlainArgument, IsEndedAt};
ghost use Rattle.run_lines.specs.EntryWord.{IsEntryWord};

use crate::fault::WordFault;
use crate::names::{read_class, read_method};
use crate::numbers::{read_int, read_long};
use crate::splits::{
    before_byte, behind_byte, is_word, split_at_first, split_at_last, split_at_stop,
};
use crate::texts::{closed_texts, text_at};
use aj_names::{ByteString, InternalName};
use machine_values::EntryArg;
use sqlite_items::Items;
use std::alloc::{AllocError, Global};

/// An entry method by its class and name, and its arguments. Which method of the class it is depends
/// on the arguments.
#[derive(Drop)]
pub struct EntryWords {
    /// The class, as a class file names it.
    pub class: InternalName,
    /// The method's name in modified UTF-8.
    pub method: ByteString,
    pub args: Items<EntryArg>,
}

/// The int, the long or the null that a word is.
fn plain_argument(word: &[u8]) -> Option<EntryArg>
    ensures { Finds (λ arg. arg) (λ arg. IsPlainArgument arg word.now) result }
{
    if is_word(word, b"null") {
        return Some(EntryArg::Null);
    }
    if let Some(digits) = before_byte(word, b'L') {
        return match read_long(digits) {
            Some(number) => Some(EntryArg::Long(number)),
            None => None,
        };
    }
    match read_int(word) {
        Some(number) => Some(EntryArg::Int(number)),
        None => None,
    }
}

/// An argument at the front, before a comma or a closing bracket, and what stands behind it.
fn argument_at(alloc: Global, text: &[u8]) -> Result<(EntryArg, &[u8]), WordFault>
    ensures { ReadsAs {Y = EntryArg × Text} (λ found. (found.0, found.1.now)) (λ found. IsWordAt IsArgument text.now found.0 found.1) (λ found. IsEndedAt text.now found.0 found.1) result }
{
    if let Some(texts) = behind_byte(text, b'[') {
        let (texts, behind) = closed_texts(alloc, texts)?;
        return Ok((EntryArg::Texts(texts), behind));
    }
    if behind_byte(text, b'"').is_some() {
        let (units, behind) = text_at(alloc, text)?;
        return Ok((EntryArg::Text(units), behind));
    }
    let Some((word, behind)) = split_at_stop(text) else {
        return Err(WordFault::Form);
    };
    match plain_argument(word) {
        Some(arg) => Ok((arg, behind)),
        None => Err(WordFault::Form),
    }
}

/// The arguments behind the opening bracket, and what stands behind the closing one.
fn closed_arguments(alloc: Global, text: &[u8]) -> Result<(Items<EntryArg>, &[u8]), WordFault>
    ensures { Reads {Y = List EntryArg × Text} (λ found. (found.0, found.1.now)) (λ found. IsListAt IsArgument 41 text.now found.0 found.1) result }
{
    let mut args = Items::new(alloc);
    if let Some(behind) = behind_byte(text, b')') {
        return Ok((args, behind));
    }
    let mut rest = text;
    loop {
        let (arg, behind) = argument_at(alloc, rest)?;
        args.push(arg)?;
        if let Some(behind) = behind_byte(behind, b')') {
            return Ok((args, behind));
        }
        let Some(next) = behind_byte(behind, b',') else {
            return Err(WordFault::Form);
        };
        rest = next;
    }
}

/// The entry that a word names.
fn entry_words(alloc: Global, word: &[u8]) -> Result<EntryWords, WordFault>
    ensures { Reads (λ entry. entry) (λ entry. IsEntryWord entry word.now) result }
{
    let Some((name, args)) = split_at_first(word, b'(') else {
        return Err(WordFault::Form);
    };
    let Some((class, method)) = split_at_last(name, b'.') else {
        return Err(WordFault::Form);
    };
    let class = read_class(alloc, class)?;
    let method = read_method(alloc, method)?;
    let (args, behind) = closed_arguments(alloc, args)?;
    if behind.is_empty() {
        Ok(EntryWords {
            class,
            method,
            args,
        })
    } else {
        Err(WordFault::Form)
    }
}

/// The entry method that a word of the command line names: `Class.method(args)` in UTF-8, the class
/// with dots. The last dot before the first `(` ends it. An argument is an int, a long with `L`, a text
/// in quotes, `null`, or a list of texts in square brackets, with a comma between each two and no
/// blanks. In a text `\"` and `\\` are a quote and a backslash, and every other character stands for
/// itself, a line feed too; one past U+FFFF is two units. `None` exactly where the word is not of the
/// form.
pub fn read_entry(alloc: Global, word: &[u8]) -> Result<Option<EntryWords>, AllocError>
    ensures { IfOk result (λ found. Finds (λ entry. entry) (λ entry. IsEntryWord entry word.now) found) }
{
    match entry_words(alloc, word) {
        Ok(entry) => Ok(Some(entry)),
        Err(WordFault::Form) => Ok(None),
        Err(WordFault::Memory) => Err(AllocError),
    }
}
