//! A text, read as a class.

ghost use Rattle.std.specs.Prelude.{◌≡◌, ◌≤◌, true, length, nat_lt, Some, Err, IfOk};
ghost use Rattle.std.specs.List.{take_while};
ghost use Rattle.class_file.specs.WellFormed.{is_well_formed};
ghost use Rattle.class_text.specs.declared.numbered.Numbered.{Numbered};
ghost use Rattle.class_text.specs.Gives.{Gives};
ghost use Rattle.class_text.specs.Meaning.{Means};
ghost use Rattle.class_text.specs.Texts.{lines, numbered};
ghost use Rattle.class_text.specs.ClassOf as rule;

use crate::fault::TextFault;
use crate::labels::mislabelled;
use crate::making::class_of;
use crate::numbered::{Numbered, listing_of};
use crate::order::misplaced;
use class_file::ClassFile;
use std::alloc::Global;

/// The lesser of two numbers, where both are there.
fn first_of(first: Option<usize>, second: Option<usize>) -> Option<usize>
    ensures { result ≡ rule.first_of first second }
{
    match (first, second) {
        (Some(first), Some(second)) => Some(first.min(second)),
        (Some(only), None) | (None, Some(only)) => Some(only),
        (None, None) => None,
    }
}

/// How many lines stand before the one of a number.
fn count_before(number: usize, lines: &[Numbered]) -> usize
    ensures exact { result ≡ length (take_while (λ (l : Numbered). nat_lt l.number number) lines.now) }
    ensures within { result ≤ length lines.now }
{
    lines.iter().take_while(|line| line.number < number).count()
}

/// The lines before the one of a number.
#[tactic(auto, using(crate::proofs::Front::taken))]
fn before(number: usize, lines: &[Numbered]) -> &[Numbered]
    ensures { result.now ≡ take_while (λ (l : Numbered). nat_lt l.number number) lines.now }
{
    let count = count_before(number, lines);
    &lines[..count]
}

/// The fault of a text whose first wrong line has this number, whatever the pool is: an earlier line
/// may pass what the pool holds.
fn refusal(alloc: Global, number: usize, lines: &[Numbered]) -> TextFault
    ensures { Gives (Err result) (rule.judged lines.now (Some number)) }
{
    match class_of(alloc, number, before(number, lines)) {
        Ok(_) => TextFault::Line(number),
        Err(fault) => fault,
    }
}

/// The class of a text.
fn class_of_text(alloc: Global, text: &[u8]) -> Result<ClassFile, TextFault>
    ensures { Gives result (rule.class_of text.now) }
{
    let listing = listing_of(alloc, text)?;
    let lines = listing.lines.as_slice();
    match first_of(misplaced(listing.last, lines), mislabelled(lines)) {
        Some(number) => Err(refusal(alloc, number, lines)),
        None => class_of(alloc, 1, lines),
    }
}

/// The class file that a text in UTF-8 is. A class line stands first, and then lines of fields and methods in
/// any order; behind that of a method with code stand lines of instructions and of the exception
/// table, in any order too, and `end`. The pool's entries are made in order of first use, operands
/// before the entry that names them, as the class file is read from this class to its end, with the
/// name of an attribute before its content.
///
/// # Errors
/// `Line` has the number, from 1 on, of the first line that isn't of the form: one that is none of
/// class text or stands at a wrong place, has the label of an earlier instruction or names a label that
/// its method lacks, is a branch past 16 bits, makes code longer than 65535 bytes (JVMS 4.7.3) or pushes
/// a class in a class file below version 49, an `ldc` with an index past 255, an `end` of a method
/// without instructions, or that passes another number of the format (JVMS 4.1). A text that lacks its
/// class line or an `end` at its end has the line behind its last as this one. `Memory`.
pub fn to_class(alloc: Global, text: &[u8]) -> Result<ClassFile, TextFault>
    // What is answered is what the text is, unless memory runs out.
    ensures exact { Gives result (rule.class_of text.now) }
    // A class that is answered is a well-formed class file: it can be written, each index of it stands
    // for what it may, and its code has no fault.
    ensures well_formed { IfOk result (λ class. is_well_formed class ≡ true) }
    // It means what the lines say: the instructions that stand in its code are theirs, in order, lead
    // where the labels that they name stand, and name in the pool what their operands say.
    ensures means { IfOk result (λ class. Means (numbered 1 (lines text.now)) class) }
{
    class_of_text(alloc, text)
}
