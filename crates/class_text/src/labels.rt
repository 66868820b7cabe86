//! The places of instructions (JVMS 4.7.3, 6.4), and the labels that stand before them.

ghost use Rattle.std.specs.Prelude.{◌≡◌, ◌<◌, ◌^◌, []};
ghost use Rattle.std.specs.List.{list_all};
ghost use Rattle.opcode_table.specs.Table.{form_of};
ghost use Rattle.class_lines.specs.declared.line.Operation.{Operation};
ghost use Rattle.class_lines.specs.declared.line.Case.{Case};
ghost use Rattle.class_text.specs.Labels as rule;

use crate::numbered::Numbered;
use aj_names::ByteString;
use class_lines::{Case, Line, Operation};
use opcode_table::{Form, form_of};

const LDC: u8 = 18;

const INVOKEINTERFACE: u8 = 185;

/// The most bytes that code has (JVMS 4.7.3).
const LONGEST_CODE: u32 = 65_535;

/// How many zeros stand between a switch's opcode and its table.
pub(crate) fn padding(pc: u32) -> u32
    ensures { result ≡ rule.padding pc }
{
    3 - pc % 4
}

/// Whether an `iinc` has two bytes for each operand.
pub(crate) fn is_wide_increment(index: u16, by: i16) -> bool
    ensures { result ≡ rule.is_wide_increment index by }
{
    index > 255 || !(-128..=127).contains(&by)
}

/// Whether a branch has four bytes for its distance.
pub(crate) fn is_wide_branch(op: u8) -> bool
    ensures { result ≡ rule.is_wide_form (form_of op) }
{
    matches!(form_of(op), Some(Form::WideBranch))
}

/// How many bytes the instruction at a place has.
fn size_at(pc: u32, operation: &Operation) -> u128
    ensures exact { result ≡ rule.size_at pc operation.now }
    ensures few { result < 2 ^ 80 }
{
    match operation {
        Operation::Plain(_) => 1,
        Operation::Bipush(_) | Operation::NewArray(_) => 2,
        Operation::Sipush(_) | Operation::Long(_) | Operation::Double(_) => 3,
        Operation::Class { .. } => 3,
        Operation::Multi { .. } => 4,
        Operation::Local { index, .. } => if *index > 255 { 4 } else { 2 },
        Operation::Iinc { index, by } => if is_wide_increment(*index, *by) { 6 } else { 3 },
        Operation::Constant { op, .. } => if *op == LDC { 2 } else { 3 },
        Operation::Member { op, .. } => if *op == INVOKEINTERFACE { 5 } else { 3 },
        Operation::Branch { op, .. } => if is_wide_branch(*op) { 5 } else { 3 },
        Operation::TableSwitch { labels, .. } => {
            13 + u128::from(padding(pc)) + 4 * labels.len() as u128
        }
        Operation::LookupSwitch { cases, .. } => {
            9 + u128::from(padding(pc)) + 8 * cases.len() as u128
        }
    }
}

/// The place behind an instruction. It is at most 2^32 - 1.
fn advance(pc: u32, operation: &Operation) -> u32
    ensures { result ≡ rule.advance pc operation.now }
{
    let end = u128::from(pc) + size_at(pc, operation);
    end.min(u128::from(u32::MAX)) as u32
}

/// The place behind a line.
pub(crate) fn place_behind(pc: u32, line: &Option<Line>) -> u32
    ensures { result ≡ rule.place_behind pc line.now }
{
    match line {
        Some(Line::Step { operation, .. }) => advance(pc, operation),
        _ => pc,
    }
}

/// Whether a line has the label.
fn is_labelled(name: &[u8], line: &Option<Line>) -> bool
    ensures { result ≡ rule.is_labelled name.now line.now }
{
    match line {
        Some(
            Line::Step {
                label: Some(label),
                ..
            },
        ) => label.as_slice() == name,
        _ => false,
    }
}

/// Whether a line ends a method.
pub(crate) fn is_end(line: &Option<Line>) -> bool
    ensures { result ≡ rule.is_end line.now }
{
    matches!(line, Some(Line::End))
}

/// The place of the first instruction that has the label, in the lines of a method up to its end.
pub(crate) fn place_of(name: &[u8], body: &[Numbered]) -> Option<u32>
    ensures { result ≡ rule.place_of name.now 0 body.now }
{
    let mut pc = 0;
    let mut rest = body;
    while let [line, behind @ ..] = rest {
        if is_labelled(name, &line.line) {
            return Some(pc);
        }
        if is_end(&line.line) {
            return None;
        }
        pc = place_behind(pc, &line.line);
        rest = behind;
    }
    None
}

fn has_label(body: &[Numbered], name: &ByteString) -> bool
    ensures { result ≡ rule.has_label body.now name.now }
{
    place_of(name.as_slice(), body).is_some()
}

fn have_labels(body: &[Numbered], names: &[ByteString]) -> bool
    ensures { result ≡ list_all (rule.has_label body.now) names.now }
{
    names.iter().all(|name| has_label(body, name))
}

fn cases_have_labels(body: &[Numbered], cases: &[Case]) -> bool
    ensures { result ≡ list_all (λ (c : Case). rule.has_label body.now c.label) cases.now }
{
    cases.iter().all(|case| has_label(body, &case.label))
}

/// The distance to a place that is there.
pub(crate) fn distance(pc: u32, place: Option<u32>) -> i64
    ensures { result ≡ rule.distance pc place }
{
    match place {
        Some(to) => i64::from(to) - i64::from(pc),
        None => 0,
    }
}

fn branch_leads_well(body: &[Numbered], pc: u32, op: u8, to: &ByteString) -> bool
    ensures { result ≡ rule.leads_well body.now pc (Operation.Branch op to.now) }
{
    match place_of(to.as_slice(), body) {
        Some(place) => {
            is_wide_branch(op) || (-32_768..=32_767).contains(&distance(pc, Some(place)))
        }
        None => false,
    }
}

/// Whether the labels of an instruction are there, and within the reach of a branch.
fn leads_well(body: &[Numbered], pc: u32, operation: &Operation) -> bool
    ensures { result ≡ rule.leads_well body.now pc operation.now }
{
    match operation {
        Operation::Branch { op, to } => branch_leads_well(body, pc, *op, to),
        Operation::TableSwitch {
            labels,
            default,
            ..
        } => { has_label(body, default) && have_labels(body, labels.as_slice()) }
        Operation::LookupSwitch { cases, default } => {
            has_label(body, default) && cases_have_labels(body, cases.as_slice())
        }
        _ => true,
    }
}

/// Whether no earlier instruction has the label of the one at a place.
fn is_new(body: &[Numbered], pc: u32, label: &Option<ByteString>) -> bool
    ensures { result ≡ rule.is_new body.now pc label.now }
{
    match label {
        Some(label) => match place_of(label.as_slice(), body) {
            Some(place) => place == pc,
            None => false,
        },
        None => true,
    }
}

/// Whether a line at a place is right in its method.
fn is_right(body: &[Numbered], pc: u32, line: &Option<Line>) -> bool
    ensures { result ≡ rule.is_right body.now pc line.now }
{
    match line {
        Some(Line::Step { label, operation }) => {
            is_new(body, pc, label)
                && leads_well(body, pc, operation)
                && advance(pc, operation) <= LONGEST_CODE
        }
        Some(
            Line::Catch {
                from,
                to,
                handler,
                ..
            },
        ) => { has_label(body, from) && has_label(body, to) && has_label(body, handler) }
        Some(Line::End) => pc > 0,
        _ => true,
    }
}

fn is_head(line: &Option<Line>) -> bool
    ensures { result ≡ rule.is_head line.now }
{
    matches!(line, Some(Line::Method { .. }))
}

/// The number of the first line that is wrong in its method.
pub(crate) fn mislabelled(lines: &[Numbered]) -> Option<usize>
    ensures { result ≡ rule.mislabelled [] 0 lines.now }
{
    let mut body: &[Numbered] = &[];
    let mut pc = 0;
    let mut rest = lines;
    while let [line, behind @ ..] = rest {
        if !is_right(body, pc, &line.line) {
            return Some(line.number);
        }
        if is_head(&line.line) {
            body = behind;
            pc = 0;
        } else {
            pc = place_behind(pc, &line.line);
        }
        rest = behind;
    }
    None
}
