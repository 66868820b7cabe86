//! How a line is printed.

ghost use Rattle.std.specs.Prelude.{◌≡◌, ◌++◌, ◌<◌, ◌∷◌, [], map, codes, option_copied, Some, true, OnOk};
ghost use Rattle.std.specs.Fmt.{decimal, signed_decimal};
ghost use Rattle.std.specs.List.{flat_map};
ghost use Rattle.class_lines.specs.Lines.{is_line, has_text_labels};
ghost use Rattle.class_lines.specs.Reading.{read_as};
ghost use Rattle.class_lines.specs.Heard.{heard};
ghost use Rattle.class_lines.specs.Units.{units_of};
ghost use Rattle.class_lines.specs.Utf8.{utf8_of, is_one_line};
ghost use Rattle.class_lines.specs.Printing.{spaced, all_spaced, natural_text, hex_digit, hex_digits, escape, quote, constant_text, case_text, default_text, op_of, operands_text, operation_text, head_text, interfaces_text, label_text, caught_text, line_text};

use crate::line::{Case, Constant, Line, MemberHead, Operation};
use crate::units::first_unit;
use crate::utf8::put_utf8;
use aj_names::ByteString;
use itoa::Buffer;
use opcode_table::mnemonic;
use std::alloc::{AllocError, Global};

const BIPUSH: u8 = 16;

const SIPUSH: u8 = 17;

const LDC2_W: u8 = 20;

const IINC: u8 = 132;

const TABLESWITCH: u8 = 170;

const LOOKUPSWITCH: u8 = 171;

const NEWARRAY: u8 = 188;

const MULTIANEWARRAY: u8 = 197;

fn put(out: &mut Vec<u8>, bytes: &[u8]) -> Result<(), AllocError>
    ensures { OnOk result (out.new.items ≡ out.old.items ++ bytes.now) }
{
    out.extend_from_slice(bytes)
}

/// A word behind a blank.
fn put_word(out: &mut Vec<u8>, word: &[u8]) -> Result<(), AllocError>
    ensures { OnOk result (out.new.items ≡ out.old.items ++ spaced word.now) }
{
    put(out, b" ")?;
    put(out, word)
}

fn put_words(out: &mut Vec<u8>, words: &[ByteString]) -> Result<(), AllocError>
    ensures { OnOk result (out.new.items ≡ out.old.items ++ all_spaced words.now) }
{
    for word in words {
        put_word(out, word.as_slice())?;
    }
    Ok(())
}

/// A decimal number.
fn put_signed(out: &mut Vec<u8>, n: i64) -> Result<(), AllocError>
    ensures { OnOk result (out.new.items ≡ out.old.items ++ signed_decimal n) }
{
    let mut buffer = Buffer::new();
    put(out, buffer.format(n).as_bytes())
}

/// A decimal number behind a blank.
fn put_natural(out: &mut Vec<u8>, n: u16) -> Result<(), AllocError>
    ensures { OnOk result (out.new.items ≡ out.old.items ++ spaced (decimal n)) }
{
    let mut buffer = Buffer::new();
    put_word(out, buffer.format(n).as_bytes())
}

/// A decimal number behind a blank.
fn put_integer(out: &mut Vec<u8>, n: i64) -> Result<(), AllocError>
    ensures { OnOk result (out.new.items ≡ out.old.items ++ spaced (signed_decimal n)) }
{
    put(out, b" ")?;
    put_signed(out, n)
}

/// A word and a number.
fn put_named(out: &mut Vec<u8>, word: &[u8], n: u16) -> Result<(), AllocError>
    ensures { OnOk result (out.new.items ≡ out.old.items ++ natural_text word.now n) }
{
    put_word(out, word)?;
    put_natural(out, n)
}

fn hex_digit(n: u8) -> u8
    requires { n < 16 }
    ensures { result ≡ hex_digit n }
{
    if n < 10 { b'0' + n } else { 87 + n }
}

/// So many digits of a number in base 16.
fn put_hex(out: &mut Vec<u8>, count: u32, n: u64) -> Result<(), AllocError>
    ensures { OnOk result (out.new.items ≡ out.old.items ++ hex_digits count n) }
{
    if count > 0 {
        put_hex(out, count - 1, n / 16)?;
        out.push(hex_digit((n % 16) as u8))?;
    }
    Ok(())
}

/// A UTF-16 unit between quotes.
fn put_escaped(out: &mut Vec<u8>, unit: u16) -> Result<(), AllocError>
    ensures { OnOk result (out.new.items ≡ out.old.items ++ escape unit) }
{
    match unit {
        0x22 | 0x5c => put(out, &[b'\\', unit as u8]),
        0x0a => put(out, b"\\n"),
        0x20..=0x7e => put(out, &[unit as u8]),
        _ => {
            put(out, b"\\u")?;
            put_hex(out, 4, u64::from(unit))
        }
    }
}

/// The units of a text in modified UTF-8, each as it is written between quotes.
fn put_units(out: &mut Vec<u8>, text: &[u8]) -> Result<(), AllocError>
    ensures { OnOk result (out.new.items ≡ out.old.items ++ flat_map escape (units_of text.now)) }
{
    let mut rest = text;
    while let Some((unit, behind)) = first_unit(rest) {
        put_escaped(out, unit)?;
        rest = behind;
    }
    Ok(())
}

/// A text in quotes.
fn put_quoted(out: &mut Vec<u8>, text: &[u8]) -> Result<(), AllocError>
    ensures { OnOk result (out.new.items ≡ out.old.items ++ quote text.now) }
{
    put(out, b"\"")?;
    put_units(out, text)?;
    put(out, b"\"")
}

fn put_constant(out: &mut Vec<u8>, constant: &Constant) -> Result<(), AllocError>
    ensures { OnOk result (out.new.items ≡ out.old.items ++ constant_text constant.now) }
{
    match constant {
        Constant::Int(n) => put_signed(out, i64::from(*n)),
        Constant::Float(bits) => {
            put(out, b"float:")?;
            put_hex(out, 8, u64::from(*bits))
        }
        Constant::Text(text) => put_quoted(out, text.as_slice()),
        Constant::Class(class) => put(out, class.as_slice()),
    }
}

/// A key and its label.
fn put_case(out: &mut Vec<u8>, case: &Case) -> Result<(), AllocError>
    ensures { OnOk result (out.new.items ≡ out.old.items ++ spaced (case_text case.now)) }
{
    put_integer(out, i64::from(case.key))?;
    put(out, b":")?;
    put(out, case.label.as_slice())
}

fn put_cases(out: &mut Vec<u8>, cases: &[Case]) -> Result<(), AllocError>
    ensures { OnOk result (out.new.items ≡ out.old.items ++ all_spaced (map case_text cases.now)) }
{
    for case in cases {
        put_case(out, case)?;
    }
    Ok(())
}

fn put_default(out: &mut Vec<u8>, label: &ByteString) -> Result<(), AllocError>
    ensures { OnOk result (out.new.items ≡ out.old.items ++ default_text label.now) }
{
    put_word(out, b"default")?;
    put_word(out, label.as_slice())
}

fn put_member(
    out: &mut Vec<u8>,
    class: &ByteString,
    name: &ByteString,
    descriptor: &ByteString,
) -> Result<(), AllocError>
    ensures { OnOk result (out.new.items ≡ out.old.items ++ all_spaced (class.now ∷ name.now ∷ descriptor.now ∷ [])) }
{
    put_word(out, class.as_slice())?;
    put_word(out, name.as_slice())?;
    put_word(out, descriptor.as_slice())
}

/// The opcode of an instruction.
fn op_of(operation: &Operation) -> u8
    ensures { result ≡ op_of operation.now }
{
    match operation {
        Operation::Plain(op)
        | Operation::Local { op, .. }
        | Operation::Constant { op, .. }
        | Operation::Member { op, .. }
        | Operation::Class { op, .. }
        | Operation::Branch { op, .. } => *op,
        Operation::Bipush(_) => BIPUSH,
        Operation::Sipush(_) => SIPUSH,
        Operation::Iinc { .. } => IINC,
        Operation::Long(_) | Operation::Double(_) => LDC2_W,
        Operation::NewArray(_) => NEWARRAY,
        Operation::Multi { .. } => MULTIANEWARRAY,
        Operation::TableSwitch { .. } => TABLESWITCH,
        Operation::LookupSwitch { .. } => LOOKUPSWITCH,
    }
}

/// The bits of a double.
fn put_double(out: &mut Vec<u8>, bits: u64) -> Result<(), AllocError>
    ensures { OnOk result (out.new.items ≡ out.old.items ++ spaced (codes "double:" ++ hex_digits 16 bits)) }
{
    put_word(out, b"double:")?;
    put_hex(out, 16, bits)
}

/// The operands, each behind a blank.
fn put_operands(out: &mut Vec<u8>, operation: &Operation) -> Result<(), AllocError>
    ensures { OnOk result (out.new.items ≡ out.old.items ++ operands_text operation.now) }
{
    match operation {
        Operation::Plain(_) => Ok(()),
        Operation::Bipush(value) => put_integer(out, i64::from(*value)),
        Operation::Sipush(value) => put_integer(out, i64::from(*value)),
        Operation::Local { index, .. } => put_natural(out, *index),
        Operation::Iinc { index, by } => {
            put_natural(out, *index)?;
            put_integer(out, i64::from(*by))
        }
        Operation::Constant { constant, .. } => {
            put(out, b" ")?;
            put_constant(out, constant)
        }
        Operation::Long(n) => put_integer(out, *n),
        Operation::Double(bits) => put_double(out, *bits),
        Operation::Member {
            class,
            name,
            descriptor,
            ..
        } => put_member(out, class, name, descriptor),
        Operation::Class { class, .. } => put_word(out, class.as_slice()),
        Operation::NewArray(code) => put_natural(out, u16::from(*code)),
        Operation::Multi { class, dims } => {
            put_word(out, class.as_slice())?;
            put_natural(out, u16::from(*dims))
        }
        Operation::Branch { to, .. } => put_word(out, to.as_slice()),
        Operation::TableSwitch {
            low,
            labels,
            default,
        } => {
            put_integer(out, i64::from(*low))?;
            put_words(out, labels.as_slice())?;
            put_default(out, default)
        }
        Operation::LookupSwitch { cases, default } => {
            put_cases(out, cases.as_slice())?;
            put_default(out, default)
        }
    }
}

/// A mnemonic and its operands, each behind a blank.
fn put_operation(out: &mut Vec<u8>, operation: &Operation) -> Result<(), AllocError>
    ensures { OnOk result (out.new.items ≡ out.old.items ++ operation_text operation.now) }
{
    put_word(out, mnemonic(op_of(operation)).as_bytes())?;
    put_operands(out, operation)
}

fn put_head(out: &mut Vec<u8>, head: &MemberHead) -> Result<(), AllocError>
    ensures { OnOk result (out.new.items ≡ out.old.items ++ head_text head.now) }
{
    put_word(out, head.name.as_slice())?;
    put_word(out, head.descriptor.as_slice())?;
    put_named(out, b"flags", head.flags)
}

fn put_interfaces(out: &mut Vec<u8>, names: &[ByteString]) -> Result<(), AllocError>
    ensures { OnOk result (out.new.items ≡ out.old.items ++ interfaces_text names.now) }
{
    if names.is_empty() {
        return Ok(());
    }
    put_word(out, b"interface")?;
    put_words(out, names)
}

fn put_label(out: &mut Vec<u8>, label: Option<&ByteString>) -> Result<(), AllocError>
    ensures { OnOk result (out.new.items ≡ out.old.items ++ label_text (option_copied label.entry)) }
{
    match label {
        Some(label) => {
            put_word(out, label.as_slice())?;
            put(out, b":")
        }
        None => Ok(()),
    }
}

fn put_caught(out: &mut Vec<u8>, class: Option<&ByteString>) -> Result<(), AllocError>
    ensures { OnOk result (out.new.items ≡ out.old.items ++ spaced (caught_text (option_copied class.entry))) }
{
    match class {
        Some(class) => put_word(out, class.as_slice()),
        None => put_word(out, b"any"),
    }
}

fn put_labels(
    out: &mut Vec<u8>,
    from: &ByteString,
    to: &ByteString,
    handler: &ByteString,
) -> Result<(), AllocError>
    ensures { OnOk result (out.new.items ≡ out.old.items ++ all_spaced (from.now ∷ to.now ∷ handler.now ∷ [])) }
{
    put_word(out, from.as_slice())?;
    put_word(out, to.as_slice())?;
    put_word(out, handler.as_slice())
}

/// Adds a line to a text.
fn put_text(out: &mut Vec<u8>, line: &Line) -> Result<(), AllocError>
    ensures { OnOk result (out.new.items ≡ out.old.items ++ line_text line.now) }
{
    match line {
        Line::Class {
            name,
            super_name,
            version,
            flags,
            interfaces,
        } => {
            put(out, b"class")?;
            put_word(out, name.as_slice())?;
            put_word(out, b"super")?;
            put_word(out, super_name.as_slice())?;
            put_named(out, b"version", *version)?;
            put_named(out, b"flags", *flags)?;
            put_interfaces(out, interfaces.as_slice())
        }
        Line::Field(head) => {
            put(out, b"field")?;
            put_head(out, head)
        }
        Line::Method {
            head,
            stack,
            locals,
        } => {
            put(out, b"method")?;
            put_head(out, head)?;
            put_named(out, b"stack", *stack)?;
            put_named(out, b"locals", *locals)
        }
        Line::Bare(head) => {
            put(out, b"method")?;
            put_head(out, head)?;
            put_word(out, b"none")
        }
        Line::Step { label, operation } => {
            put(out, b" ")?;
            put_label(out, label.as_ref())?;
            put_operation(out, operation)
        }
        Line::Catch {
            from,
            to,
            handler,
            class,
        } => {
            put(out, b"  catch")?;
            put_labels(out, from, to, handler)?;
            put_caught(out, class.as_ref())
        }
        Line::End => put(out, b"end"),
    }
}

/// Adds a line to a text, without a line feed. The instructions and the exception table of a method
/// stand two blanks from the left. Names are in modified UTF-8, as in a class file.
pub fn put_line(out: &mut Vec<u8>, line: &Line) -> Result<(), AllocError>
    ensures text { OnOk result (out.new.items ≡ out.old.items ++ line_text line.now) }
    // A line of the form is read back from its text.
    ensures read_back { is_line line.now ≡ true → read_as (line_text line.now) ≡ Some (Some line.now) }
{
    put_text(out, line)
}

/// Adds a line to a text in UTF-8, without a line feed.
pub fn put_text_line(alloc: Global, out: &mut Vec<u8>, line: &Line) -> Result<(), AllocError>
    ensures text { OnOk result (out.new.items ≡ out.old.items ++ utf8_of (line_text line.now)) }
    // A line of the form whose labels are of characters is read back from its text in UTF-8.
    ensures heard_back { is_line line.now ≡ true → has_text_labels line.now ≡ true → heard (utf8_of (line_text line.now)) ≡ Some (Some line.now) }
    // The text of a line of the form has no line feed.
    ensures one_line { is_line line.now ≡ true → is_one_line (utf8_of (line_text line.now)) ≡ true }
{
    let mut bytes = Vec::new(alloc);
    put_text(&mut bytes, line)?;
    put_utf8(out, bytes.as_slice())
}
