//! Instructions: a mnemonic and its operands.

ghost use Rattle.std.specs.Prelude.{◌≡◌, ◌-◌, ◌^◌, option_map, option_copied, negsuc};
ghost use Rattle.std.specs.Option.{option_or};
ghost use Rattle.class_file.specs.Text.{dimensions};
ghost use Rattle.class_lines.specs.Numbers as numbers;
ghost use Rattle.class_lines.specs.declared.line.Constant.{Constant};
ghost use Rattle.class_lines.specs.declared.line.Operation.{Operation};
ghost use Rattle.class_lines.specs.Fields.{run_of, behind_run};
ghost use Rattle.class_lines.specs.Words.{GivesAs, Gives, texts, with_texts};
ghost use Rattle.class_lines.specs.Lines.{is_constant};
ghost use Rattle.class_lines.specs.Operations.{op_named, byte_at, short_at, local_at, increment_at, array_code_at, behind, float_of, double_of, class_constant, constant_of, constant_at, wide_constant_at, member_at, type_at, dimensions_at, pool_at, branch_at, default_at, cases_at, table_at, label_behind, case_of, is_key_byte, cases_above, lookup_at, by_form, operation_at};

use crate::fault::LineFault;
use crate::line::{Case, Constant, Operation};
use crate::numbers::{hexadecimal, integer};
use crate::quotes::quoted;
use crate::words::{WordKind, end, keyword, natural, signed, word, words_of};
use aj_names::ByteString;
use opcode_table::{Form, form_of, mnemonic};
use sqlite_items::Items;
use std::alloc::Global;

const LDC_W: u8 = 19;

const LDC2_W: u8 = 20;

const GETSTATIC: u8 = 178;

const PUTFIELD: u8 = 181;

const INVOKEVIRTUAL: u8 = 182;

const INVOKESTATIC: u8 = 184;

const ANEWARRAY: u8 = 189;

/// The opcode that has the mnemonic.
#[tactic(auto, unfolding(crate::specs::Operations::op_named))]
fn op_named(word: &[u8]) -> Option<u8>
    ensures { result ≡ op_named word.now }
{
    for op in 0..202u8 {
        if mnemonic(op).as_bytes() == word {
            return Some(op);
        }
    }
    None
}

#[tactic(auto, unfolding(crate::specs::Operations::byte_at))]
fn byte(words: &[&[u8]]) -> Result<Operation, LineFault>
    ensures { Gives result (byte_at (texts words.now)) }
{
    let (value, rest) = signed(words, 127)?;
    end(rest)?;
    Ok(Operation::Bipush(value as i8))
}

#[tactic(auto, unfolding(crate::specs::Operations::short_at))]
fn short(words: &[&[u8]]) -> Result<Operation, LineFault>
    ensures { Gives result (short_at (texts words.now)) }
{
    let (value, rest) = signed(words, 32_767)?;
    end(rest)?;
    Ok(Operation::Sipush(value as i16))
}

#[tactic(auto, unfolding(crate::specs::Operations::local_at))]
fn local(op: u8, words: &[&[u8]]) -> Result<Operation, LineFault>
    ensures { Gives result (local_at op (texts words.now)) }
{
    let (index, rest) = natural(words, 65_535)?;
    end(rest)?;
    Ok(Operation::Local {
        op,
        index: index as u16,
    })
}

#[tactic(auto, unfolding(crate::specs::Operations::increment_at))]
fn increment(words: &[&[u8]]) -> Result<Operation, LineFault>
    ensures { Gives result (increment_at (texts words.now)) }
{
    let (index, rest) = natural(words, 65_535)?;
    let (by, rest) = signed(rest, 32_767)?;
    end(rest)?;
    Ok(Operation::Iinc {
        index: index as u16,
        by: by as i16,
    })
}

/// The code of a primitive type, from 4 for `boolean` to 11 for `long`.
#[tactic(auto, unfolding(crate::specs::Operations::array_code_at))]
fn array_code(words: &[&[u8]]) -> Result<Operation, LineFault>
    ensures { Gives result (array_code_at (texts words.now)) }
{
    let (code, rest) = natural(words, 11)?;
    if code < 4 {
        return Err(LineFault::Form);
    }
    end(rest)?;
    Ok(Operation::NewArray(code as u8))
}

/// What stands behind a prefix of a word.
fn behind<'a>(prefix: &[u8], word: &'a [u8]) -> Option<&'a [u8]>
    ensures { option_copied result ≡ behind prefix.now word.now }
{
    if prefix.len() <= word.len() && &word[..prefix.len()] == prefix {
        Some(&word[prefix.len()..])
    } else {
        None
    }
}

/// The bits of a float.
#[tactic(auto, unfolding(crate::specs::Operations::float_of))]
fn float_bits(word: &[u8]) -> Option<u32>
    ensures { result ≡ float_of word.now }
{
    let bits = hexadecimal(8, 0xffff_ffff, behind(b"float:", word)?)?;
    Some(bits as u32)
}

/// The bits of a double.
#[tactic(auto, unfolding(crate::specs::Operations::double_of))]
fn double_bits(word: &[u8]) -> Option<u64>
    ensures { result ≡ double_of word.now }
{
    hexadecimal(16, u64::MAX, behind(b"double:", word)?)
}

/// An int, else the bits of a float.
fn number_constant(word: &[u8]) -> Option<Constant>
    ensures { result ≡ option_or (option_map Constant.Int (numbers.integer (2 ^ 31 - 1) word.now)) (option_map Constant.Float (float_of word.now)) }
{
    match integer(0x7fff_ffff, word) {
        Some(n) => Some(Constant::Int(n as i32)),
        None => Some(Constant::Float(float_bits(word)?)),
    }
}

#[tactic(auto, unfolding(crate::specs::Operations::class_constant))]
fn class_constant(alloc: Global, text: &[u8]) -> Result<Constant, LineFault>
    ensures { Gives result (class_constant text.now) }
{
    if WordKind::TypeName.fits(text) {
        Ok(Constant::Class(ByteString::from_slice(alloc, text)?))
    } else {
        Err(LineFault::Form)
    }
}

/// Whether `ldc` and `ldc_w` may name the class: its name is that of a class or an array type, and no int
/// or float is written so.
pub fn is_class_constant(name: &[u8]) -> bool
    ensures { result ≡ is_constant (Constant.Class name.now) }
{
    WordKind::TypeName.fits(name)
        && integer(0x7fff_ffff, name).is_none()
        && float_bits(name).is_none()
}

/// An int, else a float, else a class.
fn plain_constant(alloc: Global, word: &[u8]) -> Result<Constant, LineFault>
    ensures { Gives result (option_or (option_or (option_map Constant.Int (numbers.integer (2 ^ 31 - 1) word.now)) (option_map Constant.Float (float_of word.now))) (class_constant word.now)) }
{
    match number_constant(word) {
        Some(constant) => Ok(constant),
        None => class_constant(alloc, word),
    }
}

/// A text in quotes, else an int, else a float, else a class.
#[tactic(auto, unfolding(crate::specs::Operations::constant_of))]
fn constant_of(alloc: Global, word: &[u8]) -> Result<Constant, LineFault>
    ensures { Gives result (constant_of word.now) }
{
    match quoted(alloc, word) {
        Ok(text) => Ok(Constant::Text(text)),
        Err(LineFault::Form) => plain_constant(alloc, word),
        Err(LineFault::Memory) => Err(LineFault::Memory),
    }
}

#[tactic(auto, unfolding(crate::specs::Operations::constant_at))]
fn constant(alloc: Global, op: u8, words: &[&[u8]]) -> Result<Operation, LineFault>
    ensures { Gives result (constant_at op (texts words.now)) }
{
    let [word, rest @ ..] = words else {
        return Err(LineFault::Form);
    };
    let constant = constant_of(alloc, word)?;
    end(rest)?;
    Ok(Operation::Constant { op, constant })
}

/// A long, else a double.
fn wide_constant_of(word: &[u8]) -> Option<Operation>
    ensures { result ≡ option_or (option_map Operation.Long (numbers.integer (2 ^ 63 - 1) word.now)) (option_map Operation.Double (double_of word.now)) }
{
    match integer(0x7fff_ffff_ffff_ffff, word) {
        Some(n) => Some(Operation::Long(n)),
        None => Some(Operation::Double(double_bits(word)?)),
    }
}

#[tactic(auto, unfolding(crate::specs::Operations::wide_constant_at))]
fn wide_constant(words: &[&[u8]]) -> Result<Operation, LineFault>
    ensures { Gives result (wide_constant_at (texts words.now)) }
{
    let [word, rest @ ..] = words else {
        return Err(LineFault::Form);
    };
    let Some(operation) = wide_constant_of(word) else {
        return Err(LineFault::Form);
    };
    end(rest)?;
    Ok(operation)
}

/// `CLASS NAME DESCRIPTOR`.
#[tactic(auto, unfolding(crate::specs::Operations::member_at))]
fn member(alloc: Global, op: u8, words: &[&[u8]], kind: WordKind) -> Result<Operation, LineFault>
    ensures { Gives result (member_at kind op (texts words.now)) }
{
    let (class, rest) = word(alloc, words, WordKind::TypeName)?;
    let (name, rest) = word(alloc, rest, WordKind::MemberName)?;
    let (descriptor, rest) = word(alloc, rest, kind)?;
    end(rest)?;
    Ok(Operation::Member {
        op,
        class,
        name,
        descriptor,
    })
}

/// How many dimensions the array type of a descriptor has (JVMS 4.3.2).
fn dimensions(name: &[u8]) -> usize
    ensures { result ≡ dimensions name.now }
{
    name.iter().take_while(|byte| **byte == b'[').count()
}

/// A class. The elements of `anewarray` have at most 254 dimensions.
#[tactic(auto, unfolding(crate::specs::Operations::type_at))]
fn class_operand(alloc: Global, op: u8, words: &[&[u8]]) -> Result<Operation, LineFault>
    ensures { Gives result (type_at op (texts words.now)) }
{
    let (class, rest) = word(alloc, words, WordKind::TypeName)?;
    if op == ANEWARRAY && dimensions(class.as_slice()) >= 255 {
        return Err(LineFault::Form);
    }
    end(rest)?;
    Ok(Operation::Class { op, class })
}

/// An array type and how many of its dimensions are made, which is at least one.
#[tactic(auto, unfolding(crate::specs::Operations::dimensions_at))]
fn multi(alloc: Global, words: &[&[u8]]) -> Result<Operation, LineFault>
    ensures { Gives result (dimensions_at (texts words.now)) }
{
    let (class, rest) = word(alloc, words, WordKind::TypeName)?;
    let (dims, rest) = natural(rest, 255)?;
    if dims < 1 || dims > dimensions(class.as_slice()) as u64 {
        return Err(LineFault::Form);
    }
    end(rest)?;
    Ok(Operation::Multi {
        class,
        dims: dims as u8,
    })
}

/// What stands behind an opcode with an index of the constant pool.
#[tactic(auto, unfolding(crate::specs::Operations::pool_at))]
fn pool(alloc: Global, op: u8, words: &[&[u8]]) -> Result<Operation, LineFault>
    ensures { Gives result (pool_at op (texts words.now)) }
{
    match op {
        LDC_W => constant(alloc, op, words),
        LDC2_W => wide_constant(words),
        GETSTATIC..=PUTFIELD => member(alloc, op, words, WordKind::FieldDescriptor),
        INVOKEVIRTUAL..=INVOKESTATIC => member(alloc, op, words, WordKind::MethodDescriptor),
        _ => class_operand(alloc, op, words),
    }
}

#[tactic(auto, unfolding(crate::specs::Operations::branch_at))]
fn branch(alloc: Global, op: u8, words: &[&[u8]]) -> Result<Operation, LineFault>
    ensures { Gives result (branch_at op (texts words.now)) }
{
    let (to, rest) = word(alloc, words, WordKind::Label)?;
    end(rest)?;
    Ok(Operation::Branch { op, to })
}

/// `default` and a label.
#[tactic(auto, unfolding(crate::specs::Operations::default_at))]
fn default_label(alloc: Global, words: &[&[u8]]) -> Result<ByteString, LineFault>
    ensures { Gives result (default_at (texts words.now)) }
{
    let rest = keyword(words, b"default")?;
    let (label, rest) = word(alloc, rest, WordKind::Label)?;
    end(rest)?;
    Ok(label)
}

/// The words but for `default` and a label at their end, and that label.
#[tactic(auto, unfolding(crate::specs::Operations::cases_at))]
fn cases_and_default<'w, 'a>(
    alloc: Global,
    words: &'w [&'a [u8]],
) -> Result<(ByteString, &'w [&'a [u8]]), LineFault>
    ensures { GivesAs with_texts result (cases_at (texts words.now)) }
{
    if words.len() < 2 {
        return Err(LineFault::Form);
    }
    let (cases, last) = words.split_at(words.len() - 2);
    Ok((default_label(alloc, last)?, cases))
}

/// The labels of the keys from the lowest on: there is one, and the highest key is an int.
#[tactic(auto, unfolding(crate::specs::Operations::table_at))]
fn table(alloc: Global, words: &[&[u8]]) -> Result<Operation, LineFault>
    ensures { Gives result (table_at (texts words.now)) }
{
    let (low, rest) = signed(words, 0x7fff_ffff)?;
    let (default, cases) = cases_and_default(alloc, rest)?;
    if cases.is_empty() || i128::from(low) + cases.len() as i128 > 0x8000_0000 {
        return Err(LineFault::Form);
    }
    let labels = words_of(alloc, cases, WordKind::Label)?;
    Ok(Operation::TableSwitch {
        low: low as i32,
        labels,
        default,
    })
}

fn is_key_byte(byte: u8) -> bool
    ensures { result ≡ is_key_byte byte }
{
    byte != b':'
}

fn split_key(word: &[u8]) -> (&[u8], &[u8])
    ensures run { result.0.now ≡ run_of is_key_byte word.now }
    ensures behind { result.1.now ≡ behind_run is_key_byte word.now }
{
    let len = word
        .iter()
        .position(|byte| !is_key_byte(*byte))
        .unwrap_or(word.len());
    word.split_at(len)
}

/// `KEY:LABEL`.
#[tactic(auto, unfolding(crate::specs::Operations::case_of, crate::specs::Operations::label_behind))]
fn case_of(alloc: Global, word: &[u8]) -> Result<Case, LineFault>
    ensures { Gives result (case_of word.now) }
{
    let (key, rest) = split_key(word);
    let Some(key) = integer(0x7fff_ffff, key) else {
        return Err(LineFault::Form);
    };
    match rest {
        [b':', label @ ..] if WordKind::Label.fits(label) => Ok(Case {
            key: key as i32,
            label: ByteString::from_slice(alloc, label)?,
        }),
        _ => Err(LineFault::Form),
    }
}

/// Cases with rising keys.
fn cases(alloc: Global, words: &[&[u8]]) -> Result<Items<Case>, LineFault>
    ensures { Gives result (cases_above (negsuc (2 ^ 31)) (texts words.now)) }
{
    let mut found = Items::new(alloc);
    let mut last = i64::from(i32::MIN) - 1;
    for word in words {
        let case = case_of(alloc, word)?;
        if i64::from(case.key) <= last {
            return Err(LineFault::Form);
        }
        last = i64::from(case.key);
        found.push(case)?;
    }
    Ok(found)
}

#[tactic(auto, unfolding(crate::specs::Operations::lookup_at))]
fn lookup(alloc: Global, words: &[&[u8]]) -> Result<Operation, LineFault>
    ensures { Gives result (lookup_at (texts words.now)) }
{
    let (default, parts) = cases_and_default(alloc, words)?;
    Ok(Operation::LookupSwitch {
        cases: cases(alloc, parts)?,
        default,
    })
}

/// The operands of an opcode of the form.
fn by_form(alloc: Global, op: u8, form: Form, words: &[&[u8]]) -> Result<Operation, LineFault>
    ensures { Gives result (by_form op form (texts words.now)) }
{
    match form {
        Form::Plain => {
            end(words)?;
            Ok(Operation::Plain(op))
        }
        Form::Byte => byte(words),
        Form::Short => short(words),
        Form::Local => local(op, words),
        Form::Increment => increment(words),
        Form::NarrowPool => constant(alloc, op, words),
        Form::Pool => pool(alloc, op, words),
        Form::Interface => member(alloc, op, words, WordKind::MethodDescriptor),
        Form::ArrayCode => array_code(words),
        Form::Dimensions => multi(alloc, words),
        Form::Branch | Form::WideBranch => branch(alloc, op, words),
        Form::TableSwitch => table(alloc, words),
        Form::LookupSwitch => lookup(alloc, words),
        Form::Wide => Err(LineFault::Form),
    }
}

/// A mnemonic and its operands.
#[tactic(auto, unfolding(crate::specs::Operations::operation_at))]
pub(crate) fn operation(alloc: Global, words: &[&[u8]]) -> Result<Operation, LineFault>
    ensures { Gives result (operation_at (texts words.now)) }
{
    let [word, rest @ ..] = words else {
        return Err(LineFault::Form);
    };
    let Some(op) = op_named(word) else {
        return Err(LineFault::Form);
    };
    match form_of(op) {
        Some(form) => by_form(alloc, op, form, rest),
        None => Err(LineFault::Form),
    }
}
