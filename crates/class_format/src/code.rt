//! Reading the code of a method (JVMS 4.7.3).

ghost use Rattle.std.specs.Prelude.{◌≡◌};
ghost use Rattle.class_format.specs.Gives.{GivesBy};
ghost use Rattle.class_format.specs.Readers.{listed, content_bytes};
ghost use Rattle.class_format.specs.Kinds.{code_kind_of};
ghost use Rattle.class_format.specs.PartReading.{code_kind_at, in_code, code_attribute, code};

use crate::fault::ClassFault;
use crate::kinds::{HeldInCode, held_in_code};
use crate::known::{Known, Role, index_at};
use crate::numbers::{content_at, long_bytes_at, u2_at};
use crate::scope::Scope;
use crate::tables::{exceptions_at, lines_at, variables_at};
use class_file::{CodeAttr, CodeAttribute, CodeContent, text_at};
use sqlite_items::Items;
use std::alloc::Global;

/// What the format has an attribute of a Code hold, by the index of its name.
fn held_by(known: &Known<'_>, name: u16) -> HeldInCode
    ensures { code_kind_of result ≡ code_kind_at known.now.pool.now name }
{
    match text_at(known.pool, name) {
        Some(text) => held_in_code(text),
        None => HeldInCode::Other,
    }
}

#[tactic(auto, unfolding(crate::specs::PartReading::in_code))]
fn in_code_at<'a>(
    alloc: Global,
    known: &Known<'_>,
    held: HeldInCode,
    scope: Scope,
    bytes: &'a [u8],
) -> Result<(CodeContent, &'a [u8]), ClassFault>
    ensures { GivesBy (λ x. (x.0, x.1.now)) result (in_code known.now.pool.now (code_kind_of held) scope bytes.now) }
{
    match held {
        HeldInCode::Lines => {
            let (rows, rest) = lines_at(alloc, scope, bytes)?;
            Ok((CodeContent::LineNumberTable(rows), rest))
        }
        HeldInCode::Variables => {
            let (rows, rest) = variables_at(alloc, known, Role::FieldType, scope, bytes)?;
            Ok((CodeContent::LocalVariableTable(rows), rest))
        }
        HeldInCode::VariableTypes => {
            let (rows, rest) = variables_at(alloc, known, Role::Text, scope, bytes)?;
            Ok((CodeContent::LocalVariableTypeTable(rows), rest))
        }
        HeldInCode::Other => {
            let (all, rest) = bytes.split_at(bytes.len());
            Ok((CodeContent::Other(Items::from_slice(alloc, all)?), rest))
        }
    }
}

#[tactic(auto, unfolding(crate::specs::PartReading::code_attribute))]
fn code_attribute_at<'a>(
    alloc: Global,
    known: &Known<'_>,
    scope: Scope,
    bytes: &'a [u8],
) -> Result<(CodeAttribute, &'a [u8]), ClassFault>
    ensures { GivesBy (λ x. (x.0, x.1.now)) result (code_attribute known.now.pool.now scope bytes.now) }
{
    let (name, rest) = index_at(known, Role::Text, scope, bytes)?;
    let ((inner, held), rest) = content_at(scope, rest)?;
    let (content, left) = in_code_at(alloc, known, held_by(known, name), inner, held)?;
    if !left.is_empty() {
        return Err(inner.cut);
    }
    Ok((CodeAttribute { name, content }, rest))
}

fn code_attributes_at<'a>(
    alloc: Global,
    known: &Known<'_>,
    scope: Scope,
    bytes: &'a [u8],
) -> Result<(Items<CodeAttribute>, &'a [u8]), ClassFault>
    ensures { GivesBy (λ x. (x.0, x.1.now)) result (listed (code_attribute known.now.pool.now) scope bytes.now) }
{
    let (count, mut rest) = u2_at(scope, bytes)?;
    let mut attributes = Items::new(alloc);
    for _ in 0..count {
        let (attribute, after) = code_attribute_at(alloc, known, scope, rest)?;
        attributes.push(attribute)?;
        rest = after;
    }
    Ok((attributes, rest))
}

/// The content of a Code attribute.
#[tactic(auto, unfolding(crate::specs::PartReading::code))]
pub(crate) fn code_at<'a>(
    alloc: Global,
    known: &Known<'_>,
    scope: Scope,
    bytes: &'a [u8],
) -> Result<(CodeAttr, &'a [u8]), ClassFault>
    ensures { GivesBy (λ x. (x.0, x.1.now)) result (code known.now.pool.now scope bytes.now) }
{
    let (max_stack, rest) = u2_at(scope, bytes)?;
    let (max_locals, rest) = u2_at(scope, rest)?;
    let (code, rest) = long_bytes_at(scope, rest)?;
    let (entries, rest) = exceptions_at(alloc, known, scope, rest)?;
    let (attributes, rest) = code_attributes_at(alloc, known, scope, rest)?;
    let code = CodeAttr {
        max_stack,
        max_locals,
        code: Items::from_slice(alloc, code)?,
        entries,
        attributes,
    };
    Ok((code, rest))
}
