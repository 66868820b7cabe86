//! Reading the tables of attributes (JVMS 4.7).

ghost use Rattle.std.specs.Prelude.{◌≡◌};
ghost use Rattle.class_format.specs.Gives.{GivesBy};
ghost use Rattle.class_format.specs.Readers.{listed, index_that};
ghost use Rattle.class_format.specs.Roles.{serves};
ghost use Rattle.class_file.specs.WellFormed.{is_class_index};
ghost use Rattle.class_format.specs.PartReading.{exception, inner_class, line, variable};

use crate::fault::ClassFault;
use crate::known::{Known, Role, index_at};
use crate::numbers::u2_at;
use crate::scope::Scope;
use class_file::{AccessFlags, ExceptionEntry, InnerClass, LineRow, VariableRow};
use sqlite_items::Items;
use std::alloc::Global;

/// Indices of classes.
pub(crate) fn classes_at<'a>(
    alloc: Global,
    known: &Known<'_>,
    scope: Scope,
    bytes: &'a [u8],
) -> Result<(Items<u16>, &'a [u8]), ClassFault>
    ensures { GivesBy (λ x. (x.0, x.1.now)) result (listed (index_that (is_class_index known.now.pool.now)) scope bytes.now) }
{
    let (count, mut rest) = u2_at(scope, bytes)?;
    let mut classes = Items::new(alloc);
    for _ in 0..count {
        let (class, after) = index_at(known, Role::Class, scope, rest)?;
        classes.push(class)?;
        rest = after;
    }
    Ok((classes, rest))
}

#[tactic(auto, unfolding(crate::specs::PartReading::exception))]
fn exception_at<'a>(
    known: &Known<'_>,
    scope: Scope,
    bytes: &'a [u8],
) -> Result<(ExceptionEntry, &'a [u8]), ClassFault>
    ensures { GivesBy (λ x. (x.0, x.1.now)) result (exception known.now.pool.now scope bytes.now) }
{
    let (start, rest) = u2_at(scope, bytes)?;
    let (end, rest) = u2_at(scope, rest)?;
    let (handler, rest) = u2_at(scope, rest)?;
    let (catch_type, rest) = index_at(known, Role::ClassOrNone, scope, rest)?;
    let entry = ExceptionEntry {
        start,
        end,
        handler,
        catch_type,
    };
    Ok((entry, rest))
}

/// An exception table (JVMS 4.7.3).
pub(crate) fn exceptions_at<'a>(
    alloc: Global,
    known: &Known<'_>,
    scope: Scope,
    bytes: &'a [u8],
) -> Result<(Items<ExceptionEntry>, &'a [u8]), ClassFault>
    ensures { GivesBy (λ x. (x.0, x.1.now)) result (listed (exception known.now.pool.now) scope bytes.now) }
{
    let (count, mut rest) = u2_at(scope, bytes)?;
    let mut entries = Items::new(alloc);
    for _ in 0..count {
        let (entry, after) = exception_at(known, scope, rest)?;
        entries.push(entry)?;
        rest = after;
    }
    Ok((entries, rest))
}

#[tactic(auto, unfolding(crate::specs::PartReading::inner_class))]
fn inner_class_at<'a>(
    known: &Known<'_>,
    scope: Scope,
    bytes: &'a [u8],
) -> Result<(InnerClass, &'a [u8]), ClassFault>
    ensures { GivesBy (λ x. (x.0, x.1.now)) result (inner_class known.now.pool.now scope bytes.now) }
{
    let (inner, rest) = index_at(known, Role::Class, scope, bytes)?;
    let (outer, rest) = index_at(known, Role::ClassOrNone, scope, rest)?;
    let (name, rest) = index_at(known, Role::NameOrNone, scope, rest)?;
    let (flags, rest) = u2_at(scope, rest)?;
    let class = InnerClass {
        inner,
        outer,
        name,
        flags: AccessFlags(flags),
    };
    Ok((class, rest))
}

/// The rows of an InnerClasses (JVMS 4.7.5).
pub(crate) fn inner_classes_at<'a>(
    alloc: Global,
    known: &Known<'_>,
    scope: Scope,
    bytes: &'a [u8],
) -> Result<(Items<InnerClass>, &'a [u8]), ClassFault>
    ensures { GivesBy (λ x. (x.0, x.1.now)) result (listed (inner_class known.now.pool.now) scope bytes.now) }
{
    let (count, mut rest) = u2_at(scope, bytes)?;
    let mut classes = Items::new(alloc);
    for _ in 0..count {
        let (class, after) = inner_class_at(known, scope, rest)?;
        classes.push(class)?;
        rest = after;
    }
    Ok((classes, rest))
}

#[tactic(auto, unfolding(crate::specs::PartReading::line))]
fn line_at(scope: Scope, bytes: &[u8]) -> Result<(LineRow, &[u8]), ClassFault>
    ensures { GivesBy (λ x. (x.0, x.1.now)) result (line scope bytes.now) }
{
    let (start, rest) = u2_at(scope, bytes)?;
    let (line, rest) = u2_at(scope, rest)?;
    Ok((LineRow { start, line }, rest))
}

/// The rows of a LineNumberTable (JVMS 4.7.8).
pub(crate) fn lines_at(
    alloc: Global,
    scope: Scope,
    bytes: &[u8],
) -> Result<(Items<LineRow>, &[u8]), ClassFault>
    ensures { GivesBy (λ x. (x.0, x.1.now)) result (listed line scope bytes.now) }
{
    let (count, mut rest) = u2_at(scope, bytes)?;
    let mut rows = Items::new(alloc);
    for _ in 0..count {
        let (row, after) = line_at(scope, rest)?;
        rows.push(row)?;
        rest = after;
    }
    Ok((rows, rest))
}

/// A local variable, whose type is of this role.
#[tactic(auto, unfolding(crate::specs::PartReading::variable))]
fn variable_at<'a>(
    known: &Known<'_>,
    role: Role,
    scope: Scope,
    bytes: &'a [u8],
) -> Result<(VariableRow, &'a [u8]), ClassFault>
    ensures { GivesBy (λ x. (x.0, x.1.now)) result (variable (serves known.now.pool.now role) known.now.pool.now scope bytes.now) }
{
    let (start, rest) = u2_at(scope, bytes)?;
    let (length, rest) = u2_at(scope, rest)?;
    let (name, rest) = index_at(known, Role::Name, scope, rest)?;
    let (descriptor, rest) = index_at(known, role, scope, rest)?;
    let (index, rest) = u2_at(scope, rest)?;
    let row = VariableRow {
        start,
        length,
        name,
        descriptor,
        index,
    };
    Ok((row, rest))
}

/// The rows of a LocalVariableTable (JVMS 4.7.9), or those of a LocalVariableTypeTable.
pub(crate) fn variables_at<'a>(
    alloc: Global,
    known: &Known<'_>,
    role: Role,
    scope: Scope,
    bytes: &'a [u8],
) -> Result<(Items<VariableRow>, &'a [u8]), ClassFault>
    ensures { GivesBy (λ x. (x.0, x.1.now)) result (listed (variable (serves known.now.pool.now role) known.now.pool.now) scope bytes.now) }
{
    let (count, mut rest) = u2_at(scope, bytes)?;
    let mut rows = Items::new(alloc);
    for _ in 0..count {
        let (row, after) = variable_at(known, role, scope, rest)?;
        rows.push(row)?;
        rest = after;
    }
    Ok((rows, rest))
}
