//! A class, from its lines (JVMS 4.1).

ghost use Rattle.std.specs.Prelude.{◌≡◌};
ghost use Rattle.class_text.specs.Gives.{Gives, Leaves};
ghost use Rattle.class_text.specs.Making as rule;

use crate::fault::TextFault;
use crate::members::{fields, methods};
use crate::numbered::Numbered;
use crate::pool::class_index;
use aj_names::ByteString;
use class_file::{AccessFlags, ClassFile};
use class_lines::Line;
use constant_pool::PoolEdit;
use sqlite_items::Items;
use std::alloc::Global;

/// The most interfaces of a class.
const MOST_INTERFACES: usize = 65_535;

/// The indices of the interfaces of a class.
fn interfaces(
    alloc: Global,
    pool: &mut PoolEdit,
    line: usize,
    names: &[ByteString],
) -> Result<Items<u16>, TextFault>
    ensures { Leaves pool.new result (rule.all_interfaces_made line names.now pool.old) }
{
    if names.len() > MOST_INTERFACES {
        return Err(TextFault::Line(line));
    }
    let mut found = Items::new(alloc);
    for name in names {
        found.push(class_index(alloc, pool, line, name)?)?;
    }
    Ok(found)
}

/// What the line of a class says.
#[derive(Clone, Copy)]
struct ClassHead<'a> {
    line: usize,
    name: &'a ByteString,
    super_name: &'a ByteString,
    version: u16,
    flags: u16,
    interfaces: &'a [ByteString],
}

fn class_of_head(
    alloc: Global,
    head: &ClassHead<'_>,
    lines: &[Numbered],
) -> Result<ClassFile, TextFault>
    ensures { Gives result (rule.class_file_made head.now.line head.now.name.now head.now.super_name.now head.now.version head.now.flags head.now.interfaces.now lines.now) }
{
    let mut pool = PoolEdit::new(alloc, &[])?;
    let this_class = class_index(alloc, &mut pool, head.line, head.name)?;
    let super_class = class_index(alloc, &mut pool, head.line, head.super_name)?;
    let interfaces = interfaces(alloc, &mut pool, head.line, head.interfaces)?;
    let fields = fields(alloc, &mut pool, lines)?;
    let methods = methods(alloc, &mut pool, head.version, lines)?;
    Ok(ClassFile {
        minor: 0,
        major: head.version,
        pool: pool.finish(),
        flags: AccessFlags(head.flags),
        this_class,
        super_class,
        interfaces,
        fields,
        methods,
        attributes: Items::new(alloc),
    })
}

/// The class of some lines, of which this is the first; else the fault is at the given line.
fn class_of_first(
    alloc: Global,
    fault: usize,
    first: &Numbered,
    behind: &[Numbered],
) -> Result<ClassFile, TextFault>
    ensures { Gives result (rule.first_made fault first.now.number first.now.line behind.now) }
{
    match &first.line {
        Some(
            Line::Class {
                name,
                super_name,
                version,
                flags,
                interfaces,
            },
        ) => {
            let head = ClassHead {
                line: first.number,
                name,
                super_name,
                version: *version,
                flags: *flags,
                interfaces: interfaces.as_slice(),
            };
            class_of_head(alloc, &head, behind)
        }
        _ => Err(TextFault::Line(fault)),
    }
}

/// The class of some lines, of which the first is the class's own; else the fault is at the given line.
pub(crate) fn class_of(
    alloc: Global,
    fault: usize,
    lines: &[Numbered],
) -> Result<ClassFile, TextFault>
    ensures { Gives result (rule.class_made_of fault lines.now) }
{
    match lines {
        [first, behind @ ..] => class_of_first(alloc, fault, first, behind),
        [] => Err(TextFault::Line(fault)),
    }
}
