//! Fields and methods, from their lines (JVMS 4.5 to 4.7.3).

ghost use Rattle.std.specs.Prelude.{◌≡◌, length};
ghost use Rattle.class_text.specs.Gives.{Leaves, Puts, Adds};
ghost use Rattle.class_text.specs.Making as rule;

use crate::bytes::put_operation;
use crate::fault::TextFault;
use crate::labels::{is_end, place_behind, place_of};
use crate::numbered::Numbered;
use crate::pool::{class_index, index_of, text_index};
use aj_names::ByteString;
use class_file::{AccessFlags, Attribute, CodeAttr, Content, ExceptionEntry, Member};
use class_lines::{Line, MemberHead};
use constant_pool::PoolEdit;
use sqlite_items::Items;
use std::alloc::Global;

/// The most members of a kind, and the most entries of an exception table.
const MOST: usize = 65_535;

/// Adds the bytes of the instruction of a line at a place, if it has one.
fn put_step(
    alloc: Global,
    pool: &mut PoolEdit,
    version: u16,
    out: &mut Vec<u8>,
    body: &[Numbered],
    pc: u32,
    line: &Numbered,
) -> Result<(), TextFault>
    ensures { Puts pool.new out.old.items out.new.items result (rule.step_made version body.now pc line.now.number line.now.line pool.old) }
{
    if let Some(Line::Step { operation, .. }) = &line.line {
        let index = index_of(alloc, pool, version, line.number, operation)?;
        put_operation(out, body, pc, index, operation)?;
    }
    Ok(())
}

/// The code of the lines of a method.
fn code_bytes(
    alloc: Global,
    pool: &mut PoolEdit,
    version: u16,
    body: &[Numbered],
) -> Result<Items<u8>, TextFault>
    ensures { Leaves pool.new result (rule.steps_made version body.now 0 body.now pool.old) }
{
    let mut out = Vec::new(alloc);
    let mut pc = 0;
    let mut rest = body;
    while let [line, behind @ ..] = rest {
        if is_end(&line.line) {
            break;
        }
        put_step(alloc, pool, version, &mut out, body, pc, line)?;
        pc = place_behind(pc, &line.line);
        rest = behind;
    }
    Ok(Items::from_vec(out))
}

/// A place in two bytes, or 0 where it isn't there.
fn place_index(place: Option<u32>) -> u16
    ensures { result ≡ rule.place_index place }
{
    match place {
        Some(place) if place <= 65_535 => place as u16,
        _ => 0,
    }
}

fn at_label(body: &[Numbered], name: &ByteString) -> u16
    ensures { result ≡ rule.at_label body.now name.now }
{
    place_index(place_of(name.as_slice(), body))
}

/// The index of the class that is caught, or 0 for any.
fn caught_index(
    alloc: Global,
    pool: &mut PoolEdit,
    line: usize,
    class: &Option<ByteString>,
) -> Result<u16, TextFault>
    ensures { Leaves pool.new result (rule.caught_made line class.now pool.old) }
{
    match class {
        Some(class) => class_index(alloc, pool, line, class),
        None => Ok(0),
    }
}

/// The entry of a line, if it has one.
fn entry(
    alloc: Global,
    pool: &mut PoolEdit,
    body: &[Numbered],
    line: &Numbered,
) -> Result<Option<ExceptionEntry>, TextFault>
    ensures { Leaves pool.new result (rule.entry_made body.now line.now.number line.now.line pool.old) }
{
    match &line.line {
        Some(
            Line::Catch {
                from,
                to,
                handler,
                class,
            },
        ) => {
            let catch_type = caught_index(alloc, pool, line.number, class)?;
            Ok(Some(ExceptionEntry {
                start: at_label(body, from),
                end: at_label(body, to),
                handler: at_label(body, handler),
                catch_type,
            }))
        }
        _ => Ok(None),
    }
}

/// Adds one more of a line, if there is one and two bytes can count them.
fn add<T: Drop>(found: &mut Items<T>, line: usize, more: Option<T>) -> Result<(), TextFault>
    ensures { Adds (rule.has_room (length found.old) more) line more found.old found.new result }
{
    let Some(more) = more else {
        return Ok(());
    };
    if found.len() >= MOST {
        return Err(TextFault::Line(line));
    }
    found.push(more)?;
    Ok(())
}

/// The exception table of the lines of a method.
fn entries(
    alloc: Global,
    pool: &mut PoolEdit,
    body: &[Numbered],
) -> Result<Items<ExceptionEntry>, TextFault>
    ensures { Leaves pool.new result (rule.entries_made body.now 0 body.now pool.old) }
{
    let mut found = Items::new(alloc);
    let mut rest = body;
    while let [line, behind @ ..] = rest {
        if is_end(&line.line) {
            break;
        }
        let entry = entry(alloc, pool, body, line)?;
        add(&mut found, line.number, entry)?;
        rest = behind;
    }
    Ok(found)
}

/// The indices of a member's name and descriptor.
fn head_indices(
    pool: &mut PoolEdit,
    line: usize,
    head: &MemberHead,
) -> Result<(u16, u16), TextFault>
    ensures { Leaves pool.new result (rule.head_made line head.now pool.old) }
{
    let name = text_index(pool, line, head.name.as_slice())?;
    let descriptor = text_index(pool, line, head.descriptor.as_slice())?;
    Ok((name, descriptor))
}

/// A field, or a method without code.
fn bare_member(
    alloc: Global,
    pool: &mut PoolEdit,
    line: usize,
    head: &MemberHead,
) -> Result<Member, TextFault>
    ensures { Leaves pool.new result (rule.bare_made line head.now pool.old) }
{
    let (name, descriptor) = head_indices(pool, line, head)?;
    Ok(Member {
        flags: AccessFlags(head.flags),
        name,
        descriptor,
        attributes: Items::new(alloc),
    })
}

/// The attributes of a method with code.
fn code_attributes(
    alloc: Global,
    pool: &mut PoolEdit,
    version: u16,
    line: usize,
    sizes: (u16, u16),
    body: &[Numbered],
) -> Result<Items<Attribute>, TextFault>
    ensures { Leaves pool.new result (rule.code_made version sizes.0 sizes.1 body.now line pool.old) }
{
    let name = text_index(pool, line, b"Code")?;
    let code = code_bytes(alloc, pool, version, body)?;
    let entries = entries(alloc, pool, body)?;
    let mut attributes = Items::new(alloc);
    attributes.push(Attribute {
        name,
        content: Content::Code(CodeAttr {
            max_stack: sizes.0,
            max_locals: sizes.1,
            code,
            entries,
            attributes: Items::new(alloc),
        }),
    })?;
    Ok(attributes)
}

/// A method with code, whose lines stand behind its own.
fn coded_method(
    alloc: Global,
    pool: &mut PoolEdit,
    version: u16,
    line: usize,
    head: &MemberHead,
    sizes: (u16, u16),
    body: &[Numbered],
) -> Result<Member, TextFault>
    ensures { Leaves pool.new result (rule.method_made version body.now line head.now sizes.0 sizes.1 pool.old) }
{
    let (name, descriptor) = head_indices(pool, line, head)?;
    let attributes = code_attributes(alloc, pool, version, line, sizes, body)?;
    Ok(Member {
        flags: AccessFlags(head.flags),
        name,
        descriptor,
        attributes,
    })
}

/// The field of a line, if it has one.
fn field(alloc: Global, pool: &mut PoolEdit, line: &Numbered) -> Result<Option<Member>, TextFault>
    ensures { Leaves pool.new result (rule.field_made line.now.number line.now.line pool.old) }
{
    match &line.line {
        Some(Line::Field(head)) => Ok(Some(bare_member(alloc, pool, line.number, head)?)),
        _ => Ok(None),
    }
}

/// The method of a line, if it has one, with the lines behind it.
fn method(
    alloc: Global,
    pool: &mut PoolEdit,
    version: u16,
    line: &Numbered,
    behind: &[Numbered],
) -> Result<Option<Member>, TextFault>
    ensures { Leaves pool.new result (rule.any_method_made version behind.now line.now.number line.now.line pool.old) }
{
    match &line.line {
        Some(
            Line::Method {
                head,
                stack,
                locals,
            },
        ) => {
            let sizes = (*stack, *locals);
            let method = coded_method(alloc, pool, version, line.number, head, sizes, behind)?;
            Ok(Some(method))
        }
        Some(Line::Bare(head)) => Ok(Some(bare_member(alloc, pool, line.number, head)?)),
        _ => Ok(None),
    }
}

/// The fields of some lines.
pub(crate) fn fields(
    alloc: Global,
    pool: &mut PoolEdit,
    lines: &[Numbered],
) -> Result<Items<Member>, TextFault>
    ensures { Leaves pool.new result (rule.fields_made 0 lines.now pool.old) }
{
    let mut found = Items::new(alloc);
    let mut rest = lines;
    while let [line, behind @ ..] = rest {
        let field = field(alloc, pool, line)?;
        add(&mut found, line.number, field)?;
        rest = behind;
    }
    Ok(found)
}

/// The methods of some lines.
pub(crate) fn methods(
    alloc: Global,
    pool: &mut PoolEdit,
    version: u16,
    lines: &[Numbered],
) -> Result<Items<Member>, TextFault>
    ensures { Leaves pool.new result (rule.methods_made version 0 lines.now pool.old) }
{
    let mut found = Items::new(alloc);
    let mut rest = lines;
    while let [line, behind @ ..] = rest {
        let method = method(alloc, pool, version, line, behind)?;
        add(&mut found, line.number, method)?;
        rest = behind;
    }
    Ok(found)
}
