//! The lines of events and of the ending of a run.

ghost use Rattle.std.specs.Prelude.{◌≡◌, ◌++◌, ◌∷◌, [], map, codes, IfOk, OnOk, Some, option_map, option_copied};
ghost use Rattle.class_machine.specs.Classes.{dotted, member_text};
ghost use Rattle.class_machine.specs.Numbers.{decimal};
ghost use Rattle.class_machine.specs.Lines.{fixed_digits, quoted, type_name, numbered_name, value_text, separated, event_text, result_text, message_text, ending_text};
ghost use Rattle.machine_values.specs.Types as types;
ghost use Rattle.machine_values.specs.Observed.{machine_shown, method_reference, machine_event, machine_ending};
ghost use Rattle.run_lines.specs.Printing.{event_line, ending_line, outcome_line, run_text};

use crate::printing::{
    put, put_digits, put_dotted, put_integer, put_number, put_quoted, put_type_name,
};
use aj_names::{Base, FieldType, InternalName, MethodName};
use machine_values::{Ending, Event, Shown};
use opcode_table::mnemonic;
use sqlite_items::Items;
use std::alloc::{AllocError, Global};

/// A type as a Class entry names it: a class by its name, an array type by its descriptor (JVMS 4.4.1).
fn entry_name(alloc: Global, named: &FieldType) -> Result<Vec<u8>, AllocError>
    ensures { IfOk result (λ name. name.items ≡ types.type_name named.now) }
{
    match &named.base {
        Base::Class(name) if named.dims == 0 => Vec::from_slice(alloc, name.as_slice()),
        _ => named.print(alloc),
    }
}

/// A `#` and the number of an object.
fn put_place(out: &mut Vec<u8>, number: u64) -> Result<(), AllocError>
    ensures { OnOk result (out.new.items ≡ numbered_name out.old.items number) }
{
    put(out, b"#")?;
    put_number(out, number)
}

fn put_object(out: &mut Vec<u8>, class: &InternalName, number: u64) -> Result<(), AllocError>
    ensures { OnOk result (out.new.items ≡ out.old.items ++ numbered_name (dotted class.now) number) }
{
    put_dotted(out, class.as_slice())?;
    put_place(out, number)
}

fn put_array(
    alloc: Global,
    out: &mut Vec<u8>,
    array: &FieldType,
    number: u64,
) -> Result<(), AllocError>
    ensures { OnOk result (out.new.items ≡ out.old.items ++ numbered_name (type_name (types.type_name array.now)) number) }
{
    let name = entry_name(alloc, array)?;
    put_type_name(out, name.as_slice())?;
    put_place(out, number)
}

fn put_class_object(alloc: Global, out: &mut Vec<u8>, class: &FieldType) -> Result<(), AllocError>
    ensures { OnOk result (out.new.items ≡ out.old.items ++ (codes "class " ++ dotted (types.type_name class.now))) }
{
    let name = entry_name(alloc, class)?;
    put(out, b"class ")?;
    put_dotted(out, name.as_slice())
}

/// A word and so many hexadecimal digits.
fn put_bits(out: &mut Vec<u8>, word: &[u8], count: u32, bits: u64) -> Result<(), AllocError>
    ensures { OnOk result (out.new.items ≡ out.old.items ++ (word.now ++ fixed_digits count bits)) }
{
    put(out, word)?;
    put_digits(out, count, bits)
}

/// A long has an `L` behind it.
fn put_long(out: &mut Vec<u8>, number: i64) -> Result<(), AllocError>
    ensures { OnOk result (out.new.items ≡ out.old.items ++ (decimal number ++ 76 ∷ [])) }
{
    put_integer(out, number)?;
    put(out, b"L")
}

fn put_value(alloc: Global, out: &mut Vec<u8>, value: &Shown) -> Result<(), AllocError>
    ensures { OnOk result (out.new.items ≡ out.old.items ++ value_text (machine_shown value.now)) }
{
    match value {
        Shown::Int(number) => put_integer(out, i64::from(*number)),
        Shown::Long(number) => put_long(out, *number),
        Shown::Float(bits) => put_bits(out, b"float:", 8, u64::from(*bits)),
        Shown::Double(bits) => put_bits(out, b"double:", 16, *bits),
        Shown::Null => put(out, b"null"),
        Shown::Text(units) => put_quoted(out, units.as_slice()),
        Shown::ClassObject(class) => put_class_object(alloc, out, class),
        Shown::Object(class, number) => put_object(out, class, *number),
        Shown::Array(array, number) => put_array(alloc, out, array, *number),
    }
}

/// Values with a comma and a blank between each two.
fn put_values(alloc: Global, out: &mut Vec<u8>, values: &[Shown]) -> Result<(), AllocError>
    ensures { OnOk result (out.new.items ≡ out.old.items ++ separated (map value_text (map machine_shown values.now))) }
{
    if let Some((first, others)) = values.split_first() {
        put_value(alloc, out, first)?;
        for value in others {
            put(out, b", ")?;
            put_value(alloc, out, value)?;
        }
    }
    Ok(())
}

/// A method by its dotted class and its name.
fn put_member(out: &mut Vec<u8>, method: &MethodName) -> Result<(), AllocError>
    ensures { OnOk result (out.new.items ≡ out.old.items ++ member_text (method_reference method.now)) }
{
    put_dotted(out, method.class.as_slice())?;
    put(out, b".")?;
    put(out, method.name.as_slice())
}

fn put_print(out: &mut Vec<u8>, units: &[u16]) -> Result<(), AllocError>
    ensures { OnOk result (out.new.items ≡ out.old.items ++ (codes "print " ++ quoted units.now)) }
{
    put(out, b"print ")?;
    put_quoted(out, units)
}

fn put_native(
    alloc: Global,
    out: &mut Vec<u8>,
    method: &MethodName,
    values: &[Shown],
) -> Result<(), AllocError>
    ensures { OnOk result (out.new.items ≡ out.old.items ++ event_text (machine_event (Event.Native method.now values.now))) }
{
    put(out, b"native ")?;
    put_member(out, method)?;
    put(out, b"(")?;
    put_values(alloc, out, values)?;
    put(out, b")")
}

fn put_event(alloc: Global, out: &mut Vec<u8>, event: &Event) -> Result<(), AllocError>
    ensures { OnOk result (out.new.items ≡ out.old.items ++ event_text (machine_event event.now)) }
{
    match event {
        Event::Print(units) => put_print(out, units.as_slice()),
        Event::Native(method, values) => put_native(alloc, out, method, values.as_slice()),
    }
}

/// An event, and the line feed that ends its line.
fn put_event_line(alloc: Global, out: &mut Vec<u8>, event: &Event) -> Result<(), AllocError>
    ensures { OnOk result (out.new.items ≡ out.old.items ++ event_line event.now) }
{
    put_event(alloc, out, event)?;
    put(out, b"\n")
}

/// The line of an event: `print` and the text in quotes, or `native`, the method by its dotted class
/// and its name, and the values in brackets.
pub fn event_line(alloc: Global, event: &Event) -> Result<Vec<u8>, AllocError>
    ensures { IfOk result (λ line. line.items ≡ event_line event.now) }
{
    let mut line = Vec::new(alloc);
    put_event_line(alloc, &mut line, event)?;
    Ok(line)
}

/// `returned`, and the value or `void`.
fn put_returned(alloc: Global, out: &mut Vec<u8>, value: &Option<Shown>) -> Result<(), AllocError>
    ensures { OnOk result (out.new.items ≡ out.old.items ++ (codes "returned " ++ result_text (option_map machine_shown value.now))) }
{
    put(out, b"returned ")?;
    match value {
        None => put(out, b"void"),
        Some(value) => put_value(alloc, out, value),
    }
}

/// `uncaught`, the dotted class, and the message in quotes or `null`.
fn put_uncaught(
    out: &mut Vec<u8>,
    class: &InternalName,
    message: &Option<Items<u16>>,
) -> Result<(), AllocError>
    ensures { OnOk result (out.new.items ≡ out.old.items ++ ending_text (machine_ending (Ending.Uncaught class.now message.now))) }
{
    put(out, b"uncaught ")?;
    put_dotted(out, class.as_slice())?;
    put(out, b" ")?;
    match message {
        None => put(out, b"null"),
        Some(units) => put_quoted(out, units.as_slice()),
    }
}

fn put_init_failed(out: &mut Vec<u8>, class: &InternalName) -> Result<(), AllocError>
    ensures { OnOk result (out.new.items ≡ out.old.items ++ (codes "init-failed " ++ dotted class.now)) }
{
    put(out, b"init-failed ")?;
    put_dotted(out, class.as_slice())
}

fn put_exit(out: &mut Vec<u8>, status: i32) -> Result<(), AllocError>
    ensures { OnOk result (out.new.items ≡ out.old.items ++ (codes "exit " ++ decimal status)) }
{
    put(out, b"exit ")?;
    put_integer(out, i64::from(status))
}

/// Two words.
fn put_two(out: &mut Vec<u8>, first: &[u8], second: &[u8]) -> Result<(), AllocError>
    ensures { OnOk result (out.new.items ≡ out.old.items ++ (first.now ++ second.now)) }
{
    put(out, first)?;
    put(out, second)
}

fn put_ending(alloc: Global, out: &mut Vec<u8>, ending: &Ending) -> Result<(), AllocError>
    ensures { OnOk result (out.new.items ≡ out.old.items ++ ending_text (machine_ending ending.now)) }
{
    match ending {
        Ending::Returned(value) => put_returned(alloc, out, value),
        Ending::Uncaught(class, message) => put_uncaught(out, class, message),
        Ending::InitFailed(class) => put_init_failed(out, class),
        Ending::Exit(status) => put_exit(out, *status),
        Ending::Unmodelled(op) => put_two(out, b"unmodelled ", mnemonic(*op).as_bytes()),
        Ending::Unresolved(name) => put_two(out, b"unresolved ", name.as_slice()),
        Ending::ScriptEnds => put(out, b"script-ends"),
        Ending::Broken => put(out, b"broken"),
    }
}

/// The line of an ending: `returned` and the value or `void`; `uncaught` with the dotted class and the
/// message or `null`; `init-failed` with the class; `exit` and the status; `unmodelled` and the
/// mnemonic; `unresolved` and the name; `script-ends`; or `broken`.
pub fn ending_line(alloc: Global, ending: &Ending) -> Result<Vec<u8>, AllocError>
    ensures { IfOk result (λ line. line.items ≡ ending_line ending.now) }
{
    let mut line = Vec::new(alloc);
    put_ending(alloc, &mut line, ending)?;
    line.push(b'\n')?;
    Ok(line)
}

/// The last line that a run prints: that of its ending, or `steps-spent` where it has none.
pub fn outcome_line(alloc: Global, ending: &Option<Ending>) -> Result<Vec<u8>, AllocError>
    ensures { IfOk result (λ line. line.items ≡ outcome_line ending.now) }
{
    match ending {
        None => Vec::from_slice(alloc, b"steps-spent\n"),
        Some(ending) => ending_line(alloc, ending),
    }
}

/// All that is printed of a run: the lines of its events, and the line of its ending or `steps-spent`.
pub fn run_text(
    alloc: Global,
    events: &[Event],
    ending: &Option<Ending>,
) -> Result<Vec<u8>, AllocError>
    ensures { IfOk result (λ text. text.items ≡ run_text events.now ending.now) }
{
    let mut text = Vec::new(alloc);
    for event in events {
        put_event_line(alloc, &mut text, event)?;
    }
    let outcome = outcome_line(alloc, ending)?;
    put(&mut text, outcome.as_slice())?;
    Ok(text)
}
