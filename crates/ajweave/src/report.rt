//! What is printed: the usage line, and the line of a refusal.
ghost use Rattle.std.specs.Prelude.{◌≡◌, ◌≢◌, ◌==◌, if◌then◌else◌, IfOk};
ghost use Rattle.aj_names.specs.Hierarchy.{dotted};
ghost use Rattle.aj_outside.specs.Counts.{ComesWithRise};
ghost use Rattle.ajweave.specs.Words.{usage_line, refusal_line, refusal_words, world_words, refused_name, class_text};
ghost use Rattle.std.specs.Option.{option_map};
ghost use Rattle.machine_values.specs.Observed.{machine_ending};
ghost use Rattle.ajweave.specs.Answers.{PrintsFor};
ghost use Rattle.ajweave.specs.Runs.{answer_of_ending, seen_text};
ghost use Rattle.ajweave.specs.Steps.{Reports, ReportsRun, ReportsStop, seen_of};

use crate::status::{Refusal, Status};
use crate::stop::Stop;
use aj_names::InternalName;
use aj_outside::{Name, Sink, SinkFault};
use class_format::ClassFault;
use class_world::WorldFault;
use machine_values::Ending;
use run_driver::Report;
use run_lines::run_text;
use std::alloc::{AllocError, Global};
use std::fmt;
use weave_plan::utf8_of;

const USAGE: &str =
    "usage: ajweave weave IN OUT | check IN | shadows IN | run IN ENTRY STEPS [SCRIPT] | sample SEED CLASSES\n";

/// The answer where the words are no command: prints the usage line.
pub(crate) fn usage<O: Sink>(out: &mut O) -> Status
    ensures printed { PrintsFor Status.Usage usage_line result (O.written out.old) (O.written out.new) }
    ensures failed { ComesWithRise (result ≡ Status.PrintFault) (O.faults out.old) (O.faults out.new) }
{
    printed(out, USAGE.as_bytes(), Status::Usage)
}

/// The answer to how a command ended: prints the line of a refusal.
pub(crate) fn report<O: Sink>(alloc: Global, ended: Result<(), Stop>, out: &mut O) -> Status
    ensures reported { Reports ended result (O.written out.old) (O.written out.new) }
    ensures failed { ComesWithRise (result ≡ Status.PrintFault) (O.faults out.old) (O.faults out.new) }
{
    match ended {
        Ok(()) => Status::Done,
        Err(fault) => stopped(alloc, fault, out),
    }
}

/// The answer to how a run ended: prints its events and its ending, or the line of a refusal.
pub(crate) fn report_run<O: Sink>(alloc: Global, ended: Result<Report, Stop>, out: &mut O) -> Status
    ensures reported { ReportsRun ended result (O.written out.old) (O.written out.new) }
    ensures failed { ComesWithRise (result ≡ Status.PrintFault) (O.faults out.old) (O.faults out.new) }
{
    match ended {
        Ok(seen) => tell(alloc, &seen, out),
        Err(fault) => stopped(alloc, fault, out),
    }
}

/// The answer to why a command stopped: prints the line of a refusal.
fn stopped<O: Sink>(alloc: Global, fault: Stop, out: &mut O) -> Status
    ensures reported { ReportsStop fault result (O.written out.old) (O.written out.new) }
    ensures failed { ComesWithRise (result ≡ Status.PrintFault) (O.faults out.old) (O.faults out.new) }
{
    match fault {
        Stop::Read => Status::ReadFault,
        Stop::Write => Status::WriteFault,
        Stop::Memory => Status::OutOfMemory,
        Stop::Refused(refusal) => refuse(alloc, refusal, out),
    }
}

/// Prints what was observed of a run.
fn tell<O: Sink>(alloc: Global, seen: &Report, out: &mut O) -> Status
    ensures printed { PrintsFor (answer_of_ending (option_map machine_ending seen.now.ending)) (seen_text (seen_of seen.now)) result (O.written out.old) (O.written out.new) }
    ensures failed { ComesWithRise (result ≡ Status.PrintFault) (O.faults out.old) (O.faults out.new) }
{
    match run_text(alloc, seen.events.as_slice(), &seen.ending) {
        Ok(text) => printed(out, text.as_slice(), answer_of_ending(&seen.ending)),
        Err(_) => Status::OutOfMemory,
    }
}

/// The answer by how a run ended.
fn answer_of_ending(ending: &Option<Ending>) -> Status
    ensures { result ≡ answer_of_ending (option_map machine_ending ending.now) }
{
    match ending {
        None => Status::StepsSpent,
        Some(Ending::Returned(_)) => Status::Returned,
        Some(Ending::Uncaught(_, _)) => Status::Uncaught,
        Some(Ending::InitFailed(_)) => Status::InitFailed,
        Some(Ending::Exit(_)) => Status::Exit,
        Some(Ending::Unmodelled(_)) => Status::Unmodelled,
        Some(Ending::Unresolved(_)) => Status::Unresolved,
        Some(Ending::Broken) => Status::Broken,
        Some(Ending::ScriptEnds) => Status::ScriptEnds,
    }
}

/// Prints the line of a refusal.
fn refuse<O: Sink>(alloc: Global, refusal: Refusal, out: &mut O) -> Status
    ensures printed { PrintsFor (Status.Refused refusal) (refusal_line refusal) result (O.written out.old) (O.written out.new) }
    ensures failed { ComesWithRise (result ≡ Status.PrintFault) (O.faults out.old) (O.faults out.new) }
{
    match refusal_line(alloc, &refusal) {
        Ok(line) => printed(out, line.as_slice(), Status::Refused(refusal)),
        Err(_) => Status::OutOfMemory,
    }
}

/// The answer, once the text is printed.
fn printed<O: Sink>(out: &mut O, text: &[u8], answer: Status) -> Status
    requires other { answer ≢ Status.PrintFault }
    ensures printed { PrintsFor answer text.now result (O.written out.old) (O.written out.new) }
    ensures failed { ComesWithRise (result ≡ Status.PrintFault) (O.faults out.old) (O.faults out.new) }
{
    match out.put(text) {
        Ok(()) => answer,
        Err(SinkFault::Failed) => Status::PrintFault,
        Err(SinkFault::Memory) => Status::OutOfMemory,
    }
}

/// The line of a refusal.
fn refusal_line(alloc: Global, refusal: &Refusal) -> Result<Vec<u8>, AllocError>
    ensures { IfOk result (λ line. line.items ≡ refusal_line refusal.now) }
{
    let mut line = Vec::from_slice(alloc, b"refused: ")?;
    let words = refusal_words(alloc, refusal)?;
    line.extend_from_slice(words.as_slice())?;
    line.push(b'\n')?;
    Ok(line)
}

/// The words of a refusal.
fn refusal_words(alloc: Global, refusal: &Refusal) -> Result<Vec<u8>, AllocError>
    ensures { IfOk result (λ words. words.items ≡ refusal_words refusal.now) }
{
    match refusal {
        Refusal::ManyFiles => Vec::from_slice(alloc, b"many-files"),
        Refusal::BigFile(name) => refused_file(alloc, name, b"big-file"),
        Refusal::Class(name, fault) => {
            let words = FaultWords(*fault);
            let words = format!(in alloc; "{words}")?;
            refused_file(alloc, name, words.as_bytes())
        }
        Refusal::World(fault) => world_words(alloc, fault),
        Refusal::NoScript(name) => refused_file(alloc, name, b"no-script"),
        Refusal::Script(name, line) => {
            let why = format!(in alloc; "script {line}")?;
            refused_file(alloc, name, why.as_bytes())
        }
        Refusal::NotBuilt(name) => refused_file(alloc, name, b"not-built"),
        Refusal::NoEntry(word) => refused_file(alloc, word, b"no-entry"),
    }
}

/// The words of a fault of the world of classes.
fn world_words(alloc: Global, fault: &WorldFault) -> Result<Vec<u8>, AllocError>
    ensures { IfOk result (λ words. words.items ≡ world_words fault.now) }
{
    match fault {
        WorldFault::Duplicate(name) => refused_class(alloc, name, b"duplicate"),
        WorldFault::Reserved(class) => refused_class(alloc, class, b"reserved"),
        WorldFault::MissingSuper { class, name } => {
            let mut why = Vec::from_slice(alloc, b"missing-super ")?;
            let name = class_text(alloc, name)?;
            why.extend_from_slice(name.as_slice())?;
            refused_class(alloc, class, why.as_slice())
        }
        WorldFault::FinalSuper(class) => refused_class(alloc, class, b"final-super"),
        WorldFault::Circle(class) => refused_class(alloc, class, b"circle"),
        WorldFault::Memory => Vec::from_slice(alloc, b"memory"),
    }
}

/// A refused file, and why.
fn refused_file(alloc: Global, name: &Name, why: &[u8]) -> Result<Vec<u8>, AllocError>
    ensures { IfOk result (λ words. words.items ≡ refused_name name.now why.now) }
{
    let name = name.as_str();
    refused_name(alloc, name.as_bytes(), why)
}

/// A refused class, and why.
fn refused_class(alloc: Global, class: &InternalName, why: &[u8]) -> Result<Vec<u8>, AllocError>
    ensures { IfOk result (λ words. words.items ≡ refused_name (class_text class.now) why.now) }
{
    let name = class_text(alloc, class)?;
    refused_name(alloc, name.as_slice(), why)
}

/// What is refused, and why.
fn refused_name(alloc: Global, name: &[u8], why: &[u8]) -> Result<Vec<u8>, AllocError>
    ensures { IfOk result (λ words. words.items ≡ refused_name name.now why.now) }
{
    let mut words = Vec::from_slice(alloc, name)?;
    words.push(b' ')?;
    words.extend_from_slice(why)?;
    Ok(words)
}

/// The name of a class as it is printed: in UTF-8, with dots for `/`.
fn class_text(alloc: Global, name: &InternalName) -> Result<Vec<u8>, AllocError>
    ensures { IfOk result (λ text. text.items ≡ class_text name.now) }
{
    let text = utf8_of(alloc, name.as_slice())?;
    dotted(alloc, text.as_slice())
}

/// A text with dots for `/`.
fn dotted(alloc: Global, text: &[u8]) -> Result<Vec<u8>, AllocError>
    ensures { IfOk result (λ dots. dots.items ≡ dotted text.now) }
{
    let mut dots = Vec::new(alloc);
    for byte in text {
        dots.push(dotted_byte(*byte))?;
    }
    Ok(dots)
}

fn dotted_byte(byte: u8) -> u8
    ensures { result ≡ (if byte == 47 then 46 else byte) }
{
    match byte {
        b'/' => b'.',
        _ => byte,
    }
}

/// The fault of a class file, as a refusal's line names it.
#[derive(Drop)]
struct FaultWords(ClassFault);

impl fmt::Display for FaultWords {
    ghost use Rattle.std.specs.Prelude.{Some};
    ghost use Rattle.ajweave.specs.Words.{fault_words};

    ghost output = { λ words. Some (fault_words words.0) };

    fn fmt<W: fmt::Write>(&self, f: &mut fmt::Formatter<W>) -> fmt::Result {
        match self.0 {
            ClassFault::Magic => f.write_str("magic"),
            ClassFault::Version(major) => write!(f, "version {major}"),
            ClassFault::Truncated(size) => write!(f, "truncated {size}"),
            ClassFault::Trailing(offset) => write!(f, "trailing {offset}"),
            ClassFault::PoolTag(index, tag) => write!(f, "pool-tag {index} {tag}"),
            ClassFault::PoolRef(index) => write!(f, "pool-ref {index}"),
            ClassFault::Utf8(index) => write!(f, "utf8 {index}"),
            ClassFault::AttributeLength(offset) => write!(f, "attribute-length {offset}"),
            ClassFault::Code(method, pc) => write!(f, "code {method} {pc}"),
            ClassFault::Memory => f.write_str("memory"),
        }
    }
}
