//! The program `class_assembler`: class text on standard input, its class file on standard output. The
//! classes of `demo/` that no compiler makes are made by it.
#![tactic(auto)]

ghost use Rattle.std.specs.Prelude.{◌≡◌, Ok, IfOk, IfErr};
ghost use Rattle.class_assembler.specs.Assembling.{assembled, Refuses};

use class_format::write_class;
use class_text::{TextFault, to_class};
use std::alloc::Global;
use std::io::{self, Read, Write};
use std::process::ExitCode;

/// The bytes of the class file that a text is (JVMS 4.1).
#[tactic(auto, using(crate::proofs::Writable::writable))]
fn assemble(alloc: Global, text: &[u8]) -> Result<Vec<u8>, TextFault>
    ensures bytes { IfOk result (λ v. assembled text.now ≡ Ok v.items) }
    ensures refused { IfErr result (λ fault. Refuses fault (assembled text.now)) }
{
    let class = to_class(alloc, text)?;
    Ok(write_class(alloc, &class)?)
}

/// Reads the text, and writes the class file, or which line isn't of the form.
fn answer(rt: &HostRuntime) -> io::Result<ExitCode> {
    let mut text = Vec::new(rt.alloc());
    rt.reader().read_to_end(&mut text)?;
    match assemble(rt.alloc(), text.as_slice()) {
        Ok(bytes) => {
            let mut out = io::writer(rt);
            out.write_all(bytes.as_slice())?;
            out.flush()?;
            Ok(ExitCode::SUCCESS)
        }
        Err(fault) => {
            eprintln!(rt; "{fault}")?;
            Ok(ExitCode::FAILURE)
        }
    }
}

fn main(rt: HostRuntime) -> ExitCode {
    answer(&rt).unwrap_or(ExitCode::FAILURE)
}
