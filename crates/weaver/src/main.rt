//! The program `ajweave`: the command line, over real files and standard output.
#![tactic(auto)]

use aj_outside::{FolderShelf, StdSink};
use ajweave::{Status, weaver_main};
use std::alloc::AllocError;
use std::env;
use std::io::{self, ErrorKind};
use std::process::ExitCode;

/// The words behind the program's name, or `None` where they are no UTF-8 text.
fn words(rt: &HostRuntime) -> io::Result<Option<Vec<String>>> {
    match env::args(rt) {
        Ok(all) => Ok(Some(all.skip(1).collect(rt.alloc())?)),
        Err(error) if error.kind() == ErrorKind::OutOfMemory => Err(error),
        Err(_) => Ok(None),
    }
}

/// Answers the words over the files of this runtime, which the words that the user wrote are granted to.
fn answer(rt: &HostRuntime) -> Result<Status, AllocError> {
    let Ok(found) = words(rt) else {
        return Err(AllocError);
    };
    let words = found.unwrap_or(Vec::new(rt.alloc()));
    let mut shelf = FolderShelf::new(rt.clone()?);
    for word in &words {
        shelf.grant(word.clone()?)?;
    }
    let mut out = StdSink::new(rt.clone()?);
    Ok(weaver_main(rt.alloc(), words.as_slice(), &mut shelf, &mut out))
}

fn main(rt: HostRuntime) -> ExitCode {
    match answer(&rt) {
        Ok(status) => ExitCode::from(status.code()),
        Err(_) => ExitCode::from(Status::OutOfMemory.code()),
    }
}
