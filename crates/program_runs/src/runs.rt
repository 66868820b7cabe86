//! Runs of the whole program over a shelf and a sink in memory.

use aj_outside::{MemShelf, MemSink, Name};
use ajweave::weaver_main;
use std::alloc::{AllocError, Global};

/// What a command leaves.
#[derive(Drop)]
pub struct Outcome {
    pub status: u8,
    pub shelf: MemShelf,
    pub printed: MemSink,
}

fn words(alloc: Global, texts: &[&str]) -> Result<Vec<String>, AllocError> {
    let mut words = Vec::new(alloc);
    for text in texts {
        words.push(String::from_str(alloc, text)?)?;
    }
    Ok(words)
}

fn files(alloc: Global, named: &[(&str, &[u8])]) -> Result<Vec<(Name, Vec<u8>)>, AllocError> {
    let mut files = Vec::new(alloc);
    for (name, bytes) in named {
        files.push((Name::from_str(alloc, name)?, Vec::from_slice(alloc, bytes)?))?;
    }
    Ok(files)
}

/// Runs the words over these files; the calls of the shelf and of the sink with these numbers fail.
pub fn run(
    alloc: Global,
    texts: &[&str],
    named: &[(&str, &[u8])],
    failing: &[u64],
    unprinted: &[u64],
) -> Result<Outcome, AllocError> {
    let words = words(alloc, texts)?;
    let files = files(alloc, named)?;
    let mut shelf = MemShelf::new(files, Vec::from_slice(alloc, failing)?)?;
    let mut printed = MemSink::new(Vec::from_slice(alloc, unprinted)?);
    let status = weaver_main(alloc, words.as_slice(), &mut shelf, &mut printed).code();
    Ok(Outcome {
        status,
        shelf,
        printed,
    })
}

/// Weaves these files of the folder `in` to the folder `out`.
pub fn weave(alloc: Global, named: &[(&str, &[u8])]) -> Result<Outcome, AllocError> {
    run(alloc, &["weave", "in", "out"], named, &[], &[])
}

/// Runs the words over files that are told by their whole names.
pub fn run_files(
    alloc: Global,
    texts: &[&str],
    files: Vec<(Name, Vec<u8>)>,
) -> Result<Outcome, AllocError> {
    let words = words(alloc, texts)?;
    let mut shelf = MemShelf::new(files, Vec::new(alloc))?;
    let mut printed = MemSink::new(Vec::new(alloc));
    let status = weaver_main(alloc, words.as_slice(), &mut shelf, &mut printed).code();
    Ok(Outcome {
        status,
        shelf,
        printed,
    })
}

/// Weaves files that are told by their whole names.
pub fn weave_files(alloc: Global, files: Vec<(Name, Vec<u8>)>) -> Result<Outcome, AllocError> {
    run_files(alloc, &["weave", "in", "out"], files)
}

/// Whether the command ended so and printed this text.
pub fn answers(left: &Outcome, status: u8, text: &str) -> bool {
    left.status == status && left.printed.bytes() == text.as_bytes()
}

/// Whether the run was refused with this line, and left the shelf with so many files.
pub fn is_refused(left: &Outcome, line: &str, files: usize) -> bool {
    left.status == 1 && left.printed.bytes() == line.as_bytes() && left.shelf.len() == files
}

/// Whether the shelf has exactly these bytes under the name.
pub fn holds(left: &Outcome, name: &str, bytes: &[u8]) -> bool {
    match left.shelf.file(name) {
        None => false,
        Some(found) => found == bytes,
    }
}

/// Whether the run succeeded and printed nothing, and left the shelf with so many files, among them these.
pub fn leaves(left: &Outcome, count: usize, files: &[(&str, &[u8])]) -> bool {
    for (name, bytes) in files {
        if !holds(left, name, bytes) {
            return false;
        }
    }
    left.status == 0 && left.printed.bytes().is_empty() && left.shelf.len() == count
}
