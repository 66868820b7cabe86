//! Class files that are written as class text.

use aj_outside::Name;
use class_format::write_class;
use class_text::{TextFault, to_class};
use std::alloc::{AllocError, Global};

/// The class file of a text; no bytes, where the text is none.
#[tactic(auto, using(crate::proofs::Writable::writable))]
pub fn class_file(alloc: Global, text: &str) -> Result<Vec<u8>, AllocError> {
    match to_class(alloc, text.as_bytes()) {
        Ok(class) => write_class(alloc, &class),
        Err(TextFault::Line(_)) => Ok(Vec::new(alloc)),
        Err(TextFault::Memory) => Err(AllocError),
    }
}

/// The files of these classes, named by their places.
pub fn files_of(alloc: Global, classes: &[&str]) -> Result<Vec<(Name, Vec<u8>)>, AllocError> {
    let mut files = Vec::new(alloc);
    for (place, text) in classes.iter().enumerate() {
        let name = format!(in alloc; "in/{place}.class")?;
        files.push((Name::from_string(name), class_file(alloc, text)?))?;
    }
    Ok(files)
}
