//! Names of classes and methods.

ghost use Rattle.std.specs.Prelude.{◌≡◌, ◌==◌, if◌then◌else◌, IfOk};
ghost use Rattle.run_lines.specs.Reading.{Reads};
ghost use Rattle.run_lines.specs.Names.{slashed, IsModified, IsDottedClass, IsMethodText};

use crate::fault::WordFault;
use crate::texts::units_of;
use aj_names::{ByteString, InternalName, is_class_name, is_member_name, utf8_write};
use std::alloc::{AllocError, Global};

/// A text in UTF-8, in the modified UTF-8 of class files (JVMS 4.4.7).
fn modified(alloc: Global, text: &[u8]) -> Result<Vec<u8>, WordFault>
    ensures { Reads (λ bytes. bytes.items) (λ bytes. IsModified bytes text.now) result }
{
    let units = units_of(alloc, text)?;
    Ok(utf8_write(alloc, units.as_slice())?)
}

fn slashed_byte(byte: u8) -> u8
    ensures { result ≡ (if byte == 46 then 47 else byte) }
{
    match byte {
        b'.' => b'/',
        _ => byte,
    }
}

/// A name with slashes for its dots.
fn slashed(alloc: Global, name: &[u8]) -> Result<Vec<u8>, AllocError>
    ensures { IfOk result (λ bytes. bytes.items ≡ slashed name.now) }
{
    let mut bytes = Vec::new(alloc);
    for byte in name {
        bytes.push(slashed_byte(*byte))?;
    }
    Ok(bytes)
}

/// The class whose name with dots the text is (JVMS 4.2).
pub(crate) fn read_class(alloc: Global, text: &[u8]) -> Result<InternalName, WordFault>
    ensures { Reads (λ class. class) (λ class. IsDottedClass class text.now) result }
{
    if text.contains(&b'/') {
        return Err(WordFault::Form);
    }
    let name = modified(alloc, text)?;
    let class = slashed(alloc, name.as_slice())?;
    if is_class_name(class.as_slice()) {
        Ok(InternalName::from_vec(class))
    } else {
        Err(WordFault::Form)
    }
}

/// The name of a method that the text is (JVMS 4.6).
pub(crate) fn read_method(alloc: Global, text: &[u8]) -> Result<ByteString, WordFault>
    ensures { Reads (λ method. method) (λ method. IsMethodText method text.now) result }
{
    let name = modified(alloc, text)?;
    if is_member_name(name.as_slice()) {
        Ok(ByteString::from_vec(name))
    } else {
        Err(WordFault::Form)
    }
}
