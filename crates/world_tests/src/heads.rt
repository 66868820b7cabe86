//! Heads of classes, and names that are kept.

use class_file::{AccessFlags, Attribute, ClassFile, Content};
use class_heads::{ClassHead, head_of, is_reserved};
use class_text::{TextFault, to_class};
use sqlite_items::Items;
use std::alloc::{AllocError, Global};

const LOW: &[u8] = b"class p/Low super p/Base version 48\nmethod run ()V flags 1025 none";

/// Gives the only method of the class these flags, lets it declare to throw the superclass, and marks it
/// as synthetic if asked.
fn change(
    alloc: Global,
    class: &mut ClassFile,
    flags: u16,
    synthetic: bool,
) -> Result<(), AllocError> {
    let Some(mut method) = class.methods.pop() else {
        return Ok(());
    };
    let thrown = Items::from_slice(alloc, &[class.super_class])?;
    method.flags = AccessFlags(flags);
    method.attributes.push(Attribute {
        name: 1,
        content: Content::Exceptions(thrown),
    })?;
    if synthetic {
        method.attributes.push(Attribute {
            name: 1,
            content: Content::Synthetic,
        })?;
    }
    class.methods.push(method)
}

fn class_of(alloc: Global, text: &[u8]) -> Result<ClassFile, TextFault> {
    to_class(alloc, text)
}

/// A copy of the head of the class.
fn copied_head(alloc: Global, class: &ClassFile) -> Result<ClassHead, AllocError> {
    head_of(alloc, class)?.copy(alloc)
}

/// The head of the class with its method so changed.
fn head_with(alloc: Global, flags: u16, synthetic: bool) -> Result<ClassHead, TextFault> {
    let mut class = class_of(alloc, LOW)?;
    change(alloc, &mut class, flags, synthetic)?;
    Ok(copied_head(alloc, &class)?)
}

/// Whether the head has the class's names, and a method that throws one class and is synthetic or not.
fn is_low(head: &ClassHead, synthetic: bool) -> bool {
    let ([method], Some(super_class)) = (head.methods.as_slice(), &head.super_class) else {
        return false;
    };
    head.name.as_slice() == b"p/Low".as_slice()
        && super_class.as_slice() == b"p/Base".as_slice()
        && method.is_synthetic == synthetic
        && method.exceptions.len() == 1
}

#[test]
fn heads_have_names_and_methods(rt: HostRuntime) -> Result<(), TextFault> {
    for (flags, marked, synthetic) in [(1, false, false), (0x1001, false, true), (1, true, true)] {
        let head = head_with(rt.alloc(), flags, marked)?;
        assert!(rt; is_low(&head, synthetic), "{flags} {marked}");
    }
    Ok(())
}

/// Classes, and whether a name of theirs is kept: of a class, in a descriptor, and in a string alone.
const NAMING: [(&[u8], bool); 3] = [
    (
        b"class p/Low super p/Base version 48
method run ()V stack 1 locals 1
  new a/ajc$b
end",
        true,
    ),
    (
        b"class p/Low super p/Base version 48
method run ()V stack 1 locals 1
  invokestatic p/Low run (Lajc$;)V
end",
        true,
    ),
    (
        b"class p/Low super p/Base version 48
method run ()V stack 1 locals 1
  ldc \"a/ajc$b\"
end",
        false,
    ),
];

fn names_kept(alloc: Global, text: &[u8]) -> Result<bool, TextFault> {
    let class = class_of(alloc, text)?;
    Ok(is_reserved(alloc, &class)?)
}

#[test]
fn names_are_reserved(rt: HostRuntime) -> Result<(), TextFault> {
    for (text, kept) in NAMING {
        assert!(rt; names_kept(rt.alloc(), text)? == kept, "{text:?}");
    }
    Ok(())
}
