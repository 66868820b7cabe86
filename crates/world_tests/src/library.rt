//! The library: what its methods mean, and what its heads declare.

use aj_names::{ByteString, InternalName, MemberName};
use boot_library::{LibraryRule, Primitive, Spelling, library_heads, library_rule};
use class_heads::ClassHead;
use std::alloc::{AllocError, Global};

const TEXT: &str = "java/lang/String";

const STREAM: &str = "java/io/PrintStream";

/// What some methods mean, by class, name and descriptor.
const RULES: [(&str, &str, &str, LibraryRule); 11] = [
    ("java/lang/Object", "<init>", "()V", LibraryRule::DoNothing),
    (
        "java/lang/Class",
        "forName",
        "(Ljava/lang/String;)Ljava/lang/Class;",
        LibraryRule::ForName,
    ),
    (TEXT, "charAt", "(I)C", LibraryRule::CharAt),
    (
        TEXT,
        "valueOf",
        "(Ljava/lang/Object;)Ljava/lang/String;",
        LibraryRule::ValueOf(Spelling::OfObject),
    ),
    (
        "java/lang/StringBuilder",
        "append",
        "(Z)Ljava/lang/StringBuilder;",
        LibraryRule::Append(Spelling::OfBoolean),
    ),
    (
        "java/lang/Throwable",
        "getMessage",
        "()Ljava/lang/String;",
        LibraryRule::Message,
    ),
    (
        "java/lang/ArrayIndexOutOfBoundsException",
        "<init>",
        "(Ljava/lang/String;)V",
        LibraryRule::SetMessage,
    ),
    ("java/lang/System", "exit", "(I)V", LibraryRule::Exit),
    (
        STREAM,
        "println",
        "(J)V",
        LibraryRule::Print {
            how: Spelling::OfLong,
            line: true,
        },
    ),
    (STREAM, "println", "()V", LibraryRule::PrintLine),
    (
        "java/lang/Integer",
        "intValue",
        "()I",
        LibraryRule::Unbox(Primitive::Int),
    ),
];

/// Methods without a rule: of no class, of a class that inherits it, with another descriptor, of a
/// box without a text, native.
const NO_RULES: [(&str, &str, &str); 6] = [
    ("java/lang/Math", "abs", "(I)I"),
    (TEXT, "getClass", "()Ljava/lang/Class;"),
    ("java/lang/Error", "getMessage", "()Ljava/lang/String;"),
    (TEXT, "charAt", "(J)C"),
    ("java/lang/Float", "toString", "()Ljava/lang/String;"),
    ("java/lang/System", "nanoTime", "()J"),
];

fn rule_of(class: &InternalName, method: &MemberName) -> Option<LibraryRule> {
    library_rule(class, method)
}

fn rule(
    alloc: Global,
    class: &str,
    name: &str,
    descriptor: &str,
) -> Result<Option<LibraryRule>, AllocError> {
    let class = InternalName::from_slice(alloc, class.as_bytes())?;
    let method = MemberName {
        name: ByteString::from_slice(alloc, name.as_bytes())?,
        descriptor: ByteString::from_slice(alloc, descriptor.as_bytes())?,
    };
    Ok(rule_of(&class, &method))
}

#[test]
fn methods_have_their_rules(rt: HostRuntime) -> Result<(), AllocError> {
    for (class, name, descriptor, want) in RULES {
        assert!(rt;
            rule(rt.alloc(), class, name, descriptor)? == Some(want),
            "{class} {name}"
        );
    }
    for (class, name, descriptor) in NO_RULES {
        assert!(rt;
            rule(rt.alloc(), class, name, descriptor)?.is_none(),
            "{class} {name}"
        );
    }
    Ok(())
}

/// Some classes: the name, the superclass, the flags, and how many fields and methods there are.
const HEADS: [(&str, &str, u16, usize, usize); 3] = [
    ("java/lang/System", "java/lang/Object", 0x0011, 1, 4),
    ("java/lang/Runnable", "java/lang/Object", 0x0601, 0, 0),
    (
        "java/lang/NoClassDefFoundError",
        "java/lang/LinkageError",
        0x0001,
        0,
        3,
    ),
];

/// Whether the class is one of these, with these flags, and so many fields and methods.
fn has_head(
    heads: &[ClassHead],
    name: &str,
    above: &str,
    flags: u16,
    fields: usize,
    methods: usize,
) -> bool {
    let found = heads
        .iter()
        .find(|head| head.name.as_slice() == name.as_bytes());
    let Some(head) = found else {
        return false;
    };
    let Some(super_class) = &head.super_class else {
        return false;
    };
    super_class.as_slice() == above.as_bytes()
        && (head.version, head.flags.0) == (46, flags)
        && (head.fields.len(), head.methods.len()) == (fields, methods)
}

/// Whether the third method of the class `System` is the native one that gives the time.
fn has_clock(heads: &[ClassHead]) -> bool {
    let found = heads.iter().find(|head| head.name.as_slice() == b"java/lang/System".as_slice());
    match found.and_then(|head| head.methods.get(2)) {
        Some(clock) => {
            clock.name.name.as_slice() == b"currentTimeMillis".as_slice()
                && clock.name.descriptor.as_slice() == b"()J".as_slice()
                && clock.flags.0 == 0x0109
        }
        None => false,
    }
}

#[test]
fn heads_have_their_members(rt: HostRuntime) -> Result<(), AllocError> {
    let heads = library_heads(rt.alloc())?;
    assert!(rt; heads.len() == 40);
    for (name, above, flags, fields, methods) in HEADS {
        assert!(rt;
            has_head(&heads, name, above, flags, fields, methods),
            "{name}"
        );
    }
    assert!(rt; has_clock(&heads));
    Ok(())
}
