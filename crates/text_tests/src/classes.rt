//! Texts of classes: the class files that they are, and the first wrong line of others.

use class_file::{ClassFile, Content, PoolEntry};
use class_text::{TextFault, to_class};
use std::alloc::Global;

const CLASS: &[u8] = b"; two methods
class C super java/lang/Object version 48

method static m ()V stack 2 locals 0
  getstatic java/lang/System out Ljava/io/PrintStream;
  ldc \"m\"
  invokevirtual java/io/PrintStream println (Ljava/lang/String;)V
  return
end
method static main ()V stack 0 locals 0
  invokestatic C m ()V
  return
end";

/// The bytes of the texts of the pool, by positions from 0.
const TEXTS: [(usize, &[u8]); 11] = [
    (0, b"C"),
    (2, b"java/lang/Object"),
    (4, b"m"),
    (5, b"()V"),
    (6, b"Code"),
    (7, b"java/lang/System"),
    (9, b"out"),
    (10, b"Ljava/io/PrintStream;"),
    (14, b"java/io/PrintStream"),
    (16, b"println"),
    (20, b"main"),
];

/// Other entries of the pool.
const ENTRIES: [(usize, PoolEntry); 5] = [
    (11, PoolEntry::NameAndType(10, 11)),
    (12, PoolEntry::Fieldref(9, 12)),
    (13, PoolEntry::String(5)),
    (19, PoolEntry::Methodref(16, 19)),
    (22, PoolEntry::Methodref(2, 22)),
];

/// Whether the pool has the text at this place.
fn has_text(class: &ClassFile, place: usize, text: &[u8]) -> bool {
    match class.pool.get(place) {
        Some(PoolEntry::Utf8(found)) => found.as_slice() == text,
        _ => false,
    }
}

/// Whether the method of this place has this code.
fn has_code(class: &ClassFile, method: usize, code: &[u8]) -> bool {
    let Some(member) = class.methods.get(method) else {
        return false;
    };
    match member.attributes.as_slice() {
        [attribute] => match &attribute.content {
            Content::Code(found) => found.code.as_slice() == code,
            _ => false,
        },
        _ => false,
    }
}

fn is_headed(class: &ClassFile) -> bool {
    (class.minor, class.major, class.flags.0) == (0, 48, 33)
        && (class.this_class, class.super_class) == (2, 4)
        && class.pool.len() == 23
        && class.methods.len() == 2
}

#[test]
fn a_class_with_two_methods(rt: HostRuntime) -> Result<(), TextFault> {
    let class = to_class(rt.alloc(), CLASS)?;
    assert!(rt; is_headed(&class));
    for (place, text) in TEXTS {
        assert!(rt; has_text(&class, place, text), "{place}");
    }
    for (place, entry) in &ENTRIES {
        assert!(rt; class.pool.get(*place) == Some(entry), "{place}");
    }
    assert!(rt; has_code(&class, 0, b"\xb2\x00\x0d\x12\x0e\xb6\x00\x14\xb1"));
    assert!(rt; has_code(&class, 1, b"\xb8\x00\x17\xb1"));
    Ok(())
}

const SWITCHES: &[u8] = b"class C super java/lang/Object version 48
field static x I
method m (I)V stack 2 locals 300
  iload 299
  A: tableswitch -1 A B default B
  iinc 1 200
  catch A B B any
  lookupswitch -5:A 7:B default A
  B: goto A
  goto_w B
  invokeinterface I f (J[D)V
  iconst_0
end";

const SWITCHES_CODE: [u8; 74] = [
    196, 21, 1, 43, 170, 0, 0, 0, 0, 0, 0, 56, 255, 255, 255, 255, 0, 0, 0, 0, 0, 0, 0, 0, 0, 0, 0,
    56, 196, 132, 0, 1, 0, 200, 171, 0, 255, 255, 255, 226, 0, 0, 0, 2, 255, 255, 255, 251, 255,
    255, 255, 226, 0, 0, 0, 7, 0, 0, 0, 26, 167, 255, 200, 200, 255, 255, 255, 253, 185, 0, 14, 4,
    0, 3,
];

#[test]
fn switches_branches_and_wide_forms(rt: HostRuntime) -> Result<(), TextFault> {
    let class = to_class(rt.alloc(), SWITCHES)?;
    assert!(rt; has_code(&class, 0, &SWITCHES_CODE));
    Ok(())
}

/// Texts behind the line of a class, and their first wrong lines.
const WRONG: [(&[u8], usize); 21] = [
    (b"clas A", 2),
    (b"class D super java/lang/Object version 48", 2),
    (b"nop", 2),
    (b"end", 2),
    (b"catch A A A any", 2),
    (b"method m ()V stack 0 locals 1\n return", 4),
    (b"method m ()V stack 0 locals 1\n return\n\n", 5),
    (b"method m ()V stack 0 locals 1\nend", 3),
    (
        b"method m ()V stack 0 locals 1\n return\nmethod n ()V stack 0 locals 1\nend",
        4,
    ),
    (b"method m ()V stack 0 locals 1\n return\nfield x I\nend", 4),
    (b"method m ()V stack 0 locals 1\n goto A\n return\nend", 3),
    (b"method m ()V stack 0 locals 1\n goto A\n clas\nend", 3),
    (
        b"method m ()V stack 0 locals 1\n goto A\n clas\nA: return\nend",
        4,
    ),
    (b"method m ()V stack 0 locals 1\n clas\n goto A\nend", 3),
    (b"method m ()V stack 0 locals 1\nA: nop\nA: nop\nend", 4),
    (
        b"method m ()V stack 0 locals 1\nA: nop\n catch A B A any\nend",
        4,
    ),
    (
        b"method m ()V stack 0 locals 1\nA: nop\nend\nmethod n ()V stack 0 locals 1\n goto A\nend",
        6,
    ),
    (b"method m ()V stack 0 locals 1\n ldc_w C\nend", 3),
    (
        b"method m ()V stack 0 locals 1\n tableswitch 0 A default B\nA: nop\nend",
        3,
    ),
    (
        b"method m ()V stack 0 locals 1\nA: lookupswitch 0:B default A\nend",
        3,
    ),
    (b"method m ()V flags 1 none\nend", 3),
];

/// Whole texts, and their first wrong lines.
const WRONG_TEXTS: [(&[u8], usize); 3] = [(b"clas A", 1), (b"", 1), (b"\n; no class\n", 3)];

const HEAD: &[u8] = b"class C super java/lang/Object version 48\n";

/// Whether this is the first wrong line of the texts, one behind the other.
fn is_wrong_at(alloc: Global, head: &[u8], text: &[u8], line: usize) -> Result<bool, TextFault> {
    let mut all = Vec::from_slice(alloc, head)?;
    all.extend_from_slice(text)?;
    Ok(to_class(alloc, &all).err() == Some(TextFault::Line(line)))
}

#[test]
fn the_first_wrong_line(rt: HostRuntime) -> Result<(), TextFault> {
    for (text, line) in WRONG {
        assert!(rt; is_wrong_at(rt.alloc(), HEAD, text, line)?, "{text:?}");
    }
    for (text, line) in WRONG_TEXTS {
        assert!(rt; is_wrong_at(rt.alloc(), b"", text, line)?, "{text:?}");
    }
    Ok(())
}

const ABSTRACT: &[u8] = b"class C super java/lang/Object version 48
method m ()V flags 1025 none
field x I";

#[test]
fn a_method_without_code(rt: HostRuntime) -> Result<(), TextFault> {
    let class = to_class(rt.alloc(), ABSTRACT)?;
    assert!(rt; class.methods.len() == 1 && class.fields.len() == 1);
    Ok(())
}
