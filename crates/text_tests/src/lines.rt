//! Lines of class text: what they are printed as, and which are none.

use class_lines::{Line, LineFault, put_line, read_line, read_text_line};
use std::alloc::Global;

/// Lines, and what they are printed as.
const HEADS: [(&[u8], &[u8]); 9] = [
    (
        b"class C super java/lang/Object version 48",
        b"class C super java/lang/Object version 48 flags 33",
    ),
    (
        b"  class p/C   super D version 46 flags 1537 interface A p/B  ",
        b"class p/C super D version 46 flags 1537 interface A p/B",
    ),
    (b"field x I", b"field x I flags 1"),
    (b"field static x [[LC; flags 2", b"field x [[LC; flags 10"),
    (b"field static I", b"field static I flags 1"),
    (
        b"method static main ()V stack 2 locals 0",
        b"method main ()V flags 9 stack 2 locals 0",
    ),
    (
        b"method <init> (IJ)V flags 0 stack 1 locals 04",
        b"method <init> (IJ)V flags 0 stack 1 locals 4",
    ),
    (
        b"method ask ()I flags 264 none",
        b"method ask ()I flags 264 none",
    ),
    (b"end", b"end"),
];

/// The same of instructions and of lines of exception tables.
const INSTRUCTIONS: [(&[u8], &[u8]); 26] = [
    (b"L0: nop", b"  L0: nop"),
    (b"bipush -128", b"  bipush -128"),
    (b"sipush 32767", b"  sipush 32767"),
    (b"iload 256", b"  iload 256"),
    (b"iinc 3 -4", b"  iinc 3 -4"),
    (b"ldc -2147483648", b"  ldc -2147483648"),
    (b"ldc_w float:3f800000", b"  ldc_w float:3f800000"),
    (
        b"ldc \"a \\\"b\\\" \\u0041\\n\"  ",
        b"  ldc \"a \\\"b\\\" A\\n\"",
    ),
    (b"ldc \"\\t\\\\\\'\"", b"  ldc \"\\u0009\\\\'\""),
    (
        b"ldc \"\\u0000\\u00E9\xc3\xa9\xed\xa0\xbd\"",
        b"  ldc \"\\u0000\\u00e9\\u00e9\\ud83d\"",
    ),
    (b"ldc java/lang/String", b"  ldc java/lang/String"),
    (
        b"ldc2_w 9223372036854775807",
        b"  ldc2_w 9223372036854775807",
    ),
    (
        b"ldc2_w double:3FF0000000000000",
        b"  ldc2_w double:3ff0000000000000",
    ),
    (b"getstatic C x I", b"  getstatic C x I"),
    (
        b"invokevirtual java/io/PrintStream println (I)V",
        b"  invokevirtual java/io/PrintStream println (I)V",
    ),
    (b"invokeinterface I f ()V", b"  invokeinterface I f ()V"),
    (b"new C", b"  new C"),
    (b"checkcast [I", b"  checkcast [I"),
    (b"newarray 11", b"  newarray 11"),
    (b"multianewarray [[I 2", b"  multianewarray [[I 2"),
    (b"ifnull L1", b"  ifnull L1"),
    (b"goto_w L1", b"  goto_w L1"),
    (
        b"tableswitch -1 A B default default",
        b"  tableswitch -1 A B default default",
    ),
    (
        b"lookupswitch -5:A 7:B default C",
        b"  lookupswitch -5:A 7:B default C",
    ),
    (b"catch A B C any", b"  catch A B C any"),
    (
        b"catch A B C java/lang/Error ",
        b"  catch A B C java/lang/Error",
    ),
];

/// What the line says, and nothing more.
fn read(alloc: Global, line: &[u8]) -> Result<Option<Line>, LineFault> {
    read_line(alloc, line)
}

fn prints(alloc: Global, line: &[u8], wanted: &[u8]) -> Result<bool, LineFault> {
    let Some(found) = read(alloc, line)? else {
        return Ok(false);
    };
    let mut out = Vec::new(alloc);
    put_line(&mut out, &found)?;
    Ok(out.as_slice() == wanted)
}

#[test]
fn reads_heads(rt: HostRuntime) -> Result<(), LineFault> {
    for (line, wanted) in HEADS {
        assert!(rt; prints(rt.alloc(), line, wanted)?, "{line:?}");
    }
    Ok(())
}

#[test]
fn reads_instructions(rt: HostRuntime) -> Result<(), LineFault> {
    for (line, wanted) in INSTRUCTIONS {
        assert!(rt; prints(rt.alloc(), line, wanted)?, "{line:?}");
    }
    Ok(())
}

/// Lines that are none.
const OTHERS: [&[u8]; 40] = [
    b"class C super D version 45",
    b"class C super D version 50",
    b"class C version 48",
    b"class C super D version 48 interface",
    b"class [I super D version 48",
    b"class C super D version 48 flags 65536",
    b"field x",
    b"field x V",
    b"field x/y I",
    b"field x I flags",
    b"field static x I I",
    b"method m ()V stack 1",
    b"method m ()V stack 1 locals -1",
    b"method m ()V none",
    b"method static m ()V flags 1 none",
    b"method m I stack 1 locals 1",
    b"iload",
    b"iload -1",
    b"iload 65536",
    b"bipush 128",
    b"iinc 1 32768",
    b"wide",
    b"fload_4",
    b"nop nop",
    b"L0:nop",
    b": nop",
    b"ldc \"a",
    b"ldc \"a\"b\"",
    b"ldc \"\\x\"",
    b"ldc \"\\u12\"",
    b"ldc [V",
    b"newarray 3",
    b"newarray 12",
    b"multianewarray [I 2",
    b"multianewarray [I 0",
    b"getstatic C m ()V",
    b"tableswitch 0 default L",
    b"tableswitch 2147483647 A B default L",
    b"lookupswitch 2:A 2:B default C",
    b"catch A B any",
];

/// Lines that say nothing.
const NOTHING: [&[u8]; 4] = [b"", b"   ", b"; class", b"  ;\"a"];

/// Whether the line says something.
fn says(alloc: Global, line: &[u8]) -> Result<bool, LineFault> {
    Ok(read_line(alloc, line)?.is_some())
}

#[test]
fn refuses_other_lines(rt: HostRuntime) {
    for line in OTHERS {
        assert!(rt; says(rt.alloc(), line) == Err(LineFault::Form), "{line:?}");
    }
    for line in NOTHING {
        assert!(rt; says(rt.alloc(), line) == Ok(false), "{line:?}");
    }
}

/// Lines in UTF-8, and whether they say something, and lines that aren't in UTF-8.
const TEXTS: [(&[u8], Result<bool, LineFault>); 10] = [
    (b"new C\xc3\xa9", Ok(true)),
    (b"new C\xe2\x82\xac", Ok(true)),
    (b"new C\xf0\x9f\x98\x80", Ok(true)),
    (b" ; new", Ok(false)),
    (b"new C\x80", Err(LineFault::Form)),
    (b"new C\xc0\x80", Err(LineFault::Form)),
    (b"new C\xe0\x80\x80", Err(LineFault::Form)),
    (b"new C\xed\xa0\x80", Err(LineFault::Form)),
    (b"new C\xf4\x90\x80\x80", Err(LineFault::Form)),
    (b"new C\xf0\x9f\x98", Err(LineFault::Form)),
];

/// The same of a line in UTF-8.
fn text_says(alloc: Global, line: &[u8]) -> Result<bool, LineFault> {
    Ok(read_text_line(alloc, line)?.is_some())
}

#[test]
fn reads_lines_in_utf8(rt: HostRuntime) {
    for (line, wanted) in TEXTS {
        assert!(rt; text_says(rt.alloc(), line) == wanted, "{line:?}");
    }
}
