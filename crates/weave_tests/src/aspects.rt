//! Texts of aspects.

use aspect_form::{AspectFault, read_aspect};
use jp_model::FirstAspect;
use std::alloc::Global;

const PLAIN: &[u8] =
    b"aspect Trace { before(): call(void Hello.greet()) { System.out.println(\"before\"); } }\n";

/// Aspects, and the name, the class, the method and the text that is printed.
const ASPECTS: [(&[u8], [&[u8]; 4]); 6] = [
    (PLAIN, [b"Trace", b"Hello", b"greet", b"before"]),
    (
        b"aspect T{before():call(void C.m()){System.out.println(\"a\");}}",
        [b"T", b"C", b"m", b"a"],
    ),
    (
        b"\taspect\nT\t{\nbefore\t(\n)\t:\ncall\t(\nvoid\tC\n.\tm\n(\t)\n)\t{\nSystem\t.\nout\t.\nprintln\t(\n\"a\"\t)\n;\t}\n}\t",
        [b"T", b"C", b"m", b"a"],
    ),
    (
        b"aspect T{before():call(void C.m()){System .out.println(\"\");}}",
        [b"T", b"C", b"m", b""],
    ),
    (
        b"aspect A1{before():call(void B2c.x9()){System.out.println(\" // {}~ \");}}",
        [b"A1", b"B2c", b"x9", b" // {}~ "],
    ),
    (
        b"aspect System1{before():call(void System.out()){System.out.println(\"a\");}}",
        [b"System1", b"System", b"out", b"a"],
    ),
];

fn read(alloc: Global, text: &[u8]) -> Result<FirstAspect, AspectFault> {
    read_aspect(alloc, text)
}

fn reads(alloc: Global, text: &[u8], parts: [&[u8]; 4]) -> Result<bool, AspectFault> {
    let found = read(alloc, text)?;
    let [name, class, method, printed] = parts;
    Ok(
        found.name.as_slice() == name
            && found.class.as_slice() == class
            && found.method.as_slice() == method
            && found.text.as_slice() == printed,
    )
}

#[test]
fn reads_the_form(rt: HostRuntime) -> Result<(), AspectFault> {
    for (text, parts) in ASPECTS {
        assert!(rt; reads(rt.alloc(), text, parts)?, "{text:?}");
    }
    Ok(())
}

/// Texts of another form.
const OTHERS: [&[u8]; 19] = [
    b"",
    b"aspect T { before() call(void C.m()) { } }",
    b"aspect T { before() call(void C.m()) { System.out.println(\"a\"); } }",
    b"aspect class{before():call(void C.m()){System.out.println(\"a\");}}",
    b"aspect T{before():call(void new.m()){System.out.println(\"a\");}}",
    b"aspect T{before():call(void C.void()){System.out.println(\"a\");}}",
    b"aspect System{before():call(void C.m()){System.out.println(\"a\");}}",
    b"aspect 1T{before():call(void C.m()){System.out.println(\"a\");}}",
    b"aspect T${before():call(void C.m()){System.out.println(\"a\");}}",
    b"aspect T{before():call(void C.m_()){System.out.println(\"a\");}}",
    b"aspectT{before():call(void C.m()){System.out.println(\"a\");}}",
    b"aspect T{before():call(void C.m()){System.out.println(\"a\\n\");}}",
    b"aspect T{before():call(void C.m()){System.out.println(\"a);}}",
    b"aspect T{before():call(void C.m()){System.out.println(a\");}}",
    b"aspect T{before():call(void C..m()){System.out.println(\"a\");}}",
    b"aspect T{before():call(void C.m()){System.out.println(\"a\");}} }",
    b"aspect T{before():call(void C.m()){System.out.println(\"a\");}} // end",
    b"aspect T\r{before():call(void C.m()){System.out.println(\"a\");}}",
    b"aspect T{before():call(void C.m()){System.out.println(\"\xc3\xa9\");}}",
];

fn is_refused(alloc: Global, text: &[u8]) -> bool {
    matches!(read(alloc, text), Err(AspectFault::NotBuilt))
}

#[test]
fn refuses_all_else(rt: HostRuntime) {
    for text in OTHERS {
        assert!(rt; is_refused(rt.alloc(), text), "{text:?}");
    }
    // The last byte of the plain text is a line feed, which may be missing.
    for cut in 0..PLAIN.len() - 1 {
        assert!(rt; is_refused(rt.alloc(), &PLAIN[..cut]), "cut to {cut}");
    }
}

#[test]
fn prints_faults(rt: HostRuntime) -> Result<(), AspectFault> {
    let text = format!(in rt.alloc(); "{} · {}", AspectFault::NotBuilt, AspectFault::Memory)?;
    let wanted = "not an aspect of the form that is built · out of memory";
    assert!(rt; text.as_str() == wanted);
    Ok(())
}
