//! The classes of the first form: static methods without parameters and results, whose code prints
//! texts and calls such methods of the same class.

ghost use Rattle.std.specs.Prelude.{◌≡◌, ◌==◌, ◌<◌, ◌≤◌, ◌^◌, length, codes, IfSome, IsTrue, ◌&&◌, drop};
ghost use Rattle.std.specs.List.{list_all, list_any};
ghost use Rattle.std.specs.Str.{bytes_eq};
ghost use Rattle.class_file.specs.Pool as named;
ghost use Rattle.class_file.specs.FirstForm as form;
ghost use Rattle.class_file.specs.WellFormed.{is_well_formed};
ghost use Rattle.class_file.specs.Sound.{is_some_that};
ghost use Rattle.class_file.specs.Lookup.{reference_seen};

use crate::names::{Reference, class_at, field_at, method_at, string_at, text_at};
use crate::pool::PoolEntry;
use crate::types::{Attribute, ClassFile, CodeAttr, Content, Member};
use opcode_table::{Insn, decode_at};

static RESERVED: [&str; 62] = [
    "abstract",
    "assert",
    "boolean",
    "break",
    "byte",
    "case",
    "catch",
    "char",
    "class",
    "const",
    "continue",
    "default",
    "do",
    "double",
    "else",
    "extends",
    "final",
    "finally",
    "float",
    "for",
    "goto",
    "if",
    "implements",
    "import",
    "instanceof",
    "int",
    "interface",
    "long",
    "native",
    "new",
    "package",
    "private",
    "protected",
    "public",
    "return",
    "short",
    "static",
    "strictfp",
    "super",
    "switch",
    "synchronized",
    "this",
    "throw",
    "throws",
    "transient",
    "try",
    "void",
    "volatile",
    "while",
    "true",
    "false",
    "null",
    "aspect",
    "pointcut",
    "before",
    "after",
    "around",
    "declare",
    "returning",
    "throwing",
    "proceed",
    "issingleton",
];

fn is_letter(b: u8) -> bool
    ensures { result ≡ form.is_letter b }
{
    b.is_ascii_alphabetic()
}

fn is_letter_or_digit(b: u8) -> bool
    ensures { result ≡ form.is_letter_or_digit b }
{
    b.is_ascii_alphanumeric()
}

fn are_letters_or_digits(text: &[u8]) -> bool
    ensures { result ≡ list_all form.is_letter_or_digit text.now }
{
    text.iter().all(|b| is_letter_or_digit(*b))
}

fn begins_with_letter(text: &[u8]) -> bool
    ensures { result ≡ form.begins_with_letter text.now }
{
    match text {
        [first, ..] => is_letter(*first),
        [] => false,
    }
}

fn is_among(text: &[u8], words: &[&str]) -> bool
    ensures { result ≡ list_any (λ word. bytes_eq text.now word.now) words.now }
{
    words.iter().any(|word| text == word.as_bytes())
}

fn is_reserved(text: &[u8]) -> bool
    ensures { result ≡ form.is_reserved text.now }
{
    is_among(text, &RESERVED)
}

/// Whether the text is a name of letters and digits of ASCII that begins with a letter and is no
/// reserved word.
pub fn is_identifier(text: &[u8]) -> bool
    ensures { result ≡ form.is_identifier text.now }
{
    begins_with_letter(text) && are_letters_or_digits(text) && !is_reserved(text)
}

fn is_printable_text(text: &[u8]) -> bool
    ensures { result ≡ form.is_printable_text text.now }
{
    text.iter().all(|b| (32..127).contains(b))
}

fn is_reference(reference: Reference<'_>, class: &[u8], name: &[u8], descriptor: &[u8]) -> bool
    ensures { result ≡ form.is_reference class.now name.now descriptor.now (reference_seen reference.entry) }
{
    reference.class == class
        && reference.member.name == name
        && reference.member.descriptor == descriptor
}

fn is_system_out(reference: Reference<'_>) -> bool
    ensures { result ≡ form.is_system_out (reference_seen reference.entry) }
{
    is_reference(
        reference,
        b"java/lang/System",
        b"out",
        b"Ljava/io/PrintStream;",
    )
}

fn is_println(reference: Reference<'_>) -> bool
    ensures { result ≡ form.is_println (reference_seen reference.entry) }
{
    is_reference(
        reference,
        b"java/io/PrintStream",
        b"println",
        b"(Ljava/lang/String;)V",
    )
}

fn is_text(pool: &[PoolEntry], text: &[u8], index: u16) -> bool
    ensures { result ≡ form.is_text pool.now text.now index }
{
    match text_at(pool, index) {
        Some(found) => text == found,
        None => false,
    }
}

fn names_one(pool: &[PoolEntry], methods: &[Member], name: &[u8]) -> bool
    ensures { result ≡ list_any (λ m. form.is_text pool.now name.now m.name) methods.now }
{
    methods
        .iter()
        .any(|method| is_text(pool, name, method.name))
}

/// Whether a method has the name.
#[tactic(auto, using(crate::proofs::MethodNames::any_named))]
fn declares(pool: &[PoolEntry], methods: &[Member], name: &[u8]) -> bool
    ensures { result ≡ list_any (bytes_eq name.now) (form.names_in pool.now methods.now) }
{
    names_one(pool, methods, name)
}

fn is_own_method(
    pool: &[PoolEntry],
    own: &[u8],
    methods: &[Member],
    reference: Reference<'_>,
) -> bool
    ensures { result ≡ form.is_own_method own.now (form.names_in pool.now methods.now) (reference_seen reference.entry) }
{
    reference.class == own
        && declares(pool, methods, reference.member.name)
        && reference.member.descriptor == b"()V".as_slice()
}

fn is_form_operand(pool: &[PoolEntry], own: &[u8], methods: &[Member], op: u8, index: u16) -> bool
    ensures { result ≡ form.is_form_operand pool.now own.now (form.names_in pool.now methods.now) op index }
{
    match op {
        18 => match string_at(pool, index) {
            Some(text) => is_printable_text(text),
            None => false,
        },
        178 => match field_at(pool, index) {
            Some(field) => is_system_out(field),
            None => false,
        },
        182 => match method_at(pool, index) {
            Some(method) => is_println(method),
            None => false,
        },
        184 => match method_at(pool, index) {
            Some(method) => is_own_method(pool, own, methods, method),
            None => false,
        },
        _ => false,
    }
}

fn is_form_insn(pool: &[PoolEntry], own: &[u8], methods: &[Member], insn: Insn) -> bool
    ensures { result ≡ form.is_form_insn pool.now own.now (form.names_in pool.now methods.now) insn }
{
    match insn {
        Insn::Plain(op) => op == 0 || op == 177,
        Insn::Pool { op, index } => is_form_operand(pool, own, methods, op, index),
        _ => false,
    }
}

/// The place behind the instruction at the place, if it is one of the form.
#[tactic(auto, unfolding(opcode_table::specs::Decoding::decoded))]
fn next_place(
    pool: &[PoolEntry],
    own: &[u8],
    methods: &[Member],
    code: &[u8],
    pc: u32,
) -> Option<u32>
    requires { length code.now < 2 ^ 16 }
    ensures steps { form.Steps (form.is_form_insn pool.now own.now (form.names_in pool.now methods.now)) code.now pc result }
    ensures within { IfSome result (λ place. place ≤ length code.now) }
{
    match decode_at(code, pc) {
        Ok((insn, size)) if is_form_insn(pool, own, methods, insn) => Some(pc + size),
        _ => None,
    }
}

fn insns_pass(pool: &[PoolEntry], own: &[u8], methods: &[Member], code: &[u8]) -> bool
    requires { length code.now < 2 ^ 16 }
    ensures { result ≡ form.insns_pass (form.is_form_insn pool.now own.now (form.names_in pool.now methods.now)) code.now (length code.now) 0 }
{
    let mut pc = 0u32;
    for _ in 0..code.len() {
        if pc as usize == code.len() {
            return true;
        }
        match next_place(pool, own, methods, code, pc) {
            Some(place) => pc = place,
            None => return false,
        }
    }
    pc as usize == code.len()
}

fn is_plain_code(code: &CodeAttr) -> bool
    ensures { result ≡ form.is_plain_code code.now }
{
    code.entries.len() == 0 && code.attributes.len() == 0 && (1..1001).contains(&code.code.len())
}

fn has_form_code(pool: &[PoolEntry], own: &[u8], methods: &[Member], code: &CodeAttr) -> bool
    ensures { result ≡ form.has_form_code pool.now own.now (form.names_in pool.now methods.now) code.now }
{
    is_plain_code(code) && insns_pass(pool, own, methods, code.code.as_slice())
}

fn is_form_attribute(
    pool: &[PoolEntry],
    own: &[u8],
    methods: &[Member],
    attribute: &Attribute,
) -> bool
    ensures { result ≡ form.is_form_attribute pool.now own.now (form.names_in pool.now methods.now) attribute.now }
{
    match &attribute.content {
        Content::Code(code) => {
            is_text(pool, b"Code", attribute.name) && has_form_code(pool, own, methods, code)
        }
        _ => false,
    }
}

fn has_form_attributes(
    pool: &[PoolEntry],
    own: &[u8],
    methods: &[Member],
    attributes: &[Attribute],
) -> bool
    ensures { result ≡ form.is_single (form.is_form_attribute pool.now own.now (form.names_in pool.now methods.now)) attributes.now }
{
    match attributes {
        [attribute] => is_form_attribute(pool, own, methods, attribute),
        _ => false,
    }
}

fn names_identifier(pool: &[PoolEntry], index: u16) -> bool
    ensures { result ≡ is_some_that form.is_identifier (named.text_at pool.now index) }
{
    match text_at(pool, index) {
        Some(text) => is_identifier(text),
        None => false,
    }
}

fn has_form_flags(flags: u16) -> bool
    ensures { result ≡ form.has_form_flags flags }
{
    flags & 0x1528 == 0x0008
}

fn is_form_method(pool: &[PoolEntry], own: &[u8], methods: &[Member], method: &Member) -> bool
    ensures { result ≡ form.is_form_method pool.now own.now (form.names_in pool.now methods.now) method.now }
{
    has_form_flags(method.flags.0)
        && names_identifier(pool, method.name)
        && is_text(pool, b"()V", method.descriptor)
        && has_form_attributes(pool, own, methods, method.attributes.as_slice())
}

fn are_form_methods(pool: &[PoolEntry], own: &[u8], methods: &[Member]) -> bool
    ensures { result ≡ list_all (form.is_form_method pool.now own.now (form.names_in pool.now methods.now)) methods.now }
{
    methods
        .iter()
        .all(|method| is_form_method(pool, own, methods, method))
}

/// Whether no later method has the name of the first.
fn first_differs(pool: &[PoolEntry], methods: &[Member]) -> bool
    ensures { form.are_distinct (form.names_in pool.now methods.now) ≡ (result && form.are_distinct (form.names_in pool.now (drop 1 methods.now))) }
{
    match methods {
        [method, others @ ..] => match text_at(pool, method.name) {
            Some(name) => !declares(pool, others, name),
            None => true,
        },
        [] => true,
    }
}

fn are_distinct(pool: &[PoolEntry], methods: &[Member]) -> bool
    ensures { result ≡ form.are_distinct (form.names_in pool.now methods.now) }
{
    for i in 0..methods.len() {
        if !first_differs(pool, &methods[i..]) {
            return false;
        }
    }
    true
}

fn has_form_methods(class: &ClassFile) -> bool
    ensures { result ≡ form.has_form_methods class.now }
{
    let pool = class.pool.as_slice();
    let methods = class.methods.as_slice();
    let own = match class_at(pool, class.this_class) {
        Some(name) => name,
        None => &[],
    };
    are_distinct(pool, methods) && are_form_methods(pool, own, methods)
}

fn has_own_identifier(class: &ClassFile) -> bool
    ensures { result ≡ is_some_that form.is_identifier (named.this_name class.now) }
{
    match class_at(class.pool.as_slice(), class.this_class) {
        Some(name) => is_identifier(name),
        None => false,
    }
}

fn extends_object(class: &ClassFile) -> bool
    ensures { result ≡ is_some_that (bytes_eq form.object_class) (named.super_name class.now) }
{
    match class_at(class.pool.as_slice(), class.super_class) {
        Some(name) => b"java/lang/Object".as_slice() == name,
        None => false,
    }
}

fn has_form_names(class: &ClassFile) -> bool
    ensures { result ≡ form.has_form_names class.now }
{
    has_own_identifier(class) && extends_object(class)
}

fn has_short_lists(class: &ClassFile) -> bool
    ensures { result ≡ form.has_short_lists class.now }
{
    class.pool.len() < 10_000
        && class.interfaces.len() == 0
        && class.fields.len() == 0
        && class.methods.len() <= 100
}

/// Whether a class file is of the first form: static methods without parameters and results, whose
/// code prints texts and calls such methods of the same class.
pub fn is_first_form(class: &ClassFile) -> bool
    requires { IsTrue (is_well_formed class.now) }
    ensures { result ≡ form.is_first_form class.now }
{
    has_short_lists(class) && has_form_names(class) && has_form_methods(class)
}
