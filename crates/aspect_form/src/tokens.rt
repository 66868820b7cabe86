//! The tokens of an aspect's text. Each reader takes a text, skips the blanks, tabs and line feeds
//! at its front, and answers what it read and the rest behind it.

ghost use Rattle.std.specs.Prelude.{◌≡◌, ◌∷◌, [], option_map, option_copied};
ghost use Rattle.class_file.specs.FirstForm as form;
ghost use Rattle.jp_model.specs.AspectText as grammar;
ghost use Rattle.jp_model.specs.AspectText.Token.{Word, Sign};
ghost use Rattle.aspect_form.specs.Reading.{run_of, behind_run, token_at, identifier_at, quoted_at, is_quotable, is_taken, is_name};
ghost use Rattle.std.specs.List.{list_all, list_any};
ghost use Rattle.std.specs.Str.{bytes_eq};

/// The longest identifier, in bytes.
const LONGEST_IDENTIFIER: usize = 1000;

/// The longest text of a class file, in bytes (JVMS 4.4.7).
const LONGEST_TEXT: usize = 65_535;

/// The keywords and literals of Java (The Java Language Specification, second edition, 3.9, 3.10),
/// and the words of advice.
static RESERVED: [&[u8]; 62] = [
    b"abstract",
    b"assert",
    b"boolean",
    b"break",
    b"byte",
    b"case",
    b"catch",
    b"char",
    b"class",
    b"const",
    b"continue",
    b"default",
    b"do",
    b"double",
    b"else",
    b"extends",
    b"final",
    b"finally",
    b"float",
    b"for",
    b"goto",
    b"if",
    b"implements",
    b"import",
    b"instanceof",
    b"int",
    b"interface",
    b"long",
    b"native",
    b"new",
    b"package",
    b"private",
    b"protected",
    b"public",
    b"return",
    b"short",
    b"static",
    b"strictfp",
    b"super",
    b"switch",
    b"synchronized",
    b"this",
    b"throw",
    b"throws",
    b"transient",
    b"try",
    b"void",
    b"volatile",
    b"while",
    b"true",
    b"false",
    b"null",
    b"aspect",
    b"pointcut",
    b"before",
    b"after",
    b"around",
    b"declare",
    b"returning",
    b"throwing",
    b"proceed",
    b"issingleton",
];

fn is_letter(byte: u8) -> bool
    ensures { result ≡ form.is_letter byte }
{
    matches!(byte, b'A'..=b'Z' | b'a'..=b'z')
}

fn is_letter_or_digit(byte: u8) -> bool
    ensures { result ≡ form.is_letter_or_digit byte }
{
    is_letter(byte) || matches!(byte, b'0'..=b'9')
}

fn is_word_character(byte: u8) -> bool
    ensures { result ≡ grammar.is_word_character byte }
{
    is_letter_or_digit(byte) || byte == b'$' || byte == b'_'
}

fn is_space(byte: u8) -> bool
    ensures { result ≡ grammar.is_space byte }
{
    matches!(byte, b' ' | b'\t' | b'\n')
}

fn is_quotable(byte: u8) -> bool
    ensures { result ≡ is_quotable byte }
{
    matches!(byte, b' '..=b'~') && byte != b'"' && byte != b'\\'
}

fn is_among(word: &[u8], words: &[&[u8]]) -> bool
    ensures { result ≡ list_any (λ w. bytes_eq word.now w.now) words.now }
{
    words.iter().any(|other| word == *other)
}

fn is_reserved(word: &[u8]) -> bool
    ensures { result ≡ is_taken word.now }
{
    is_among(word, &RESERVED)
}

fn begins_with_letter(word: &[u8]) -> bool
    ensures { result ≡ form.begins_with_letter word.now }
{
    match word {
        [] => false,
        [first, ..] => is_letter(*first),
    }
}

fn has_letters_and_digits(word: &[u8]) -> bool
    ensures { result ≡ list_all form.is_letter_or_digit word.now }
{
    word.iter().all(|byte| is_letter_or_digit(*byte))
}

#[tactic(auto, unfolding(crate::specs::Reading::is_name))]
fn is_short_identifier(word: &[u8]) -> bool
    ensures { result ≡ is_name word.now }
{
    begins_with_letter(word)
        && has_letters_and_digits(word)
        && !is_reserved(word)
        && word.len() <= LONGEST_IDENTIFIER
}

pub(crate) fn skip_spaces(text: &[u8]) -> &[u8]
    ensures { result.now ≡ behind_run grammar.is_space text.now }
{
    let mut rest = text;
    while let [first, after @ ..] = rest {
        if !is_space(*first) {
            break;
        }
        rest = after;
    }
    rest
}

fn split_word(text: &[u8]) -> (&[u8], &[u8])
    ensures run { result.0.now ≡ run_of grammar.is_word_character text.now }
    ensures behind { result.1.now ≡ behind_run grammar.is_word_character text.now }
{
    let len = text
        .iter()
        .position(|byte| !is_word_character(*byte))
        .unwrap_or(text.len());
    text.split_at(len)
}

fn split_quotable(text: &[u8]) -> (&[u8], &[u8])
    ensures run { result.0.now ≡ run_of is_quotable text.now }
    ensures behind { result.1.now ≡ behind_run is_quotable text.now }
{
    let len = text
        .iter()
        .position(|byte| !is_quotable(*byte))
        .unwrap_or(text.len());
    text.split_at(len)
}

/// What stands behind a word, an identifier or a reserved word.
#[tactic(auto, unfolding(crate::specs::Reading::token_at))]
pub(crate) fn word<'a>(text: &'a [u8], word: &[u8]) -> Option<&'a [u8]>
    ensures { option_copied result ≡ token_at (Word word.now) text.now }
{
    let (found, rest) = split_word(skip_spaces(text));
    if found == word { Some(rest) } else { None }
}

/// What stands behind a bracket, a point or another sign.
#[tactic(auto, unfolding(crate::specs::Reading::token_at))]
pub(crate) fn sign(text: &[u8], sign: u8) -> Option<&[u8]>
    ensures { option_copied result ≡ token_at (Sign (sign ∷ [])) text.now }
{
    match skip_spaces(text) {
        [first, rest @ ..] if *first == sign => Some(rest),
        _ => None,
    }
}

/// An identifier, and the rest.
#[tactic(auto, unfolding(crate::specs::Reading::identifier_at))]
pub(crate) fn identifier(text: &[u8]) -> Option<(&[u8], &[u8])>
    ensures { option_map (λ x. (x.0.now, x.1.now)) result ≡ identifier_at text.now }
{
    let (name, rest) = split_word(skip_spaces(text));
    if is_short_identifier(name) {
        Some((name, rest))
    } else {
        None
    }
}

/// A text between quotes, without them, and the rest.
#[tactic(auto, unfolding(crate::specs::Reading::quoted_at))]
pub(crate) fn quoted(text: &[u8]) -> Option<(&[u8], &[u8])>
    ensures { option_map (λ x. (x.0.now, x.1.now)) result ≡ quoted_at text.now }
{
    let (literal, rest) = split_quotable(sign(text, b'"')?);
    match rest {
        [b'"', rest @ ..] if literal.len() <= LONGEST_TEXT => Some((literal, rest)),
        _ => None,
    }
}
