//! Texts in quotes.

ghost use Rattle.std.specs.Prelude.{◌≡◌, ◌<◌, ◌++◌, length, option_map, option_copied, OnOk, IfSome};
ghost use Rattle.class_lines.specs.Words.{GivesAs, Gives};
ghost use Rattle.class_lines.specs.Quotes.{escaped, piece_bytes, escape_at, piece_at, unescaped, inside_quotes, is_text, quoted};

use crate::fault::LineFault;
use crate::numbers::hexadecimal;
use aj_names::{ByteString, utf8_write};
use class_file::is_utf8;
use std::alloc::{AllocError, Global};

/// The longest text of a class file, in bytes (JVMS 4.4.7).
const LONGEST_TEXT: usize = 65_535;

/// A piece of what is written between quotes.
#[derive(Clone, Copy, Debug)]
enum Piece {
    /// A byte that stands for itself.
    Byte(u8),
    /// A UTF-16 unit behind a backslash.
    Unit(u16),
}

/// The unit that a letter or a sign stands for behind a backslash.
fn escaped(byte: u8) -> Option<u16>
    ensures { result ≡ escaped byte }
{
    match byte {
        b'n' => Some(0x0a),
        b't' => Some(0x09),
        b'r' => Some(0x0d),
        b'b' => Some(0x08),
        b'f' => Some(0x0c),
        b'"' | b'\'' | b'\\' => Some(u16::from(byte)),
        _ => None,
    }
}

/// A unit behind a backslash, and what is written behind it.
#[tactic(auto, unfolding(crate::specs::Quotes::escape_at, crate::specs::Numbers::hexadecimal))]
fn escape(text: &[u8]) -> Option<(Piece, &[u8])>
    ensures exact { option_map (λ x. (x.0, x.1.now)) result ≡ escape_at text.now }
    ensures shorter { IfSome result (λ x. length x.1.now < length text.now) }
{
    match text {
        [] => None,
        [b'u', a, b, c, d, rest @ ..] => {
            let unit = hexadecimal(4, 0xffff, &[*a, *b, *c, *d])?;
            Some((Piece::Unit(unit as u16), rest))
        }
        [b'u', ..] => None,
        [letter, rest @ ..] => Some((Piece::Unit(escaped(*letter)?), rest)),
    }
}

/// The piece at the front, and what is written behind it.
#[tactic(auto, unfolding(crate::specs::Quotes::piece_at))]
fn first_piece(text: &[u8]) -> Option<(Piece, &[u8])>
    ensures exact { option_map (λ x. (x.0, x.1.now)) result ≡ piece_at text.now }
    ensures shorter { IfSome result (λ x. length x.1.now < length text.now) }
{
    match text {
        [] | [b'"', ..] => None,
        [b'\\', rest @ ..] => escape(rest),
        [byte, rest @ ..] => Some((Piece::Byte(*byte), rest)),
    }
}

/// Adds what a piece stands for.
fn put_piece(alloc: Global, out: &mut Vec<u8>, piece: Piece) -> Result<(), AllocError>
    ensures { OnOk result (out.new.items ≡ out.old.items ++ piece_bytes piece) }
{
    match piece {
        Piece::Byte(byte) => out.push(byte)?,
        Piece::Unit(unit) => out.extend_from_slice(utf8_write(alloc, &[unit])?.as_slice())?,
    }
    Ok(())
}

/// The bytes that the pieces stand for.
fn unescaped(alloc: Global, written: &[u8]) -> Result<Vec<u8>, LineFault>
    ensures { GivesAs (λ text. text.items) result (unescaped written.now) }
{
    let mut out = Vec::new(alloc);
    let mut rest = written;
    while !rest.is_empty() {
        match first_piece(rest) {
            Some((found, behind)) => {
                put_piece(alloc, &mut out, found)?;
                rest = behind;
            }
            None => return Err(LineFault::Form),
        }
    }
    Ok(out)
}

/// What stands between two quotes.
#[tactic(auto, unfolding(crate::specs::Quotes::inside_quotes))]
fn inside_quotes(word: &[u8]) -> Option<&[u8]>
    ensures { option_copied result ≡ inside_quotes word.now }
{
    match word {
        [b'"', rest @ ..] if !rest.is_empty() && rest[rest.len() - 1] == b'"' => {
            Some(&rest[..rest.len() - 1])
        }
        _ => None,
    }
}

#[tactic(auto, unfolding(crate::specs::Quotes::is_text))]
fn is_text(text: &[u8]) -> bool
    ensures { result ≡ is_text text.now }
{
    text.len() <= LONGEST_TEXT && is_utf8(text)
}

/// The text of a word in quotes, in modified UTF-8.
#[tactic(auto, unfolding(crate::specs::Quotes::quoted))]
pub(crate) fn quoted(alloc: Global, word: &[u8]) -> Result<ByteString, LineFault>
    ensures { Gives result (quoted word.now) }
{
    let Some(written) = inside_quotes(word) else {
        return Err(LineFault::Form);
    };
    let text = unescaped(alloc, written)?;
    if is_text(text.as_slice()) {
        Ok(ByteString::from_vec(text))
    } else {
        Err(LineFault::Form)
    }
}
