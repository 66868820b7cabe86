//! The lines of a listing.

ghost use Rattle.std.specs.Prelude.{◌≡◌, ◌++◌, ◌∷◌, [], IfOk, OnOk};
ghost use Rattle.class_lines.specs.Printing.{spaced};
ghost use Rattle.class_lines.specs.Utf8.{utf8_of};
ghost use Rattle.class_listing.specs.Listing.{attribute_text, listed_text, listing_text};

use aj_names::ByteString;
use class_lines::{Line, put_text_line, put_utf8};
use itoa::Buffer;
use std::alloc::{AllocError, Global};

/// A line of a listing.
#[derive(Debug, Drop)]
pub(crate) enum Listed {
    /// A line of class text.
    Line(Line),
    /// `attribute NAME N`, for an attribute of N bytes that class text can't say. It is no line of class
    /// text.
    Attribute { name: ByteString, length: u64 },
}

/// A word behind a blank.
fn put_word(out: &mut Vec<u8>, word: &[u8]) -> Result<(), AllocError>
    ensures { OnOk result (out.new.items ≡ out.old.items ++ spaced word.now) }
{
    out.push(b' ')?;
    out.extend_from_slice(word)
}

/// A word in UTF-8 behind a blank.
fn put_name(out: &mut Vec<u8>, name: &[u8]) -> Result<(), AllocError>
    ensures { OnOk result (out.new.items ≡ out.old.items ++ spaced (utf8_of name.now)) }
{
    out.push(b' ')?;
    put_utf8(out, name)
}

/// Adds the line of an attribute.
fn put_attribute(out: &mut Vec<u8>, name: &[u8], length: u64) -> Result<(), AllocError>
    ensures { OnOk result (out.new.items ≡ out.old.items ++ attribute_text name.now length) }
{
    let mut buffer = Buffer::new();
    out.extend_from_slice(b"attribute")?;
    put_name(out, name)?;
    put_word(out, buffer.format(length).as_bytes())
}

/// Adds a line to a text, without a line feed.
fn put_listed(alloc: Global, out: &mut Vec<u8>, listed: &Listed) -> Result<(), AllocError>
    ensures { OnOk result (out.new.items ≡ out.old.items ++ listed_text listed.now) }
{
    match listed {
        Listed::Line(line) => put_text_line(alloc, out, line),
        Listed::Attribute { name, length } => put_attribute(out, name.as_slice(), *length),
    }
}

/// Adds a line to a text.
fn put_ended(alloc: Global, out: &mut Vec<u8>, listed: &Listed) -> Result<(), AllocError>
    ensures { OnOk result (out.new.items ≡ out.old.items ++ (listed_text listed.now ++ 10 ∷ [])) }
{
    put_listed(alloc, out, listed)?;
    out.push(b'\n')?;
    Ok(())
}

/// The text of a listing.
pub(crate) fn text_of(alloc: Global, listing: &[Listed]) -> Result<Vec<u8>, AllocError>
    ensures { IfOk result (λ text. text.items ≡ listing_text listing.now) }
{
    let mut out = Vec::new(alloc);
    for listed in listing {
        put_ended(alloc, &mut out, listed)?;
    }
    Ok(out)
}
