//! Reading the whole text of an aspect.

ghost use Rattle.std.specs.Prelude.{◌≡◌, option_map, IfOk};
ghost use Rattle.jp_model.specs.declared.first_aspect.FirstAspect.{FirstAspect as Aspect};
ghost use Rattle.jp_model.specs.AspectText.{SpellsAspect};
ghost use Rattle.aspect_form.specs.Answer.{Gives, IsReadAs, view};
ghost use Rattle.aspect_form.specs.Reading.{header_at, pointcut_at, body_at, aspect_at};

use crate::fault::AspectFault;
use crate::tokens::{identifier, quoted, sign, skip_spaces, word};
use aj_names::ByteString;
use jp_model::FirstAspect;
use std::alloc::Global;

/// The longest file of an aspect, in bytes.
const LONGEST_FILE: usize = 16_777_216;

/// The parts of an aspect's text that differ from aspect to aspect.
#[derive(Clone, Copy)]
pub(crate) struct Parts<'a> {
    name: &'a [u8],
    class: &'a [u8],
    method: &'a [u8],
    text: &'a [u8],
}

/// The aspect's name, and what stands behind `aspect NAME { before():`.
#[tactic(auto, unfolding(crate::specs::Reading::header_at))]
fn header(text: &[u8]) -> Option<(&[u8], &[u8])>
    ensures { option_map (λ x. (x.0.now, x.1.now)) result ≡ header_at text.now }
{
    let rest = word(text, b"aspect")?;
    let (name, rest) = identifier(rest)?;
    let rest = sign(rest, b'{')?;
    let rest = word(rest, b"before")?;
    let rest = sign(rest, b'(')?;
    let rest = sign(rest, b')')?;
    let rest = sign(rest, b':')?;
    // An aspect of this name would hide java.lang.System from its own body.
    if name == b"System".as_slice() {
        None
    } else {
        Some((name, rest))
    }
}

/// The class and the method, and what stands behind `call(void CLASS.METHOD())`.
#[tactic(auto, unfolding(crate::specs::Reading::pointcut_at))]
fn pointcut(text: &[u8]) -> Option<(&[u8], &[u8], &[u8])>
    ensures { option_map (λ x. (x.0.now, x.1.now, x.2.now)) result ≡ pointcut_at text.now }
{
    let rest = word(text, b"call")?;
    let rest = sign(rest, b'(')?;
    let rest = word(rest, b"void")?;
    let (class, rest) = identifier(rest)?;
    let rest = sign(rest, b'.')?;
    let (method, rest) = identifier(rest)?;
    let rest = sign(rest, b'(')?;
    let rest = sign(rest, b')')?;
    let rest = sign(rest, b')')?;
    Some((class, method, rest))
}

/// The text that is printed, and what stands behind `{ System.out.println("TEXT"); }`.
#[tactic(auto, unfolding(crate::specs::Reading::body_at))]
fn body(text: &[u8]) -> Option<(&[u8], &[u8])>
    ensures { option_map (λ x. (x.0.now, x.1.now)) result ≡ body_at text.now }
{
    let rest = sign(text, b'{')?;
    let rest = word(rest, b"System")?;
    let rest = sign(rest, b'.')?;
    let rest = word(rest, b"out")?;
    let rest = sign(rest, b'.')?;
    let rest = word(rest, b"println")?;
    let rest = sign(rest, b'(')?;
    let (printed, rest) = quoted(rest)?;
    let rest = sign(rest, b')')?;
    let rest = sign(rest, b';')?;
    let rest = sign(rest, b'}')?;
    Some((printed, rest))
}

/// The parts of the whole text, if it is that of an aspect of the form.
#[tactic(auto, unfolding(crate::specs::Reading::aspect_at))]
fn parts_of(text: &[u8]) -> Option<Parts<'_>>
    ensures { option_map view result ≡ aspect_at text.now }
{
    let (name, rest) = header(text)?;
    let (class, method, rest) = pointcut(rest)?;
    let (printed, rest) = body(rest)?;
    let rest = skip_spaces(sign(rest, b'}')?);
    if !rest.is_empty() || text.len() > LONGEST_FILE {
        return None;
    }
    Some(Parts {
        name,
        class,
        method,
        text: printed,
    })
}

/// The aspect of a whole text, in memory of its own.
fn aspect_of(alloc: Global, text: &[u8]) -> Result<FirstAspect, AspectFault>
    ensures { Gives result (aspect_at text.now) }
{
    let Some(parts) = parts_of(text) else {
        return Err(AspectFault::NotBuilt);
    };
    Ok(FirstAspect {
        name: ByteString::from_slice(alloc, parts.name)?,
        class: ByteString::from_slice(alloc, parts.class)?,
        method: ByteString::from_slice(alloc, parts.method)?,
        text: ByteString::from_slice(alloc, parts.text)?,
    })
}

/// Reads the text of an aspect of the form that is built, of at most 16,777,216 bytes:
/// `aspect NAME { before(): call(void CLASS.METHOD()) { System.out.println("TEXT"); } }`, with any
/// number of blanks, tabs and line feeds between its tokens. The names are identifiers of ASCII
/// letters and digits with at most 1,000 characters, and the text has neither quotes nor backslashes.
///
/// Any other text is `NotBuilt`.
pub fn read_aspect(alloc: Global, text: &[u8]) -> Result<FirstAspect, AspectFault>
    // What is read is spelled so.
    ensures found { IfOk result (λ a. SpellsAspect text.now a) }
    // What is spelled so is read, unless memory runs out.
    ensures only { (a : Aspect) → SpellsAspect text.now a → IsReadAs result a }
{
    aspect_of(alloc, text)
}
