//! Reading the attributes of classes, fields and methods (JVMS 4.7).

ghost use Rattle.std.specs.Prelude.{◌≡◌, ℕ, List, IfOk};
ghost use Rattle.std.specs.List.{cons_option};
ghost use Rattle.class_file.specs.Pool as named;
ghost use Rattle.class_format.specs.Gives.{GivesBy};
ghost use Rattle.class_format.specs.Kinds.{kind_of, kinds_in, position_in, Marks};
ghost use Rattle.class_format.specs.PartReading.{kind_at, attribute, attributes};
ghost use Rattle.class_format.specs.PartReading as part;

use crate::code::code_at;
use crate::fault::ClassFault;
use crate::kinds::{Held, Place, Seen};
use crate::known::{Known, Role, index_at};
use crate::numbers::{content_at, u2_at};
use crate::scope::Scope;
use crate::tables::{classes_at, inner_classes_at};
use class_file::{Attribute, Content, text_at};
use class_rules::code_fault;
use sqlite_items::Items;
use std::alloc::{AllocError, Global};

/// What the format has an attribute hold, by the index of its name.
fn held_by(known: &Known<'_>, place: Place, seen: &Seen, name: u16) -> Held
    ensures { (earlier : List (List ℕ)) → Marks seen.now earlier → kind_of result ≡ kind_at (kinds_in place) known.now.pool.now earlier name }
{
    match text_at(known.pool, name) {
        Some(text) => seen.held(place, text),
        None => Held::Other,
    }
}

fn seen_with(known: &Known<'_>, seen: Seen, name: u16) -> Seen
    ensures { (earlier : List (List ℕ)) → Marks seen earlier → Marks result (cons_option (named.text_at known.now.pool.now name) earlier) }
{
    match text_at(known.pool, name) {
        Some(text) => seen.with(text),
        None => seen,
    }
}

#[tactic(auto, unfolding(crate::specs::PartReading::held))]
fn held_at<'a>(
    alloc: Global,
    known: &Known<'_>,
    held: Held,
    scope: Scope,
    bytes: &'a [u8],
) -> Result<(Content, &'a [u8]), ClassFault>
    ensures { GivesBy (λ x. (x.0, x.1.now)) result (part.held known.now.pool.now (kind_of held) scope bytes.now) }
{
    match held {
        Held::Code => {
            let (code, rest) = code_at(alloc, known, scope, bytes)?;
            Ok((Content::Code(code), rest))
        }
        Held::ConstantValue => {
            let (constant, rest) = index_at(known, Role::Constant, scope, bytes)?;
            Ok((Content::ConstantValue(constant), rest))
        }
        Held::Exceptions => {
            let (classes, rest) = classes_at(alloc, known, scope, bytes)?;
            Ok((Content::Exceptions(classes), rest))
        }
        Held::InnerClasses => {
            let (classes, rest) = inner_classes_at(alloc, known, scope, bytes)?;
            Ok((Content::InnerClasses(classes), rest))
        }
        Held::Synthetic => Ok((Content::Synthetic, bytes)),
        Held::Other => {
            let (all, rest) = bytes.split_at(bytes.len());
            Ok((Content::Other(Items::from_slice(alloc, all)?), rest))
        }
    }
}

/// Where the code of an attribute is wrong, if it holds any.
fn fault_in(alloc: Global, known: &Known<'_>, content: &Content) -> Result<Option<u32>, AllocError>
    ensures { IfOk result (λ place. place ≡ part.fault_in known.now.major known.now.pool.now content.now) }
{
    match content {
        Content::Code(code) => code_fault(alloc, known.major, known.pool, code),
        _ => Ok(None),
    }
}

/// An attribute behind those of the names that were seen.
#[tactic(auto, unfolding(crate::specs::PartReading::attribute))]
fn attribute_at<'a>(
    alloc: Global,
    known: &Known<'_>,
    place: Place,
    seen: &Seen,
    scope: Scope,
    bytes: &'a [u8],
) -> Result<(Attribute, &'a [u8]), ClassFault>
    ensures { (earlier : List (List ℕ)) → Marks seen.now earlier → GivesBy (λ x. (x.0, x.1.now)) result (attribute (kinds_in place) known.now.major known.now.pool.now (position_in place) earlier scope bytes.now) }
{
    let (name, rest) = index_at(known, Role::Text, scope, bytes)?;
    let ((inner, held), rest) = content_at(scope, rest)?;
    let (content, left) = held_at(alloc, known, held_by(known, place, seen, name), inner, held)?;
    if !left.is_empty() {
        return Err(inner.cut);
    }
    if let Some(pc) = fault_in(alloc, known, &content)? {
        return Err(ClassFault::Code(place.position(), pc));
    }
    Ok((Attribute { name, content }, rest))
}

/// The attributes of a class, a field or a method.
#[tactic(auto, unfolding(crate::specs::PartReading::attributes))]
pub(crate) fn attributes_at<'a>(
    alloc: Global,
    known: &Known<'_>,
    place: Place,
    scope: Scope,
    bytes: &'a [u8],
) -> Result<(Items<Attribute>, &'a [u8]), ClassFault>
    ensures { GivesBy (λ x. (x.0, x.1.now)) result (attributes (kinds_in place) known.now.major known.now.pool.now (position_in place) scope bytes.now) }
{
    let (count, mut rest) = u2_at(scope, bytes)?;
    let mut attributes = Items::new(alloc);
    let mut seen = Seen::none();
    for _ in 0..count {
        let (attribute, after) = attribute_at(alloc, known, place, &seen, scope, rest)?;
        seen = seen_with(known, seen, attribute.name);
        attributes.push(attribute)?;
        rest = after;
    }
    Ok((attributes, rest))
}
