//! Reading fields and methods (JVMS 4.5, 4.6).

ghost use Rattle.std.specs.Prelude.{◌≡◌};
ghost use Rattle.class_format.specs.Gives.{GivesBy};
ghost use Rattle.class_format.specs.PartReading.{field, method};
ghost use Rattle.class_format.specs.Reading.{fields, methods};

use crate::attributes::attributes_at;
use crate::fault::ClassFault;
use crate::kinds::Place;
use crate::known::{Known, Role, index_at};
use crate::numbers::u2_at;
use crate::scope::Scope;
use class_file::{AccessFlags, Member};
use sqlite_items::Items;
use std::alloc::Global;

/// The flag of a method that has no receiver (JVMS 4.6).
const STATIC: u16 = 0x0008;

#[tactic(auto, unfolding(crate::specs::PartReading::field, crate::specs::PartReading::head))]
fn field_at<'a>(
    alloc: Global,
    known: &Known<'_>,
    scope: Scope,
    bytes: &'a [u8],
) -> Result<(Member, &'a [u8]), ClassFault>
    ensures { GivesBy (λ x. (x.0, x.1.now)) result (field known.now.major known.now.pool.now scope bytes.now) }
{
    let (flags, rest) = u2_at(scope, bytes)?;
    let (name, rest) = index_at(known, Role::Name, scope, rest)?;
    let (descriptor, rest) = index_at(known, Role::FieldType, scope, rest)?;
    let (attributes, rest) = attributes_at(alloc, known, Place::Field, scope, rest)?;
    let field = Member {
        flags: AccessFlags(flags),
        name,
        descriptor,
        attributes,
    };
    Ok((field, rest))
}

/// The method of a position.
#[tactic(auto, unfolding(crate::specs::PartReading::method, crate::specs::PartReading::head))]
fn method_at<'a>(
    alloc: Global,
    known: &Known<'_>,
    position: u16,
    scope: Scope,
    bytes: &'a [u8],
) -> Result<(Member, &'a [u8]), ClassFault>
    ensures { GivesBy (λ x. (x.0, x.1.now)) result (method known.now.major known.now.pool.now position scope bytes.now) }
{
    let (flags, rest) = u2_at(scope, bytes)?;
    let (name, rest) = index_at(known, Role::Name, scope, rest)?;
    let role = Role::MethodType(flags & STATIC == 0);
    let (descriptor, rest) = index_at(known, role, scope, rest)?;
    let (attributes, rest) = attributes_at(alloc, known, Place::Method(position), scope, rest)?;
    let method = Member {
        flags: AccessFlags(flags),
        name,
        descriptor,
        attributes,
    };
    Ok((method, rest))
}

#[tactic(auto, unfolding(crate::specs::Reading::fields))]
pub(crate) fn fields_at<'a>(
    alloc: Global,
    known: &Known<'_>,
    scope: Scope,
    bytes: &'a [u8],
) -> Result<(Items<Member>, &'a [u8]), ClassFault>
    ensures { GivesBy (λ x. (x.0, x.1.now)) result (fields known.now.major known.now.pool.now scope bytes.now) }
{
    let (count, mut rest) = u2_at(scope, bytes)?;
    let mut fields = Items::new(alloc);
    for _ in 0..count {
        let (field, after) = field_at(alloc, known, scope, rest)?;
        fields.push(field)?;
        rest = after;
    }
    Ok((fields, rest))
}

#[tactic(auto, unfolding(crate::specs::Reading::methods))]
pub(crate) fn methods_at<'a>(
    alloc: Global,
    known: &Known<'_>,
    scope: Scope,
    bytes: &'a [u8],
) -> Result<(Items<Member>, &'a [u8]), ClassFault>
    ensures { GivesBy (λ x. (x.0, x.1.now)) result (methods known.now.major known.now.pool.now scope bytes.now) }
{
    let (count, mut rest) = u2_at(scope, bytes)?;
    let mut methods = Items::new(alloc);
    for position in 0..count {
        let (method, after) = method_at(alloc, known, position, scope, rest)?;
        methods.push(method)?;
        rest = after;
    }
    Ok((methods, rest))
}
