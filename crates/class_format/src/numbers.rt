//! Reading numbers and bytes.

ghost use Rattle.std.specs.Prelude.{◌≡◌};
ghost use Rattle.std.specs.Int.{w16, w32, w64};
ghost use Rattle.class_format.specs.Gives.{GivesBy};
ghost use Rattle.class_format.specs.Readers.{number, sized, byte, content_bytes};
ghost use Rattle.class_format.specs.PoolReading.{two};

use crate::fault::ClassFault;
use crate::scope::Scope;

pub(crate) fn byte_at(scope: Scope, bytes: &[u8]) -> Result<(u8, &[u8]), ClassFault>
    ensures { GivesBy (λ x. (x.0, x.1.now)) result (byte scope bytes.now) }
{
    match bytes {
        [first, rest @ ..] => Ok((*first, rest)),
        [] => Err(scope.cut),
    }
}

pub(crate) fn u2_at(scope: Scope, bytes: &[u8]) -> Result<(u16, &[u8]), ClassFault>
    ensures { GivesBy (λ x. (x.0, x.1.now)) result (number w16 scope bytes.now) }
{
    if bytes.len() < 2 {
        return Err(scope.cut);
    }
    let (front, rest) = bytes.split_at(2);
    Ok((u16::from_be_bytes([front[0], front[1]]), rest))
}

pub(crate) fn u4_at(scope: Scope, bytes: &[u8]) -> Result<(u32, &[u8]), ClassFault>
    ensures { GivesBy (λ x. (x.0, x.1.now)) result (number w32 scope bytes.now) }
{
    if bytes.len() < 4 {
        return Err(scope.cut);
    }
    let (front, rest) = bytes.split_at(4);
    let number = u32::from_be_bytes([front[0], front[1], front[2], front[3]]);
    Ok((number, rest))
}

pub(crate) fn u8_at(scope: Scope, bytes: &[u8]) -> Result<(u64, &[u8]), ClassFault>
    ensures { GivesBy (λ x. (x.0, x.1.now)) result (number w64 scope bytes.now) }
{
    if bytes.len() < 8 {
        return Err(scope.cut);
    }
    let (front, rest) = bytes.split_at(8);
    let number = u64::from_be_bytes([
        front[0], front[1], front[2], front[3], front[4], front[5], front[6], front[7],
    ]);
    Ok((number, rest))
}

pub(crate) fn two_at(scope: Scope, bytes: &[u8]) -> Result<((u16, u16), &[u8]), ClassFault>
    ensures { GivesBy (λ x. (x.0, x.1.now)) result (two scope bytes.now) }
{
    let (first, rest) = u2_at(scope, bytes)?;
    let (second, rest) = u2_at(scope, rest)?;
    Ok(((first, second), rest))
}

/// The bytes behind their length of four bytes.
pub(crate) fn long_bytes_at(scope: Scope, bytes: &[u8]) -> Result<(&[u8], &[u8]), ClassFault>
    ensures { GivesBy (λ x. (x.0.now, x.1.now)) result (sized w32 scope bytes.now) }
{
    let (count, rest) = u4_at(scope, bytes)?;
    let count = count as usize;
    if rest.len() < count {
        return Err(scope.cut);
    }
    Ok(rest.split_at(count))
}

/// The content of an attribute behind its length, with its scope.
pub(crate) fn content_at(scope: Scope, bytes: &[u8]) -> Result<((Scope, &[u8]), &[u8]), ClassFault>
    ensures { GivesBy (λ x. ((x.0.0, x.0.1.now), x.1.now)) result (content_bytes scope bytes.now) }
{
    let (content, rest) = long_bytes_at(scope, bytes)?;
    let inner = Scope {
        cut: ClassFault::AttributeLength(scope.end.saturating_sub(bytes.len())),
        end: scope.end.saturating_sub(rest.len()),
    };
    Ok(((inner, content), rest))
}
