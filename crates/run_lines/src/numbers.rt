//! Numbers.

ghost use Rattle.std.specs.Prelude.{◌≡◌};
ghost use Rattle.run_lines.specs.Reading.{Finds};
ghost use Rattle.run_lines.specs.Numbers.{IsInt, IsLong, IsSteps};

use crate::splits::is_word;
use itoa::Buffer;
use std::str::from_utf8;

/// The int that a word is: digits without a leading zero but for `0`, and a `-` before those of a
/// negative one.
pub(crate) fn read_int(word: &[u8]) -> Option<i32>
    ensures { Finds (λ n. n) (λ n. IsInt n word.now) result }
{
    let Ok(text) = from_utf8(word) else {
        return None;
    };
    let Ok(int) = text.parse::<i32>() else {
        return None;
    };
    let mut buffer = Buffer::new();
    if is_word(buffer.format(int).as_bytes(), word) {
        Some(int)
    } else {
        None
    }
}

/// The long that a word is, without `L`.
pub(crate) fn read_long(word: &[u8]) -> Option<i64>
    ensures { Finds (λ n. n) (λ n. IsLong n word.now) result }
{
    let Ok(text) = from_utf8(word) else {
        return None;
    };
    let Ok(long) = text.parse::<i64>() else {
        return None;
    };
    let mut buffer = Buffer::new();
    if is_word(buffer.format(long).as_bytes(), word) {
        Some(long)
    } else {
        None
    }
}

/// The number of steps that a word of the command line is: digits without a leading zero but for `0`,
/// of at most 18446744073709551615.
pub fn read_steps(word: &[u8]) -> Option<u64>
    ensures { Finds (λ n. n) (λ n. IsSteps n word.now) result }
{
    let Ok(text) = from_utf8(word) else {
        return None;
    };
    let Ok(steps) = text.parse::<u64>() else {
        return None;
    };
    let mut buffer = Buffer::new();
    if is_word(buffer.format(steps).as_bytes(), word) {
        Some(steps)
    } else {
        None
    }
}
