//! Numbers of class text.

ghost use Rattle.std.specs.Prelude.{◌≡◌, ◌<◌, ◌≤◌, ◌+◌, ◌*◌, ◌^◌, ◌&&◌, nat_le, if◌then◌else◌, Some, None, pos, negsuc, ◌≤ℤ◌, neg_ℤ, IfSome};
ghost use Rattle.std.specs.Char.{digit_value};
ghost use Rattle.class_lines.specs.Numbers.{is_digit, number, integer, hexadecimal};

/// The number with one more digit at its end, if it is at most so much.
fn with_digit(radix: u64, most: u64, value: u64, digit: u8) -> Option<u64>
    requires low { 2 ≤ radix }
    requires high { radix ≤ 16 }
    ensures { result ≡ (if is_digit radix digit && nat_le (value * radix + digit_value digit) most then Some (value * radix + digit_value digit) else None) }
{
    let digit = char::from(digit).to_digit(radix as u32)?;
    let value = value.checked_mul(radix)?.checked_add(u64::from(digit))?;
    if value <= most { Some(value) } else { None }
}

/// A number of one digit or more of the radix, of at most this value.
#[tactic(auto, unfolding(crate::specs::Numbers::number))]
pub(crate) fn number(radix: u64, most: u64, digits: &[u8]) -> Option<u64>
    requires low { 2 ≤ radix }
    requires high { radix ≤ 16 }
    ensures exact { result ≡ number radix most digits.now }
    ensures range { IfSome result (λ n. n ≤ most) }
{
    let mut value = 0u64;
    for digit in digits {
        value = with_digit(radix, most, value, *digit)?;
    }
    if digits.is_empty() { None } else { Some(value) }
}

fn negative(n: u64) -> i64
    requires { n ≤ 2 ^ 63 }
    ensures { result ≡ neg_ℤ (pos n) }
{
    (-i128::from(n)) as i64
}

/// A decimal number from `-(most + 1)` to `most`.
#[tactic(auto, unfolding(crate::specs::Numbers::integer))]
pub(crate) fn integer(most: u64, word: &[u8]) -> Option<i64>
    requires { most < 2 ^ 63 }
    ensures exact { result ≡ integer most word.now }
    ensures range { IfSome result (λ z. (negsuc most ≤ℤ z) × (z ≤ℤ pos most)) }
{
    match word {
        [] => None,
        [b'-', digits @ ..] => Some(negative(number(10, most + 1, digits)?)),
        _ => Some(number(10, most, word)? as i64),
    }
}

/// So many digits of a number in base 16, of at most this value.
#[tactic(auto, unfolding(crate::specs::Numbers::hexadecimal))]
pub(crate) fn hexadecimal(count: usize, most: u64, word: &[u8]) -> Option<u64>
    ensures exact { result ≡ hexadecimal count most word.now }
    ensures range { IfSome result (λ n. n ≤ most) }
{
    if word.len() == count {
        number(16, most, word)
    } else {
        None
    }
}
