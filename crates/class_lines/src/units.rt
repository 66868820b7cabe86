//! The UTF-16 units of a text in modified UTF-8.

ghost use Rattle.std.specs.Prelude.{◌≡◌, ◌<◌, ◌∷◌, [], length, IfNone, IfSome};
ghost use Rattle.class_lines.specs.Units.{unit_of_two, unit_of_three, units_of};

/// The unit of two bytes.
fn unit_of_two(first: u8, second: u8) -> u16
    ensures { result ≡ unit_of_two first second }
{
    u16::from(first % 32) * 64 + u16::from(second % 64)
}

/// The unit of three bytes.
fn unit_of_three(first: u8, second: u8, third: u8) -> u16
    ensures { result ≡ unit_of_three first second third }
{
    u16::from(first % 16) * 4096 + u16::from(second % 64) * 64 + u16::from(third % 64)
}

/// The UTF-16 unit at the front of a text in modified UTF-8 (JVMS 4.4.7), and what stands behind it. A
/// byte that begins no unit stands for itself.
pub(crate) fn first_unit(text: &[u8]) -> Option<(u16, &[u8])>
    ensures none { IfNone result (units_of text.now ≡ []) }
    ensures one { IfSome result (λ x. units_of text.now ≡ x.0 ∷ units_of x.1.now) }
    ensures shorter { IfSome result (λ x. length x.1.now < length text.now) }
{
    match text {
        [] => None,
        [first, rest @ ..] if *first < 0x80 => Some((u16::from(*first), rest)),
        [first, second, third, rest @ ..] if *first >= 0xe0 => {
            Some((unit_of_three(*first, *second, *third), rest))
        }
        [first, second, rest @ ..] => Some((unit_of_two(*first, *second), rest)),
        [first, rest @ ..] => Some((u16::from(*first), rest)),
    }
}
