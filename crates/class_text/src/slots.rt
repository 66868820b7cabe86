//! How many slots the arguments of a call take.

ghost use Rattle.std.specs.Prelude.{◌≡◌, ◌≤◌, ◌*◌, length};
ghost use Rattle.class_text.specs.declared.slots.Scan.{Scan};
ghost use Rattle.class_text.specs.Bytes as rule;

/// Where a byte of a descriptor stands (JVMS 4.3.3).
#[derive(Clone, Copy, Debug, PartialEq, Eq)]
pub(crate) enum Scan {
    /// Where a type may begin.
    Type,
    /// Behind the brackets of an array type.
    Array,
    /// In the name of a class.
    Name,
}

impl Scan {
    fn after(self, byte: u8) -> Scan
        ensures { result ≡ rule.scan_after self byte }
    {
        match (self, byte) {
            (Scan::Name, b';') => Scan::Type,
            (Scan::Name, _) => Scan::Name,
            (_, b'[') => Scan::Array,
            (_, b'L') => Scan::Name,
            _ => Scan::Type,
        }
    }

    fn slots(self, byte: u8) -> u128
        ensures { result ≡ rule.slots_of self byte }
    {
        match (self, byte) {
            (Scan::Type, b'J' | b'D') => 2,
            (Scan::Type, _) => 1,
            _ => 0,
        }
    }

    fn is_last(self, byte: u8) -> bool
        ensures { result ≡ rule.is_last self byte }
    {
        self == Scan::Type && byte == b')'
    }
}

/// The slots of the parameters behind the first byte of a descriptor.
fn parameter_slots(bytes: &[u8]) -> u128
    ensures exact { result ≡ rule.slots Scan.Type bytes.now }
    ensures few { result ≤ 2 * length bytes.now }
{
    let mut scan = Scan::Type;
    let mut slots = 0;
    let mut rest = bytes;
    while let [byte, behind @ ..] = rest {
        if scan.is_last(*byte) {
            break;
        }
        slots += scan.slots(*byte);
        scan = scan.after(*byte);
        rest = behind;
    }
    slots
}

/// The slots of the receiver and the parameters of a method's descriptor.
pub(crate) fn argument_slots(descriptor: &[u8]) -> u128
    ensures { result ≡ rule.argument_slots descriptor.now }
{
    match descriptor {
        [_, parameters @ ..] => 1 + parameter_slots(parameters),
        [] => 1,
    }
}
