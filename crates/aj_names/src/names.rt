//! Names of classes and members.

ghost use Rattle.std.specs.Prelude.{◌≡◌, ◌↔◌, IsTrue};
ghost use Rattle.aj_names.specs.Names.{IsMemberName, IsClassName};
ghost use Rattle.aj_names.specs.Reading.{Gives, lead as first_byte, name_after, may_end, ends_name, class_at};
ghost use Rattle.aj_names.specs.declared.names.NameState.TheVariants as states;

/// Whether a name is one part, or may have several with `/` between them.
#[derive(Clone, Copy)]
pub(crate) enum NameKind {
    Member,
    Class,
}

/// Where a scan of a name stands.
#[derive(Clone, Copy)]
pub(crate) enum NameState {
    /// At the start of a part.
    Start,
    /// Behind a whole character of a part.
    Inside,
    /// Before the last byte of a character.
    Last,
    /// Behind E0, which begins a character from 800 on.
    BehindE0,
    /// Before the second byte of three.
    Middle,
    /// Behind ED, which begins a character below D800 or a surrogate.
    BehindED,
    /// Before the last byte of a high surrogate.
    HighLast,
    /// Before a low surrogate.
    LowLead,
    /// Before the second byte of a low surrogate.
    LowMiddle,
}

// Where the first byte of a character leads.
fn lead(byte: u8) -> Option<NameState>
    ensures { result ≡ first_byte byte }
{
    match byte {
        0 | b'.' | b'/' | b';' | b'[' => None,
        0x01..=0x7f => Some(NameState::Inside),
        0xc2..=0xdf => Some(NameState::Last),
        0xe0 => Some(NameState::BehindE0),
        0xed => Some(NameState::BehindED),
        0xe1..=0xef => Some(NameState::Middle),
        _ => None,
    }
}

impl NameState {
    // Where a byte leads, unless no name goes on with it.
    fn after(self, kind: NameKind, byte: u8) -> Option<NameState>
        ensures { result ≡ name_after kind self byte }
    {
        match (self, byte) {
            (NameState::Inside, b'/') => match kind {
                NameKind::Member => None,
                NameKind::Class => Some(NameState::Start),
            },
            (NameState::Start | NameState::Inside, _) => lead(byte),
            (NameState::Last, 0x80..=0xbf) => Some(NameState::Inside),
            (NameState::BehindE0, 0xa0..=0xbf) => Some(NameState::Last),
            (NameState::Middle, 0x80..=0xbf) => Some(NameState::Last),
            (NameState::BehindED, 0x80..=0x9f) => Some(NameState::Last),
            (NameState::BehindED, 0xa0..=0xaf) => Some(NameState::HighLast),
            (NameState::HighLast, 0x80..=0xbf) => Some(NameState::LowLead),
            (NameState::LowLead, 0xed) => Some(NameState::LowMiddle),
            (NameState::LowMiddle, 0xb0..=0xbf) => Some(NameState::Last),
            _ => None,
        }
    }

    fn may_end(self) -> bool
        ensures { result ≡ may_end self }
    {
        matches!(self, NameState::Inside)
    }
}

fn is_name(kind: NameKind, bytes: &[u8]) -> bool
    ensures { result ≡ ends_name kind states.Start bytes.now }
{
    let mut state = NameState::Start;
    for byte in bytes {
        match state.after(kind, *byte) {
            Some(next) => state = next,
            None => return false,
        }
    }
    state.may_end()
}

// A class name up to its `;`, and the bytes after that.
pub(crate) fn class_name_at(bytes: &[u8]) -> Result<(&[u8], &[u8]), usize>
    ensures { Gives (λ x. (x.0.now, x.1.now)) result (class_at states.Start bytes.now) }
{
    let mut state = NameState::Start;
    for (i, byte) in bytes.iter().enumerate() {
        match state.after(NameKind::Class, *byte) {
            Some(next) => state = next,
            None if state.may_end() && *byte == b';' => {
                return Ok((&bytes[..i], &bytes[i + 1..]));
            }
            None => return Err(bytes.len() - i),
        }
    }
    Err(0)
}

/// Whether the bytes are the name of a class or interface: one or more parts with `/` between them
/// (JVMS 4.2).
pub fn is_class_name(bytes: &[u8]) -> bool
    ensures { IsTrue result ↔ IsClassName bytes.now }
{
    is_name(NameKind::Class, bytes)
}

/// Whether the bytes are the name of a member, or one part of a class name (JVMS 4.2).
pub fn is_member_name(bytes: &[u8]) -> bool
    ensures { IsTrue result ↔ IsMemberName bytes.now }
{
    is_name(NameKind::Member, bytes)
}
