//! Where a text is cut.

ghost use Rattle.std.specs.Prelude.{◌≡◌, ◌↔◌, [], ◌∷◌, ◌++◌, IsTrue};
ghost use Rattle.run_lines.specs.Reading.{Finds};
ghost use Rattle.run_lines.specs.Splits.{Text, IsFirstSplit, IsLastSplit, IsStopSplit, is_stop};

/// Whether these are the bytes.
pub(crate) fn is_word(word: &[u8], text: &[u8]) -> bool
    ensures { IsTrue result ↔ (word.now ≡ text.now) }
{
    word == text
}

/// What stands behind this byte at the front.
pub(crate) fn behind_byte(text: &[u8], byte: u8) -> Option<&[u8]>
    ensures { Finds (λ behind. behind.now) (λ behind. text.now ≡ byte ∷ behind) result }
{
    let (first, behind) = text.split_first()?;
    if *first == byte { Some(behind) } else { None }
}

/// What stands before this byte at the end.
pub(crate) fn before_byte(text: &[u8], byte: u8) -> Option<&[u8]>
    ensures { Finds (λ before. before.now) (λ before. text.now ≡ before ++ byte ∷ []) result }
{
    let (last, before) = text.split_last()?;
    if *last == byte { Some(before) } else { None }
}

/// What stands before and behind the first such byte.
pub(crate) fn split_at_first(text: &[u8], byte: u8) -> Option<(&[u8], &[u8])>
    ensures { Finds {Y = Text × Text} (λ parts. (parts.0.now, parts.1.now)) (λ parts. IsFirstSplit byte text.now parts.0 parts.1) result }
{
    for (place, found) in text.iter().enumerate() {
        if *found == byte {
            return Some((&text[..place], &text[place + 1..]));
        }
    }
    None
}

/// What stands before and behind the last such byte.
pub(crate) fn split_at_last(text: &[u8], byte: u8) -> Option<(&[u8], &[u8])>
    ensures { Finds {Y = Text × Text} (λ parts. (parts.0.now, parts.1.now)) (λ parts. IsLastSplit byte text.now parts.0 parts.1) result }
{
    let mut place = text.len();
    while place > 0 {
        place -= 1;
        if text[place] == byte {
            return Some((&text[..place], &text[place + 1..]));
        }
    }
    None
}

fn is_stop(byte: u8) -> bool
    ensures { result ≡ is_stop byte }
{
    matches!(byte, b',' | b')')
}

/// What stands before the first comma or closing bracket, and what begins with that.
pub(crate) fn split_at_stop(text: &[u8]) -> Option<(&[u8], &[u8])>
    ensures { Finds {Y = Text × Text} (λ parts. (parts.0.now, parts.1.now)) (λ parts. IsStopSplit text.now parts.0 parts.1) result }
{
    for (place, found) in text.iter().enumerate() {
        if is_stop(*found) {
            return Some((&text[..place], &text[place..]));
        }
    }
    None
}
