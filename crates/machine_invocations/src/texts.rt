//! Texts that endings show.

ghost use Rattle.std.specs.Prelude.{◌≡◌, List, ℕ, IfOk};
ghost use Rattle.class_machine.specs.Classes.{reference, dotted, member_text};

use aj_names::Items;
use std::alloc::{AllocError, Global};

// The name with dots for its slashes.
fn dotted(alloc: Global, name: &[u8]) -> Result<Vec<u8>, AllocError>
    ensures { IfOk result (λ text. text.items ≡ dotted name.now) }
{
    name.iter()
        .map(|b| if *b == b'/' { b'.' } else { *b })
        .collect(alloc)
}

/// The dotted name of a class, a dot and a member's name.
pub fn member_text(alloc: Global, class: &[u8], name: &[u8]) -> Result<Items<u8>, AllocError>
    ensures { IfOk result (λ text. (descriptor : List ℕ) → text ≡ member_text (reference class.now name.now descriptor)) }
{
    let mut text = dotted(alloc, class)?;
    text.push(b'.')?;
    text.extend_from_slice(name)?;
    Ok(Items::from_vec(text))
}
