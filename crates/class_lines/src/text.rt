//! Lines in UTF-8, as a person writes them.

ghost use Rattle.class_lines.specs.Words.{Gives};
ghost use Rattle.class_lines.specs.Heard.{heard};

use crate::fault::LineFault;
use crate::line::Line;
use crate::reading::read_line;
use crate::recoding::modified;
use std::alloc::Global;

/// What a line in UTF-8 says; nothing where it has blanks alone or is a comment. The line has no line
/// feed. `Form` comes exactly where it isn't UTF-8, or isn't of the form once it is in the modified
/// UTF-8 of a class file (JVMS 4.4.7). `Memory`.
#[tactic(auto, unfolding(crate::specs::Heard::heard))]
pub fn read_text_line(alloc: Global, line: &[u8]) -> Result<Option<Line>, LineFault>
    ensures exact { Gives result (heard line.now) }
{
    let bytes = modified(alloc, line)?;
    read_line(alloc, bytes.as_slice())
}
