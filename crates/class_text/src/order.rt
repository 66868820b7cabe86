//! Where lines stand.

ghost use Rattle.std.specs.Prelude.{◌≡◌};
ghost use Rattle.class_text.specs.declared.order.Place.{Place};
ghost use Rattle.class_text.specs.Order.{stands, place_after, ends, misplaced};

use crate::numbered::Numbered;
use class_lines::Line;

/// Where a line stands: before the class, behind it but in no method, or in a method.
#[derive(Clone, Copy, Debug, PartialEq, Eq)]
pub(crate) enum Place {
    Start,
    Outside,
    Inside,
}

impl Place {
    /// Whether a line may stand here.
    fn takes(self, line: &Option<Line>) -> bool
        ensures { result ≡ stands self line.now }
    {
        match (self, line) {
            (Place::Start, Some(Line::Class { .. })) => true,
            (Place::Outside, Some(Line::Field(_) | Line::Method { .. } | Line::Bare(_))) => true,
            (Place::Inside, Some(Line::Step { .. } | Line::Catch { .. } | Line::End)) => true,
            _ => false,
        }
    }

    /// Where the line behind a line stands.
    fn after(self, line: &Option<Line>) -> Place
        ensures { result ≡ place_after self line.now }
    {
        match line {
            Some(Line::Class { .. } | Line::End) => Place::Outside,
            Some(Line::Method { .. }) => Place::Inside,
            _ => self,
        }
    }

    /// The fault of a text that ends here.
    fn end(self, last: usize) -> Option<usize>
        ensures { result ≡ ends self last }
    {
        match self {
            Place::Outside => None,
            _ => Some(last),
        }
    }
}

/// The number of the first line that isn't of the form or stands at a wrong place, the line behind
/// the last one where the text ends at a wrong place.
pub(crate) fn misplaced(last: usize, lines: &[Numbered]) -> Option<usize>
    ensures { result ≡ misplaced last Place.Start lines.now }
{
    let mut place = Place::Start;
    let mut rest = lines;
    while let [line, behind @ ..] = rest {
        if !place.takes(&line.line) {
            return Some(line.number);
        }
        place = place.after(&line.line);
        rest = behind;
    }
    place.end(last)
}
