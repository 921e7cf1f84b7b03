ghost use Rattle.std.specs.Prelude.{◌≡◌};
ghost use Rattle.line.specs.Line.{Between};
ghost use Rattle.line.specs.Choices.{shut_with};
ghost use Rattle.line.specs.Seen.{line_seen, seen_at};

use crate::line::Line;
use crate::view::{CellView, LineView};

// What its host sees of a line and may do to it, between the calls of its users.
pub trait Hosted: Line {
    fn view(&self) -> LineView
        ensures { result ≡ line_seen (Self.Line.state self.now) };

    // The cell at a place of those that wait.
    fn cell(&self, place: usize) -> Option<CellView>
        ensures { result ≡ seen_at (Self.Line.state self.now).cells place };

    // Shuts it with a code, 0 becoming 32. A line that is shut keeps its first code.
    fn shut(&mut self, code: u32)
        ensures after { Self.Line.state self.new ≡ shut_with code (Self.Line.state self.old) }
        ensures between { Between (Self.Line.state self.old) (Self.Line.state self.new) };
}
