ghost use Rattle.std.specs.Prelude.{◌≡◌, ℕ, ◌<◌, ◌≤◌, List, [], ◌++◌, length, Ok, Err, Result};
ghost use Rattle.protocol.specs.Limits.{limits};
ghost use Rattle.protocol.specs.declared.refusal.Refusal.{Refusal};
ghost use Rattle.line.specs.Checks.{Receivable};
ghost use Rattle.line.specs.Choices.{Choices, Gone};
ghost use Rattle.line.specs.Line.{Cell, cells_of};
ghost use Rattle.line.specs.Seen.{seen_at};

use crate::share::Share;
use crate::view::CellView;
use protocol::OwnedFd;

// Where a kind of line keeps the cells that wait, and what the kind chooses. The kinds are those of this crate.
pub(crate) trait Store {
    // the cells that wait, in their order
    ghost cells: { Self → List Cell };

    // the window, and how many cells are given
    ghost choices: { Choices };

    // what the kind promises of how many cells are given, beyond its choices: with these waiting, so many bytes asked for, and what a receive answers
    ghost most: { List Cell → ℕ → Result (ℕ × ℕ) Refusal → Type 0 };

    // what holds of the cells that wait, whatever came before
    ghost bound: { List Cell → Type 0 };

    // there is at most one proof of it, so that a line may keep one
    ghost bound_once: { (cells : List Cell) → IsProp (bound cells) };

    fn new() -> Self
        ensures none { cells result ≡ [] }
        ensures bound { bound (cells result) };

    fn len(&self) -> usize
        ensures { result ≡ length (cells self.now) };

    // How many more bytes are taken.
    fn window(&self) -> usize
        ensures { result ≡ choices.window (cells self.now) };

    // Puts bytes behind those that wait, with all duplicates on the first.
    fn put(&mut self, bytes: &[u8], fds: &[OwnedFd])
        requires some { 0 < length bytes.now }
        requires room { length bytes.now ≤ choices.window (cells self.old) }
        requires few { length fds.now ≤ limits.descriptors }
        ensures after { cells self.new ≡ cells self.old ++ cells_of bytes.now fds.now }
        ensures bound { bound (cells self.new) };

    // Gives some of the first cells: they go to the front of the two buffers.
    fn give(&mut self, bytes: &mut [u8], fds: &mut [OwnedFd]) -> Share
        requires { Receivable limits (length (cells self.old)) (length bytes.old) (length fds.old) }
        ensures gone { Gone limits choices (cells self.old) bytes.old fds.old result.bytes result.fds bytes.new fds.new (cells self.new) }
        ensures most { most (cells self.old) (length bytes.old) (Ok (result.bytes, result.fds)) }
        ensures bound { bound (cells self.new) };

    fn view(&self, place: usize) -> Option<CellView>
        ensures { result ≡ seen_at (cells self.now) place };

    // a refusal gives no cells, and so keeps it
    ghost refused: { (cells : List Cell) (asked : ℕ) (why : Refusal) → most cells asked (Err why) };
}
