ghost use Rattle.protocol.specs.Limits.{limits};
ghost use Rattle.line.specs.Line.{State, EachFew, Sent, Received};

use protocol::{OwnedFd, Refusal};

// Carries bytes one way, with duplicates beside them. docs/LINES.md has its meaning in words.
pub trait Line {
    // the cells that wait, the window and the shut code
    ghost state: { Self → State };

    // no cell has more duplicates than one send may carry
    ghost few: { (line : Self) → EachFew limits.descriptors (state line).cells };

    // Takes as many first bytes as the window allows, with all duplicates on the first, and answers how many.
    fn send(&mut self, bytes: &[u8], fds: &[OwnedFd]) -> Result<usize, Refusal>
        ensures sent { Sent limits (state self.old) bytes.now fds.now result (state self.new) };

    // Gives some of the first cells: their bytes and duplicates go to the front of the two buffers. Answers how many of each.
    fn receive(&mut self, bytes: &mut [u8], fds: &mut [OwnedFd]) -> Result<(usize, usize), Refusal>
        ensures received { Received limits (state self.old) bytes.old fds.old result bytes.new fds.new (state self.new) };
}
