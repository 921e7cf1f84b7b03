ghost use Rattle.protocol.specs.Limits.{limits};
ghost use Rattle.line.specs.Bounds.{EachFew-prop};
ghost use Rattle.line.specs.Line.{EachFew};

use crate::checks::{check_receive, check_send, first_code};
use crate::hosted::Hosted;
use crate::line::Line;
use crate::store::Store;
use crate::view::{CellView, LineView};
use protocol::{OwnedFd, Refusal};

// A line over a store: it checks what is asked of it, and keeps the code that it is shut with.
#[derive(Drop)]
pub struct Stored<S: Store> {
    store: S,
    // 0 while it is open: the meaning of a line fixes this number, so it is no `Option`
    shut: u32,
    ghost few: { EachFew limits.descriptors (S.cells store) } by { EachFew-prop limits.descriptors (S.cells store) },
    ghost bounded: { S.bound (S.cells store) } by { S.bound_once (S.cells store) },
}

impl<S: Store> Stored<S> {
    ghost use Rattle.std.specs.Prelude.{◌≡◌, []};
    ghost use Rattle.line.specs.Choices.{state_by};
    ghost use Rattle.line.specs.StoredView.{stored_state};

    // An open line with nothing on it.
    pub fn new() -> Stored<S>
        ensures { stored_state result ≡ state_by S.choices [] 0 }
    {
        Stored {
            store: S::new(),
            shut: 0,
        }
    }
}

impl<S: Store> Line for Stored<S> {
    ghost use Rattle.std.specs.Prelude.{length};
    ghost use Rattle.line.specs.Choices.{SentBy, ReceivedBy};
    ghost use Rattle.line.specs.Line.{Sent, Received};
    ghost use Rattle.line.specs.StoredView.{stored_state, stored_few};

    ghost state = { stored_state };

    ghost few = { stored_few };

    #[tactic(auto, using(crate::proofs::Seeing::few_put))]
    fn send(&mut self, bytes: &[u8], fds: &[OwnedFd]) -> Result<usize, Refusal>
        ensures sent { Sent limits (stored_state self.old) bytes.now fds.now result (stored_state self.new) }
        ensures chosen { SentBy S.choices (stored_state self.old) bytes.now fds.now result (stored_state self.new) }
    {
        let window = self.store.window();
        check_send(window, self.shut, bytes.len(), fds.len())?;
        let n = bytes.len().min(window);
        self.store.put(&bytes[..n], fds);
        Ok(n)
    }

    fn receive(&mut self, bytes: &mut [u8], fds: &mut [OwnedFd]) -> Result<(usize, usize), Refusal>
        ensures received { Received limits (stored_state self.old) bytes.old fds.old result bytes.new fds.new (stored_state self.new) }
        ensures chosen { ReceivedBy S.choices (stored_state self.old) (length bytes.old) result (stored_state self.new) }
        ensures most { S.most (stored_state self.old).cells (length bytes.old) result }
    {
        check_receive(self.store.len(), self.shut, bytes.len(), fds.len())?;
        let share = self.store.give(bytes, fds);
        Ok((share.bytes, share.fds))
    }
}

impl<S: Store> Hosted for Stored<S> {
    fn view(&self) -> LineView {
        LineView {
            waiting: self.store.len(),
            window: self.store.window(),
            shut: self.shut,
        }
    }

    fn cell(&self, place: usize) -> Option<CellView> {
        self.store.view(place)
    }

    fn shut(&mut self, code: u32) {
        self.shut = first_code(self.shut, code);
    }
}
