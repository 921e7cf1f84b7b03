ghost use Rattle.protocol.specs.Limits.{limits};
ghost use Rattle.line.specs.Bounds.{RingBound-prop};
ghost use Rattle.line.specs.Ring.{ring_choices, GivesMost, RingBound};

use crate::marks::Marks;
use crate::queue::Queue;
use crate::share::Share;
use crate::sizes::{RING_BYTES, RING_FDS};
use crate::store::Store;
use crate::view::CellView;
use protocol::{LIMITS, OwnedFd};
use std::marker::Model;

// The cells that wait in a ring: a queue of bytes, one of duplicates, and how many of these each byte carries.
#[derive(Drop)]
pub struct Cells {
    bytes: Queue<u8, RING_BYTES>,
    fds: Queue<OwnedFd, RING_FDS>,
    marks: Marks,
}

impl Model for Cells {
    ghost use Rattle.std.specs.Prelude.{◌≡◌, List, length, sum};
    ghost use Rattle.line.specs.Counted.{cells_from};
    ghost use Rattle.line.specs.Line.{Cell};

    ghost Value = { List Cell };

    ghost view = { λ c. cells_from c.bytes c.marks c.fds };

    ghost invariant = { λ c. (length c.marks ≡ length c.bytes) × (sum c.marks ≡ length c.fds) };
}

impl Store for Cells {
    ghost cells = { λ c. c };

    ghost choices = { ring_choices limits };

    ghost most = { GivesMost limits };

    ghost bound = { RingBound };

    ghost bound_once = { RingBound-prop };

    fn new() -> Cells {
        Cells {
            bytes: Queue::new(0),
            fds: Queue::new(OwnedFd(0)),
            marks: Marks::new(),
        }
    }

    #[tactic(auto, using(crate::proofs::Counting::length_from))]
    fn len(&self) -> usize {
        self.bytes.len()
    }

    // None, if the duplicates of a send might find no room.
    #[tactic(auto, using(crate::proofs::Rings::window_none, crate::proofs::Rings::window_some))]
    fn window(&self) -> usize {
        if RING_FDS - self.fds.len() < LIMITS.descriptors {
            0
        } else {
            RING_BYTES - self.bytes.len()
        }
    }

    #[tactic(auto, using(crate::proofs::Rings::bytes_room, crate::proofs::Rings::fds_room, crate::proofs::Rings::put_cells))]
    fn put(&mut self, bytes: &[u8], fds: &[OwnedFd]) {
        self.marks.note(bytes.len(), fds.len());
        self.bytes.put(bytes);
        self.fds.put(fds);
    }

    // As many cells as may be given.
    fn give(&mut self, bytes: &mut [u8], fds: &mut [OwnedFd]) -> Share {
        let share = self.marks.take(bytes.len());
        self.bytes.take(&mut bytes[..share.bytes]);
        self.fds.take(&mut fds[..share.fds]);
        share
    }

    #[tactic(auto, using(crate::proofs::Counting::length_from, crate::proofs::Counting::seen_from, crate::proofs::Seeing::past, crate::proofs::Seeing::seen_past))]
    fn view(&self, place: usize) -> Option<CellView> {
        let byte = self.bytes.get(place)?;
        let fds = self.marks.fds_at(place);
        Some(CellView { byte, fds })
    }

    ghost refused = { λ cells asked why. tt };
}
