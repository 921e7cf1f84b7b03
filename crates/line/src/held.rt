ghost use Rattle.protocol.specs.Limits.{limits};
ghost use Rattle.line.specs.Bounds.{ParcelBound-prop};
ghost use Rattle.line.specs.Parcel.{parcel_choices, ParcelBound};

use crate::batch::Batch;
use crate::share::Share;
use crate::store::Store;
use crate::view::CellView;
use protocol::{LIMITS, OwnedFd};
use std::marker::Model;

const SEND_BYTES: usize = LIMITS.bytes;

const SEND_FDS: usize = LIMITS.descriptors;

// The cells that wait in a parcel line: bytes of one send, with the duplicates on the first of them.
// What is alike in `Cells` is calls of what keeps the items: a type for both pairs would pass the same calls on.
#[derive(Drop)]
pub struct Held {
    bytes: Batch<u8, SEND_BYTES>,
    fds: Batch<OwnedFd, SEND_FDS>,
}

impl Model for Held {
    ghost use Rattle.std.specs.Prelude.{◌≡◌, List, length};
    ghost use Rattle.line.specs.Line.{Cell, cells_of};

    ghost Value = { List Cell };

    ghost view = { λ h. cells_of h.bytes h.fds };

    ghost invariant = { λ h. length h.bytes ≡ 0 → length h.fds ≡ 0 };
}

impl Store for Held {
    ghost cells = { λ h. h };

    ghost choices = { parcel_choices limits };

    // nothing: its choices say all
    ghost most = { λ cells asked answer. Unit {0} };

    ghost bound = { ParcelBound limits };

    ghost bound_once = { ParcelBound-prop limits };

    fn new() -> Held {
        Held {
            bytes: Batch::new(0),
            fds: Batch::new(OwnedFd(0)),
        }
    }

    #[tactic(auto, using(crate::proofs::Seeing::length_cells))]
    fn len(&self) -> usize {
        self.bytes.len()
    }

    // A whole send, once nothing waits.
    #[tactic(auto, using(crate::proofs::Parcels::busy))]
    fn window(&self) -> usize {
        if self.bytes.len() == 0 { SEND_BYTES } else { 0 }
    }

    #[tactic(auto, using(crate::proofs::Parcels::empty_open, crate::proofs::Parcels::put_held))]
    fn put(&mut self, bytes: &[u8], fds: &[OwnedFd]) {
        self.bytes.put(bytes);
        self.fds.put(fds);
    }

    // The first cell.
    fn give(&mut self, bytes: &mut [u8], fds: &mut [OwnedFd]) -> Share {
        bytes[0] = self.bytes.take_first();
        let carried = self.fds.len();
        self.fds.take_all(&mut fds[..carried]);
        Share {
            bytes: 1,
            fds: carried,
        }
    }

    #[tactic(auto, using(crate::proofs::Seeing::length_cells, crate::proofs::Seeing::past, crate::proofs::Seeing::seen_past, crate::proofs::Seeing::seen_first, crate::proofs::Seeing::seen_later))]
    fn view(&self, place: usize) -> Option<CellView> {
        let byte = self.bytes.get(place)?;
        let fds = if place == 0 { self.fds.len() } else { 0 };
        Some(CellView { byte, fds })
    }

    ghost refused = { λ cells asked why. tt };
}
