ghost use Rattle.std.specs.Prelude.{◌≡◌, ℕ, ◌+◌, ◌-◌, ◌<◌, ◌≤◌, [], ◌∷◌, ◌++◌, length, take, drop, replicate, sum, slice_index};
ghost use Rattle.protocol.specs.Limits.{limits};
ghost use Rattle.line.specs.Sizes.{ring_bytes, ring_fds};

use crate::queue::Queue;
use crate::share::Share;
use crate::sizes::RING_FDS;
use protocol::LIMITS;
use std::marker::Model;

// `gap` bytes that carry no duplicate, and then one that carries `fds` of them.
#[derive(Clone, Copy)]
pub(crate) struct Mark {
    gap: usize,
    fds: usize,
}

const NO_MARK: Mark = Mark { gap: 0, fds: 0 };

// How many duplicates each byte of a ring carries, as a queue of marks with `tail` bytes behind the last.
#[derive(Drop)]
pub(crate) struct Marks {
    marks: Queue<Mark, RING_FDS>,
    tail: usize,
}

impl Model for Marks {
    ghost use Rattle.std.specs.Prelude.{◌≡◌, ℕ, List, true};
    ghost use Rattle.protocol.specs.Limits.{limits};

    ghost Value = { List ℕ };

    ghost use Rattle.line.specs.Marks.{counts, carrying};

    ghost view = { λ m. counts m.marks m.tail };

    ghost invariant = { λ m. carrying limits.descriptors m.marks ≡ true };
}

impl Marks {
    ghost use Rattle.line.specs.Marks.{CountsTaken};

    pub(crate) fn new() -> Marks
        ensures { result ≡ [] }
    {
        Marks {
            marks: Queue::new(NO_MARK),
            tail: 0,
        }
    }

    // New bytes came, the first of them with so many duplicates.
    #[tactic(auto, using(crate::proofs::Marking::carrying_length, crate::proofs::Marking::carrying_push, crate::proofs::Marking::counts_push, crate::proofs::Marking::noted_plain))]
    pub(crate) fn note(&mut self, bytes: usize, fds: usize)
        requires some { 0 < bytes }
        requires few { fds ≤ limits.descriptors }
        requires bytes_room { length self.old + bytes ≤ ring_bytes }
        requires fds_room { sum self.old + fds ≤ ring_fds }
        ensures { self.new ≡ self.old ++ (fds ∷ replicate (bytes - 1) 0) }
    {
        if fds == 0 {
            self.tail += bytes;
            return;
        }
        let gap = self.tail;
        self.marks.put(&[Mark { gap, fds }]);
        self.tail = bytes - 1;
    }

    // As many cells as may be given where so many bytes are asked for: they are gone.
    pub(crate) fn take(&mut self, asked: usize) -> Share
        ensures { CountsTaken limits.descriptors asked self.old result self.new }
    {
        let mut share = Share { bytes: 0, fds: 0 };
        while let Some(mark) = self.marks.get(0) {
            let wanted = asked - share.bytes;
            if wanted <= mark.gap || LIMITS.descriptors - share.fds < mark.fds {
                let plain = wanted.min(mark.gap);
                let gap = mark.gap - plain;
                self.marks.set_first(Mark { gap, ..mark });
                share.bytes += plain;
                return share;
            }
            self.marks.remove_first(1);
            share.bytes += mark.gap + 1;
            share.fds += mark.fds;
        }
        let plain = (asked - share.bytes).min(self.tail);
        self.tail -= plain;
        share.bytes += plain;
        share
    }

    // How many duplicates the byte at a place carries.
    pub(crate) fn fds_at(&self, place: usize) -> usize
        ensures { result ≡ slice_index self.now place }
    {
        // what is left of the way, mark by mark: a mark is many bytes
        let mut left = place;
        for mark in self.marks.iter() {
            if left < mark.gap {
                return 0;
            }
            if left == mark.gap {
                return mark.fds;
            }
            left -= mark.gap + 1;
        }
        0
    }
}
