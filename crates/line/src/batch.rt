ghost use Rattle.std.specs.Coded.{coded_list};
ghost use Rattle.std.specs.List.{slice_get};
ghost use Rattle.std.specs.Prelude.{◌≡◌, ◌-◌, ◌<◌, ◌≤◌, List, [], ◌++◌, length, take, drop, Some};

use std::marker::Model;

// At most N items that are put at once and taken from the first on: they lie from the slot `first` to before the slot `end`.
// A `Queue` may lie in two pieces, and each look at it asks which one: a batch lies in one.
#[derive(Drop)]
pub(crate) struct Batch<T, const N: usize> {
    slots: [T; N],
    first: usize,
    end: usize,
}

impl<T, const N: usize> Model for Batch<T, N> {
    ghost Value = { List T };

    ghost coded = { coded_list T.code };

    ghost view = { λ b. take (b.end - b.first) (drop b.first b.slots) };

    ghost invariant = { λ b. (length b.slots ≡ N) × (b.first ≤ b.end) × (b.end ≤ N) };
}

// Writes at the front. It takes a slice, since no part of an array of N slots can be lent for writing.
fn write_front<T: Copy>(slots: &mut [T], new: &[T])
    requires { length new.now ≤ length slots.old }
    ensures { slots.new ≡ new.now ++ drop (length new.now) slots.old }
{
    slots[..new.len()].copy_from_slice(new);
}

impl<T: Copy, const N: usize> Batch<T, N> {
    // An empty batch; the slots hold the blank until items come.
    pub(crate) fn new(blank: T) -> Batch<T, N>
        ensures { result ≡ [] }
    {
        Batch {
            slots: [blank; N],
            first: 0,
            end: 0,
        }
    }

    pub(crate) fn len(&self) -> usize
        ensures count { result ≡ length self.now }
        ensures within { result ≤ N }
    {
        self.end - self.first
    }

    // Puts items where none are left.
    pub(crate) fn put(&mut self, new: &[T])
        requires none { length self.old ≡ 0 }
        requires room { length new.now ≤ N }
        ensures after { self.new ≡ new.now }
        ensures within { length self.new ≤ N }
    {
        write_front(&mut self.slots, new);
        self.first = 0;
        self.end = new.len();
    }

    // Takes the first item.
    pub(crate) fn take_first(&mut self) -> T
        requires { 0 < length self.old }
        ensures taken { slice_get self.old 0 ≡ Some result }
        ensures left { self.new ≡ drop 1 self.old }
        ensures within { length self.new ≤ N }
    {
        let item = self.slots[self.first];
        self.first += 1;
        item
    }

    // Takes all items.
    pub(crate) fn take_all(&mut self, out: &mut [T])
        requires { length out.old ≡ length self.old }
        ensures taken { out.new ≡ self.old }
        ensures left { self.new ≡ [] }
    {
        // mostly none is there, and a copy of none is a call as well
        if self.first == self.end {
            return;
        }
        let slots = &self.slots[..];
        out.copy_from_slice(&slots[self.first..self.end]);
        self.first = self.end;
    }

    // The item at a place, counted from the first.
    pub(crate) fn get(&self, place: usize) -> Option<T>
        ensures { result ≡ slice_get self.now place }
    {
        if place >= self.end - self.first {
            return None;
        }
        Some(self.slots[self.first + place])
    }
}
