ghost use Rattle.std.specs.Coded.{coded_list};
ghost use Rattle.std.specs.Iterator.Adapters.{chain_steps};
ghost use Rattle.std.specs.List.{slice_get};
ghost use Rattle.std.specs.Prelude.{◌≡◌, ◌+◌, ◌-◌, ◌<◌, ◌≤◌, List, [], ◌++◌, length, take, drop, slice_set};
ghost use Rattle.std.proofs.lemmas.Fn.{fronts};
ghost use Rattle.std.proofs.lemmas.Iterator.{YieldsList};
ghost use Rattle.line.specs.Queue.{held, slot_of, around};

use std::iter::Chain;
use std::marker::Model;
use std::slice::Iter;

// At most N items in their order, in a circle of slots: they lie from the slot `head` on, and the last slot is followed by the first.
// A `VecDeque` allocates, and no call of a line may.
#[derive(Drop)]
pub(crate) struct Queue<T, const N: usize> {
    slots: [T; N],
    head: usize,
    len: usize,
}

impl<T, const N: usize> Model for Queue<T, N> {
    ghost Value = { List T };

    ghost coded = { coded_list T.code };

    ghost view = { λ q. held q.slots q.head q.len };

    ghost invariant = { λ q. (length q.slots ≡ N) × (q.head ≤ N) × (q.len ≤ N) };
}

// The slot of a place of a queue, counted from its first item, in a circle of n slots.
fn slot(n: usize, head: usize, place: usize) -> usize
    requires head { head ≤ n }
    requires place { place ≤ n }
    ensures is { result ≡ slot_of n head place }
    ensures inside { result ≤ n }
    ensures slot { place < n → result < n }
{
    let behind = n - head;
    if place < behind {
        head + place
    } else {
        place - behind
    }
}

// Writes from a slot on, and what passes the last slot from the first one on. It takes a slice, since no part of an array of N slots can be lent for writing.
fn write_around<T: Copy>(slots: &mut [T], at: usize, new: &[T])
    requires inside { at ≤ length slots.old }
    requires room { length new.now ≤ length slots.old }
    ensures { slots.new ≡ around at slots.old new.now }
{
    let first = new.len().min(slots.len() - at);
    slots[at..at + first].copy_from_slice(&new[..first]);
    let rest = new.len() - first;
    slots[..rest].copy_from_slice(&new[first..]);
}

impl<T: Copy, const N: usize> Queue<T, N> {
    // An empty queue; the slots hold the blank until items come.
    pub(crate) fn new(blank: T) -> Queue<T, N>
        ensures { result ≡ [] }
    {
        Queue {
            slots: [blank; N],
            head: 0,
            len: 0,
        }
    }

    pub(crate) fn len(&self) -> usize
        ensures count { result ≡ length self.now }
        ensures within { result ≤ N }
    {
        self.len
    }

    // Puts items behind those that are there, in two copies at most.
    #[tactic(auto, using(crate::proofs::Queues::length_held, crate::proofs::Queues::queued_on))]
    pub(crate) fn put(&mut self, new: &[T])
        requires { length self.old + length new.now ≤ N }
        ensures after { self.new ≡ self.old ++ new.now }
        ensures within { length self.new ≤ N }
    {
        let tail = slot(N, self.head, self.len);
        write_around(&mut self.slots, tail, new);
        self.len += new.len();
    }

    // Takes as many first items as `out` has places, in two copies at most.
    pub(crate) fn take(&mut self, out: &mut [T])
        requires { length out.old ≤ length self.old }
        ensures taken { out.new ≡ take (length out.old) self.old }
        ensures left { self.new ≡ drop (length out.old) self.old }
        ensures within { length self.new ≤ N }
    {
        let n = out.len();
        let (near, far) = self.parts();
        let first = n.min(near.len());
        out[..first].copy_from_slice(&near[..first]);
        out[first..].copy_from_slice(&far[..n - first]);
        self.remove_first(n);
    }

    #[tactic(auto, using(crate::proofs::Queues::length_held, crate::proofs::Queues::held_rest))]
    pub(crate) fn remove_first(&mut self, n: usize)
        requires { n ≤ length self.old }
        ensures left { self.new ≡ drop n self.old }
        ensures within { length self.new ≤ N }
    {
        self.head = slot(N, self.head, n);
        self.len -= n;
    }

    // The item at a place, counted from the first.
    pub(crate) fn get(&self, place: usize) -> Option<T>
        ensures { result ≡ slice_get self.now place }
    {
        if place >= self.len {
            return None;
        }
        Some(self.slots[slot(N, self.head, place)])
    }

    // Puts an item in the place of the first one.
    #[tactic(auto, using(crate::proofs::Queues::length_held, crate::proofs::Queues::held_set))]
    pub(crate) fn set_first(&mut self, item: T)
        requires { 0 < length self.old }
        ensures { self.new ≡ slice_set self.old 0 item }
    {
        let first = slot(N, self.head, 0);
        self.slots[first] = item;
    }

    // The items in the two parts in which they lie.
    #[tactic(auto, using(crate::proofs::Queues::first_items))]
    fn parts(&self) -> (&[T], &[T])
        ensures { self.now ≡ result.0.now ++ result.1.now }
    {
        let slots = &self.slots[..];
        let near = self.len.min(N - self.head);
        (
            &slots[self.head..self.head + near],
            &slots[..self.len - near],
        )
    }

    // Gives the items in their order.
    pub(crate) fn iter(&self) -> Chain<Iter<'_, T>, Iter<'_, T>>
        ensures { YieldsList (chain_steps fronts fronts) (λ x. x.now) result self.now }
    {
        let (near, far) = self.parts();
        near.iter().chain(far)
    }
}
