ghost use Rattle.std.specs.Prelude.{◌≡◌, true, length, replicate, is_some, None, MatchResult, slice_set};
ghost use Rattle.book.specs.Files.{numbers, file_of, Others, Opens, Duplicates, Closes};
ghost use Rattle.book.specs.Table.{Unused, Distinct};
ghost use Rattle.book.specs.View.{files};

use super::{Book, Entry, NUMBERS, SHUT};
use arrayvec::ArrayVec;
use protocol::{OwnedFd, RawFd, Refusal};
use std::array;

// Each number once, 0 on top. The cast keeps a number below 1,024.
fn all_numbers() -> ArrayVec<u16, NUMBERS>
    ensures all { length result.items ≡ numbers }
    ensures unused { Unused (replicate numbers None) result.items }
    ensures distinct { Distinct result.items }
{
    ArrayVec::from(array::from_fn(|i| (NUMBERS - 1 - i) as u16))
}

// `others` relates what a book held before and after: no fact of one book, and so no invariant.
impl Book {
    // A book with no number open.
    pub fn new() -> Book
        ensures { files result ≡ replicate numbers None }
    {
        Book {
            entries: [SHUT; NUMBERS],
            free: all_numbers(),
        }
    }

    // A number for a file, the caller's to close: the one on top of the stack.
    pub fn open(&mut self, file: u64) -> Result<RawFd, Refusal>
        ensures opens { Opens file (files self.old) result (files self.new) }
        ensures others { MatchResult result (λ fd. Others fd.0 (files self.old) (files self.new)) (λ _. files self.new ≡ files self.old) }
    {
        let number = self.free.pop().ok_or(Refusal::BookFull)?;
        self.entries[usize::from(number)] = Entry { file: Some(file) };
        Ok(RawFd(u32::from(number)))
    }

    // A second number for the file that `fd` stands for.
    pub fn duplicate(&mut self, fd: RawFd) -> Result<OwnedFd, Refusal>
        ensures duplicates { Duplicates fd.0 (files self.old) result (files self.new) }
        ensures others { MatchResult result (λ new. Others new.0 (files self.old) (files self.new)) (λ _. files self.new ≡ files self.old) }
    {
        let file = self.file(fd)?;
        let RawFd(number) = self.open(file)?;
        Ok(OwnedFd(number))
    }

    // The number stands for nothing any more; the file may still have others.
    pub fn close(&mut self, fd: RawFd) -> Result<(), Refusal>
        ensures closes { Closes fd.0 (files self.old) result (files self.new) }
        ensures others { Others fd.0 (files self.old) (files self.new) }
    {
        self.file(fd)?;
        self.release(fd);
        Ok(())
    }

    // Ends an open number, and puts it on the stack. Both casts keep a number below 1,024.
    fn release(&mut self, fd: RawFd)
        requires { is_some (file_of (files self.old) fd.0) ≡ true }
        ensures after { files self.new ≡ slice_set (files self.old) fd.0 None }
        ensures others { Others fd.0 (files self.old) (files self.new) }
    {
        self.entries[fd.0 as usize] = SHUT;
        self.free.push(fd.0 as u16);
    }
}
