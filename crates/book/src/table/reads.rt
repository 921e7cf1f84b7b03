ghost use Rattle.std.specs.Prelude.{◌≡◌, ◌+◌};
ghost use Rattle.std.specs.Option.{ok_or};
ghost use Rattle.protocol.specs.declared.refusal.Refusal.TheVariants.{NotOpen};
ghost use Rattle.book.specs.Files.{numbers, file_of, opened};
ghost use Rattle.book.specs.Table.{stands_for};
ghost use Rattle.book.specs.View.{files};

use super::{Book, Entry, SHUT};
use protocol::{RawFd, Refusal};

impl Book {
    // The file that a number stands for.
    pub fn file(&self, fd: RawFd) -> Result<u64, Refusal>
        ensures { result ≡ ok_or (file_of (files self.now) fd.0) NotOpen }
    {
        self.entry(fd).file.ok_or(Refusal::NotOpen)
    }

    // How many numbers are not open.
    pub fn free_numbers(&self) -> usize
        ensures { result + opened (files self.now) ≡ numbers }
    {
        self.free.len()
    }

    // What a number stands for; past the table, nothing. The cast widens: there is no `usize::from` of a `u32`.
    fn entry(&self, fd: RawFd) -> Entry
        ensures { stands_for result ≡ file_of (files self.now) fd.0 }
    {
        let entry = self.entries.get(fd.0 as usize);
        entry.copied().unwrap_or(SHUT)
    }
}
