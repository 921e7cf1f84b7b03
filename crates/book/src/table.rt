mod ops;
mod reads;

ghost use Rattle.std.specs.Prelude.{◌≡◌, ◌+◌, map, length};
ghost use Rattle.book.specs.Files.{numbers, opened};
ghost use Rattle.book.specs.Table.{Unused, Distinct, stands_for};

use arrayvec::ArrayVec;

// How many numbers there are: 0 to 1,023.
pub const NUMBERS: usize = 1024;

// What one number stands for: None where it is not open. A struct of one field, so that it has a name.
#[derive(Clone, Copy, Debug, PartialEq, Eq)]
struct Entry {
    file: Option<u64>,
}

const SHUT: Entry = Entry { file: None };

// The descriptor book: the operating system's table of file descriptors.
// The numbers that are not open stand on the stack `free`, so that no call looks for one.
#[derive(Drop)]
pub struct Book {
    entries: [Entry; NUMBERS],
    free: ArrayVec<u16, NUMBERS>,
    ghost sized: { length entries ≡ numbers },
    ghost counted: { length free.items + opened (map stands_for entries) ≡ numbers },
    ghost unused: { Unused (map stands_for entries) free.items },
    ghost distinct: { Distinct free.items },
}
