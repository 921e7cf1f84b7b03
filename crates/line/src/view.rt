// What can be seen of a line: how many cells wait, how many bytes it would take now, and the code it was shut with, 0 while it is open, as its meaning fixes it.
#[derive(Clone, Copy, Debug, PartialEq, Eq)]
pub struct LineView {
    pub waiting: usize,
    pub window: usize,
    pub shut: u32,
}

// What can be seen of a cell that waits: its byte, and how many duplicates it carries.
#[derive(Clone, Copy, Debug, PartialEq, Eq)]
pub struct CellView {
    pub byte: u8,
    pub fds: usize,
}
