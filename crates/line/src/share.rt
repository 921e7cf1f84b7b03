// How many cells are given at once, and with how many duplicates.
#[derive(Clone, Copy)]
pub struct Share {
    pub(crate) bytes: usize,
    pub(crate) fds: usize,
}
