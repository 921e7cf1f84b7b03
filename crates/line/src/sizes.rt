// How many bytes and how many duplicates a ring holds.
pub(crate) const RING_BYTES: usize = 8192;

pub(crate) const RING_FDS: usize = 512;
