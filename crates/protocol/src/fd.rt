ghost use Rattle.std.specs.Prelude.{◌≡◌};

// A number of the descriptor book that belongs to the caller. Two types and no generic one, so that neither is taken for the other.
#[derive(Clone, Copy, Debug, PartialEq, Eq)]
pub struct RawFd(pub u32);

// A number of the descriptor book that belongs to an end of a link: a duplicate.
#[derive(Clone, Copy, Debug, PartialEq, Eq)]
pub struct OwnedFd(pub u32);

impl OwnedFd {
    // The caller's from now on. Named as in the Rust crate.
    pub fn into_raw_fd(self) -> RawFd
        ensures { result.0 ≡ self.0 }
    {
        RawFd(self.0)
    }
}
