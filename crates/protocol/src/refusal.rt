ghost use Rattle.std.specs.Prelude.{◌≡◌, Some};
ghost use Rattle.protocol.specs.Refusals.{number_of, value_of, name_of};

use std::fmt;

// Why a call was refused. docs/REFUSALS.md says when each is answered and what stands after it.
#[derive(Clone, Copy, Debug, PartialEq, Eq)]
pub enum Refusal {
    Mismatch(usize),
    BadText,
    Oversize,
    DupFailed(u32),
    Short,
    Broken(u32),
    TooBig,
    Again,
    Full,
    Pipe,
    MissingData,
    Malformed,
    MissingFd,
    Small,
    Limit,
    NotOpen,
    BookFull,
    BadRow,
}

impl Refusal {
    // The number that records of calls give, next to the name: docs/REFUSALS.md lists them.
    pub fn number(self) -> u8
        ensures { result ≡ number_of self }
    {
        match self {
            Refusal::Mismatch(_) => 1,
            Refusal::BadText => 2,
            Refusal::Oversize => 3,
            Refusal::DupFailed(_) => 4,
            Refusal::Short => 5,
            Refusal::Broken(_) => 6,
            Refusal::TooBig => 7,
            Refusal::Again => 8,
            Refusal::Full => 9,
            Refusal::Pipe => 10,
            Refusal::MissingData => 11,
            Refusal::Malformed => 12,
            Refusal::MissingFd => 13,
            Refusal::Small => 14,
            Refusal::Limit => 15,
            Refusal::NotOpen => 16,
            Refusal::BookFull => 17,
            Refusal::BadRow => 18,
        }
    }

    // The place or the code that a refusal carries, else 0: records of calls give it beside the number. The cast widens: there is no `usize::from` of a `u32`.
    pub fn value(self) -> usize
        ensures { result ≡ value_of self }
    {
        match self {
            Refusal::Mismatch(place) => place,
            Refusal::DupFailed(code) | Refusal::Broken(code) => code as usize,
            _ => 0,
        }
    }

    pub fn name(self) -> &'static str
        ensures { result.now ≡ name_of self }
    {
        match self {
            Refusal::Mismatch(_) => "MISMATCH",
            Refusal::BadText => "BADTEXT",
            Refusal::Oversize => "OVERSIZE",
            Refusal::DupFailed(_) => "DUPFAILED",
            Refusal::Short => "SHORT",
            Refusal::Broken(_) => "BROKEN",
            Refusal::TooBig => "TOOBIG",
            Refusal::Again => "AGAIN",
            Refusal::Full => "FULL",
            Refusal::Pipe => "PIPE",
            Refusal::MissingData => "MISSINGDATA",
            Refusal::Malformed => "MALFORMED",
            Refusal::MissingFd => "MISSINGFD",
            Refusal::Small => "SMALL",
            Refusal::Limit => "LIMIT",
            Refusal::NotOpen => "NOTOPEN",
            Refusal::BookFull => "BOOKFULL",
            Refusal::BadRow => "BADROW",
        }
    }
}

impl fmt::Display for Refusal {
    ghost output = { λ refusal. Some (name_of refusal) };

    fn fmt<W: fmt::Write>(&self, f: &mut fmt::Formatter<W>) -> fmt::Result {
        f.write_str(self.name())
    }
}
