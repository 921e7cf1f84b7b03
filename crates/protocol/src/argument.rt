ghost use Rattle.std.specs.Prelude.{◌≡◌, length, MatchOption};
ghost use Rattle.protocol.specs.Types.{same_type, type_of, Checked, Matching, Mismatching};

use crate::refusal::Refusal;

// Whether an argument may be null. It is carried, and not looked at.
#[derive(Clone, Copy, Debug, PartialEq, Eq)]
pub enum AllowNull {
    Yes,
    No,
}

#[derive(Clone, Copy, Debug, PartialEq, Eq)]
pub enum ArgumentType {
    Int,
    Uint,
    Fixed,
    Str(AllowNull),
    Object(AllowNull),
    NewId,
    Array,
    Fd,
}

impl ArgumentType {
    // Whether the types are the same but for what they say of null, which `==` compares too.
    pub fn same_type(self, other: ArgumentType) -> bool
        ensures { result ≡ same_type self other }
    {
        matches!(
            (self, other),
            (ArgumentType::Int, ArgumentType::Int)
                | (ArgumentType::Uint, ArgumentType::Uint)
                | (ArgumentType::Fixed, ArgumentType::Fixed)
                | (ArgumentType::Str(_), ArgumentType::Str(_))
                | (ArgumentType::Object(_), ArgumentType::Object(_))
                | (ArgumentType::NewId, ArgumentType::NewId)
                | (ArgumentType::Array, ArgumentType::Array)
                | (ArgumentType::Fd, ArgumentType::Fd)
        )
    }
}

// A string or an array, as a part of the bytes that go with the record: the caller's text, or the frame that was read. A place and no slice: the record may be kept longer than the bytes are lent.
#[derive(Clone, Copy, Debug, PartialEq, Eq)]
pub struct Text {
    pub place: usize,
    pub len: usize,
}

// One argument; `Fd` is `RawFd` where it is written, and `OwnedFd` where it is read.
#[derive(Clone, Copy, Debug, PartialEq, Eq)]
pub enum Argument<Fd> {
    Int(i32),
    Uint(u32),
    Fixed(i32),
    Str(Text),
    NullStr,
    Object(u32),
    NewId(u32),
    Array(Text),
    Fd(Fd),
}

impl<Fd> Argument<Fd> {
    // Named as in the Rust crate, and no `From`: an argument keeps nothing of its type for null.
    pub fn get_type(&self) -> ArgumentType
        ensures { result ≡ type_of self.now }
    {
        match self {
            Argument::Int(_) => ArgumentType::Int,
            Argument::Uint(_) => ArgumentType::Uint,
            Argument::Fixed(_) => ArgumentType::Fixed,
            Argument::Str(_) => ArgumentType::Str(AllowNull::Yes),
            Argument::NullStr => ArgumentType::Str(AllowNull::Yes),
            Argument::Object(_) => ArgumentType::Object(AllowNull::Yes),
            Argument::NewId(_) => ArgumentType::NewId,
            Argument::Array(_) => ArgumentType::Array,
            Argument::Fd(_) => ArgumentType::Fd,
        }
    }
}

// The place of the first argument of another type.
fn first_unlike<Fd>(signature: &[ArgumentType], args: &[Argument<Fd>]) -> Option<usize>
    ensures { length signature.now ≡ length args.now → MatchOption result (Matching signature.now args.now) (Mismatching signature.now args.now) }
{
    args.iter()
        .zip(signature)
        .position(|(arg, kind)| !arg.get_type().same_type(*kind))
}

// MISMATCH carries 255 where the numbers differ, else the place of an argument of another type.
pub fn check_for_signature<Fd>(
    signature: &[ArgumentType],
    args: &[Argument<Fd>],
) -> Result<(), Refusal>
    ensures { Checked signature.now args.now result }
{
    if signature.len() != args.len() {
        return Err(Refusal::Mismatch(255));
    }
    // a place found is the refusal here, so no `ok_or`
    match first_unlike(signature, args) {
        Some(place) => Err(Refusal::Mismatch(place)),
        None => Ok(()),
    }
}
