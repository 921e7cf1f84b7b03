ghost use Rattle.std.specs.Prelude.{◌≡◌};
ghost use Rattle.std.specs.Option.{option_map};
ghost use Rattle.wire.specs.Records.{value_in, part_of};
ghost use Rattle.wire.specs.View.{shown};

use protocol::{Argument, OwnedFd, Text};

// An argument that was read, its text as a part of the frame, without the final 0. An enum of its own: in it a text is borrowed, in a record a place.
#[derive(Clone, Copy, Debug, PartialEq, Eq)]
pub enum ArgumentView<'f> {
    Int(i32),
    Uint(u32),
    Fixed(i32),
    Str(&'f [u8]),
    NullStr,
    Object(u32),
    NewId(u32),
    Array(&'f [u8]),
    Fd(OwnedFd),
}

pub(crate) fn part(bytes: &[u8], text: Text) -> Option<&[u8]>
    ensures { option_map (λ x. x.now) result ≡ part_of bytes.now text }
{
    bytes.get(text.place..)?.get(..text.len)
}

impl<'f> ArgumentView<'f> {
    // What a record says of its frame, which it needs beside it: so no `TryFrom`. None where its place and length do not lie in the frame.
    pub fn of(frame: &'f [u8], argument: Argument<OwnedFd>) -> Option<ArgumentView<'f>>
        ensures { option_map shown result ≡ value_in frame.now argument }
    {
        match argument {
            Argument::Int(n) => Some(ArgumentView::Int(n)),
            Argument::Uint(n) => Some(ArgumentView::Uint(n)),
            Argument::Fixed(n) => Some(ArgumentView::Fixed(n)),
            Argument::Str(t) => Some(ArgumentView::Str(part(frame, t)?)),
            Argument::NullStr => Some(ArgumentView::NullStr),
            Argument::Object(id) => Some(ArgumentView::Object(id)),
            Argument::NewId(id) => Some(ArgumentView::NewId(id)),
            Argument::Array(t) => Some(ArgumentView::Array(part(frame, t)?)),
            Argument::Fd(fd) => Some(ArgumentView::Fd(fd)),
        }
    }
}
