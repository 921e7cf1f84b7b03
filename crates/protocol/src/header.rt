use crate::argument::Argument;

// The first two words of a frame; the size counts these 8 bytes too.
#[derive(Clone, Copy, Debug, PartialEq, Eq)]
pub struct Header {
    pub sender: u32,
    pub opcode: u16,
    pub size: u16,
}

// A message to be written: strings and arrays are places in `text`.
#[derive(Clone, Copy, Debug, PartialEq, Eq)]
pub struct Message<'a, Fd> {
    pub sender: u32,
    pub opcode: u16,
    pub args: &'a [Argument<Fd>],
    pub text: &'a [u8],
}
