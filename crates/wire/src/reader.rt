ghost use Rattle.std.specs.Prelude.{◌≡◌, ◌+◌, ◌-◌, ◌^◌, ◌<◌, ◌≤◌, true, length, take, drop, is_some, if◌then◌else◌, Some, None, nat_le};
ghost use Rattle.std.specs.Option.{option_map};
ghost use Rattle.wire.specs.Read.{word_at, whole, inner, ended, one};
ghost use Rattle.wire.specs.Read.{text as text_in};
ghost use Rattle.wire.specs.Records.{record_of};
ghost use Rattle.wire.specs.Values.{array};

use crate::field::{block_len, field_len, no_zero};
use protocol::{Argument, ArgumentType, OwnedFd, Text};

// The number that the first four bytes are.
pub(crate) fn word(bytes: &[u8]) -> Option<u32>
    ensures { result ≡ (if nat_le 4 (length bytes.now) then Some (word_at bytes.now) else None) }
{
    bytes.first_chunk().copied().map(u32::from_le_bytes)
}

// The bytes behind a length, if they and their padding are there.
fn block(bytes: &[u8]) -> Option<&[u8]>
    ensures { option_map (λ x. x.now) result ≡ (if whole bytes.now then Some (inner bytes.now) else None) }
{
    // A proved cast: there is no `usize::from` of a `u32`.
    let len = word(bytes)? as usize;
    // A test, and no `get(..block_len(len))?`: behind that the answer stays unproved.
    if block_len(len) > bytes.len() {
        return None;
    }
    Some(&bytes[4..4 + len])
}

// The bytes before a final 0, which has to be the only one.
fn before_zero(bytes: &[u8]) -> Option<&[u8]>
    ensures { option_map (λ x. x.now) result ≡ (if ended bytes.now then Some (take (length bytes.now - 1) bytes.now) else None) }
{
    bytes.strip_suffix(&[0]).filter(|text| no_zero(text))
}

// What is left to read of a frame: the types of the arguments, the bytes, whose place in the frame is `at`, and the descriptors.
#[derive(Clone, Copy)]
pub(crate) struct Reader<'a> {
    pub(crate) kinds: &'a [ArgumentType],
    pub(crate) at: usize,
    bytes: &'a [u8],
    pub(crate) fds: &'a [OwnedFd],
    ghost inside: { at + length bytes.now < 2 ^ 64 },
}

impl<'a> Reader<'a> {
    ghost use Rattle.wire.specs.Reader.{Gives, Took, left};

    // What there is to read of a frame, behind its header.
    pub(crate) fn new(frame: &'a [u8], kinds: &'a [ArgumentType], fds: &'a [OwnedFd]) -> Reader<'a>
        requires { 8 ≤ length frame.now }
        ensures at { result.at ≡ 8 }
        ensures kinds { result.kinds.now ≡ kinds.now }
        ensures bytes { result.bytes.now ≡ drop 8 frame.now }
        ensures fds { result.fds.now ≡ fds.now }
    {
        Reader {
            kinds,
            at: 8,
            bytes: &frame[8..],
            fds,
        }
    }

    // The part of the frame that a string or an array is.
    fn text(&self, bytes: &[u8]) -> Text
        requires { 4 ≤ length self.now.bytes.now }
        ensures place { result.place ≡ self.now.at + 4 }
        ensures len { result.len ≡ length bytes.now }
    {
        Text {
            place: self.at + 4,
            len: bytes.len(),
        }
    }

    fn array(&self) -> Option<Argument<OwnedFd>>
        ensures { result ≡ option_map (record_of self.now.at) (if whole self.now.bytes.now then Some (array (inner self.now.bytes.now)) else None) }
    {
        let bytes = block(self.bytes)?;
        Some(Argument::Array(self.text(bytes)))
    }

    // No bytes are the null string.
    fn string(&self) -> Option<Argument<OwnedFd>>
        ensures { result ≡ option_map (record_of self.now.at) (if whole self.now.bytes.now then text_in (inner self.now.bytes.now) else None) }
    {
        let bytes = block(self.bytes)?;
        if bytes.is_empty() {
            return Some(Argument::NullStr);
        }
        let text = before_zero(bytes)?;
        Some(Argument::Str(self.text(text)))
    }

    // The next argument, of a type.
    #[inline(always)]
    fn peek(&self, kind: ArgumentType) -> Option<Argument<OwnedFd>>
        ensures { result ≡ option_map (record_of self.now.at) (one kind self.now.bytes.now self.now.fds.now) }
    {
        match kind {
            ArgumentType::Int => word(self.bytes).map(|n| Argument::Int(n.cast_signed())),
            ArgumentType::Uint => word(self.bytes).map(Argument::Uint),
            ArgumentType::Fixed => word(self.bytes).map(|n| Argument::Fixed(n.cast_signed())),
            ArgumentType::Str(_) => self.string(),
            ArgumentType::Object(_) => word(self.bytes).map(Argument::Object),
            ArgumentType::NewId => word(self.bytes).map(Argument::NewId),
            ArgumentType::Array => self.array(),
            ArgumentType::Fd => self.fds.first().copied().map(Argument::Fd),
        }
    }

    // Reads the next argument, and moves on behind it. Inlined, so that the reader of a loop stays in registers.
    #[inline(always)]
    fn argument(&mut self) -> Option<Argument<OwnedFd>>
        ensures { Took self.old result self.new }
    {
        let (kind, kinds) = self.kinds.split_first()?;
        let argument = self.peek(*kind)?;
        let len = field_len(&argument);
        self.kinds = kinds;
        self.at += len;
        self.bytes = &self.bytes[len..];
        if let Argument::Fd(_) = argument {
            self.fds = &self.fds[1..];
        }
        Some(argument)
    }

    // Whether every argument that is left lies in the frame.
    pub(crate) fn fits(mut self) -> bool
        ensures { result ≡ is_some (left self.entry) }
    {
        // A loop and no chain: a proof does not follow a closure that moves the reader.
        while !self.kinds.is_empty() {
            if self.argument().is_none() {
                return false;
            }
        }
        true
    }

    // Fills the first records with the arguments that are left, which fit, and says how many descriptors they took.
    pub(crate) fn fill(mut self, records: &mut [Argument<OwnedFd>]) -> usize
        requires room { length self.kinds.now ≤ length records.old }
        requires fit { is_some (left self) ≡ true }
        ensures gives { Gives (left self.entry) self.entry.at result records.old records.new }
        ensures few { result ≤ length self.entry.fds.now }
    {
        let fds = self.fds.len();
        for record in &mut records[..self.kinds.len()] {
            *record = self.argument().unwrap();
        }
        fds - self.fds.len()
    }
}
