// The words of a line: numbers, bytes in hex, signatures and arguments.
ghost use Rattle.std.specs.Prelude.{◌≡◌, ◌+◌, ◌<◌, ◌≤◌, IfOk, vec_len};

use crate::fault::Fault;
use protocol::{Argument, RawFd, Text};
use signature::{Notation, Signature};
use std::alloc::{AllocError, Global};
use std::num::ParseIntError;
use std::str::{FromStr, SplitWhitespace};

// Bytes to repeat are doubled until they are at least this many.
const CHUNK: usize = 4096;

// By hand: the library's `to_digit(16)` takes capitals too.
fn hex_digit(digit: u8) -> Result<u8, Fault>
    ensures { IfOk result (λ n. n < 16) }
{
    match digit {
        b'0'..=b'9' => Ok(digit - b'0'),
        b'a'..=b'f' => Ok(digit - b'a' + 10),
        _ => Err(Fault::BadLine),
    }
}

fn hex_byte(digits: &[u8]) -> Result<u8, Fault> {
    let [high, low] = digits else {
        return Err(Fault::BadLine);
    };
    Ok((hex_digit(*high)? << 4) | hex_digit(*low)?)
}

// A loop and no `try_collect`, so that the bytes are held once.
fn add_digits(bytes: &mut Vec<u8>, digits: &str) -> Result<(), Fault>
    ensures { vec_len bytes.old ≤ vec_len bytes.new }
{
    for pair in digits.as_bytes().chunks(2) {
        bytes.push(hex_byte(pair)?)?;
    }
    Ok(())
}

// Room for `whole` bytes, as much as parts of `len` bytes make that are appended one by one: it doubles, so that bytes behind them find room too.
fn make_room(bytes: &mut Vec<u8>, len: usize, whole: usize) -> Result<(), AllocError>
    ensures { vec_len bytes.new ≡ vec_len bytes.old }
{
    bytes.reserve(len)?;
    let mut room = bytes.capacity();
    for _ in 0..usize::BITS {
        if room < whole {
            room = room.saturating_mul(2);
        }
    }
    bytes.reserve(room.saturating_sub(bytes.len()))
}

// Adds `once` so many times. A count that is too large ends before anything is added.
fn add_repeated(bytes: &mut Vec<u8>, mut once: Vec<u8>, mut count: usize) -> Result<(), AllocError>
    ensures { vec_len bytes.old ≤ vec_len bytes.new }
{
    let more = once.len().checked_mul(count).ok_or(AllocError)?;
    let whole = bytes.len().checked_add(more).ok_or(AllocError)?;
    make_room(bytes, once.len().min(more), whole)?;
    // Twice the bytes half as often: a call for each byte would take long.
    while once.len() < CHUNK && count > 1 {
        if count % 2 == 1 {
            bytes.extend_from_slice(once.as_slice())?;
        }
        once.extend_from_within(..)?;
        count /= 2;
    }
    for _ in 0..count {
        bytes.extend_from_slice(once.as_slice())?;
    }
    Ok(())
}

// `-` stands for an empty text.
fn unless_dash(word: &str) -> &str {
    if word == "-" { "" } else { word }
}

// The words of a line that are still to be read.
#[derive(Drop)]
pub(crate) struct Words<'a> {
    pub(crate) heap: Global,
    words: SplitWhitespace<'a>,
}

impl<'a> Words<'a> {
    pub(crate) fn of(heap: Global, line: &'a str) -> Words<'a> {
        Words {
            heap,
            words: line.split_whitespace(),
        }
    }

    pub(crate) fn next_word(&mut self) -> Option<&'a str> {
        self.words.next()
    }

    // The next word, which has to be there.
    fn word(&mut self) -> Result<&'a str, Fault> {
        self.words.next().ok_or(Fault::BadLine)
    }

    pub(crate) fn parse<N: FromStr<Err = ParseIntError>>(&mut self) -> Result<N, Fault> {
        Ok(self.word()?.parse::<N>()?)
    }

    pub(crate) fn bytes(&mut self) -> Result<Vec<u8>, Fault> {
        let word = self.word()?;
        let mut bytes = Vec::new(self.heap);
        self.add_bytes(&mut bytes, word)?;
        Ok(bytes)
    }

    // The types that libwayland's letters say.
    pub(crate) fn signature(&mut self) -> Result<Signature, Fault> {
        let word = self.word()?;
        u8::read(unless_dash(word).as_bytes()).ok_or(Fault::BadLine)
    }

    // Marks joined by commas, or none at the end of the line.
    pub(crate) fn marks(&mut self) -> Result<Vec<u64>, Fault> {
        let Some(word) = self.words.next() else {
            return Ok(Vec::new(self.heap));
        };
        word.split(',')
            .map(|mark| -> Result<u64, Fault> { Ok(mark.parse::<u64>()?) })
            .try_collect(self.heap)
    }

    // Adds the bytes of parts joined by `+`.
    fn add_bytes(&self, bytes: &mut Vec<u8>, word: &str) -> Result<(), Fault>
        ensures { vec_len bytes.old ≤ vec_len bytes.new }
    {
        for part in unless_dash(word).split('+') {
            self.add_part(bytes, part)?;
        }
        Ok(())
    }

    // `61`, or `61*5` for five times these bytes.
    fn add_part(&self, bytes: &mut Vec<u8>, part: &str) -> Result<(), Fault>
        ensures { vec_len bytes.old ≤ vec_len bytes.new }
    {
        let Some((digits, count)) = part.split_once('*') else {
            return add_digits(bytes, part);
        };
        let mut once = Vec::new(self.heap);
        add_digits(&mut once, digits)?;
        Ok(add_repeated(bytes, once, count.parse::<usize>()?)?)
    }
}

// Argument records, and the bytes that their strings and arrays are places of.
#[derive(Drop)]
pub(crate) struct Arguments {
    pub(crate) records: Vec<Argument<RawFd>>,
    pub(crate) text: Vec<u8>,
}

impl Arguments {
    // The arguments that the words left name.
    pub(crate) fn read(words: &mut Words) -> Result<Arguments, Fault> {
        let mut arguments = Arguments {
            records: Vec::new(words.heap),
            text: Vec::new(words.heap),
        };
        // no `for`: a text reads its bytes by the same `words`
        while let Some(word) = words.words.next() {
            let record = arguments.record(words, word)?;
            arguments.records.push(record)?;
        }
        Ok(arguments)
    }

    fn record(&mut self, words: &Words, word: &str) -> Result<Argument<RawFd>, Fault> {
        if word == "S" {
            return Ok(Argument::NullStr);
        }
        let (kind, value) = word.split_once(':').ok_or(Fault::BadLine)?;
        // An arm for each letter, since each reads its value as another type.
        match kind {
            "i" => Ok(Argument::Int(value.parse::<i32>()?)),
            "u" => Ok(Argument::Uint(value.parse::<u32>()?)),
            "f" => Ok(Argument::Fixed(value.parse::<i32>()?)),
            "s" => Ok(Argument::Str(self.add_text(words, value)?)),
            "o" => Ok(Argument::Object(value.parse::<u32>()?)),
            "n" => Ok(Argument::NewId(value.parse::<u32>()?)),
            "a" => Ok(Argument::Array(self.add_text(words, value)?)),
            "h" => Ok(Argument::Fd(RawFd(value.parse::<u32>()?))),
            _ => Err(Fault::BadLine),
        }
    }

    // The place of a word's bytes, which go to the end of the text.
    fn add_text(&mut self, words: &Words, word: &str) -> Result<Text, Fault>
        ensures { IfOk result (λ t. (t.place ≡ vec_len self.old.text) × (t.place + t.len ≡ vec_len self.new.text)) }
    {
        let place = self.text.len();
        words.add_bytes(&mut self.text, word)?;
        let len = self.text.len() - place;
        Ok(Text { place, len })
    }
}
