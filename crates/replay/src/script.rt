// The commands of a script, one a line:
//   open MARK [COUNT]                          open numbers for the file MARK
//   close NUMBER
//   write LEN FILL PLACES SENDER OPCODE ARGS   into LEN bytes that are all FILL, and PLACES descriptor places
//   parse HEX SIGNATURE ROOM [MARK,..]         into ROOM records, with duplicates that stand for the marks
//   check SIGNATURE ARGS
// ARGS are i:-5 u:7 f:256 s:HEX S o:3 n:2 a:HEX h:NUMBER, where S is the null string.
// HEX is `-` for no bytes, or parts joined by `+`, of which `61*5` is one repeated. SIGNATURE is `-` or libwayland's letters, for at most 20 types.
use crate::fault::Fault;
use crate::words::{Arguments, Words};
use protocol::RawFd;
use signature::Signature;
use std::alloc::Global;

#[derive(Drop)]
pub(crate) enum Command {
    Open {
        mark: u64,
        count: usize,
    },
    Close(RawFd),
    Write(Writing),
    Parse(Parsing),
    Check {
        signature: Signature,
        arguments: Arguments,
    },
}

#[derive(Drop)]
pub(crate) struct Writing {
    pub(crate) payload: Vec<u8>,
    pub(crate) places: usize,
    pub(crate) sender: u32,
    pub(crate) opcode: u16,
    pub(crate) arguments: Arguments,
}

#[derive(Drop)]
pub(crate) struct Parsing {
    pub(crate) raw: Vec<u8>,
    pub(crate) signature: Signature,
    pub(crate) room: usize,
    pub(crate) marks: Vec<u64>,
}

// None for a blank line and for a comment, which begins with `#`.
pub(crate) fn read_command(heap: Global, line: &str) -> Result<Option<Command>, Fault> {
    let mut words = Words::of(heap, line);
    let Some(name) = words.next_word().filter(|name| !name.starts_with('#')) else {
        return Ok(None);
    };
    // An arm for each name, since each command reads words of its own.
    let command = match name {
        "open" => read_open(&mut words)?,
        "close" => Command::Close(RawFd(words.parse()?)),
        "write" => Command::Write(read_writing(&mut words)?),
        "parse" => Command::Parse(read_parsing(&mut words)?),
        "check" => read_check(&mut words)?,
        _ => return Err(Fault::BadLine),
    };
    if words.next_word().is_some() {
        return Err(Fault::BadLine);
    }
    Ok(Some(command))
}

fn read_open(words: &mut Words) -> Result<Command, Fault> {
    let mark = words.parse()?;
    let count = words
        .next_word()
        .map_or(Ok(1), |word| word.parse::<usize>())?;
    Ok(Command::Open { mark, count })
}

// LEN bytes that are all FILL.
fn read_payload(words: &mut Words) -> Result<Vec<u8>, Fault> {
    let len = words.parse()?;
    let fill = words.bytes()?;
    match fill.as_slice() {
        [byte] => Ok(vec![in words.heap; *byte; len]?),
        _ => Err(Fault::BadLine),
    }
}

fn read_writing(words: &mut Words) -> Result<Writing, Fault> {
    let payload = read_payload(words)?;
    let places = words.parse()?;
    let sender = words.parse()?;
    let opcode = words.parse()?;
    let arguments = Arguments::read(words)?;
    Ok(Writing {
        payload,
        places,
        sender,
        opcode,
        arguments,
    })
}

fn read_parsing(words: &mut Words) -> Result<Parsing, Fault> {
    let raw = words.bytes()?;
    let signature = words.signature()?;
    let room = words.parse()?;
    let marks = words.marks()?;
    Ok(Parsing {
        raw,
        signature,
        room,
        marks,
    })
}

fn read_check(words: &mut Words) -> Result<Command, Fault> {
    let signature = words.signature()?;
    let arguments = Arguments::read(words)?;
    Ok(Command::Check {
        signature,
        arguments,
    })
}
