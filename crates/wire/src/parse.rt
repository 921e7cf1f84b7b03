ghost use Rattle.std.specs.Prelude.{◌≡◌, ◌+◌, ◌^◌, ◌<◌, ◌≤◌, true, length, drop, is_some, if◌then◌else◌, Some, None, Err, IfOk, IfErr, nat_le};
ghost use Rattle.wire.specs.Read.{fd_count};
ghost use Rattle.wire.specs.Read.{parse as parsing};
ghost use Rattle.wire.specs.Answers.{Answers, Filled, Shows, header_at};
ghost use Rattle.wire.specs.Laws.{GivesFrames, ReadsFrames};
ghost use Rattle.wire.specs.Reader.{Passed, left};

use crate::reader::{Reader, word};
use protocol::{Argument, ArgumentType, Header, OwnedFd, Refusal};

// The halves of the second word are proved casts: `u16::try_from` would add a refusal that cannot come.
fn header_of(raw: &[u8]) -> Option<Header>
    ensures { result ≡ (if nat_le 8 (length raw.now) then Some (header_at raw.now) else None) }
{
    let sender = word(raw)?;
    let second = word(&raw[4..])?;
    Some(Header {
        sender,
        opcode: (second & 0xffff) as u16,
        size: (second >> 16) as u16,
    })
}

// How many descriptors a signature has.
fn fd_count(signature: &[ArgumentType]) -> usize
    ensures { result ≡ fd_count signature.now }
{
    signature
        .iter()
        .filter(|kind| matches!(kind, ArgumentType::Fd))
        .count()
}

// The descriptors that are to come; none where the cursor is past them all.
fn fds_left(fds: &[OwnedFd], cursor: usize) -> &[OwnedFd]
    ensures { result.now ≡ drop cursor fds.now }
{
    fds.get(cursor..).unwrap_or(&[])
}

// A frame that has passed every check: its header, what there is to read of it, and what follows it.
struct Checked<'a, 'r> {
    header: Header,
    reader: Reader<'r>,
    tail: &'a [u8],
    ghost start: { reader.at ≡ 8 },
    ghost fit: { is_some (left reader) ≡ true },
}

// The checks, in their order.
fn check_frame<'a: 'r, 'r>(
    raw: &'a [u8],
    signature: &'r [ArgumentType],
    fds: &'r [OwnedFd],
    room: usize,
) -> Result<Checked<'a, 'r>, Refusal>
    ensures ok { IfOk result (λ f. Passed (parsing room signature.now raw.now fds.now) room signature.now raw.now fds.now f.header f.reader f.tail.now) }
    ensures err { IfErr result (λ why. parsing room signature.now raw.now fds.now ≡ Err why) }
{
    let header = header_of(raw).ok_or(Refusal::MissingData)?;
    if header.size < 8 {
        return Err(Refusal::Malformed);
    }
    let (frame, tail) = raw
        .split_at_checked(usize::from(header.size))
        .ok_or(Refusal::MissingData)?;
    if fds.len() < fd_count(signature) {
        return Err(Refusal::MissingFd);
    }
    if room < signature.len() {
        return Err(Refusal::Small);
    }
    let reader = Reader::new(frame, signature, fds);
    if !reader.fits() {
        return Err(Refusal::Malformed);
    }
    Ok(Checked {
        header,
        reader,
        tail,
    })
}

// The header and the unused tail of a frame that has passed every check, with its records filled.
fn take_message<'a>(
    frame: Checked<'a, '_>,
    cursor: &mut usize,
    records: &mut [Argument<OwnedFd>],
) -> (Header, &'a [u8])
    requires room { length frame.reader.kinds.now ≤ length records.old }
    requires few { cursor.old + length frame.reader.fds.now < 2 ^ 64 }
    ensures header { result.0 ≡ frame.entry.header }
    ensures tail { result.1.now ≡ frame.entry.tail.now }
    ensures filled { Filled (left frame.entry.reader) cursor.old records.old cursor.new records.new }
{
    let Checked {
        header,
        reader,
        tail,
    } = frame;
    *cursor += reader.fill(records);
    (header, tail)
}

// Reads the message at the front of `raw`. `cursor` is the place of the next descriptor in `fds`.
pub fn parse_message<'a>(
    raw: &'a [u8],
    signature: &[ArgumentType],
    fds: &[OwnedFd],
    cursor: &mut usize,
    records: &mut [Argument<OwnedFd>],
) -> Result<(Header, &'a [u8]), Refusal>
    ensures answer { Answers (parsing (length records.old) signature.now raw.now (drop cursor.old fds.now)) cursor.old records.old result cursor.new records.new }
    ensures shows { Shows (parsing (length records.old) signature.now raw.now (drop cursor.old fds.now)) raw.now records.new }
    ensures reads { ReadsFrames (length records.old) signature.now raw.now (drop cursor.old fds.now) }
    ensures gives { GivesFrames (length records.old) signature.now raw.now (drop cursor.old fds.now) }
{
    let fds = fds_left(fds, *cursor);
    let frame = check_frame(raw, signature, fds, records.len())?;
    Ok(take_message(frame, cursor, records))
}
