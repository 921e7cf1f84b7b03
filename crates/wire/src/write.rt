ghost use Rattle.std.specs.Prelude.{◌≡◌, ◌+◌, ◌-◌, ◌^◌, ◌<◌, ◌≤◌, true, ◌++◌, length, min, if◌then◌else◌, None, Ok, Err, IfOk, nat_lt};
ghost use Rattle.std.specs.Result.{result_map_both};
ghost use Rattle.protocol.specs.declared.refusal.Refusal.TheVariants.{BadText, Oversize};
ghost use Rattle.book.specs.Files.{numbers, opened};
ghost use Rattle.book.specs.View.{files};
ghost use Rattle.wire.specs.Frame.{block, field, fields, frame, known, overlay, size_of, word};
ghost use Rattle.wire.specs.Laws.{AllCarry, Carries};
ghost use Rattle.wire.specs.ReadBack.{ReadBack};
ghost use Rattle.wire.specs.Records.{block_length, field_length, fields_length, numbers_in, value_of};
ghost use Rattle.wire.specs.Write.{After, Placed, Stored, dup_failure, good_text, good_texts, largest, message_of, unless_failed, write_answer};

use crate::field::{fd_of, field_len, no_zero};
use crate::view::part;
use book::Book;
use protocol::{Argument, Message, OwnedFd, RawFd, Refusal};

// The largest frame: the size is a multiple of 4 that 16 bits hold.
const LARGEST: usize = 65532;

// The system's codes for a number that is not open, and for a full table.
const EBADF: u32 = 9;

const EMFILE: u32 = 24;

fn good_text(argument: &Argument<RawFd>, text: &[u8]) -> bool
    ensures { result ≡ good_text text.now argument.now }
{
    match argument {
        Argument::Str(t) => part(text, *t).is_some_and(no_zero),
        Argument::Array(t) => part(text, *t).is_some(),
        _ => true,
    }
}

fn good_texts(args: &[Argument<RawFd>], text: &[u8]) -> bool
    ensures { result ≡ good_texts text.now args.now }
{
    args.iter().all(|argument| good_text(argument, text))
}

// The bytes that the arguments take in a frame.
fn fields_len(args: &[Argument<RawFd>]) -> usize
    ensures { result ≡ min (fields_length args.now) (2 ^ 64 - 1) }
{
    args.iter().map(field_len).fold(0, usize::saturating_add)
}

// A message whose texts are good, and the size of its frame.
#[derive(Clone, Copy)]
struct Measured<'m> {
    msg: Message<'m, RawFd>,
    size: usize,
    ghost good: { good_texts msg.text.now msg.args.now ≡ true },
    ghost sized: { size ≡ size_of (message_of msg) },
    ghost small: { size ≤ largest },
}

// How many descriptors a message has, if the book can duplicate them all.
fn check_duplicates(args: &[Argument<RawFd>], book: &Book) -> Result<usize, Refusal>
    ensures { result ≡ unless_failed (dup_failure (files book.now) (numbers - opened (files book.now)) (numbers_in args.now)) (Ok (length (numbers_in args.now))) }
{
    let free = book.free_numbers();
    // counts down, as `dup_failure` does
    let mut left = free;
    for fd in args.iter().filter_map(fd_of) {
        // no `?`: a number that is not open has another refusal here
        if book.file(fd).is_err() {
            return Err(Refusal::DupFailed(EBADF));
        }
        if left == 0 {
            return Err(Refusal::DupFailed(EMFILE));
        }
        left -= 1;
    }
    Ok(free - left)
}

fn put_word(out: &mut [u8], n: u32)
    requires { 4 ≤ length out.old }
    ensures { out.new ≡ overlay (known (word n)) out.old }
{
    out[..4].copy_from_slice(&n.to_le_bytes());
}

// The length of some bytes and their end, and then both. A string ends in a 0.
fn put_block(out: &mut [u8], bytes: &[u8], end: &[u8])
    requires room { block_length (length (bytes.now ++ end.now)) ≤ length out.old }
    requires small { length (bytes.now ++ end.now) ≤ largest }
    ensures { out.new ≡ overlay (block (bytes.now ++ end.now)) out.old }
{
    let start = 4 + bytes.len();
    let len = bytes.len() + end.len();
    // A proved cast: `u32::try_from` would add a refusal that cannot come.
    put_word(out, len as u32);
    out[4..start].copy_from_slice(bytes);
    out[start..4 + len].copy_from_slice(end);
}

// The field of an argument, in front; padding stays as it was.
fn put_argument(out: &mut [u8], argument: &Argument<RawFd>, text: &[u8])
    requires good { good_text text.now argument.now ≡ true }
    requires small { field_length argument.now ≤ largest }
    requires room { field_length argument.now ≤ length out.old }
    ensures laid { out.new ≡ overlay (field (value_of text.now argument.now)) out.old }
    ensures carries { Carries (value_of text.now argument.now) }
{
    match argument {
        Argument::Int(n) | Argument::Fixed(n) => put_word(out, n.cast_unsigned()),
        Argument::Uint(n) | Argument::Object(n) | Argument::NewId(n) => put_word(out, *n),
        Argument::NullStr => put_word(out, 0),
        Argument::Str(t) => put_block(out, &text[t.place..t.place + t.len], &[0]),
        Argument::Array(t) => put_block(out, &text[t.place..t.place + t.len], &[]),
        Argument::Fd(_) => {}
    }
}

impl Measured<'_> {
    // The frame, first in the payload.
    fn put_frame(&self, payload: &mut [u8])
        requires { self.now.size ≤ length payload.old }
        ensures laid { payload.new ≡ overlay (frame (message_of self.now.msg)) payload.old }
        ensures sender { self.now.msg.sender < 2 ^ 32 }
        ensures opcode { self.now.msg.opcode < 2 ^ 16 }
        ensures args { AllCarry (message_of self.now.msg).args }
    {
        let Message { sender, opcode, .. } = self.msg;
        put_word(payload, sender);
        // A proved cast, as in `put_block`.
        put_word(
            &mut payload[4..],
            (self.size as u32) * 65536 + u32::from(opcode),
        );
        self.put_arguments(&mut payload[8..]);
    }

    fn put_arguments(&self, out: &mut [u8])
        requires { self.now.size ≤ length out.old + 8 }
        ensures laid { out.new ≡ overlay (fields (message_of self.now.msg).args) out.old }
        ensures carries { AllCarry (message_of self.now.msg).args }
    {
        // By place: after a loop that cuts off each field with `split_at_mut`, a proof knows nothing of the bytes.
        let mut at = 0;
        for argument in self.msg.args {
            put_argument(&mut out[at..], argument, self.msg.text);
            at += field_len(argument);
        }
    }

    // The frame and the duplicates of a message that has passed every check.
    fn put(&self, payload: &mut [u8], places: &mut [OwnedFd], book: &mut Book)
        requires { write_answer (good_texts self.now.msg.text.now self.now.msg.args.now) (message_of self.now.msg) (length payload.old) (length places.old) (files book.old) ≡ Ok self.now.size }
        ensures stored { Stored (message_of self.now.msg) payload.old places.old (files book.old) payload.new places.new (files book.new) }
        ensures readback { ReadBack (Ok self.now.size) self.now.msg.args.now (message_of self.now.msg) payload.new places.new (files book.old) (files book.new) }
    {
        self.put_frame(payload);
        put_duplicates(self.msg.args, places, book);
    }
}

// The duplicates of the message's descriptors, in order, first among the places.
fn put_duplicates(args: &[Argument<RawFd>], places: &mut [OwnedFd], book: &mut Book)
    requires can { dup_failure (files book.old) (numbers - opened (files book.old)) (numbers_in args.now) ≡ None }
    requires room { length (numbers_in args.now) ≤ length places.old }
    ensures { Placed (numbers_in args.now) places.old (files book.old) places.new (files book.new) }
{
    // Indexed: after a loop over `places.iter_mut()` and the descriptors together, a proof knows nothing of the places.
    for (at, fd) in args.iter().filter_map(fd_of).enumerate() {
        places[at] = book.duplicate(fd).unwrap();
    }
}

// The checks of a message, in their order.
fn check_message<'m>(
    msg: &Message<'m, RawFd>,
    payload_len: usize,
    places_len: usize,
    book: &Book,
) -> Result<Measured<'m>, Refusal>
    ensures size { result_map_both (λ m. m.size) (λ why. why) result ≡ write_answer (good_texts msg.now.text.now msg.now.args.now) (message_of msg.now) payload_len places_len (files book.now) }
    ensures msg { IfOk result (λ m. m.msg ≡ msg.now) }
{
    if !good_texts(msg.args, msg.text) {
        return Err(Refusal::BadText);
    }
    let size = fields_len(msg.args).saturating_add(8);
    if size > LARGEST {
        return Err(Refusal::Oversize);
    }
    let count = check_duplicates(msg.args, book)?;
    if payload_len < size || places_len < count {
        return Err(Refusal::Short);
    }
    Ok(Measured { msg: *msg, size })
}

// Writes the frame of a message first into the payload, and the duplicates of its descriptors first into the places.
pub fn write_to_buffers(
    msg: &Message<RawFd>,
    payload: &mut [u8],
    places: &mut [OwnedFd],
    book: &mut Book,
) -> Result<usize, Refusal>
    ensures answer { result ≡ write_answer (good_texts msg.now.text.now msg.now.args.now) (message_of msg.now) (length payload.old) (length places.old) (files book.old) }
    ensures after { After result (message_of msg.now) payload.old places.old (files book.old) payload.new places.new (files book.new) }
    ensures readback { ReadBack result msg.now.args.now (message_of msg.now) payload.new places.new (files book.old) (files book.new) }
{
    let measured = check_message(msg, payload.len(), places.len(), book)?;
    measured.put(payload, places, book);
    Ok(measured.size)
}
