ghost use Rattle.std.specs.Prelude.{◌≡◌, ◌≤◌, length, IfOk};
ghost use Rattle.std.specs.Option.{option_map};
ghost use Rattle.book.specs.Files.{opened};
ghost use Rattle.book.specs.View.{files};
ghost use Rattle.wire.specs.Records.{numbers_in};
ghost use Rattle.quicklook.specs.Pictures.{first};

use crate::draft::{Draft, Exposure, draft_of};
use crate::fault::Fault;
use crate::show::{Mark, Printer, print_frame};
use book::{Book, NUMBERS};
use protocol::{Argument, OwnedFd, RawFd, check_for_signature};
use signature::{LetterSource, Row, Signature, SignatureSource};
use wire::{parse_message, write_to_buffers};

// The message `show` of the screen, with a letter and a name for each argument.
const SCREEN: u32 = 3;

const SHOW: u16 = 2;

const LETTERS: &[u8; 5] = b"ussah";

const NAMES: [&str; 5] = ["frame number", "filter", "label", "thumbnail", "picture"];

// A payload is full of this byte at first: where a frame has it as padding, nothing was written.
const FILL: u8 = 0xa5;

const ROOM: usize = 256;

// Stands where no duplicate has been put yet: no book has this number. The places are of the type that a write fills, so no Option.
const NO_FD: OwnedFd = OwnedFd(u32::MAX);

// The picture of the story, by the mark of its file.
const MARK: u64 = 0x0b5e_2026_1117_0bc9;

// The exposure of the story under some label.
fn labelled(label: &[u8], picture: RawFd) -> Exposure<'_> {
    Exposure {
        number: 3017,
        filter: b"H-alpha",
        label,
        thumbnail: &[16, 32, 48, 32, 16, 8, 80, 112, 80, 8],
        picture,
    }
}

// The types of `show`, looked up in a source of one row.
fn signature_of_show(rt: &impl Print) -> Result<Signature, Fault> {
    let letters = LETTERS.escape_ascii();
    println!(rt; "message: show, sender {SCREEN}, opcode {SHOW}, letters {letters}")?;
    let rows = [Row {
        sender: SCREEN,
        opcode: SHOW,
        place: 0,
        len: LETTERS.len(),
    }];
    let source = LetterSource::new(&rows, LETTERS)?;
    source.signature(SCREEN, SHOW).ok_or(Fault::NoSignature)
}

fn open_numbers(book: &Book) -> usize
    ensures { result ≡ opened (files book.now) }
{
    NUMBERS - book.free_numbers()
}

// The first descriptor that was read, the reader's from now on.
fn picture_in(records: &[Argument<OwnedFd>]) -> Option<RawFd>
    ensures { option_map (λ fd. fd.0) result ≡ first (numbers_in records.now) }
{
    records.iter().find_map(|record| match record {
        Argument::Fd(fd) => Some(fd.into_raw_fd()),
        _ => None,
    })
}

fn open_picture(rt: &impl Print, book: &mut Book) -> Result<RawFd, Fault> {
    let picture = book.open(MARK)?;
    let number = picture.0;
    let mark = Mark(MARK);
    println!(rt; "picture: {mark} is open as number {number}")?;
    Ok(picture)
}

// What a write fills: a payload, and a place for a duplicate.
#[derive(Clone, Copy)]
struct Buffers {
    payload: [u8; ROOM],
    places: [OwnedFd; 1],
}

const UNWRITTEN: Buffers = Buffers {
    payload: [FILL; ROOM],
    places: [NO_FD],
};

// The book that the queue and the screen share, the types of `show`, and where the story is printed.
#[derive(Drop)]
struct Link<'r, P> {
    rt: &'r P,
    book: &'r mut Book,
    signature: Signature,
}

impl<P: Print> Link<'_, P> {
    fn printer(&self) -> Printer<'_, P> {
        Printer {
            rt: self.rt,
            book: self.book,
        }
    }

    // The queue tries to send a label that has a byte 0 in it.
    fn send_bad_label(&mut self, draft: &Draft) -> Result<(), Fault> {
        let mut buffers = UNWRITTEN;
        let before = open_numbers(self.book);
        let written = write_to_buffers(
            &draft.message(SCREEN, SHOW),
            &mut buffers.payload,
            &mut buffers.places,
            self.book,
        );
        let Err(why) = written else {
            return Err(Fault::NotRefused);
        };
        let after = open_numbers(self.book);
        let stays = if buffers.payload == UNWRITTEN.payload {
            "as it was"
        } else {
            "changed"
        };
        println!(self.rt; "\nqueue, a label with a byte 0 in it: {why}")?;
        println!(self.rt;
            "  the payload is {stays}; numbers open: {before} before, {after} after"
        )?;
        Ok(())
    }

    // The queue writes the frame of a message, with its duplicates; answers the frame's size.
    fn send(&mut self, draft: &Draft, buffers: &mut Buffers) -> Result<usize, Fault>
        ensures { IfOk result (λ size. size ≤ length buffers.old.payload) }
    {
        let message = draft.message(SCREEN, SHOW);
        check_for_signature(self.signature.types(), message.args)?;
        let size = write_to_buffers(
            &message,
            &mut buffers.payload,
            &mut buffers.places,
            self.book,
        )?;
        println!(self.rt; "\nqueue, the arguments fit the signature: a frame of {size} bytes")?;
        print_frame(self.rt, &buffers.payload[0..size], &NAMES, message.args)?;
        self.printer().duplicates(&buffers.places)?;
        Ok(size)
    }

    // The screen looks before the last byte of the frame has come. It begins as `receive` does, and shows the refusal.
    fn receive_early(&self, frame: &[u8], duplicates: &[OwnedFd]) -> Result<(), Fault> {
        let early = &frame[0..frame.len().saturating_sub(1)];
        let types = self.signature.types();
        let mut cursor = 0;
        let mut records = [Argument::NullStr; NAMES.len()];
        let Err(why) = parse_message(early, types, duplicates, &mut cursor, &mut records) else {
            return Err(Fault::NotRefused);
        };
        println!(self.rt; "\nscreen, the frame without its last byte: {why}")?;
        println!(self.rt; "  descriptor cursor: 0 before, {cursor} after")?;
        Ok(())
    }

    // The screen reads the frame and shows it; answers the picture, which is the screen's to close.
    fn receive(&self, frame: &[u8], duplicates: &[OwnedFd]) -> Result<RawFd, Fault> {
        let types = self.signature.types();
        let mut cursor = 0;
        let mut records = [Argument::NullStr; NAMES.len()];
        let (header, _) = parse_message(frame, types, duplicates, &mut cursor, &mut records)?;
        let size = header.size;
        println!(self.rt;
            "\nscreen, the whole frame: {size} bytes read, descriptor cursor {cursor}"
        )?;
        self.printer().screen(frame, &NAMES, &records)?;
        picture_in(&records).ok_or(Fault::NoPicture)
    }

    fn compare_marks(&self, picture: RawFd) -> Result<(), Fault> {
        if self.book.file(picture)? != MARK {
            return Err(Fault::OtherPicture);
        }
        println!(self.rt; "  this is the mark that was sent")?;
        Ok(())
    }
}

// Opens the picture, sends it under its label, shows what arrives, and closes everything.
pub(crate) fn tell(rt: &HostRuntime) -> Result<(), Fault> {
    println!(rt; "quicklook: one labelled picture, from the queue to the screen\n")?;
    let mut book = Book::new();
    let picture = open_picture(rt, &mut book)?;
    let signature = signature_of_show(rt)?;
    let mut link = Link {
        rt,
        book: &mut book,
        signature,
    };
    let bad = draft_of(rt.alloc(), &labelled(b"NGC 7000\0east", picture))?;
    link.send_bad_label(&bad)?;
    let draft = draft_of(rt.alloc(), &labelled(b"NGC 7000 east", picture))?;
    let mut buffers = UNWRITTEN;
    let size = link.send(&draft, &mut buffers)?;
    let frame = &buffers.payload[0..size];
    link.receive_early(frame, &buffers.places)?;
    let arrived = link.receive(frame, &buffers.places)?;
    link.compare_marks(arrived)?;
    link.book.close(arrived)?;
    link.book.close(picture)?;
    let left = open_numbers(link.book);
    println!(rt; "\nbook: all is closed, numbers open: {left}")?;
    Ok(())
}
