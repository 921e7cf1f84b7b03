ghost use Rattle.std.specs.Prelude.{◌≡◌, take, drop};

use crate::captions::{Parts, parts_of};
use crate::fault::Fault;
use book::Book;
use protocol::{Argument, OwnedFd, RawFd};
use std::{fmt, io, iter};
use wire::ArgumentView;

// Stands where an argument has no name.
const UNNAMED: &str = "argument";

// Bytes as pairs of hexadecimal digits, apart: another form than that of replay, which shows one run.
#[derive(Clone, Copy)]
pub(crate) struct Hex<'a>(pub(crate) &'a [u8]);

impl fmt::Display for Hex<'_> {
    fn fmt<W: fmt::Write>(&self, f: &mut fmt::Formatter<W>) -> fmt::Result {
        let [first, rest @ ..] = self.0 else {
            return Ok(());
        };
        write!(f, "{first:02x}")?;
        for byte in rest {
            write!(f, " {byte:02x}")?;
        }
        Ok(())
    }
}

// The mark of a file.
#[derive(Clone, Copy)]
pub(crate) struct Mark(pub(crate) u64);

impl fmt::Display for Mark {
    fn fmt<W: fmt::Write>(&self, f: &mut fmt::Formatter<W>) -> fmt::Result {
        write!(f, "file mark {:#018x}", self.0)
    }
}

// Prints the parts of a frame one behind another.
#[derive(Drop)]
struct Captions<'a, P> {
    rt: &'a P,
    frame: &'a [u8],
    // where the next part begins: the line of a part says so
    at: usize,
}

impl<'a, P: Print> Captions<'a, P> {
    // At most `len` bytes of the frame, from where the next part begins.
    fn bytes(&self, len: usize) -> &'a [u8]
        ensures { result.now ≡ take len (drop self.now.at self.now.frame.now) }
    {
        let rest = &self.frame[self.at.min(self.frame.len())..];
        &rest[..len.min(rest.len())]
    }

    // A line for the next part, unless it is empty.
    fn part(&mut self, len: usize, name: &str, part: &str) -> io::Result<()> {
        if len > 0 {
            let at = self.at;
            let bytes = Hex(self.bytes(len));
            println!(self.rt; "  {at:>4}  {name:<13} {part:<13} {bytes}")?;
        }
        self.at = self.at.saturating_add(len);
        Ok(())
    }

    // The lines of an argument's field.
    fn field(&mut self, name: &str, argument: &Argument<RawFd>) -> io::Result<()> {
        let Parts {
            word,
            bytes,
            end,
            padding,
        } = parts_of(argument);
        let first = match argument {
            Argument::Str(_) | Argument::NullStr | Argument::Array(_) => "length",
            _ => "number",
        };
        self.part(word, name, first)?;
        self.part(bytes, name, "bytes")?;
        self.part(end, name, "final 0")?;
        self.part(padding, name, "padding")
    }
}

// A frame with a caption at each part, from the arguments that it was written from.
pub(crate) fn print_frame<P: Print>(
    rt: &P,
    frame: &[u8],
    names: &[&str],
    args: &[Argument<RawFd>],
) -> io::Result<()> {
    println!(rt; "    at  field         part          bytes")?;
    let mut captions = Captions { rt, frame, at: 0 };
    captions.part(4, "header", "sender")?;
    captions.part(4, "header", "opcode, size")?;
    let names = names.iter().copied().chain(iter::repeat(UNNAMED));
    for (argument, name) in args.iter().zip(names) {
        captions.field(name, argument)?;
    }
    Ok(())
}

// Prints arguments and duplicates, with the marks of their files in a book.
#[derive(Drop)]
pub(crate) struct Printer<'a, P> {
    pub(crate) rt: &'a P,
    pub(crate) book: &'a Book,
}

impl<P: Print> Printer<'_, P> {
    // The duplicates that go beside the bytes of a frame.
    pub(crate) fn duplicates(&self, duplicates: &[OwnedFd]) -> Result<(), Fault> {
        for duplicate in duplicates {
            let number = duplicate.0;
            let mark = Mark(self.book.file(duplicate.into_raw_fd())?);
            println!(self.rt; "  beside the bytes: duplicate number {number}, {mark}")?;
        }
        Ok(())
    }

    // A line for an argument as the screen has it.
    fn view(&self, name: &str, view: ArgumentView) -> Result<(), Fault> {
        let rt = self.rt;
        print!(rt; "  {name:<13} ")?;
        match view {
            ArgumentView::Int(n) | ArgumentView::Fixed(n) => rt.println(n)?,
            ArgumentView::Uint(n) | ArgumentView::Object(n) | ArgumentView::NewId(n) => {
                rt.println(n)?
            }
            ArgumentView::Str(bytes) => rt.println(bytes.escape_ascii())?,
            ArgumentView::NullStr => rt.println("none")?,
            ArgumentView::Array(bytes) => rt.println(Hex(bytes))?,
            ArgumentView::Fd(fd) => rt.println(Mark(self.book.file(fd.into_raw_fd())?))?,
        }
        Ok(())
    }

    // What the screen shows of a frame that was read.
    pub(crate) fn screen(
        &self,
        frame: &[u8],
        names: &[&str],
        records: &[Argument<OwnedFd>],
    ) -> Result<(), Fault> {
        let names = names.iter().copied().chain(iter::repeat(UNNAMED));
        for (record, name) in records.iter().zip(names) {
            let view = ArgumentView::of(frame, *record).ok_or(Fault::Outside)?;
            self.view(name, view)?;
        }
        Ok(())
    }
}
