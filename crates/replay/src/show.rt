// Answers as text.
use book::Book;
use protocol::{OwnedFd, Refusal};
use std::fmt;
use wire::ArgumentView;

// How many bytes are shown whole; of more only the first, the last and the length.
const WHOLE: usize = 64;

const FIRST: usize = 24;

const LAST: usize = 8;

// Bytes in hex, in one run and of many only the ends: another form than that of quicklook, which shows all, apart.
#[derive(Clone, Copy)]
pub(crate) struct Hex<'a>(pub(crate) &'a [u8]);

fn write_hex<W: fmt::Write>(f: &mut fmt::Formatter<W>, bytes: &[u8]) -> fmt::Result {
    for byte in bytes {
        write!(f, "{byte:02x}")?;
    }
    Ok(())
}

impl fmt::Display for Hex<'_> {
    fn fmt<W: fmt::Write>(&self, f: &mut fmt::Formatter<W>) -> fmt::Result {
        let bytes = self.0;
        let len = bytes.len();
        if len == 0 {
            return f.write_str("-");
        }
        if len <= WHOLE {
            return write_hex(f, bytes);
        }
        write_hex(f, &bytes[0..FIRST])?;
        f.write_str("..")?;
        write_hex(f, &bytes[len - LAST..])?;
        write!(f, "({len})")
    }
}

// A refusal with the code of a failed duplication.
#[derive(Clone, Copy)]
pub(crate) struct Coded(pub(crate) Refusal);

impl fmt::Display for Coded {
    fn fmt<W: fmt::Write>(&self, f: &mut fmt::Formatter<W>) -> fmt::Result {
        match self.0 {
            Refusal::DupFailed(code) => write!(f, "{} {code}", self.0),
            refusal => write!(f, "{refusal}"),
        }
    }
}

// A value, shown with the marks of the files that its duplicates stand for in a book.
#[derive(Clone, Copy)]
pub(crate) struct Marked<'b, T> {
    pub(crate) book: &'b Book,
    pub(crate) value: T,
}

impl fmt::Display for Marked<'_, OwnedFd> {
    fn fmt<W: fmt::Write>(&self, f: &mut fmt::Formatter<W>) -> fmt::Result {
        match self.book.file(self.value.into_raw_fd()) {
            Ok(mark) => write!(f, "{mark}"),
            Err(_) => f.write_str("closed"),
        }
    }
}

// As `[7 8]`.
impl fmt::Display for Marked<'_, &[OwnedFd]> {
    fn fmt<W: fmt::Write>(&self, f: &mut fmt::Formatter<W>) -> fmt::Result {
        let book = self.book;
        f.write_str("[")?;
        if let [first, rest @ ..] = self.value {
            write!(
                f,
                "{}",
                Marked {
                    book,
                    value: *first
                }
            )?;
            for fd in rest {
                write!(f, " {}", Marked { book, value: *fd })?;
            }
        }
        f.write_str("]")
    }
}

impl fmt::Display for Marked<'_, ArgumentView<'_>> {
    fn fmt<W: fmt::Write>(&self, f: &mut fmt::Formatter<W>) -> fmt::Result {
        let book = self.book;
        match self.value {
            ArgumentView::Int(n) => write!(f, "i:{n}"),
            ArgumentView::Uint(n) => write!(f, "u:{n}"),
            ArgumentView::Fixed(n) => write!(f, "f:{n}"),
            ArgumentView::Str(bytes) => write!(f, "s:{}", Hex(bytes)),
            ArgumentView::NullStr => f.write_str("S"),
            ArgumentView::Object(id) => write!(f, "o:{id}"),
            ArgumentView::NewId(id) => write!(f, "n:{id}"),
            ArgumentView::Array(bytes) => write!(f, "a:{}", Hex(bytes)),
            ArgumentView::Fd(fd) => write!(f, "h:#{}", Marked { book, value: fd }),
        }
    }
}
