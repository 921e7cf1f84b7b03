// Runs commands on a book. The answers are
//   open, close: DONE
//   write: DONE SIZE payload=HEX fds=[MARK ..]
//   parse: DONE SENDER OPCODE SIZE ARGS tail=BYTES left=DUPLICATES
//   check: true or false
// with the name of a refusal in place of what stands before payload= and left=.
use crate::fault::Fault;
use crate::script::{Command, Parsing, Writing, read_command};
use crate::show::{Coded, Hex, Marked};
use crate::words::Arguments;
use book::Book;
use protocol::{Argument, Header, Message, OwnedFd, RawFd, Refusal, check_for_signature};
use std::alloc::{AllocError, Global};
use wire::{ArgumentView, parse_message, write_to_buffers};

// How many descriptors arguments have; what wire counts are types.
fn fd_count(arguments: &[Argument<RawFd>]) -> usize {
    arguments
        .iter()
        .filter(|argument| matches!(argument, Argument::Fd(_)))
        .count()
}

// A script that is run: its lines share one book.
#[derive(Drop)]
pub(crate) struct Session {
    heap: Global,
    book: Book,
}

impl Session {
    pub(crate) fn new(heap: Global) -> Session {
        Session {
            heap,
            book: Book::new(),
        }
    }

    // What a line is answered; None where it asks nothing.
    pub(crate) fn answer(&mut self, line: &str) -> Result<Option<String>, AllocError> {
        let heap = self.heap;
        self.run_line(line).or_else(|fault| match fault {
            Fault::NoMemory(error) => Err(error),
            _ => Ok(Some(format!(in heap; "{fault}")?)),
        })
    }

    fn run_line(&mut self, line: &str) -> Result<Option<String>, Fault> {
        read_command(self.heap, line)?
            .map(|command| self.run(command))
            .transpose()
    }

    fn run(&mut self, command: Command) -> Result<String, Fault> {
        // An arm for each command, since each has parts of its own.
        match command {
            Command::Open { mark, count } => {
                // As often as the script says: no list is gone over.
                for _ in 0..count {
                    self.book.open(mark)?;
                }
                self.done()
            }
            Command::Close(fd) => {
                self.book.close(fd)?;
                self.done()
            }
            Command::Write(writing) => Ok(self.write(writing)?),
            Command::Parse(parsing) => self.parse(parsing),
            Command::Check {
                signature,
                arguments,
            } => {
                let checked = check_for_signature(signature.types(), arguments.records.as_slice());
                Ok(format!(in self.heap; "{}", checked.is_ok())?)
            }
        }
    }

    fn done(&self) -> Result<String, Fault> {
        Ok(String::from_str(self.heap, "DONE")?)
    }

    fn close_all(&mut self, fds: &[OwnedFd]) {
        for fd in fds {
            let _ = self.book.close(fd.into_raw_fd());
        }
    }

    // Writes, shows payload and duplicates, and closes the duplicates again.
    fn write(&mut self, writing: Writing) -> Result<String, AllocError> {
        let Writing {
            mut payload,
            places,
            sender,
            opcode,
            arguments,
        } = writing;
        let Arguments { records, text } = arguments;
        let mut places = vec![in self.heap; OwnedFd(0); places]?;
        let message = Message {
            sender,
            opcode,
            args: records.as_slice(),
            text: text.as_slice(),
        };
        let written = write_to_buffers(
            &message,
            payload.as_mut_slice(),
            places.as_mut_slice(),
            &mut self.book,
        );
        places.truncate(written.map_or(0, |_| fd_count(records.as_slice())));
        let shown = self.show_writing(written, payload.as_slice(), places.as_slice());
        self.close_all(places.as_slice());
        shown
    }

    fn show_writing(
        &self,
        written: Result<usize, Refusal>,
        payload: &[u8],
        fds: &[OwnedFd],
    ) -> Result<String, AllocError> {
        let book = &self.book;
        let mut out = String::new(self.heap);
        match written {
            Ok(size) => write!(out, "DONE {size}")?,
            Err(refusal) => write!(out, "{}", Coded(refusal))?,
        }
        write!(
            out,
            " payload={} fds={}",
            Hex(payload),
            Marked { book, value: fds }
        )?;
        Ok(out)
    }

    // Parses over duplicates that stand for the marks, and closes them again.
    fn parse(&mut self, parsing: Parsing) -> Result<String, Fault> {
        let mut fds = Vec::new(self.heap);
        let arrived = self.arrive(parsing.marks.as_slice(), &mut fds);
        let shown = arrived.and_then(|()| self.show_parsing(&parsing, fds.as_slice()));
        self.close_all(fds.as_slice());
        shown
    }

    // Duplicates that stand for the marks: a number that arrives belongs to the end from the start.
    fn arrive(&mut self, marks: &[u64], fds: &mut Vec<OwnedFd>) -> Result<(), Fault> {
        // one by one into `fds`: what was opened before a refusal has to be closed
        for mark in marks {
            let fd = self.book.open(*mark)?;
            fds.push(OwnedFd(fd.0))?;
        }
        Ok(())
    }

    fn show_parsing(&self, parsing: &Parsing, fds: &[OwnedFd]) -> Result<String, Fault> {
        let raw = parsing.raw.as_slice();
        let signature = parsing.signature.types();
        let mut records = vec![in self.heap; Argument::NullStr; parsing.room]?;
        let mut cursor = 0;
        let mut out = String::new(self.heap);
        match parse_message(raw, signature, fds, &mut cursor, records.as_mut_slice()) {
            Ok((header, tail)) => {
                records.truncate(signature.len());
                self.show_message(&mut out, header, raw, records.as_slice())?;
                write!(out, " tail={}", tail.len())?;
            }
            Err(refusal) => write!(out, "{}", Coded(refusal))?,
        }
        write!(out, " left={}", fds.len().saturating_sub(cursor))?;
        Ok(out)
    }

    fn show_message(
        &self,
        out: &mut String,
        header: Header,
        raw: &[u8],
        records: &[Argument<OwnedFd>],
    ) -> Result<(), AllocError> {
        let book = &self.book;
        let Header {
            sender,
            opcode,
            size,
        } = header;
        write!(out, "DONE {sender} {opcode} {size}")?;
        for record in records {
            match ArgumentView::of(raw, *record) {
                Some(value) => write!(out, " {}", Marked { book, value })?,
                None => write!(out, " outside")?,
            }
        }
        Ok(())
    }
}
