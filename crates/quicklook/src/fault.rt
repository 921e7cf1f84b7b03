use protocol::Refusal;
use std::alloc::AllocError;
use std::io;
use thiserror::Error;

// What ends the program before its story is told.
#[derive(Debug, Drop, Error)]
pub(crate) enum Fault {
    // a call that should have been done
    #[error("a call was refused: {0}")]
    Refused(#[from] Refusal),
    #[error("no output or no memory: {0}")]
    Io(#[from] io::Error),
    #[error("no output or no memory: out of memory")]
    NoMemory(#[from(alloc)] AllocError),
    // the source has no types for it
    #[error("the message has no signature")]
    NoSignature,
    #[error("an argument lies outside of its frame")]
    Outside,
    // no descriptor came with a frame that should have one
    #[error("no picture came with the frame")]
    NoPicture,
    #[error("another picture came with the label")]
    OtherPicture,
    #[error("a call was done that should have been refused")]
    NotRefused,
}
