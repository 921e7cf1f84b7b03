use crate::show::Coded;
use protocol::Refusal;
use std::alloc::AllocError;
use std::num::ParseIntError;
use thiserror::Error;

// Why a line is not done.
#[derive(Debug, Drop, Error)]
pub(crate) enum Fault {
    #[error("bad line")]
    BadLine,
    #[error("bad line")]
    BadNumber(#[from] ParseIntError),
    #[error("{}", Coded(*.0))]
    Refused(#[from] Refusal),
    #[error(transparent)]
    NoMemory(#[from(alloc)] AllocError),
}
