#![tactic(auto)]

mod argument;
mod fd;
mod header;
mod limits;
mod refusal;

pub use argument::{AllowNull, Argument, ArgumentType, Text, check_for_signature};
pub use fd::{OwnedFd, RawFd};
pub use header::{Header, Message};
pub use limits::{LIMITS, Limits};
pub use refusal::Refusal;
