#![tactic(auto)]

mod letters;
mod notation;
mod rows;
mod source;
mod types;

pub use notation::Notation;
pub use rows::{LetterSource, Row, RowSource, TypeSource};
pub use source::SignatureSource;
pub use types::Signature;
