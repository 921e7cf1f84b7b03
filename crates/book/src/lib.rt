#![tactic(auto)]

mod table;

pub use table::{Book, NUMBERS};
