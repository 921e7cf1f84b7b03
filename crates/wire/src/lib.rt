#![tactic(auto)]

mod field;
mod parse;
mod reader;
mod view;
mod worked;
mod write;

pub use field::padding_len;
pub use parse::parse_message;
pub use view::ArgumentView;
pub use worked::worked_sizes;
pub use write::write_to_buffers;
