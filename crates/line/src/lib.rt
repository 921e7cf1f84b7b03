#![tactic(auto)]

mod batch;
mod cells;
mod checks;
mod held;
mod hosted;
mod line;
mod marks;
mod queue;
mod share;
mod sizes;
mod store;
mod stored;
mod view;

pub use hosted::Hosted;
pub use line::Line;
pub use view::{CellView, LineView};

// A line that holds up to 8,192 bytes and 512 duplicates, and gives as much as it may.
pub type Ring = stored::Stored<cells::Cells>;

// A line that holds one accepted send until all of it has been received, and gives one cell a call.
pub type Parcel = stored::Stored<held::Held>;
