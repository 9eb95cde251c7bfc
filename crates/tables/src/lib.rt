// Ordered tables of fixed capacity: a new record goes to the end, a removal closes the gap, and the order is kept.
#![tactic(auto)]

mod cells;
mod record;
pub mod rows;
mod table;

pub use record::Record;
pub use table::{Full, Table};
