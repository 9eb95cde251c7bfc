// What a guard is asked: an envelope with its action and arguments, read where it lies.
#![tactic(auto)]

mod reader;
mod types;

pub use reader::receive;
pub use types::Request;
