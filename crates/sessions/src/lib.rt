// The table of open sessions, whose records are changed in place.
#![tactic(auto)]

mod sessions;
mod types;

pub use sessions::{Sessions, set_last};
pub use types::{Session, SessionName};
