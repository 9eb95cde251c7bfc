// The guard: which requests reach the hub's service.
#![tactic(auto)]

mod acting;
mod guard;
mod listing;
mod owning;
mod screening;
mod signing;
mod types;

pub use types::{Delivery, Guard};
