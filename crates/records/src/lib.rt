// Entries and certificates: read from bytes, written to bytes, compared, and asked whether they apply.
#![tactic(auto)]

mod bytes;
mod certificate;
mod entry;
mod scope;
mod types;

pub use types::{Certificate, Entry, Scope};
