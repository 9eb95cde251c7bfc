// Envelopes: a header, arguments and a tag, read where they lie, and written.
#![tactic(auto)]

pub mod envelope;
mod fields;
mod header;
mod layout;
pub mod request;
pub mod types;
