// The ten actions: their codes, the kind of envelope that each comes in, and its arguments.
#![tactic(auto)]

pub mod arguments;
pub mod codes;
pub mod types;
