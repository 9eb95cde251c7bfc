// Statements for a hub, one a line, answered in order.
#![tactic(auto)]

pub mod play;
