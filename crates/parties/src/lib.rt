// The parties that a guard works with: who verifies tags, and who performs commands.
#![tactic(auto)]

mod bytes;
pub mod command;
mod command_log;
pub mod hmac_verifier;
pub mod outbox;
pub mod relay_panel;
pub mod service;
mod short_bytes;
pub mod stored_command;
pub mod verified_signatures;
pub mod verifier;
