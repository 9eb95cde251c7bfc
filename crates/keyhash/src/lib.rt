// Key hashes as text: one reader and one writer, proved to be each other's inverse.
#![tactic(auto)]

pub mod base64;
pub mod element;
