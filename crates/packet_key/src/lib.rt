//! The key of a frame.
#![tactic(auto)]

mod bytes;
mod frames;
mod ip;
mod link;
mod malformed;

pub use frames::key_of;
pub use malformed::{Malformed, fault_numbers_law};
