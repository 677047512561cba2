//! Messages in the blocks of bytes that were taken out for a switch.
//!
//! A block spells its messages one behind the other. Whoever passes them on to the switch takes them
//! one by one, later: the next message is decoded where it stands, and no bytes move.
#![tactic(auto)]

pub mod block;

pub use block::{Block, Messages};
