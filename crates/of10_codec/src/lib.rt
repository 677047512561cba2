//! The messages of OpenFlow 1.0, and the bytes that spell them.
#![tactic(auto)]

mod action_reading;
mod body_reading;
pub mod decoding;
pub mod encoding;
pub mod fault;
mod header;
pub mod laws;
pub mod lent;
mod match_reading;
pub mod message;
mod number;
mod port_reading;
pub mod rule_order;
mod wildcards;

pub use decoding::{decode, decode_ref};
pub use encoding::{encode, encode_ref, match_bytes};
pub use fault::{Bad, DecodeError, EncodeError};
pub use header::{HEADER_LEN, HELLO, VERSION};
pub use laws::{codec_laws, writing_laws};
pub use lent::{BodyRef, MessageRef};
pub use message::{Body, Message};
pub use rule_order::{compare_rules, in_order};
