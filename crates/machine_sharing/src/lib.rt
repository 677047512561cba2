//! The controller's machine as threads share it: what a pass that doesn't lead may enter, what its entries leave as it is, and what stands in every longer
//! history.
#![tactic(auto)]

pub mod laws;

pub use laws::{between_laws, legal_laws, longer_laws};
