//! Trees of recorded traces.
#![tactic(auto)]

mod clear;
mod grow;
pub mod laws;
pub mod node;
mod retain;
pub mod tree;
mod walk;

pub use laws::scratch_laws;
pub use node::{Leaf, Node, Trace};
pub use tree::Tree;
