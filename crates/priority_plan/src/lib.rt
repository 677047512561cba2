//! The priorities of the rules of a tree of traces.
#![tactic(auto)]

pub mod certificate;
pub mod chaining;
pub mod counting;
pub mod laws;
pub mod rows;
pub mod which;

pub use certificate::Chain;
pub use chaining::chain;
pub use counting::{levels, node_levels, node_levels_where, rules_needed};
pub use laws::plan_law;
pub use rows::{Row, barrier, fact};
pub use which::{EveryLeaf, WhichLeaves};
