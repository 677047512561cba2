//! Traces whose cells have changed.
#![tactic(auto)]

pub mod counting;
pub mod laws;
pub mod pruning;

pub use counting::count_current;
pub use laws::live_laws;
pub use pruning::{is_current, prune, stale};
