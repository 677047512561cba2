//! Model switches in memory: devices that keep the specification, each with an order of its own, and devices that fail,
//! refuse or say what no switch says.
#![tactic(auto)]

mod answering;
pub mod backward;
mod changes;
mod entry;
pub mod failing;
pub mod liar;
pub mod logged;
mod looking;
mod model;
pub mod orderly;
pub mod refusing;
pub mod shuffled;
mod waiting;

pub use backward::Backward;
pub use changes::{change_of, is_barrier};
pub use failing::Failing;
pub use liar::Liar;
pub use logged::Logged;
pub use looking::sends_up;
pub use orderly::Orderly;
pub use refusing::Refusing;
pub use shuffled::Shuffled;
