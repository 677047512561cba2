//! Next hops over the links between switches, and the environment with them.
#![tactic(auto)]

mod behind;
mod hop_table;
mod hops;
mod laws;
mod least;
mod rows;
mod scene;
mod switches;

pub use behind::Behind;
pub use hops::Hops;
pub use laws::hop_laws;
pub use scene::Scene;
