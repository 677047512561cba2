//! The messages of a stream, however it is cut into pieces.
#![tactic(auto)]

mod front;
pub mod laws;
pub mod reassembly;

pub use laws::stream_laws;
pub use reassembly::{Next, Reassembly};
