//! What a run of `serve` is: a machine, a board of connections, and what is done with both.
#![tactic(auto)]

mod end;
pub mod laws;

pub use end::ServeEnd;
pub use laws::{heard_law, others_laws, run_laws, taking_laws, text_laws, world_law};
