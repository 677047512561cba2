//! The outline of a policy's text: its grammar, its nodes, and the limits on them.
#![tactic(auto)]

mod count;
mod counter;
pub mod fault;
pub mod laws;
pub mod outline;
mod scan;
pub mod site;

pub use fault::OutlineError;
pub use laws::outline_laws;
pub use outline::{Outline, read_outline};
pub use site::site_token;
