//! The text of policies: it is read, and a policy is printed as one.
#![tactic(auto)]

mod expressions;
mod policies;
pub mod print_laws;
mod printing;
pub mod reading;
mod statements;
pub mod text_laws;

pub use printing::print_policy;
pub use reading::{ReadError, read_policy};
pub use text_laws::{names_law, nodes_law, one_policy};
