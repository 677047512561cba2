//! A long script that a number makes, and the summary of a report.
#![tactic(auto)]

mod drawing;
mod laws;
mod line;
mod pieces;
mod policy;
mod script;
mod summing;
mod tally;

pub use laws::{length_law, round_law};
pub use policy::policy_text;
pub use script::make_script;
pub use summing::summary;
