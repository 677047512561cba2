//! Runs of `serve`, right and wrong ones, against what a run is.
#![tactic(auto)]

pub mod laws;

pub use laws::{end_laws, line_law, more_laws, row_law, whole_law, wrong_laws};
