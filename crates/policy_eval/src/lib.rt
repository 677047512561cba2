//! Policies, run by whoever answers their questions, and plain evaluation.
#![tactic(auto)]

mod asker;
mod datum;
mod evaluation;
mod expression_walk;
mod heads;
mod policy_walk;
mod ports;
mod scope;
mod statements;
mod ways;

pub use asker::{Asker, Unanswered};
pub use datum::Datum;
pub use evaluation::eval;
pub use policy_walk::run;
pub use ports::sent_out;
pub use scope::Scope;
