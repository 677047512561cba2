//! Cases of the policy language: tokens, grammar, limits, places, trees, printed forms, faults and
//! evaluation; and of what scripts ask for.
#![tactic(auto)]

mod bodies;
mod calls;
mod decisions;
mod events;
mod fault_names;
mod forms;
mod grammar;
mod line;
mod orders;
mod outline;
mod scopes;
mod texts;
mod tokens;
mod trees;

use calls::Calls;
use case_text::{Program, check_file, check_files};
use scopes::Scopes;
use std::io;
use std::io::ErrorKind;

struct Policies;

impl Program for Policies {
    fn check(rt: &HostRuntime, subject: &str, file: &str) -> io::Result<bool> {
        match subject {
            "calls" => check_file::<Calls>(rt, file),
            "scopes" => check_file::<Scopes>(rt, file),
            _ => Err(io::Error::from(ErrorKind::NotFound)),
        }
    }
}

fn main(rt: HostRuntime) -> io::Result<()> {
    check_files::<Policies>(&rt)
}
