//! Cases of boards of connections.
#![tactic(auto)]

mod calls;
mod case_outbox;
mod control;
mod memory;
mod sending;
mod slow_board;
mod turns;

use case_text::{Program, check_file, check_files};
use control::Control;
use memory::Memory;
use sending::Sending;
use std::io;
use std::io::ErrorKind;

struct Cases;

impl Program for Cases {
    fn check(rt: &HostRuntime, subject: &str, file: &str) -> io::Result<bool> {
        match subject {
            "memory" => check_file::<Memory>(rt, file),
            "sending" => check_file::<Sending>(rt, file),
            "control" => check_file::<Control>(rt, file),
            _ => Err(io::Error::from(ErrorKind::NotFound)),
        }
    }
}

fn main(rt: HostRuntime) -> io::Result<()> {
    check_files::<Cases>(&rt)
}
