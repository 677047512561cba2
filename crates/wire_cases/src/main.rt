//! Cases of the crates that read and write: numbers and names, bytes, messages, frames, scripts, reports.
#![tactic(auto)]

mod base;
mod bodies;
mod calls;
mod changes;
mod commands;
mod decisions;
mod decoding;
mod encoding;
mod frames;
mod lines;
mod memory;
mod messages;
mod numbers;
mod reports;
mod scripts;
mod spelling;
mod streams;
mod writing;

use base::Base;
use calls::Calls;
use case_text::{Program, check_file, check_files};
use changes::Changes;
use memory::Memory;
use std::io;
use std::io::ErrorKind;
use streams::Streams;

struct Wire;

impl Program for Wire {
    fn check(rt: &HostRuntime, subject: &str, file: &str) -> io::Result<bool> {
        match subject {
            "calls" => check_file::<Calls>(rt, file),
            "base" => check_file::<Base>(rt, file),
            "changes" => check_file::<Changes>(rt, file),
            "streams" => check_file::<Streams>(rt, file),
            "memory" => check_file::<Memory>(rt, file),
            _ => Err(io::Error::from(ErrorKind::NotFound)),
        }
    }
}

fn main(rt: HostRuntime) -> io::Result<()> {
    check_files::<Wire>(&rt)
}
