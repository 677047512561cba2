//! Cases of serving: whole runs over a board, with how each ends, what it writes, and what it sends.
#![tactic(auto)]

mod calls;
mod checking;
mod command;
mod given;
mod messages;
mod outcome;
mod runs;
mod settings;
mod slow_board;
mod turns;

use checking::check_runs;
use std::io;
use std::io::ErrorKind;

// Checks each file that a line of standard input names, `runs FILE`.
fn main(rt: HostRuntime) -> io::Result<()> {
    let lines = io::read_to_string(rt.alloc(), rt.stdin())?;
    let mut all_right = true;
    for line in lines.lines() {
        let Some(file) = line.strip_prefix("runs ") else {
            return Err(io::Error::from(ErrorKind::NotFound));
        };
        if !check_runs(rt, &rt, file)? {
            all_right = false;
        }
    }
    if all_right {
        Ok(())
    } else {
        Err(io::Error::from(ErrorKind::InvalidData))
    }
}
