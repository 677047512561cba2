//! Cases of the top call: whole runs over devices, with what each writes and its exit status.
#![tactic(auto)]

mod checking;
mod devices;
mod examples;
mod given;
mod outcome;
mod runs;
mod summing;
mod words;

use checking::check_runs;
use examples::check_example;
use std::io;
use std::io::ErrorKind;
use std::sync::Wait;
use std::thread::Threads;

fn check<R: Threads + Wait + Copy + Send + Sync>(
    handle: R,
    rt: &HostRuntime,
    subject: &str,
    file: &str,
) -> io::Result<bool> {
    match subject {
        "runs" => check_runs(handle, rt, file),
        "sim" | "check" => check_example(&handle, rt, subject, file),
        _ => Err(io::Error::from(ErrorKind::NotFound)),
    }
}

// Checks each file that a line of standard input names, `SUBJECT FILE`.
fn main(rt: HostRuntime) -> io::Result<()> {
    let lines = io::read_to_string(rt.alloc(), rt.stdin())?;
    let mut all_right = true;
    for line in lines.lines() {
        let (subject, file) = line.split_once(' ').unwrap_or((line, ""));
        if !check(rt, &rt, subject, file)? {
            all_right = false;
        }
    }
    if all_right {
        Ok(())
    } else {
        Err(io::Error::from(ErrorKind::InvalidData))
    }
}
