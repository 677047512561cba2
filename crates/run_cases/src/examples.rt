// The examples: a policy with its script in one file, and what comes of it in another.
use crate::given::Given;
use crate::outcome::outcome_of;
use maple_base::NoMemory;
use std::alloc::Global;
use std::io::ErrorKind;
use std::sync::Wait;
use std::thread::Threads;
use std::{fs, io};

/// Runs a word of the command line on the example of this name; whether it writes what is stored.
///
/// # Errors
///
/// A file that can't be read, or too little memory.
pub fn check_example<R: Threads + Wait + Copy + Send + Sync>(
    handle: &R,
    rt: &HostRuntime,
    word: &str,
    name: &str,
) -> io::Result<bool> {
    let input = read(rt, name, "maple")?;
    let output = read(rt, name, "out")?;
    if is_right(handle, rt.alloc(), word, input.as_str(), output.as_str())? {
        println!(rt; "{name}: 1 right")?;
        Ok(true)
    } else {
        eprintln!(rt; "{name} writes something else")?;
        Ok(false)
    }
}

fn read(rt: &HostRuntime, name: &str, ending: &str) -> io::Result<String> {
    let mut file = String::new(rt.alloc());
    write!(file, "{name}.{ending}")?;
    fs::read_to_string(rt, file.as_str())
}

fn is_right<R: Threads + Wait + Copy + Send + Sync>(
    handle: &R,
    alloc: Global,
    word: &str,
    input: &str,
    output: &str,
) -> io::Result<bool> {
    match outcome_of(handle, alloc, &Given::new(alloc), word, input) {
        Ok(came) => Ok(came.status == 0 && came.text() == output),
        Err(NoMemory) => Err(io::Error::from(ErrorKind::OutOfMemory)),
    }
}
