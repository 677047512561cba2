// The files of this program's cases, which are read as those of others. A subject of `case_text` is made without a
// handle, and a run of serving may wait: so a run is made here with the handle that it waits by.
use crate::runs::Runs;
use case_text::{CaseStop, Words};
use maple_base::NoMemory;
use std::alloc::Global;
use std::io::ErrorKind;
use std::sync::Wait;
use std::thread::Threads;
use std::{fs, io};

/// Checks the cases of a file; whether all are right.
///
/// # Errors
///
/// A file that can't be read, or too little memory.
pub fn check_runs<R: Threads + Wait + Copy + Send + Sync>(
    handle: R,
    rt: &HostRuntime,
    file: &str,
) -> io::Result<bool> {
    let text = read(rt, file)?;
    let mut wrong = String::new(rt.alloc());
    let right = right_in(handle, rt.alloc(), text.as_str(), &mut wrong)?;
    println!(rt; "{file}: {right} right")?;
    eprint!(rt; "{wrong}")?;
    Ok(wrong.is_empty())
}

fn read(rt: &HostRuntime, file: &str) -> io::Result<String> {
    match fs::read_to_string(rt, file) {
        Ok(text) => Ok(text),
        Err(error) => {
            eprintln!(rt; "{file} can't be read")?;
            Err(error)
        }
    }
}

fn right_in<R: Threads + Wait + Copy + Send + Sync>(
    handle: R,
    alloc: Global,
    text: &str,
    wrong: &mut String,
) -> io::Result<u64> {
    match check_text(handle, alloc, text, wrong) {
        Ok(right) => Ok(right),
        Err(NoMemory) => Err(io::Error::from(ErrorKind::OutOfMemory)),
    }
}

// How many cases of a text are right. Each wrong one is appended, with the answer that was given.
fn check_text<R: Threads + Wait + Copy + Send + Sync>(
    handle: R,
    alloc: Global,
    text: &str,
    wrong: &mut String,
) -> Result<u64, NoMemory> {
    let mut right = 0u64;
    for run in text.split("\n\n") {
        right = right.saturating_add(check_run(handle, alloc, run, wrong)?);
    }
    Ok(right)
}

fn check_run<R: Threads + Wait + Copy + Send + Sync>(
    handle: R,
    alloc: Global,
    run: &str,
    wrong: &mut String,
) -> Result<u64, NoMemory> {
    let mut runs = Runs::new(handle, alloc);
    let mut right = 0u64;
    for line in run.lines() {
        if is_case(line) && is_right(alloc, &mut runs, line, wrong)? {
            right = right.saturating_add(1);
        }
    }
    Ok(right)
}

fn is_case(line: &str) -> bool {
    !line.is_empty() && !line.starts_with('#')
}

// Where no answer is written, `ok` is wanted.
fn is_right<R: Threads + Wait + Copy + Send + Sync>(
    alloc: Global,
    runs: &mut Runs<R>,
    line: &str,
    wrong: &mut String,
) -> Result<bool, NoMemory> {
    let (call, wanted) = line.split_once(" => ").unwrap_or((line, "ok"));
    let given = given(alloc, runs, call)?;
    if given.as_str() == wanted {
        return Ok(true);
    }
    write!(wrong, "{line}\n  but {given}\n")?;
    Ok(false)
}

fn given<R: Threads + Wait + Copy + Send + Sync>(
    alloc: Global,
    runs: &mut Runs<R>,
    call: &str,
) -> Result<String, NoMemory> {
    let mut given = String::new(alloc);
    match runs.answer(Words::new(call), &mut given) {
        Ok(()) => Ok(given),
        Err(CaseStop::Unread) => unread(given),
        Err(CaseStop::NoMemory) => Err(NoMemory),
    }
}

fn unread(mut given: String) -> Result<String, NoMemory> {
    given.push_str("unread")?;
    Ok(given)
}
