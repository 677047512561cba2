// Runs: calls of one value, one after the other.
use crate::{CaseStop, Words};
use maple_base::NoMemory;
use std::alloc::Global;

/// A value that calls are made of.
pub trait Subject: Drop {
    /// A new value, at the head of each run.
    fn new(alloc: Global) -> Result<Self, NoMemory>;

    /// Appends the answer to a call.
    fn answer(&mut self, call: Words<'_>, out: &mut String) -> Result<(), CaseStop>;
}

/// How many cases of a text are right. Each wrong one is appended, with the answer that was given.
/// A run is the lines up to an empty one; `#` begins a comment.
pub fn check_text<S: Subject>(
    alloc: Global,
    text: &str,
    wrong: &mut String,
) -> Result<u64, NoMemory> {
    let mut right = 0u64;
    for run in text.split("\n\n") {
        right = right.saturating_add(check_run::<S>(alloc, run, wrong)?);
    }
    Ok(right)
}

fn check_run<S: Subject>(alloc: Global, run: &str, wrong: &mut String) -> Result<u64, NoMemory> {
    let mut subject = S::new(alloc)?;
    let mut right = 0u64;
    for line in run.lines() {
        if is_case(line) && is_right(alloc, &mut subject, line, wrong)? {
            right = right.saturating_add(1);
        }
    }
    Ok(right)
}

fn is_case(line: &str) -> bool {
    !line.is_empty() && !line.starts_with('#')
}

// Where no answer is written, `ok` is wanted.
fn is_right<S: Subject>(
    alloc: Global,
    subject: &mut S,
    line: &str,
    wrong: &mut String,
) -> Result<bool, NoMemory> {
    let (call, wanted) = line.split_once(" => ").unwrap_or((line, "ok"));
    let given = given(alloc, subject, call)?;
    if given.as_str() == wanted {
        return Ok(true);
    }
    write!(wrong, "{line}\n  but {given}\n")?;
    Ok(false)
}

fn given<S: Subject>(alloc: Global, subject: &mut S, call: &str) -> Result<String, NoMemory> {
    let mut given = String::new(alloc);
    match subject.answer(Words::new(call), &mut given) {
        Ok(()) => Ok(given),
        Err(CaseStop::Unread) => unread(given),
        Err(CaseStop::NoMemory) => Err(NoMemory),
    }
}

fn unread(mut given: String) -> Result<String, NoMemory> {
    given.push_str("unread")?;
    Ok(given)
}
