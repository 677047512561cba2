// The files of a program of cases.
use crate::Subject;
use crate::runs::check_text;
use maple_base::NoMemory;
use std::alloc::Global;
use std::io::ErrorKind;
use std::{fs, io};

/// A program of cases, which has a subject for each kind of file.
pub trait Program {
    /// Checks a file by `check_file` for the subject of this name; whether all its cases are right.
    ///
    /// # Errors
    ///
    /// Those of `check_file`, or `NotFound`, where no subject has this name.
    fn check(rt: &HostRuntime, subject: &str, file: &str) -> io::Result<bool>;
}

/// Checks the cases of each file that a line of standard input names, `SUBJECT FILE`. Prints how many
/// of a file are right, and writes each wrong one to standard error.
///
/// # Errors
///
/// A file that can't be read, a subject that the program doesn't have, too little memory, or
/// `InvalidData`, where a case was wrong.
pub fn check_files<P: Program>(rt: &HostRuntime) -> io::Result<()> {
    let lines = io::read_to_string(rt.alloc(), rt.stdin())?;
    let mut all_right = true;
    for line in lines.lines() {
        let (subject, file) = line.split_once(' ').unwrap_or((line, ""));
        if !P::check(rt, subject, file)? {
            all_right = false;
        }
    }
    if all_right {
        Ok(())
    } else {
        Err(io::Error::from(ErrorKind::InvalidData))
    }
}

/// Checks the cases of a file; whether all are right.
///
/// # Errors
///
/// A file that can't be read, or too little memory.
pub fn check_file<S: Subject>(rt: &HostRuntime, file: &str) -> io::Result<bool> {
    let text = read(rt, file)?;
    let mut wrong = String::new(rt.alloc());
    let right = right_in::<S>(rt.alloc(), text.as_str(), &mut wrong)?;
    println!(rt; "{file}: {right} right")?;
    eprint!(rt; "{wrong}")?;
    Ok(wrong.is_empty())
}

fn right_in<S: Subject>(alloc: Global, text: &str, wrong: &mut String) -> io::Result<u64> {
    match check_text::<S>(alloc, text, wrong) {
        Ok(right) => Ok(right),
        Err(NoMemory) => Err(io::Error::from(ErrorKind::OutOfMemory)),
    }
}

fn read(rt: &HostRuntime, file: &str) -> io::Result<String> {
    match fs::read_to_string(rt, file) {
        Ok(text) => Ok(text),
        Err(error) => {
            eprintln!(rt; "{file} can't be read")?;
            Err(error)
        }
    }
}
