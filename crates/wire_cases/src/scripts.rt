// The lines of scripts.
use crate::commands::push_command;
use case_text::{CaseStop, Words};
use script_text::{LineError, read_line};
use std::alloc::Global;

/// Appends the command of a line, or why it has none.
pub fn push_read(alloc: Global, line: &[u8], out: &mut String) -> Result<(), CaseStop> {
    match read_line(alloc, line) {
        Ok(command) => Ok(push_command(&command, out)?),
        Err(LineError::TooLong) => Ok(out.push_str("TooLong")?),
        Err(LineError::Grammar) => Ok(out.push_str("Grammar")?),
        Err(LineError::NoMemory) => Err(CaseStop::NoMemory),
    }
}

/// comment LENGTH: a line of so many `#`.
pub fn comment(alloc: Global, mut call: Words<'_>, out: &mut String) -> Result<(), CaseStop> {
    let len = usize::try_from(call.number()?)?;
    let line = vec![in alloc; b'#'; len]?;
    push_read(alloc, &line, out)
}
