// The lines of reports: what is written, and the room that it takes.
use crate::lines::line_of;
use case_text::{CaseStop, Words, push_text};
use report_text::{Line, SHORT_LINE, line_len, write_line};
use std::alloc::Global;

/// text LINE: what is written of a line behind other bytes.
pub fn text(alloc: Global, call: Words<'_>, out: &mut String) -> Result<(), CaseStop> {
    let line = line_of(alloc, call)?;
    let mut bytes = Vec::from_slice(alloc, b"> ")?;
    write_line(&line, &mut bytes)?;
    Ok(push_text(&bytes, out)?)
}

/// Appends how many bytes a line has, and what else they are where they are told or take room in another number.
pub fn push_room(alloc: Global, line: &Line, out: &mut String) -> Result<(), CaseStop> {
    let len = line_len(line);
    let mut bytes = Vec::with_capacity(alloc, len)?;
    write_line(line, &mut bytes)?;
    write!(out, "{}", bytes.len())?;
    if bytes.len() != len || bytes.capacity() != len {
        write!(out, ", told {len}, room {}", bytes.capacity())?;
    }
    Ok(())
}

/// short LINE: as `room`, of a line that is to be short.
pub fn short(alloc: Global, call: Words<'_>, out: &mut String) -> Result<(), CaseStop> {
    let line = line_of(alloc, call)?;
    push_room(alloc, &line, out)?;
    if line_len(&line) > SHORT_LINE {
        out.push_str(", not short")?;
    }
    Ok(())
}
