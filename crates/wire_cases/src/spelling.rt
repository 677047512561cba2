// Words that several subjects have: lists of numbers, ports, bytes.
use case_text::{CaseStop, Words, push_hex};
use maple_text::value_of;
use std::alloc::{AllocError, Global};

/// The numbers that a word has, with commas between them, or `none`.
pub fn numbers_of(alloc: Global, word: &str) -> Result<Vec<u64>, CaseStop> {
    let mut list = Vec::new(alloc);
    if word == "none" {
        return Ok(list);
    }
    for part in word.split(',') {
        list.push(value_of(part.as_bytes()).ok_or(CaseStop::Unread)?)?;
    }
    Ok(list)
}

/// Appends ` : ` and the bytes, where there are some.
pub fn push_tail(bytes: &[u8], out: &mut String) -> Result<(), AllocError> {
    if bytes.is_empty() {
        return Ok(());
    }
    out.push_str(" : ")?;
    push_hex(bytes, out)
}

/// The bytes that digits spell, or `DIGITS*COUNT`, so often as the number says.
pub fn repeated(alloc: Global, text: &str) -> Result<Vec<u8>, CaseStop> {
    match text.split_once('*') {
        None => Words::new(text).bytes(alloc),
        Some((digits, count)) => times(alloc, digits, Words::new(count).number()?),
    }
}

fn times(alloc: Global, digits: &str, count: u64) -> Result<Vec<u8>, CaseStop> {
    let once = Words::new(digits).bytes(alloc)?;
    let mut bytes = Vec::new(alloc);
    for _ in 0..count {
        bytes.extend_from_slice(&once)?;
    }
    Ok(bytes)
}
