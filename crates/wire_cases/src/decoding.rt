// Messages as they are read.
use crate::messages::push_message;
use case_text::{CaseStop, Words};
use of10_codec::{DecodeError, decode, decode_ref};
use std::alloc::Global;

/// read DIGITS: what is read of the bytes.
pub fn read(alloc: Global, call: Words<'_>, out: &mut String) -> Result<(), CaseStop> {
    push_read(alloc, &call.bytes(alloc)?, out)
}

/// filled LENGTH DIGITS: what is read of the bytes, with zeros up to the length.
pub fn filled(alloc: Global, mut call: Words<'_>, out: &mut String) -> Result<(), CaseStop> {
    let len = usize::try_from(call.number()?)?;
    let mut bytes = call.bytes(alloc)?;
    for _ in bytes.len()..len {
        bytes.push(0)?;
    }
    push_read(alloc, &bytes, out)
}

// What is read of bytes, and what is read of them where they lie, if that's something else.
fn push_read(alloc: Global, bytes: &[u8], out: &mut String) -> Result<(), CaseStop> {
    push_own(alloc, bytes, out)?;
    let mut lent = String::new(alloc);
    push_lent(alloc, bytes, &mut lent)?;
    if lent.as_str() != out.as_str() {
        write!(out, ", lent {lent}")?;
    }
    Ok(())
}

fn push_own(alloc: Global, bytes: &[u8], out: &mut String) -> Result<(), CaseStop> {
    match decode(alloc, bytes) {
        Ok(message) => Ok(push_message(&message, out)?),
        Err(DecodeError::Bad(bad)) => Ok(write!(out, "{bad:?}")?),
        Err(DecodeError::NoMemory) => Err(CaseStop::NoMemory),
    }
}

fn push_lent(alloc: Global, bytes: &[u8], out: &mut String) -> Result<(), CaseStop> {
    match decode_ref(bytes) {
        Ok(message) => Ok(push_message(&message.to_message(alloc)?, out)?),
        Err(bad) => Ok(write!(out, "{bad:?}")?),
    }
}
