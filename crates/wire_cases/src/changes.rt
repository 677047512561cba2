// A message with one byte changed, or cut short.
use case_text::{CaseStop, Subject, Words};
use maple_base::NoMemory;
use of10_codec::{Bad, decode_ref};
use std::alloc::Global;

/// The bytes of a message.
#[derive(Drop)]
pub struct Changes {
    alloc: Global,
    whole: Vec<u8>,
}

// What is read of other bytes than those of the message.
#[derive(Clone, Copy, Debug, PartialEq, Eq)]
enum Found {
    Wrong(Bad),
    Same,
    Other,
}

impl Subject for Changes {
    fn new(alloc: Global) -> Result<Changes, NoMemory> {
        let whole = Vec::new(alloc);
        Ok(Changes { alloc, whole })
    }

    fn answer(&mut self, mut call: Words<'_>, out: &mut String) -> Result<(), CaseStop> {
        match call.word() {
            "message" => {
                self.whole = call.bytes(self.alloc)?;
                push_cut(&self.whole, self.whole.len(), out)
            }
            "cut" => push_cut(&self.whole, usize::try_from(call.number()?)?, out),
            "change" => push_changes(self.alloc, &self.whole, call, out),
            _ => Err(CaseStop::Unread),
        }
    }
}

fn found_in(bytes: &[u8], whole: &[u8]) -> Found {
    match decode_ref(bytes) {
        Err(bad) => Found::Wrong(bad),
        Ok(message) if decode_ref(whole) == Ok(message) => Found::Same,
        Ok(_) => Found::Other,
    }
}

// What is read of so many bytes.
fn push_cut(whole: &[u8], len: usize, out: &mut String) -> Result<(), CaseStop> {
    let front = whole.get(..len).ok_or(CaseStop::Unread)?;
    let found = found_in(front, whole);
    Ok(write!(out, "{found:?}")?)
}

// OFFSET: what is read where this byte is 0, 1, .. 255; told where it isn't as with the value before.
fn push_changes(
    alloc: Global,
    whole: &[u8],
    mut call: Words<'_>,
    out: &mut String,
) -> Result<(), CaseStop> {
    let offset = usize::try_from(call.number()?)?;
    let mut last: Option<Found> = None;
    for value in 0..=255_u8 {
        let found = changed(alloc, whole, offset, value)?;
        if last != Some(found) {
            let sign = if value == 0 { "" } else { ", " };
            write!(out, "{sign}{value} {found:?}")?;
        }
        last = Some(found);
    }
    Ok(())
}

fn changed(alloc: Global, whole: &[u8], offset: usize, value: u8) -> Result<Found, CaseStop> {
    let mut bytes = Vec::from_slice(alloc, whole)?;
    if offset >= bytes.len() {
        return Err(CaseStop::Unread);
    }
    bytes[offset] = value;
    Ok(found_in(&bytes, whole))
}
