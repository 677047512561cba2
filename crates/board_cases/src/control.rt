// A reader of control text, and what is read of the text of the last policy that it gave.
use board_lines::{ControlItem, ControlReader};
use case_text::{CaseStop, Subject, Words, push_hex, push_text};
use maple_base::{Bytes, NoMemory};
use policy_text::{ReadError, read_policy};
use std::alloc::{AllocError, Global};

/// A reader of control text.
#[derive(Drop)]
pub struct Control {
    alloc: Global,
    reader: ControlReader,
    policy: Bytes,
}

impl Subject for Control {
    fn new(alloc: Global) -> Result<Control, NoMemory> {
        Ok(Control {
            alloc,
            reader: ControlReader::new(alloc),
            policy: Bytes::new(Vec::new(alloc)),
        })
    }

    fn answer(&mut self, mut call: Words<'_>, out: &mut String) -> Result<(), CaseStop> {
        match call.word() {
            "push" => self.push(call.text(self.alloc)?.as_bytes(), out)?,
            "bytes" => self.push(&call.bytes(self.alloc)?, out)?,
            "fill" => self.fill(call, out)?,
            "end" => self.end(out)?,
            "stored" => write!(out, "{}", self.reader.stored())?,
            "read" => push_read(self.alloc, self.policy.items(), out)?,
            _ => return Err(CaseStop::Unread),
        }
        if out.is_empty() {
            out.push_str("ok")?;
        }
        Ok(())
    }
}

impl Control {
    // Reads these bytes, and tells what was given.
    fn push(&mut self, bytes: &[u8], out: &mut String) -> Result<(), CaseStop> {
        for byte in bytes {
            if let Some(item) = self.reader.push(*byte)? {
                self.tell(item, out)?;
            }
        }
        Ok(())
    }

    // COUNT TEXT: reads the text so many times.
    fn fill(&mut self, mut call: Words<'_>, out: &mut String) -> Result<(), CaseStop> {
        let count = call.number()?;
        let text = call.text(self.alloc)?;
        for _ in 0..count {
            self.push(text.as_bytes(), out)?;
        }
        Ok(())
    }

    fn end(&mut self, out: &mut String) -> Result<(), CaseStop> {
        match self.reader.end() {
            Some(item) => Ok(self.tell(item, out)?),
            None => Ok(()),
        }
    }

    fn tell(&mut self, item: ControlItem, out: &mut String) -> Result<(), AllocError> {
        if !out.is_empty() {
            out.push_str(" ")?;
        }
        match item {
            ControlItem::Line { number, text } => push_item(number, "line", text.items(), out),
            ControlItem::TooLong { number } => write!(out, "{number} too long"),
            ControlItem::Policy { number, text } => {
                push_item(number, "policy", text.items(), out)?;
                self.policy = text;
                Ok(())
            }
        }
    }
}

// What was given, with its text between brackets: as hexadecimal digits where it has a byte that is not
// printed, and the count of its bytes where there are more than 64.
fn push_item(number: u32, kind: &str, text: &[u8], out: &mut String) -> Result<(), AllocError> {
    if text.len() > 64 {
        return write!(out, "{number} {kind} of {}", text.len());
    }
    write!(out, "{number} {kind} [")?;
    if is_printed(text) {
        push_text(text, out)?;
    } else {
        push_hex(text, out)?;
    }
    out.push_str("]")
}

fn is_printed(text: &[u8]) -> bool {
    text.iter()
        .all(|byte| *byte == b'\n' || (32..127).contains(byte))
}

fn push_read(alloc: Global, text: &[u8], out: &mut String) -> Result<(), CaseStop> {
    match read_policy(alloc, text) {
        Ok(_) => Ok(out.push_str("policy")?),
        Err(ReadError::Refused { line, column, kind }) => Ok(write!(
            out,
            "{line}:{column} {kind}"
        )?),
        Err(ReadError::NoMemory) => Err(CaseStop::NoMemory),
    }
}
