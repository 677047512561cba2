// A source and a sink in memory, whose failures are chosen ahead.
use crate::spelling::numbers_of;
use case_text::{CaseStop, Subject, Words, push_hex};
use maple_base::NoMemory;
use maple_io::{Got, MemSink, MemSource, Put, Sink, Source};
use std::alloc::{AllocError, Global};

/// A source and a sink.
#[derive(Drop)]
pub struct Memory {
    alloc: Global,
    source: MemSource,
    sink: MemSink,
}

impl Subject for Memory {
    fn new(alloc: Global) -> Result<Memory, NoMemory> {
        Ok(Memory {
            alloc,
            source: MemSource::new(Vec::new(alloc), Vec::new(alloc)),
            sink: MemSink::new(Vec::new(alloc)),
        })
    }

    fn answer(&mut self, mut call: Words<'_>, out: &mut String) -> Result<(), CaseStop> {
        match call.word() {
            "source" => {
                self.source = source(self.alloc, call)?;
                Ok(out.push_str("ok")?)
            }
            "sink" => {
                self.sink = MemSink::new(numbers_of(self.alloc, call.word())?);
                Ok(out.push_str("ok")?)
            }
            "read" => push_read(self.alloc, &mut self.source, call, out),
            "write" => push_write(&mut self.sink, call.rest().as_bytes(), out),
            "taken" => Ok(push_taken(self.sink.bytes(), out)?),
            _ => Err(CaseStop::Unread),
        }
    }
}

// The numbers of the reads that fail, and bytes.
fn source(alloc: Global, mut call: Words<'_>) -> Result<MemSource, CaseStop> {
    let fails = numbers_of(alloc, call.word())?;
    let content = call.bytes(alloc)?;
    Ok(MemSource::new(content, fails))
}

// LENGTH: what one read into so many bytes gives, and how many reads failed up to now.
fn push_read(
    alloc: Global,
    source: &mut MemSource,
    mut call: Words<'_>,
    out: &mut String,
) -> Result<(), CaseStop> {
    let mut into = vec![in alloc; 0u8; usize::try_from(call.number()?)?]?;
    if into.is_empty() {
        return Err(CaseStop::Unread);
    }
    match source.read(&mut into) {
        Got::Bytes(count) => push_hex(into.get(..count).unwrap_or(&[]), out)?,
        Got::End => out.push_str("end")?,
        Got::Failed => out.push_str("failed")?,
    }
    Ok(write!(out, "/{}", source.faults())?)
}

// What became of one write, and how many writes failed up to now.
fn push_write(sink: &mut MemSink, piece: &[u8], out: &mut String) -> Result<(), CaseStop> {
    if piece.is_empty() {
        return Err(CaseStop::Unread);
    }
    push_put(sink.write(piece), out)?;
    Ok(write!(out, "/{}", sink.faults())?)
}

fn push_put(put: Put, out: &mut String) -> Result<(), AllocError> {
    match put {
        Put::Took(count) => write!(out, "{count}"),
        Put::Failed => out.push_str("failed"),
        Put::NoMemory => out.push_str("no memory"),
    }
}

fn push_taken(bytes: &[u8], out: &mut String) -> Result<(), AllocError> {
    out.push_str("[")?;
    push_hex(bytes, out)?;
    out.push_str("]")
}
