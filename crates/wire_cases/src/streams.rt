// Streams of messages, piece by piece.
use crate::messages::push_message;
use case_text::{CaseStop, Subject, Words};
use maple_base::NoMemory;
use of10_stream::{Next, Reassembly};
use std::alloc::Global;

/// A stream.
#[derive(Drop)]
pub struct Streams {
    alloc: Global,
    stream: Reassembly,
}

impl Subject for Streams {
    fn new(alloc: Global) -> Result<Streams, NoMemory> {
        let stream = Reassembly::new(alloc);
        Ok(Streams { alloc, stream })
    }

    fn answer(&mut self, mut call: Words<'_>, out: &mut String) -> Result<(), CaseStop> {
        match call.word() {
            "feed" => feed(self.alloc, &mut self.stream, call, out),
            "next" => push_next(&self.stream.next(), out),
            _ => Err(CaseStop::Unread),
        }
    }
}

fn feed(
    alloc: Global,
    stream: &mut Reassembly,
    call: Words<'_>,
    out: &mut String,
) -> Result<(), CaseStop> {
    let piece = call.bytes(alloc)?;
    stream.feed(&piece)?;
    Ok(out.push_str("ok")?)
}

fn push_next(next: &Next, out: &mut String) -> Result<(), CaseStop> {
    match next {
        Next::Message(message) => Ok(push_message(message, out)?),
        Next::More => Ok(out.push_str("More")?),
        Next::Bad { place, bad } => { Ok(write!(out, "{bad:?} from {place}")?) }
        Next::NoMemory => Err(CaseStop::NoMemory),
    }
}
