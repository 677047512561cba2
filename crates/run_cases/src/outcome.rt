// What comes of a run.
use crate::devices::{Kind, backward, failing, logged, orderly, refusing};
use crate::given::Given;
use crate::words::words_of;
use case_text::push_text;
use device_port::Device;
use maple_base::NoMemory;
use maple_io::{MemBoard, MemSink, MemSource};
use maple_top::{maple, program_device, push_idle};
use packet_workers::Open;
use std::alloc::{AllocError, Global};
use std::sync::Wait;
use std::thread::Threads;

/// The exit status, and what was written.
#[derive(Drop)]
pub struct Outcome {
    pub status: u8,
    pub sink: MemSink,
}

impl Outcome {
    /// The text that was written; `no text` where its bytes are none.
    pub fn text(&self) -> &str {
        str::from_utf8(self.sink.bytes()).unwrap_or("no text")
    }

    /// Appends the status, and what stands in the text where `wanted` has `@`. Where the text isn't as
    /// it is wanted, all of it.
    pub fn push(&self, wanted: &str, out: &mut String) -> Result<(), AllocError> {
        let status = self.status;
        write!(out, "{status}")?;
        match part_of(self.text(), wanted) {
            Some("") => Ok(()),
            Some(part) => push_behind(" ", part, out),
            None => push_behind(" with ", self.text(), out),
        }
    }
}

/// Runs these words on an input.
pub fn outcome_of<R: Threads + Wait + Copy + Send + Sync>(
    rt: &R,
    alloc: Global,
    given: &Given,
    words: &str,
    input: &str,
) -> Result<Outcome, NoMemory> {
    let words = words_of(alloc, words)?;
    let mut source = source_of(alloc, given, input)?;
    let mut sink = MemSink::new(Vec::from_slice(alloc, &given.writes)?);
    let mut board = no_turns(alloc)?;
    let mut boxes: Vec<Box<dyn Device + Send>> = Vec::new(alloc);
    for kind in given.kinds(alloc)? {
        match kind {
            Kind::Shuffled(n) => push_idle(&mut boxes, Box::new(alloc, program_device(alloc, n))?)?,
            Kind::Orderly(n, room) => {
                push_idle(&mut boxes, Box::new(alloc, orderly(alloc, n, room))?)?
            }
            Kind::Backward(n) => push_idle(&mut boxes, Box::new(alloc, backward(alloc, n))?)?,
            Kind::Logged(n) => push_idle(&mut boxes, Box::new(alloc, logged(alloc, n))?)?,
            Kind::Failing(call) => push_idle(&mut boxes, Box::new(alloc, failing(alloc, call)?)?)?,
            Kind::Refusing(n) => push_idle(&mut boxes, Box::new(alloc, refusing(alloc, n)?)?)?,
            Kind::Liar(n, lie) => push_idle(&mut boxes, Box::new(alloc, given.liar(n, lie)?)?)?,
        }
    }
    let status = maple(
        rt,
        alloc,
        &words,
        &mut source,
        &mut sink,
        &mut boxes,
        &Open,
        &mut board,
    )
    .number();
    Ok(Outcome { status, sink })
}

// A board that ends at once.
fn no_turns(alloc: Global) -> Result<MemBoard, NoMemory> {
    MemBoard::new(Vec::new(alloc), Vec::new(alloc))
}

fn source_of(alloc: Global, given: &Given, input: &str) -> Result<MemSource, AllocError> {
    let content = Vec::from_slice(alloc, input.as_bytes())?;
    Ok(MemSource::new(content, Vec::from_slice(alloc, &given.reads)?))
}

fn part_of<'a>(text: &'a str, wanted: &str) -> Option<&'a str> {
    match wanted.split_once('@') {
        Some((ahead, behind)) => text.strip_prefix(ahead)?.strip_suffix(behind),
        None => text.strip_prefix(wanted)?.strip_suffix(""),
    }
}

fn push_behind(ahead: &str, text: &str, out: &mut String) -> Result<(), AllocError> {
    out.push_str(ahead)?;
    push_text(text.as_bytes(), out)
}
