// A run of `sim` beside workers, over one device.
ghost use Rattle.std.specs.Prelude.{◌≡◌, []};
ghost use Rattle.model_switch.specs.Meanings.{of_orderly};

use device_port::Device;
use maple_base::{Bytes, NoMemory, Words};
use maple_io::{MemBoard, MemSink, MemSource};
use maple_top::{PORTS, Status, maple, push_idle};
use model_switch::Orderly;
use packet_workers::Gate;
use std::alloc::Global;
use std::sync::Wait;
use std::thread::Threads;

/// The lines that plug in the device and make it ready.
pub(crate) const BOOT: &str = "plug 1\nsettle\n";

/// What is reported of them.
pub(crate) const BOOTED: &str = "open c1\nstate 1 pruned 0\nready c1 s1\nsettled 5\n";

/// How a run ended, and what it wrote.
#[derive(Drop)]
pub(crate) struct Outcome {
    pub(crate) status: Status,
    sink: MemSink,
}

impl Outcome {
    /// The text that was written; none where its bytes are no text.
    pub(crate) fn text(&self) -> &str {
        str::from_utf8(self.sink.bytes()).unwrap_or("")
    }
}

/// Runs these words on an input. The writes of these numbers fail.
pub(crate) fn run<R: Threads + Wait + Copy + Send + Sync, G: Gate + Sync>(
    rt: &R,
    alloc: Global,
    words: &str,
    input: &str,
    gate: &G,
    fails: &[u64],
) -> Result<Outcome, NoMemory> {
    let words = words_of(alloc, words)?;
    let content = Vec::from_slice(alloc, input.as_bytes())?;
    let mut source = MemSource::new(content, Vec::new(alloc));
    let mut sink = MemSink::new(Vec::from_slice(alloc, fails)?);
    let mut devices: Vec<Box<dyn Device + Send>> = Vec::new(alloc);
    push_idle(&mut devices, Box::new(alloc, device(alloc))?)?;
    let mut board = no_turns(alloc)?;
    let status = maple(
        rt,
        alloc,
        &words,
        &mut source,
        &mut sink,
        &mut devices,
        gate,
        &mut board,
    );
    Ok(Outcome { status, sink })
}

/// A board that ends at once.
pub(crate) fn no_turns(alloc: Global) -> Result<MemBoard, NoMemory> {
    MemBoard::new(Vec::new(alloc), Vec::new(alloc))
}

// Switch 1, with room for 1,024 rules.
fn device(alloc: Global) -> Orderly
    ensures { (of_orderly result).pending ≡ [] }
{
    Orderly::new(alloc, 1, PORTS, 1024)
}

// The words of a text, with a blank between them.
fn words_of(alloc: Global, text: &str) -> Result<Words, NoMemory> {
    let mut words = Vec::new(alloc);
    for word in text.split(' ') {
        words.push(Bytes::new(Vec::from_slice(alloc, word.as_bytes())?))?;
    }
    Ok(Words::new(words))
}
