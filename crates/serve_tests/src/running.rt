// A run of `serve` by the top call, and boards in memory.
use device_port::Device;
use maple_base::{Bytes, NoMemory, Words};
use maple_io::mem_board::{are_pieces, open_once};
use maple_io::{Board, MemBoard, MemSink, MemSource, MemTurn, Piece};
use maple_top::{Status, maple};
use packet_workers::Gate;
use std::alloc::{AllocError, Global};
use std::sync::Wait;
use std::thread::Threads;

// The policy; there is no start script.
const INPUT: &[u8] = b"policy { if pkt.tp_dst is 22 { drop; } out 2; }\n";

// What a switch hears until it is ready: HELLO, FEATURES_REQUEST, SET_CONFIG, the deletion of all rules, BARRIER_REQUEST.
const BOOTED: [&[u8]; 5] = [
    b"\x01\x00\x00\x08\x00\x00\x00\x00",
    b"\x01\x05\x00\x08\x00\x00\x00\x00",
    b"\x01\x09\x00\x0c\x00\x00\x00\x00\x00\x00\xff\xff",
    b"\x01\x0e\x00\x48\x00\x00\x00\x01\x00\x38\x20\xff\x00\x00\x00\x00\x00\x00\x00\x00\x00\x00\x00\x00\x00\x00\x00\x00\x00\x00\x00\x00\
\x00\x00\x00\x00\x00\x00\x00\x00\x00\x00\x00\x00\x00\x00\x00\x00\x00\x00\x00\x00\x00\x00\x00\x00\x00\x03\x00\x00\x00\x00\x00\x00\
\xff\xff\xff\xff\xff\xff\x00\x00",
    b"\x01\x12\x00\x08\x00\x00\x00\x02",
];

/// The packet of 54 bytes to TCP port 80 that came in by port 1, sent out by port 2.
pub(crate) const SENT_OUT: &[u8] =
    b"\x01\x0d\x00\x4e\x00\x00\x00\x00\xff\xff\xff\xff\x00\x01\x00\x08\x00\x00\x00\x08\x00\x02\x00\x00\
\x00\x00\x00\x00\x00\x00\x00\x00\x00\x00\x00\x00\x08\x00\x45\x00\x00\x28\x00\x00\x00\x00\x40\x06\x00\x00\x00\x00\x00\x00\x00\x00\x00\x00\
\x00\x00\x00\x50\x00\x00\x00\x00\x00\x00\x00\x00\x50\x00\x00\x00\x00\x00\x00\x00";

/// The second one of a session.
pub(crate) const BARRIER_REQUEST: &[u8] = b"\x01\x12\x00\x08\x00\x00\x00\x04";

/// How a run ended, and what it wrote.
#[derive(Drop)]
pub(crate) struct Outcome {
    pub(crate) status: Status,
    sink: MemSink,
}

impl Outcome {
    /// The text that was written; none where its bytes are no text.
    pub(crate) fn text(&self) -> &str {
        str::from_utf8(self.sink.bytes()).unwrap_or("")
    }
}

/// Runs these words over a board.
pub(crate) fn serve<R: Threads + Wait + Copy + Send + Sync, G: Gate + Sync, B: Board>(
    rt: &R,
    alloc: Global,
    words: &str,
    gate: &G,
    board: &mut B,
) -> Result<Outcome, NoMemory> {
    let words = words_of(alloc, words)?;
    let mut source = MemSource::new(Vec::from_slice(alloc, INPUT)?, Vec::new(alloc));
    let mut sink = MemSink::new(Vec::new(alloc));
    let mut devices: Vec<Box<dyn Device + Send>> = Vec::new(alloc);
    let status = maple(
        rt,
        alloc,
        &words,
        &mut source,
        &mut sink,
        &mut devices,
        gate,
        board,
    );
    Ok(Outcome { status, sink })
}

// The words of a text, with a blank between them.
fn words_of(alloc: Global, text: &str) -> Result<Words, NoMemory> {
    let mut words = Vec::new(alloc);
    for word in text.split(' ') {
        words.push(Bytes::new(Vec::from_slice(alloc, word.as_bytes())?))?;
    }
    Ok(Words::new(words))
}

/// A board of these turns; none where they are none that a board may have.
pub(crate) fn board_of(alloc: Global, turns: Vec<MemTurn>) -> Result<Option<MemBoard>, NoMemory> {
    if are_pieces(&turns) && open_once(&turns) {
        Ok(Some(MemBoard::new(turns, Vec::new(alloc))?))
    } else {
        Ok(None)
    }
}

/// The first connection is opened, and what the switch 1 sends until it is ready comes.
pub(crate) fn boot(alloc: Global, turns: &mut Vec<MemTurn>) -> Result<(), AllocError> {
    turns.push(MemTurn::Opened(1))?;
    heard(alloc, turns, b"\x01\x00\x00\x08\x00\x00\x00\x00")?;
    heard(
        alloc,
        turns,
        b"\x01\x06\x00\x20\x00\x00\x00\x00\x00\x00\x00\x00\x00\x00\x00\x01\x00\x00\x00\x00\x00\x00\x00\x00\x00\x00\x00\x00\x00\x00\x00\x00",
    )?;
    heard(alloc, turns, b"\x01\x13\x00\x08\x00\x00\x00\x02")
}

/// Bytes come on the first connection.
pub(crate) fn heard(
    alloc: Global,
    turns: &mut Vec<MemTurn>,
    bytes: &[u8],
) -> Result<(), AllocError> {
    let piece = Piece::new(Vec::from_slice(alloc, bytes)?);
    turns.push(MemTurn::Bytes(1, piece))?;
    Ok(())
}

/// The control text says `quit`.
pub(crate) fn quit(alloc: Global, turns: &mut Vec<MemTurn>) -> Result<(), AllocError> {
    let piece = Piece::new(Vec::from_slice(alloc, b"quit\n")?);
    turns.push(MemTurn::Control(piece))?;
    Ok(())
}

/// What a switch hears until it is ready, and these messages.
pub(crate) fn booted_and(alloc: Global, messages: &[&[u8]]) -> Result<Vec<u8>, AllocError> {
    let mut all = Vec::new(alloc);
    for message in BOOTED {
        all.extend_from_slice(message)?;
    }
    for message in messages {
        all.extend_from_slice(message)?;
    }
    Ok(all)
}
