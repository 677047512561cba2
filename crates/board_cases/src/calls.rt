// Calls of any board. Each tells its answer, and behind it how many calls failed and how many connections broke up to now.
use case_text::{CaseStop, Words, push_hex};
use maple_io::{Board, Turn};
use std::alloc::{AllocError, Global};

/// LISTEN CONTROL: whether it was started.
pub fn start<B: Board>(
    board: &mut B,
    mut call: Words<'_>,
    out: &mut String,
) -> Result<(), CaseStop> {
    let listen = call.number_u16()?;
    let control = call.number_u16()?;
    let started = board.start(listen, control);
    write!(out, "{started:?}")?;
    Ok(push_counts(board, out)?)
}

/// LENGTH: the turn that comes, into a slice of so many bytes, with its bytes.
pub fn next<B: Board>(
    alloc: Global,
    board: &mut B,
    mut call: Words<'_>,
    out: &mut String,
) -> Result<(), CaseStop> {
    let mut into = vec![in alloc; 0u8; usize::try_from(call.number()?)?]?;
    if into.is_empty() {
        return Err(CaseStop::Unread);
    }
    let turn = board.next(&mut into);
    push_turn(turn, &into, out)?;
    Ok(push_counts(board, out)?)
}

fn push_turn(turn: Turn, into: &[u8], out: &mut String) -> Result<(), AllocError> {
    match turn {
        Turn::Bytes(connection, count) => {
            write!(out, "Bytes({connection}) ")?;
            push_hex(into.get(..count).unwrap_or(&[]), out)
        }
        Turn::Control(count) => {
            out.push_str("Control ")?;
            push_hex(into.get(..count).unwrap_or(&[]), out)
        }
        _ => write!(out, "{turn:?}"),
    }
}

/// CONNECTION BYTES: what became of the piece.
pub fn send<B: Board>(
    alloc: Global,
    board: &mut B,
    mut call: Words<'_>,
    out: &mut String,
) -> Result<(), CaseStop> {
    let connection = call.number_u32()?;
    let piece = call.bytes(alloc)?;
    if piece.is_empty() {
        return Err(CaseStop::Unread);
    }
    let sent = board.send(connection, &piece);
    write!(out, "{sent:?}")?;
    Ok(push_counts(board, out)?)
}

fn push_counts<B: Board>(board: &B, out: &mut String) -> Result<(), AllocError> {
    write!(out, "/{}/{}", board.faults(), board.breaks())
}
