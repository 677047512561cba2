// Turns as words: `opened:1`, `bytes:1:0a0b`, `closed:1`, `broken:1`, `control:0a0b`, `idle`, `end`.
use case_text::{CaseStop, Words};
use maple_io::{MemTurn, Piece};
use std::alloc::Global;

/// The turns that words are, with blanks between them.
pub fn turns_of(alloc: Global, words: &str) -> Result<Vec<MemTurn>, CaseStop> {
    let mut turns = Vec::new(alloc);
    for word in words.split_whitespace() {
        turns.push(turn_of(alloc, word)?)?;
    }
    Ok(turns)
}

fn turn_of(alloc: Global, word: &str) -> Result<MemTurn, CaseStop> {
    let (kind, rest) = word.split_once(':').unwrap_or((word, ""));
    match kind {
        "opened" => Ok(MemTurn::Opened(Words::new(rest).number_u32()?)),
        "bytes" => bytes_of(alloc, rest),
        "closed" => Ok(MemTurn::Closed(Words::new(rest).number_u32()?)),
        "broken" => Ok(MemTurn::Broken(Words::new(rest).number_u32()?)),
        "control" => Ok(MemTurn::Control(piece_of(alloc, rest)?)),
        "idle" => Ok(MemTurn::Idle),
        "end" => Ok(MemTurn::End),
        _ => Err(CaseStop::Unread),
    }
}

// CONNECTION:BYTES
fn bytes_of(alloc: Global, text: &str) -> Result<MemTurn, CaseStop> {
    let (connection, bytes) = text.split_once(':').ok_or(CaseStop::Unread)?;
    let connection = Words::new(connection).number_u32()?;
    Ok(MemTurn::Bytes(connection, piece_of(alloc, bytes)?))
}

fn piece_of(alloc: Global, digits: &str) -> Result<Piece, CaseStop> {
    Ok(Piece::new(Words::new(digits).bytes(alloc)?))
}
