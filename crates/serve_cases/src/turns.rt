// The turns of a board, which each run is given anew.
ghost use Rattle.std.specs.Prelude.{◌≡◌, [], IfOk};

use case_text::CaseStop;
use maple_base::NoMemory;
use maple_io::mem_board::{are_pieces, open_once};
use maple_io::{MemBoard, MemTurn, Piece};
use std::alloc::{AllocError, Global};

/// A board of these turns, at which the calls with these numbers fail. Where `singly` says so, each byte comes alone.
pub fn board_of(
    alloc: Global,
    turns: &[MemTurn],
    fails: &[u64],
    singly: bool,
) -> Result<MemBoard, CaseStop>
    ensures { IfOk result (λ board. board.log ≡ []) }
{
    let turns = copied(alloc, turns, singly)?;
    if !are_pieces(&turns) || !open_once(&turns) {
        return Err(CaseStop::Unread);
    }
    Ok(MemBoard::new(turns, Vec::from_slice(alloc, fails)?)?)
}

fn copied(alloc: Global, turns: &[MemTurn], singly: bool) -> Result<Vec<MemTurn>, NoMemory> {
    let mut copy = Vec::new(alloc);
    for turn in turns {
        match turn {
            MemTurn::Opened(connection) => copy.push(MemTurn::Opened(*connection))?,
            MemTurn::Bytes(connection, piece) => {
                push_bytes(alloc, &mut copy, *connection, piece, singly)?
            }
            MemTurn::Closed(connection) => copy.push(MemTurn::Closed(*connection))?,
            MemTurn::Broken(connection) => copy.push(MemTurn::Broken(*connection))?,
            MemTurn::Control(piece) => push_control(alloc, &mut copy, piece, singly)?,
            MemTurn::Idle => copy.push(MemTurn::Idle)?,
            MemTurn::End => copy.push(MemTurn::End)?,
        }
    }
    Ok(copy)
}

fn push_bytes(
    alloc: Global,
    turns: &mut Vec<MemTurn>,
    connection: u32,
    piece: &Piece,
    singly: bool,
) -> Result<(), NoMemory> {
    if singly {
        for byte in piece.items() {
            turns.push(MemTurn::Bytes(connection, single(alloc, *byte)?))?;
        }
    } else {
        turns.push(MemTurn::Bytes(connection, whole(alloc, piece)?))?;
    }
    Ok(())
}

fn push_control(
    alloc: Global,
    turns: &mut Vec<MemTurn>,
    piece: &Piece,
    singly: bool,
) -> Result<(), NoMemory> {
    if singly {
        for byte in piece.items() {
            turns.push(MemTurn::Control(single(alloc, *byte)?))?;
        }
    } else {
        turns.push(MemTurn::Control(whole(alloc, piece)?))?;
    }
    Ok(())
}

fn single(alloc: Global, byte: u8) -> Result<Piece, AllocError> {
    Ok(Piece::new(vec![in alloc; byte]?))
}

fn whole(alloc: Global, piece: &Piece) -> Result<Piece, AllocError> {
    Ok(Piece::new(Vec::from_slice(alloc, piece.items())?))
}
