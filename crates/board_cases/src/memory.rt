// A board in memory, whose turns and failures are chosen ahead.
use crate::calls::{next, send, start};
use crate::turns::turns_of;
use case_text::{CaseStop, Subject, Words, push_hex};
use case_values::push_flag;
use maple_base::NoMemory;
use maple_io::mem_board::{are_pieces, open_once};
use maple_io::{Board, MemBoard};
use std::alloc::Global;

/// A board in memory.
#[derive(Drop)]
pub struct Memory {
    alloc: Global,
    board: MemBoard,
}

impl Subject for Memory {
    fn new(alloc: Global) -> Result<Memory, NoMemory> {
        let board = MemBoard::new(Vec::new(alloc), Vec::new(alloc))?;
        Ok(Memory { alloc, board })
    }

    fn answer(&mut self, mut call: Words<'_>, out: &mut String) -> Result<(), CaseStop> {
        match call.word() {
            "board" => {
                self.board = board_of(self.alloc, call)?;
                Ok(out.push_str("ok")?)
            }
            "start" => start(&mut self.board, call, out),
            "next" => next(self.alloc, &mut self.board, call, out),
            "send" => send(self.alloc, &mut self.board, call, out),
            "close" => close(&mut self.board, call, out),
            "sent" => push_sent(self.alloc, &self.board, call, out),
            "opened" => push_opened(&self.board, call, out),
            "closed" => push_closed(&self.board, call, out),
            _ => Err(CaseStop::Unread),
        }
    }
}

// TURNS.. ; NUMBERS..: a board of these turns, of which the calls with these numbers fail.
fn board_of(alloc: Global, call: Words<'_>) -> Result<MemBoard, CaseStop> {
    let (turns, fails) = call.rest().split_once(';').unwrap_or((call.rest(), ""));
    let turns = turns_of(alloc, turns)?;
    let fails = Words::new(fails).numbers(alloc)?;
    if !are_pieces(&turns) || !open_once(&turns) {
        return Err(CaseStop::Unread);
    }
    Ok(MemBoard::new(turns, fails)?)
}

// CONNECTION: it is closed, if it was opened.
fn close(board: &mut MemBoard, mut call: Words<'_>, out: &mut String) -> Result<(), CaseStop> {
    let connection = call.number_u32()?;
    if !board.opened(connection) {
        return Err(CaseStop::Unread);
    }
    board.close(connection);
    Ok(out.push_str("ok")?)
}

// CONNECTION: the bytes that were taken for it, between brackets.
fn push_sent(
    alloc: Global,
    board: &MemBoard,
    mut call: Words<'_>,
    out: &mut String,
) -> Result<(), CaseStop> {
    let mut bytes = Vec::new(alloc);
    board.sent(call.number_u32()?, &mut bytes)?;
    out.push_str("[")?;
    push_hex(&bytes, out)?;
    Ok(out.push_str("]")?)
}

// CONNECTION: whether it was opened.
fn push_opened(board: &MemBoard, mut call: Words<'_>, out: &mut String) -> Result<(), CaseStop> {
    Ok(push_flag(board.opened(call.number_u32()?), out)?)
}

// CONNECTION: whether it was closed by `close`.
fn push_closed(board: &MemBoard, mut call: Words<'_>, out: &mut String) -> Result<(), CaseStop> {
    Ok(push_flag(board.closed(call.number_u32()?), out)?)
}
