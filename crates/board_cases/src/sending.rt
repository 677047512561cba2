// Sending over a board that lets a sender wait.
ghost use Rattle.board_cases.specs.Outboxes.{outbox_view};
ghost use Rattle.board_lines.specs.Queues.{InStep};

use crate::case_outbox::CaseOutbox;
use crate::slow_board::SlowBoard;
use board_lines::{SendQueue, deliver};
use case_text::{CaseStop, Subject, Words, push_hex};
use maple_base::NoMemory;
use maple_io::Board;
use std::alloc::Global;

/// Deliveries for one connection.
#[derive(Drop)]
pub struct Sending {
    alloc: Global,
}

impl Subject for Sending {
    fn new(alloc: Global) -> Result<Sending, NoMemory> {
        Ok(Sending { alloc })
    }

    fn answer(&mut self, mut call: Words<'_>, out: &mut String) -> Result<(), CaseStop> {
        match call.word() {
            "deliver" => run(self.alloc, call, out),
            _ => Err(CaseStop::Unread),
        }
    }
}

// WAITS MOST NUMBERS PIECES..: over a board that answers NotYet so many times ahead of each send that takes so many
// bytes at most, and at which the sends with these numbers fail, a delivery behind each piece; `-` is none.
fn run(alloc: Global, mut call: Words<'_>, out: &mut String) -> Result<(), CaseStop> {
    let waits = call.number()?;
    let most = usize::try_from(call.number()?)?;
    let fails = numbers_of(alloc, call.word())?;
    let mut board = SlowBoard::new(waits, most, fails);
    let mut outbox = CaseOutbox::new(1, alloc);
    let mut queue = SendQueue::new(1, alloc);
    for word in call.rest().split_whitespace() {
        one_delivery(alloc, &mut outbox, &mut board, &mut queue, word, out)?;
    }
    Ok(())
}

fn one_delivery(
    alloc: Global,
    outbox: &mut CaseOutbox,
    board: &mut SlowBoard,
    queue: &mut SendQueue,
    word: &str,
    out: &mut String,
) -> Result<(), CaseStop>
    requires { InStep queue.old (outbox_view outbox.old) board.old.acts.value }
    ensures { InStep queue.new (outbox_view outbox.new) board.new.acts.value }
{
    if word != "-" {
        outbox.add(&Words::new(word).bytes(alloc)?)?;
    }
    let reach = deliver(outbox, board, queue)?;
    if !out.is_empty() {
        out.push_str(" ")?;
    }
    write!(out, "{reach:?} ")?;
    push_hex(board.bytes(), out)?;
    Ok(write!(out, "/{}/{}", board.breaks(), outbox.breaks())?)
}

// Numbers with commas between them; `-` is none.
fn numbers_of(alloc: Global, word: &str) -> Result<Vec<u64>, CaseStop> {
    let mut numbers = Vec::new(alloc);
    for part in word.split(',') {
        if part != "-" {
            numbers.push(Words::new(part).number()?)?;
        }
    }
    Ok(numbers)
}
