// What lies between who has bytes for a connection and the board.
ghost use Rattle.std.specs.Prelude.{◌≡◌, ◌≢◌, ◌<◌, ◌↔◌, ◌++◌, [], false, true, length, IfOk, IsTrue, OnErr, OnOk};
ghost use Rattle.maple_io.specs.Boards.{LinkBroke, MayBeFull, NoBoardFailed, NoLinkBroke};
ghost use Rattle.board_lines.specs.Queues.{AsksNone, AsksOnce, GivesNone};
ghost use Rattle.board_lines.specs.Deliveries.{AnswersSo, EndsSo, Shortens, StepsOn, TakesFrom};

use crate::Outbox;
use maple_base::NoMemory;
use maple_io::{Board, Piece, Sent};
use std::alloc::Global;
use std::collections::VecDeque;
use std::marker::Model;

/// What was taken out for a connection and wasn't sent yet, and whether a send failed. It takes memory
/// for a place a piece.
#[derive(Drop)]
pub struct SendQueue {
    number: u32,
    /// The pieces as they were given, of which none is empty.
    pieces: VecDeque<Piece>,
    /// How many bytes of the first piece were sent.
    at: usize,
    failed: bool,
}

impl Model for SendQueue {
    ghost use Rattle.board_lines.specs.Queues.{IsQueued, QueueView, unsent};

    ghost Value = { QueueView };

    ghost view = { λ q. record { number = q.number; rest = unsent q.pieces.items q.at; failed = q.failed } };

    ghost invariant = { λ q. IsQueued q.pieces.items q.at };
}

impl SendQueue {
    /// The queue of a connection for which nothing was taken out.
    pub fn new(number: u32, alloc: Global) -> SendQueue
        ensures number { result.number ≡ number }
        ensures rest { result.rest ≡ [] }
        ensures failed { result.failed ≡ false }
    {
        SendQueue {
            number,
            pieces: VecDeque::new(alloc),
            at: 0,
            failed: false,
        }
    }

    /// The number of its connection.
    pub fn number(&self) -> u32
        ensures { result ≡ self.now.number }
    {
        self.number
    }

    /// Whether a send failed.
    pub fn failed(&self) -> bool
        ensures { result ≡ self.now.failed }
    {
        self.failed
    }

    /// Whether all was sent.
    pub fn is_empty(&self) -> bool
        ensures { IsTrue result ↔ (self.now.rest ≡ []) }
    {
        self.pieces.is_empty()
    }

    /// What was taken out for the connection stands behind what wasn't sent yet.
    ///
    /// # Errors
    ///
    /// `NoMemory`; the queue is as before.
    pub fn put(&mut self, piece: Piece) -> Result<(), NoMemory>
        ensures ok { OnOk result (self.new ≡ record self.old { rest = self.old.rest ++ piece }) }
        ensures err { OnErr result (self.new ≡ self.old) }
    {
        self.pieces.reserve(1)?;
        if !piece.items().is_empty() {
            self.pieces.push_back_reserved(piece);
        }
        Ok(())
    }

    /// A send failed.
    pub(crate) fn fail(&mut self)
        ensures { self.new ≡ record self.old { failed = true } }
    {
        self.failed = true;
    }

    /// Takes out what there is for the connection. Room for it is made ahead, so that nothing is lost.
    pub(crate) fn take_from<U: Outbox>(&mut self, outbox: &mut U) -> Result<(), NoMemory>
        ensures taken { IfOk result (λ _. TakesFrom self.old self.new (U.tells outbox.old) (U.tells outbox.new)) }
        ensures asked { OnOk result (AsksOnce self.old.number (U.tells outbox.old) (U.tells outbox.new)) }
        ensures kept { OnErr result (self.new ≡ self.old) }
        ensures none { OnErr result (GivesNone (U.tells outbox.old) (U.tells outbox.new)) }
        ensures unasked { OnErr result (AsksNone (U.tells outbox.old) (U.tells outbox.new)) }
        ensures told { (U.tells outbox.new).told ≡ (U.tells outbox.old).told }
    {
        self.pieces.reserve(1)?;
        let piece = outbox.take_out(self.number)?;
        if !piece.items().is_empty() {
            self.pieces.push_back_reserved(piece);
        }
        Ok(())
    }

    /// Sends once of what wasn't sent yet, of which there is some.
    pub(crate) fn send_once<B: Board>(&mut self, board: &mut B) -> Sent
        requires { 0 < length self.old.rest }
        ensures steps { StepsOn self.old self.new (B.tells board.old).log (B.tells board.new).log }
        ensures shorter { Shortens result self.old.rest self.new.rest }
        ensures last { EndsSo result self.old.number (B.tells board.old).log (B.tells board.new).log }
        ensures answers { AnswersSo result self.old.number (B.tells board.old).log (B.tells board.new).log }
        ensures full { result ≡ Sent.NotYet → MayBeFull self.old.number (B.tells board.old) }
        ensures cause { result ≡ Sent.Failed → LinkBroke (B.tells board.old) (B.tells board.new) }
        ensures spared { result ≢ Sent.Failed → NoLinkBroke (B.tells board.old) (B.tells board.new) }
        ensures faults { NoBoardFailed (B.tells board.old) (B.tells board.new) }
    {
        let bytes = self.pieces[0].items();
        let sent = board.send(self.number, &bytes[self.at..]);
        if let Sent::Took(count) = sent {
            self.at += count;
            if self.at == bytes.len() {
                let _ = self.pieces.pop_front();
                self.at = 0;
            }
        }
        sent
    }
}
