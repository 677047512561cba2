// A board that lets a sender wait, and takes few bytes a send.
ghost use Rattle.std.specs.Prelude.{◌≡◌, ◌≢◌, ◌<◌, ◌≤◌, [], length};
ghost use Rattle.maple_base.specs.Counts.{HasRisen};
ghost use Rattle.maple_io.specs.Turns.{SendsWithin};

use maple_base::GhostList;
use maple_io::act::{closing, giving, starting, taking};
use maple_io::{Act, Board, MemBoard, Sent, Started, Turn};
use std::marker::Model;

/// A board in memory that answers NotYet so many times ahead of each send that it lets through, of which it then takes so
/// many bytes at most. A send that it doesn't let through is none of the calls that the board in memory counts.
#[derive(Drop)]
pub struct SlowBoard {
    board: MemBoard,
    waits: u64,
    most: usize,
    waited: u64,
    /// With which ports it was started.
    ports: Option<(u16, u16)>,
    sends: u64,
    /// What it did.
    acts: GhostList<Act>,
}

impl Model for SlowBoard {
    ghost use Rattle.serve_cases.specs.Slow.{HasOpened, SlowView, slow_view};

    ghost Value = { SlowView };

    ghost view = { λ b. slow_view b.acts.value b.board };

    ghost invariant = { λ b. HasOpened b.acts.value b.board.log };
}

impl SlowBoard {
    /// Over a board that did nothing yet.
    pub fn new(board: MemBoard, waits: u64, most: usize) -> SlowBoard
        requires { board.log ≡ [] }
    {
        SlowBoard {
            board,
            waits,
            most,
            waited: 0,
            ports: None,
            sends: 0,
            acts: GhostList::none(),
        }
    }

    /// The ports with which it was started, and how many sends were tried.
    pub fn seen(&self) -> (Option<(u16, u16)>, u64) {
        (self.ports, self.sends)
    }

    /// The board in memory.
    pub fn into_board(self) -> MemBoard {
        let SlowBoard { board, .. } = self;
        board
    }

    // One send.
    fn take(&mut self, connection: u32, piece: &[u8]) -> Sent
        requires { 0 < length piece.now }
        ensures room { SendsWithin result (length piece.now) }
        ensures cause { result ≡ Sent.Failed → HasRisen self.old.broken self.new.broken }
        ensures count { self.old.broken ≤ self.new.broken }
        ensures spared { result ≢ Sent.Failed → self.new.broken ≡ self.old.broken }
        ensures faults { self.new.failed ≡ self.old.failed }
        ensures kept { result ≡ Sent.NoMemory → self.new ≡ self.old }
        ensures log { self.new.log ≡ self.old.log }
    {
        self.sends = self.sends.saturating_add(1);
        if self.waited < self.waits {
            self.waited += 1;
            return Sent::NotYet;
        }
        self.waited = 0;
        let count = self.most.max(1).min(piece.len());
        self.board.send(connection, &piece[..count])
    }
}

impl Board for SlowBoard {
    ghost use Rattle.serve_cases.specs.Slow.{told};

    ghost tells = { told };

    fn start(&mut self, listen: u16, control: u16) -> Started {
        let started = self.board.start(listen, control);
        self.ports = Some((listen, control));
        self.acts = starting(&self.acts, listen, control, started);
        started
    }

    fn next(&mut self, into: &mut [u8]) -> Turn {
        let turn = self.board.next(into);
        self.acts = giving(&self.acts, turn, into);
        turn
    }

    fn send(&mut self, connection: u32, piece: &[u8]) -> Sent {
        let sent = self.take(connection, piece);
        self.acts = taking(&self.acts, connection, sent, piece);
        sent
    }

    fn close(&mut self, connection: u32) {
        self.board.close(connection);
        self.acts = closing(&self.acts, connection);
    }

    fn faults(&self) -> u64 {
        self.board.faults()
    }

    fn breaks(&self) -> u64 {
        self.board.breaks()
    }
}
