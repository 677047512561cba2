// A board over sockets.
ghost use Rattle.std.specs.Prelude.{◌≡◌, ◌≢◌, ◌<◌, ◌≤◌, ◌++◌, ◌∷◌, [], ℕ, true, false, length};
ghost use Rattle.maple_io.specs.declared.act.Act.TheVariants as acts;
ghost use Rattle.maple_io.specs.Boards.{BoardFailed, LinkBroke, MayBeFull, MayRest, NoBoardFailed, NoLinkBroke, was_opened};
ghost use Rattle.maple_io.specs.Turns.{IsBreak, OpensAnew, SendsWithin, TurnsWithin, broken_sends, broken_turns};
ghost use Rattle.maple_io.specs.Turns.{failed_starts, failed_turns, given_acts, sent_acts, started_acts};
ghost use Rattle.socket_board.specs.Openings.{OpensNext};
ghost use Rattle.socket_board.specs.Starts.{was_started};
ghost use Rattle.socket_board.specs.Views.{told};

use crate::sockets::{Sockets, close_on, send_on, start_on, turn_of};
use maple_base::GhostList;
use maple_io::act::{closing, giving, starting, taking};
use maple_io::{Act, Board, Sent, Started, Turn};
use std::alloc::Global;
use std::marker::Model;
use std::net::Net;

/// A board over TCP sockets of 127.0.0.1. A call of `next` waits where nothing is ready, the longer
/// the longer nothing came: 20 ms at most. One control connection is heard at a time; where it ends
/// within a line, an LF ends that line. A connection whose last send found no room isn't read from
/// until a send takes something.
#[derive(Drop)]
pub struct SocketBoard<'a, R> {
    net: &'a R,
    alloc: Global,
    // None before it listens.
    sockets: Option<Sockets>,
    faults: u64,
    breaks: u64,
    log: GhostList<Act>,
}

impl<'a, R> Model for SocketBoard<'a, R> {
    ghost use Rattle.socket_board.specs.Keeping.{IsKept};
    ghost use Rattle.socket_board.specs.Views.{SocketView};

    ghost Value = { SocketView };

    ghost view = { λ b. record { log = b.log.value; failed = b.faults; broken = b.breaks } };

    ghost invariant = { λ b. IsKept b.sockets b.log.value };
}

impl<'a, R> SocketBoard<'a, R> {
    ghost use Rattle.std.specs.Prelude.{None};

    /// A board that doesn't listen yet.
    pub fn new(net: &'a R, alloc: Global) -> SocketBoard<'a, R>
        ensures log { result.log ≡ [] }
        ensures failed { result.failed ≡ 0 }
        ensures broken { result.broken ≡ 0 }
        ensures ready { (told result).ready ≡ None }
        ensures roomy { (c : ℕ) → (told result).roomy c ≡ None }
    {
        SocketBoard {
            net,
            alloc,
            sockets: None,
            faults: 0,
            breaks: 0,
            log: GhostList::none(),
        }
    }
}

impl<'a, R: Net> Board for SocketBoard<'a, R> {
    ghost tells = { told };

    fn start(&mut self, listen: u16, control: u16) -> Started
        ensures log { self.new.log ≡ self.old.log ++ started_acts listen control result }
        ensures cause { result ≡ Started.Failed → BoardFailed (told self.old) (told self.new) }
        ensures count { self.old.failed ≤ self.new.failed }
        ensures spared { result ≢ Started.Failed → NoBoardFailed (told self.old) (told self.new) }
        ensures breaks { NoLinkBroke (told self.old) (told self.new) }

        // A failure counts as one, and a board that listens already fails.
        ensures faults { self.new.failed ≡ failed_starts self.old.failed result }
        ensures again { was_started self.old.log ≡ true → result ≡ Started.Failed }
    {
        let started = start_on(&mut self.sockets, self.net, self.alloc, listen, control);
        self.log = starting(&self.log, listen, control, started);
        if let Started::Failed = started {
            self.faults = self.faults.saturating_add(1);
        }
        started
    }

    #[tactic(auto, using(crate::proofs::Numbered::opens_anew, crate::proofs::Numbered::opens_next))]
    fn next(&mut self, into: &mut [u8]) -> Turn
        requires { 0 < length into.old }
        ensures log { self.new.log ≡ self.old.log ++ given_acts result into.new }
        ensures room { TurnsWithin result (length into.old) }
        ensures anew { OpensAnew result self.old.log }
        ensures idle { result ≡ Turn.Idle → MayRest (told self.old) }
        ensures cause { result ≡ Turn.Failed → BoardFailed (told self.old) (told self.new) }
        ensures count { self.old.failed ≤ self.new.failed }
        ensures spared { result ≢ Turn.Failed → NoBoardFailed (told self.old) (told self.new) }
        ensures broken { IsBreak result → LinkBroke (told self.old) (told self.new) }
        ensures breaks { self.old.broken ≤ self.new.broken }
        ensures whole { (IsBreak result → ⊥) → NoLinkBroke (told self.old) (told self.new) }
        ensures kept { result ≡ Turn.NoMemory → told self.new ≡ told self.old }

        // The numbers are 1, 2, 3 and so on. A failure and a break count as one. It fails before it was
        // started, and never ends.
        ensures numbers { OpensNext result self.old.log }
        ensures faults { self.new.failed ≡ failed_turns self.old.failed result }
        ensures links { self.new.broken ≡ broken_turns self.old.broken result }
        ensures unstarted { was_started self.old.log ≡ false → result ≡ Turn.Failed }
        ensures endless { result ≢ Turn.End }
    {
        let turn = turn_of(&mut self.sockets, into);
        self.log = giving(&self.log, turn, into);
        match turn {
            Turn::Failed => self.faults = self.faults.saturating_add(1),
            Turn::Broken(_) => self.breaks = self.breaks.saturating_add(1),
            _ => {}
        }
        turn
    }

    fn send(&mut self, connection: u32, piece: &[u8]) -> Sent
        requires { 0 < length piece.now }
        ensures log { self.new.log ≡ self.old.log ++ sent_acts connection result piece.now }
        ensures room { SendsWithin result (length piece.now) }
        ensures full { result ≡ Sent.NotYet → MayBeFull connection (told self.old) }
        ensures cause { result ≡ Sent.Failed → LinkBroke (told self.old) (told self.new) }
        ensures count { self.old.broken ≤ self.new.broken }
        ensures spared { result ≢ Sent.Failed → NoLinkBroke (told self.old) (told self.new) }
        ensures faults { NoBoardFailed (told self.old) (told self.new) }
        ensures kept { result ≡ Sent.NoMemory → told self.new ≡ told self.old }

        // A failure counts as one. It fails before it was started, and takes no memory.
        ensures links { self.new.broken ≡ broken_sends self.old.broken result }
        ensures unstarted { was_started self.old.log ≡ false → result ≡ Sent.Failed }
        ensures memory { result ≢ Sent.NoMemory }
    {
        let sent = send_on(&mut self.sockets, connection, piece);
        self.log = taking(&self.log, connection, sent, piece);
        if let Sent::Failed = sent {
            self.breaks = self.breaks.saturating_add(1);
        }
        sent
    }

    fn close(&mut self, connection: u32) {
        close_on(&mut self.sockets, connection);
        self.log = closing(&self.log, connection);
    }

    fn faults(&self) -> u64 {
        self.faults
    }

    fn breaks(&self) -> u64 {
        self.breaks
    }
}
