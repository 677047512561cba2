// A board that lets a sender wait, and takes few bytes a send.
ghost use Rattle.std.specs.Prelude.{◌≡◌, ◌≢◌, ◌<◌, ◌≤◌, length, nat_le, true};
ghost use Rattle.maple_base.specs.Counts.{HasRisen};
ghost use Rattle.maple_io.specs.Turns.{SendsWithin};

use maple_base::GhostList;
use maple_io::act::{closing, giving, starting, taking};
use maple_io::{Act, Board, Sent, Started, Turn};

/// A board that answers NotYet so many times ahead of each send that takes bytes, and takes so many of
/// them at most then. Sends fail whose numbers are listed; they count from 1. No turn comes. It waits
/// for no connection apart from the others: there is room for each, or for none.
#[derive(Drop)]
pub struct SlowBoard {
    waits: u64,
    most: usize,
    fails: Vec<u64>,
    waited: u64,
    sends: u64,
    breaks: u64,
    bytes: Vec<u8>,
    /// What it did.
    acts: GhostList<Act>,
}

impl SlowBoard {
    ghost use Rattle.std.specs.Prelude.{[]};

    pub fn new(waits: u64, most: usize, fails: Vec<u64>) -> SlowBoard
        ensures { result.acts.value ≡ [] }
    {
        SlowBoard {
            waits,
            most,
            bytes: Vec::new(*fails.allocator()),
            fails,
            waited: 0,
            sends: 0,
            breaks: 0,
            acts: GhostList::none(),
        }
    }

    /// The bytes that it took.
    pub fn bytes(&self) -> &[u8] {
        &self.bytes
    }

    // One send.
    fn take(&mut self, piece: &[u8]) -> Sent
        requires { 0 < length piece.now }
        ensures room { SendsWithin result (length piece.now) }
        ensures cause { result ≡ Sent.Failed → HasRisen self.old.breaks self.new.breaks }
        ensures count { self.old.breaks ≤ self.new.breaks }
        ensures spared { result ≢ Sent.Failed → self.new.breaks ≡ self.old.breaks }
        ensures full { result ≡ Sent.NotYet → nat_le self.old.waits self.old.waited ≢ true }
        ensures kept { result ≡ Sent.NoMemory → self.new.waited ≡ self.old.waited }
        ensures waits { self.new.waits ≡ self.old.waits }
        ensures acts { self.new.acts.value ≡ self.old.acts.value }
    {
        let number = self.sends.saturating_add(1);
        if self.fails.contains(&number) {
            self.sends = number;
            self.breaks = self.breaks.saturating_add(1);
            return Sent::Failed;
        }
        if self.waited < self.waits {
            self.sends = number;
            self.waited += 1;
            return Sent::NotYet;
        }
        let count = self.most.max(1).min(piece.len());
        match self.bytes.extend_from_slice(&piece[..count]) {
            Ok(()) => {
                self.sends = number;
                self.waited = 0;
                Sent::Took(count)
            }
            Err(_) => Sent::NoMemory,
        }
    }
}

impl Board for SlowBoard {
    ghost use Rattle.std.specs.Prelude.{None, Some, nat_le};

    ghost tells = { λ b. record { log = b.acts.value; failed = 0; broken = b.breaks; ready = None; roomy = λ c. Some (nat_le b.waits b.waited) } };

    fn start(&mut self, listen: u16, control: u16) -> Started {
        self.acts = starting(&self.acts, listen, control, Started::Ready);
        Started::Ready
    }

    fn next(&mut self, into: &mut [u8]) -> Turn {
        self.acts = giving(&self.acts, Turn::End, into);
        Turn::End
    }

    fn send(&mut self, connection: u32, piece: &[u8]) -> Sent {
        let sent = self.take(piece);
        self.acts = taking(&self.acts, connection, sent, piece);
        sent
    }

    fn close(&mut self, connection: u32) {
        self.acts = closing(&self.acts, connection);
    }

    fn faults(&self) -> u64 {
        0
    }

    fn breaks(&self) -> u64 {
        self.breaks
    }
}
