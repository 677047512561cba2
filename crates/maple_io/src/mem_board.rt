// A board over memory, whose turns and failures are chosen ahead.
ghost use Rattle.std.specs.Prelude.{◌≡◌, ◌≢◌, ◌<◌, ◌≤◌, ◌↔◌, ◌++◌, ◌+◌, ◌∷◌, [], IfOk, OnErr, OnOk, length, vec_len, vec_capacity, true};
ghost use Rattle.std.specs.List.{Contains};
ghost use Rattle.maple_base.specs.Counts.{next_count};
ghost use Rattle.maple_io.specs.declared.act.Act.TheVariants as acts;
ghost use Rattle.maple_io.specs.Boards.{BoardFailed, LinkBroke, MayBeFull, MayRest, NoBoardFailed, NoLinkBroke, sent, was_closed, was_opened};
ghost use Rattle.maple_io.specs.Turns.{IsBreak, OpensAnew, SendsWithin, TurnsWithin, broken_sends, broken_turns};
ghost use Rattle.maple_io.specs.Turns.{failed_starts, failed_turns, given_acts, sent_acts, started_acts};
ghost use Rattle.maple_io.specs.Schedules.{TakesWhole, are_pieces, begun, calls_sent, has_bytes, is_opened_in, left_behind};
ghost use Rattle.maple_io.specs.Schedules.{next_bytes, next_turn, open_once, opens, opens_in, told};

use crate::act::{Act, closing, giving, starting, taking};
use crate::kept::{
    Cursor, Link, Taken, append_taken, breaks_after, close_links, give_next, has_link, is_closed,
    keep, links_of,
};
use crate::memory::is_listed;
use crate::{Board, Piece, Sent, Started, Turn};
use maple_base::{GhostList, NoMemory};
use std::alloc::Global;
use std::marker::Model;

/// A turn that is to come of a board over memory.
#[derive(Drop)]
pub enum MemTurn {
    /// A connection is opened.
    Opened(u32),
    /// Bytes come on a connection: one at least.
    Bytes(u32, Piece),
    /// The peer of a connection closes it.
    Closed(u32),
    /// A connection breaks.
    Broken(u32),
    /// Control text comes: one byte at least.
    Control(Piece),
    /// Nothing is ready, once.
    Idle,
    /// Nothing comes any more. What stands behind it comes all the same.
    End,
}

/// A board over memory, whose turns and failures are chosen ahead. Its calls of `start`, `next` and
/// `send` are counted together from 1, without a `send` for which memory runs out; a call fails
/// exactly where its number is listed, and then takes nothing. Each other `next` gives the turn that
/// is next, of a longer piece as many bytes as fit; behind the last, `End` for ever. Each other `send`
/// takes the whole piece, unless memory runs out. It never answers `NotYet`.
#[derive(Drop)]
pub struct MemBoard {
    alloc: Global,
    turns: Vec<MemTurn>,
    cursor: Cursor,
    fails: Vec<u64>,
    calls: u64,
    faults: u64,
    breaks: u64,
    taken: Vec<Taken>,
    links: Vec<Link>,
    /// What it did.
    log: GhostList<Act>,
}

impl Model for MemBoard {
    ghost use Rattle.maple_io.specs.Schedules.{Schedule};
    ghost use Rattle.maple_io.specs.Kept.{IsSound, left_at, schedule_of};

    ghost Value = { Schedule };

    ghost view = { schedule_of };

    ghost invariant = { λ b. IsSound (left_at b.cursor b.turns.items) b.taken.items b.links.items b.log.value };
}

impl MemBoard {
    /// A board of these turns, of which none was given yet, whose calls with the numbers in `fails`
    /// fail. No piece is empty, and no number is opened twice. The first call has the number 1, and
    /// each from the 2^64 - 1st on has the number 2^64 - 1.
    ///
    /// # Errors
    ///
    /// `NoMemory`.
    pub fn new(turns: Vec<MemTurn>, fails: Vec<u64>) -> Result<MemBoard, NoMemory>
        requires pieces { are_pieces turns.items ≡ true }
        requires once { open_once turns.items ≡ true }
        ensures { IfOk result (λ b. b ≡ begun turns.items fails.items) }
    {
        let alloc = *fails.allocator();
        let links = links_of(alloc, &turns)?;
        Ok(MemBoard {
            alloc,
            turns,
            cursor: Cursor { turn: 0, byte: 0 },
            fails,
            calls: 0,
            faults: 0,
            breaks: 0,
            taken: Vec::new(alloc),
            links,
            log: GhostList::none(),
        })
    }

    /// Appends the bytes that were taken for a connection, in order.
    ///
    /// # Errors
    ///
    /// `NoMemory`, where there is no room for all of them. None of them is appended.
    pub fn sent(&self, connection: u32, out: &mut Vec<u8>) -> Result<(), NoMemory>
        ensures all { OnOk result (out.new.items ≡ out.old.items ++ sent connection self.now.log) }
        ensures kept { OnErr result (out.new.items ≡ out.old.items) }
        ensures room { OnErr result (vec_capacity out.old < vec_len out.old + length (sent connection self.now.log)) }
    {
        append_taken(&self.taken, connection, out)
    }

    /// Whether a connection was opened.
    pub fn opened(&self, connection: u32) -> bool
        ensures { result ≡ was_opened connection self.now.log }
    {
        let has_link = has_link(&self.links, connection);
        let is_to_come = self.is_to_come(connection);
        has_link && !is_to_come
    }

    // Whether a turn that is left opens a connection.
    fn is_to_come(&self, connection: u32) -> bool
        ensures { result ≡ opens_in connection self.now.left }
    {
        match self.turns.get(self.cursor.turn..) {
            Some(left) => opens_in(connection, left),
            None => false,
        }
    }

    /// Whether a connection was closed by `close`.
    pub fn closed(&self, connection: u32) -> bool
        ensures { result ≡ was_closed connection self.now.log }
    {
        is_closed(&self.links, connection)
    }
}

impl Board for MemBoard {
    ghost tells = { told };

    fn start(&mut self, listen: u16, control: u16) -> Started
        ensures log { self.new.log ≡ self.old.log ++ started_acts listen control result }
        ensures cause { result ≡ Started.Failed → BoardFailed (told self.old) (told self.new) }
        ensures count { self.old.failed ≤ self.new.failed }
        ensures spared { result ≢ Started.Failed → NoBoardFailed (told self.old) (told self.new) }
        ensures breaks { NoLinkBroke (told self.old) (told self.new) }

        // The call fails where its number is listed.
        ensures listed { (result ≡ Started.Failed) ↔ Contains self.old.fails self.new.calls }

        // What is counted, and what stays.
        ensures calls { self.new.calls ≡ next_count self.old.calls }
        ensures failed { self.new.failed ≡ failed_starts self.old.failed result }
        ensures stays { self.new ≡ record self.old { log = self.new.log; calls = self.new.calls; failed = self.new.failed } }
    {
        self.calls = self.calls.saturating_add(1);
        if is_listed(&self.fails, self.calls) {
            self.faults = self.faults.saturating_add(1);
            return Started::Failed;
        }
        self.log = starting(&self.log, listen, control, Started::Ready);
        Started::Ready
    }

    fn next(&mut self, into: &mut [u8]) -> Turn
        requires { 0 < length into.old }
        ensures log { self.new.log ≡ self.old.log ++ given_acts result into.new }
        ensures room { TurnsWithin result (length into.old) }
        ensures anew { OpensAnew result self.old.log }
        ensures idle { result ≡ Turn.Idle → MayRest (told self.old) }
        ensures cause { result ≡ Turn.Failed → BoardFailed (told self.old) (told self.new) }
        ensures count { self.old.failed ≤ self.new.failed }
        ensures spared { result ≢ Turn.Failed → NoBoardFailed (told self.old) (told self.new) }
        ensures broken { IsBreak result → LinkBroke (told self.old) (told self.new) }
        ensures breaks { self.old.broken ≤ self.new.broken }
        ensures whole { (IsBreak result → ⊥) → NoLinkBroke (told self.old) (told self.new) }
        ensures kept { result ≡ Turn.NoMemory → told self.new ≡ told self.old }

        // The call fails where its number is listed, and else gives the turn that is next, with its
        // bytes; what is left stands behind it.
        ensures listed { (result ≡ Turn.Failed) ↔ Contains self.old.fails self.new.calls }
        ensures gives { result ≢ Turn.Failed → result ≡ next_turn self.old.left (length into.old) }
        ensures bytes { given_acts result into.new ≡ given_acts result (next_bytes self.old.left) }
        ensures left { self.new.left ≡ left_behind result self.old.left }
        ensures memory { result ≢ Turn.NoMemory }

        // What is counted, and what stays.
        ensures calls { self.new.calls ≡ next_count self.old.calls }
        ensures failed { self.new.failed ≡ failed_turns self.old.failed result }
        ensures counted { self.new.broken ≡ broken_turns self.old.broken result }
        ensures fails { self.new.fails ≡ self.old.fails }
    {
        self.calls = self.calls.saturating_add(1);
        if is_listed(&self.fails, self.calls) {
            self.faults = self.faults.saturating_add(1);
            return Turn::Failed;
        }
        let (turn, cursor) = give_next(&self.turns, self.cursor, into);
        self.cursor = cursor;
        self.breaks = breaks_after(self.breaks, turn);
        self.log = giving(&self.log, turn, into);
        turn
    }

    fn send(&mut self, connection: u32, piece: &[u8]) -> Sent
        requires { 0 < length piece.now }
        ensures log { self.new.log ≡ self.old.log ++ sent_acts connection result piece.now }
        ensures room { SendsWithin result (length piece.now) }
        ensures full { result ≡ Sent.NotYet → MayBeFull connection (told self.old) }
        ensures cause { result ≡ Sent.Failed → LinkBroke (told self.old) (told self.new) }
        ensures count { self.old.broken ≤ self.new.broken }
        ensures spared { result ≢ Sent.Failed → NoLinkBroke (told self.old) (told self.new) }
        ensures faults { NoBoardFailed (told self.old) (told self.new) }
        ensures kept { result ≡ Sent.NoMemory → told self.new ≡ told self.old }

        // The call fails where its number is listed, and else takes all, or memory runs out.
        ensures listed { (result ≡ Sent.Failed) ↔ Contains self.old.fails (next_count self.old.calls) }
        ensures all { TakesWhole result (length piece.now) }

        // What is counted, and what stays.
        ensures calls { self.new.calls ≡ calls_sent self.old.calls result }
        ensures counted { self.new.broken ≡ broken_sends self.old.broken result }
        ensures stays { self.new ≡ record self.old { log = self.new.log; calls = self.new.calls; broken = self.new.broken } }
        ensures memory { result ≡ Sent.NoMemory → self.new ≡ self.old }
    {
        let number = self.calls.saturating_add(1);
        if is_listed(&self.fails, number) {
            self.calls = number;
            self.breaks = self.breaks.saturating_add(1);
            self.log = taking(&self.log, connection, Sent::Failed, piece);
            return Sent::Failed;
        }
        let Ok(()) = keep(self.alloc, &mut self.taken, connection, piece) else {
            return Sent::NoMemory;
        };
        self.calls = number;
        let sent = Sent::Took(piece.len());
        self.log = taking(&self.log, connection, sent, piece);
        sent
    }

    fn close(&mut self, connection: u32)
        requires { was_opened connection self.old.log ≡ true }
        ensures log { self.new.log ≡ self.old.log ++ acts.Closes connection ∷ [] }
        ensures faults { NoBoardFailed (told self.old) (told self.new) }
        ensures breaks { NoLinkBroke (told self.old) (told self.new) }
        ensures stays { self.new ≡ record self.old { log = self.new.log } }
    {
        close_links(&mut self.links, connection);
        self.log = closing(&self.log, connection);
    }

    fn faults(&self) -> u64 {
        self.faults
    }

    fn breaks(&self) -> u64 {
        self.breaks
    }
}

/// Whether no piece of these turns is empty.
pub fn are_pieces(turns: &[MemTurn]) -> bool
    ensures { result ≡ are_pieces turns.now }
{
    turns.iter().all(|turn| has_bytes(turn))
}

fn has_bytes(turn: &MemTurn) -> bool
    ensures { result ≡ has_bytes turn.now }
{
    match turn {
        MemTurn::Bytes(_, piece) | MemTurn::Control(piece) => !piece.items().is_empty(),
        _ => true,
    }
}

/// Whether no number is opened twice in these turns.
pub fn open_once(turns: &[MemTurn]) -> bool
    ensures { result ≡ open_once turns.now }
{
    for (index, turn) in turns.iter().enumerate() {
        if is_opened_in(turn, &turns[index + 1..]) {
            return false;
        }
    }
    true
}

// Whether a turn opens a number that one of the others opens.
fn is_opened_in(turn: &MemTurn, others: &[MemTurn]) -> bool
    ensures { result ≡ is_opened_in turn.now others.now }
{
    match turn {
        MemTurn::Opened(connection) => opens_in(*connection, others),
        _ => false,
    }
}

fn opens_in(connection: u32, turns: &[MemTurn]) -> bool
    ensures { result ≡ opens_in connection turns.now }
{
    turns.iter().any(|turn| opens(connection, turn))
}

fn opens(connection: u32, turn: &MemTurn) -> bool
    ensures { result ≡ opens connection turn.now }
{
    match turn {
        MemTurn::Opened(opened) => *opened == connection,
        _ => false,
    }
}
