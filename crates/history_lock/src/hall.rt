//! One machine that threads share by a ticket lock. The calls of all threads stand in one legal history.
//!
//! A hall is a table of three words and a slot. Word 0 is the length of the history, word 1 the next ticket, word 2 the
//! turn. The machine lies behind a pointer in the slot, so that a call moves no machine. A pass is a seat of the table.
//! What a pass knows, and the history itself, are in proofs alone: the running program has the length and the machine.
//!
//! A call goes by six steps:
//!
//!     look     load 0           is the history full?
//!     draw     fetch_add 1      a ticket
//!     take     load 2           again until it is the ticket; then the slot is out with this pass
//!     ask      exchange, twice  the machine answers, and goes back with snapshots of the entry and of the reply
//!     record   fetch_add 0      what the snapshots say is the next event of the history
//!     hand     store 2          the slot is home, and the next ticket has the turn
//!
//! A sum at 0, whose pass a gives a part to b. The state behind each event is its reply:
//!
//!     a calls 5, reply 5        the history is 5 to 5              a has seen 1 event, its own are [0]
//!     b calls 7, reply 12       the history is 5 to 5, 7 to 12     b has seen 2 events, its own are [1]
//!     b is joined into a                                           a has seen 2 events, its own are [0, 1]
//!     a closes, sum 12          a has all parts                    each position is its own
//!
//! The rule of the table, `Kept` in `specs/Rule.antt`, says:
//!
//! - Word 0 is the length of one legal history, whose events have the machine behind them; it leads to the machine. So the
//!   event of a turn goes on from it, and what came between two calls of a pass goes on from the state behind the first.
//! - Each pass has seen a beginning of it: so a call's history begins with all that was seen, and of two passes one has
//!   seen a beginning of what the other has.
//! - Tickets of two passes differ, and none that is in use lies before the turn: so one pass at most has the slot.
//! - The parts of all passes sum to 1,024, and a pass without one is idle and has no own calls. Each position is one
//!   pass's own. So who has all parts has all positions: nobody comes between its calls, and no call is under way when it
//!   closes.
//! - One pass at most leads, and what the history has beyond what that pass has seen was allowed: for what is recorded by
//!   another pass is allowed, and the one that leads has seen all when it records.
//! - The history and the calls that may still be recorded are 2^62 + 1,024 at most: so no word wraps around.
//!
//! What a step tells its pass can't depend on a value of the caller's, and the reply isn't known when the turn is taken.
//! So both exchanges come ahead of `record`, which reads the slot. A join of seats tells nothing of what they know: the
//! shorter history stays in the view until the load behind it tells that the longer begins with it. What the one that
//! leads had seen stays there too (`mark`), until that load tells that all beyond it was allowed.
//!
//! An event has the machine behind it, though the events before it could lead to several: a step may leave open where it
//! leads. Each call would else speak of some states of its own, and what is shown of the state behind one call would say
//! nothing of the state ahead of the next.
//!
//! Not done: there are no readers beside a writer.
ghost use Rattle.std.specs.Prelude.{◌≡◌, ◌<◌, ◌≤◌, ◌+◌, ◌-◌, ◌^◌, ◌++◌, ◌∷◌, [], ◌||◌, max, length, IfOk, IfErr, IsSome, IsTrue, IsFalse, Some};
ghost use Rattle.history_lock.specs.declared.view.Slot.{Slot};
ghost use Rattle.history_lock.specs.Histories.{AreAllPositions, Calls, HasSeenLegal, IsAdmitted, IsAllowed, IsAllowedSince, LeadsTo, StartsWith, longer};
ghost use Rattle.history_lock.specs.Passes.{IsPassOf, known, leads, number, opening, own, parts, seen};
ghost use Rattle.history_lock.specs.Rule.{machine_in};

use crate::machine::Machine;
use crate::pass::{Pass, Token};
use crate::room::{Hall, Room};
use crate::steps::machine_of;
use crate::view::Slot;
use atomic_table::{Refused, Table};
use std::alloc::Global;
use std::snapshot::Snapshot;
use std::sync::Wait;

// The machine of the one slot of a vector.
fn only<M, E, R>(mut slots: Vec<Slot<M, E, R>>) -> Box<M>
    requires { (slot : Slot M E R) × (slots.items ≡ slot ∷ []) × IsSome (machine_in slot) }
    ensures { (slot : Slot M E R) × (slots.items ≡ slot ∷ []) × (machine_in slot ≡ Some result.value) }
{
    match slots.pop() {
        Some(slot) => {
            slots.destroy_empty();
            machine_of(slot)
        }
        None => unreachable!(),
    }
}

impl<M: Machine> Hall<M> {
    /// A hall of this machine, with the one pass of it. Where there is no memory, the machine comes back.
    pub fn open(alloc: Global, machine: M) -> Result<(Hall<M>, Pass<M>), M>
        ensures hall { IfOk result (λ r. IsPassOf r.0 r.1 × (opening r.1 ≡ Some machine) × (parts r.1 ≡ 1024)) }
        ensures leads { IfOk result (λ r. IsTrue (leads r.1)) }
        ensures nothing { IfOk result (λ r. (seen r.1 ≡ []) × (own r.1 ≡ []) × (number r.1 ≡ 0)) }
        ensures err { IfErr result (λ m. m ≡ machine) }
    {
        let about = Snapshot::of(&machine);
        let boxed = match Box::new(alloc, machine) {
            Ok(boxed) => boxed,
            Err(failed) => return Err(failed.value),
        };
        let Ok(mut slots) = Vec::with_capacity(alloc, 1) else {
            return Err(Box::into_inner(boxed));
        };
        slots.push_reserved(Slot {
            machine: Some(boxed),
            entry: None,
            reply: None,
        });
        match Table::new(alloc, &[0, 0, 0], slots, &about) {
            Ok((table, seat)) => Ok((Room { table }, Token { seat })),
            Err(Refused { slots }) => Err(Box::into_inner(only(slots))),
        }
    }

    /// Waits for its turn, and makes one call. An `Err` gives the entry back, and says that the history was full. What
    /// others did since the pass saw the machine led to the state ahead of the call; to a pass that leads all of it was
    /// allowed.
    pub fn call<R: Wait>(
        &self,
        rt: &R,
        pass: &mut Pass<M>,
        entry: M::Entry,
    ) -> Result<M::Reply, M::Entry>
        requires hall { IsPassOf self.now pass.old }
        requires admitted { IsAdmitted M.steps M.allows M.admits (known pass.old) entry }
        requires allowed { IsAllowed M.steps M.allows (known pass.old) entry }
        ensures stays { IsPassOf self.now pass.new × (opening pass.new ≡ opening pass.old) × (parts pass.new ≡ parts pass.old) }
        ensures leads { leads pass.new ≡ leads pass.old }
        ensures ok { IfOk result (λ reply. Calls M.steps M.allows (known pass.old) entry reply (known pass.new)) }
        ensures err { IfErr result (λ back. (back ≡ entry) × (2 ^ 62 ≤ number pass.new)) }
        ensures kept { IfErr result (λ _. (seen pass.new ≡ seen pass.old) × (own pass.new ≡ own pass.old)) }
    {
        self.make(rt, &mut pass.seat, entry)
    }

    /// Gives so many parts of a pass to a new one, which doesn't lead.
    pub fn split(&self, pass: &mut Pass<M>, count: u32) -> Pass<M>
        requires hall { IsPassOf self.now pass.old }
        requires fewer { (1 ≤ count) × (count < parts pass.old) }
        ensures hall { IsPassOf self.now pass.new × IsPassOf self.now result }
        ensures opens { (opening pass.new ≡ opening pass.old) × (opening result ≡ opening pass.old) }
        ensures shares { (parts pass.new ≡ parts pass.old - count) × (parts result ≡ count) }
        ensures kept { (seen pass.new ≡ seen pass.old) × (own pass.new ≡ own pass.old) × (number pass.new ≡ number pass.old) }
        ensures made { (seen result ≡ seen pass.old) × (own result ≡ []) × (number result ≡ 0) }
        ensures leads { (leads pass.new ≡ leads pass.old) × IsFalse (leads result) }
    {
        let seat = self.give(&mut pass.seat, count);
        Token { seat }
    }

    /// Puts another pass into this one, which leads if one of them did.
    pub fn join(&self, pass: &mut Pass<M>, other: Pass<M>)
        requires hall { IsPassOf self.now pass.old × IsPassOf self.now other }
        ensures stays { IsPassOf self.now pass.new × (opening pass.new ≡ opening pass.old) }
        ensures sum { parts pass.new ≡ parts pass.old + parts other }
        ensures leads { leads pass.new ≡ (leads pass.old || leads other) }
        ensures led { IsTrue (leads pass.old) → IsAllowedSince M.allows (seen pass.new) (seen pass.old) }
        ensures other { IsFalse (leads pass.old) → IsTrue (leads other) → IsAllowedSince M.allows (seen pass.new) (seen other) }
        ensures history { seen pass.new ≡ longer (seen pass.old) (seen other) }
        ensures begins { StartsWith (seen pass.new) (seen pass.old) × StartsWith (seen pass.new) (seen other) }
        ensures legal { HasSeenLegal M.steps (known pass.new) }
        ensures calls { own pass.new ≡ own pass.old ++ own other }
        ensures greater { number pass.new ≡ max (number pass.old) (number other) }
    {
        let Token { seat } = other;
        self.glue(&mut pass.seat, seat);
    }

    /// Ends the hall, and gives the machine back.
    pub fn close(self, pass: Pass<M>) -> M
        requires hall { IsPassOf self pass }
        requires all { parts pass ≡ 1024 }
        ensures machine { LeadsTo M.steps (known pass) result }
        ensures all_own { AreAllPositions (length (seen pass)) (own pass) }
        ensures enough { number pass ≤ length (seen pass) }
    {
        let Room { table } = self;
        let Token { seat } = pass;
        let mut closed = table.close_with(seat);
        let slot = closed.take(0);
        closed.free();
        Box::into_inner(machine_of(slot))
    }
}
