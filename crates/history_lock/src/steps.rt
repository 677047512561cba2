//! The steps of a call, over a bare seat.
ghost use Rattle.std.specs.Prelude.{◌≡◌, ◌<◌, ◌≤◌, ◌+◌, ◌^◌, None, ℕ, IfOk, IfErr, IsSome, IsTrue, IsFalse, Some, [], ◌∷◌};
ghost use Rattle.history_lock.specs.declared.view.Slot.{Slot};
ghost use Rattle.history_lock.specs.declared.view.Standing.TheVariants.{Idle, Looked, Waits, Turn, Recorded};
ghost use Rattle.history_lock.specs.Histories.{Calls, HasSeenLegal, IsAdmitted, IsAllowed, IsAllowedSince, IsLedByOther, StartsWith};
ghost use Rattle.history_lock.specs.Rule.{Acts, Adds, Answered, HasRecorded, Holds, IsFree, IsKept, Takes, joined, less, machine_in, reads, share, staged};

use crate::law::{Compare, Count, Cut, Draw, Glue, Hand, Look, Take, Write};
use crate::machine::Machine;
use crate::room::{Hall, Stand};
use crate::view::Slot;
use std::hint;
use std::marker::Brand;
use std::snapshot::Snapshot;
use std::sync::Wait;

/// How long a history may get.
const MOST: u64 = 1 << 62;

// The word of the history's length, that of the next ticket, and that of the turn.
const LENGTH: usize = 0;

const TICKETS: usize = 1;

const TURN: usize = 2;

// How often a waiting pass looks before it sleeps: longer than most turns take.
const LOOKS: u32 = 1_024;

// The machine that a slot has.
pub(crate) fn machine_of<M, E, R>(slot: Slot<M, E, R>) -> Box<M>
    requires { IsSome (machine_in slot) }
    ensures { machine_in slot ≡ Some result.value }
{
    let Slot {
        machine,
        entry: _,
        reply: _,
    } = slot;
    match machine {
        Some(machine) => machine,
        None => unreachable!(),
    }
}

// A slot that has no machine.
fn forget<M, E, R>(slot: Slot<M, E, R>)
    requires { slot.machine ≡ None }
{
    let Slot {
        machine,
        entry: _,
        reply: _,
    } = slot;
    match machine {
        Some(_machine) => unreachable!(),
        None => (),
    }
}

impl<M: Machine> Hall<M> {
    // Reads the length of the history.
    fn look(&self, pass: &mut Stand<M>) -> u64
        requires hall { pass.old.table_id ≡ self.now.table.shared.table_id }
        requires idle { (pass.old.me.0.stage ≡ Idle) × (0 < pass.old.me.0.known.parts) }
        ensures same { (pass.new.table_id ≡ pass.old.table_id) × (pass.new.id ≡ pass.old.id) }
        ensures read { pass.new.me ≡ (reads pass.old.me.0 result, pass.old.me.1) }
    {
        self.table.shared.load::<Look<M>>(pass, LENGTH)
    }

    // Draws a ticket.
    fn draw(&self, pass: &mut Stand<M>) -> u64
        requires hall { pass.old.table_id ≡ self.now.table.shared.table_id }
        requires looked { pass.old.me.0.stage ≡ Looked }
        ensures same { (pass.new.table_id ≡ pass.old.table_id) × (pass.new.id ≡ pass.old.id) }
        ensures drawn { pass.new.me ≡ (staged pass.old.me.0 (Waits result), pass.old.me.1) }
        ensures small { result + 1 < 2 ^ 64 }
    {
        self.table.shared.fetch_add::<Draw<M>>(pass, TICKETS, 1)
    }

    // Waits for the turn of the ticket, and takes the machine's slot. It is meant to sleep once it has looked in vain for a
    // while: not past the turn that it saw, since that word has changed then.
    fn wait<R: Wait>(&self, rt: &R, pass: &mut Stand<M>, ticket: u64)
        requires hall { pass.old.table_id ≡ self.now.table.shared.table_id }
        requires waits { (pass.old.me.0.stage ≡ Waits ticket) × (0 < pass.old.me.0.known.parts) × (pass.old.me.1 ≡ []) }
        ensures same { (pass.new.table_id ≡ pass.old.table_id) × (pass.new.id ≡ pass.old.id) }
        ensures took { Takes M.steps M.allows pass.old.me.0 ticket pass.new.me }
    {
        let mut looks = 0;
        for _ in rt.forever() {
            let turn = self.table.shared.load::<Take<M>>(pass, TURN);
            if turn == ticket {
                return;
            }
            if looks < LOOKS {
                looks += 1;
                hint::spin_loop();
            } else {
                self.table
                    .shared
                    .park(rt, TURN, (turn & 0xffff_ffff) as u32);
            }
        }
        unreachable!()
    }

    // Lets the machine answer.
    fn ask(&self, pass: &mut Stand<M>, ticket: u64, entry: M::Entry) -> M::Reply
        requires hall { pass.old.table_id ≡ self.now.table.shared.table_id }
        requires turn { Holds M.steps M.admits pass.old.me.0 pass.old.me.1 ticket entry }
        ensures same { (pass.new.table_id ≡ pass.old.table_id) × (pass.new.id ≡ pass.old.id) }
        ensures view { pass.new.me.0 ≡ pass.old.me.0 }
        ensures answered { Answered M.steps pass.old.me.0 pass.new.me.1 ticket entry result }
    {
        let taken = self.table.shared.exchange(
            pass,
            0,
            Slot {
                machine: None,
                entry: None,
                reply: None,
            },
        );
        let mut machine = machine_of(taken);
        let asked = Snapshot::of(&entry);
        let reply = machine.turn(entry);
        let answered = Snapshot::of(&reply);
        let empty = self.table.shared.exchange(
            pass,
            0,
            Slot {
                machine: Some(machine),
                entry: Some(asked),
                reply: Some(answered),
            },
        );
        forget(empty);
        reply
    }

    // Records the entry with its reply, which are in the slot.
    fn record(&self, pass: &mut Stand<M>, ticket: u64, entry: &Snapshot<M::Entry>, reply: &M::Reply)
        requires hall { pass.old.table_id ≡ self.now.table.shared.table_id }
        requires part { 0 < pass.old.me.0.known.parts }
        requires answered { Answered M.steps pass.old.me.0 pass.old.me.1 ticket entry.now.value reply.now }
        requires allowed { IsAllowed M.steps M.allows pass.old.me.0.known entry.now.value }
        ensures same { (pass.new.table_id ≡ pass.old.table_id) × (pass.new.id ≡ pass.old.id) }
        ensures adds { Adds M.steps M.allows pass.old.me.0 pass.old.me.1 pass.new.me }
    {
        let _ = ticket;
        let _ = entry;
        let _ = reply;
        self.table.shared.fetch_add::<Write<M>>(pass, LENGTH, 1);
    }

    // Gives the slot back, and hands the turn on. Where a further ticket is drawn, its pass may sleep, and all are woken: who
    // draws behind that look finds the new turn.
    fn hand(&self, pass: &mut Stand<M>, ticket: u64)
        requires hall { pass.old.table_id ≡ self.now.table.shared.table_id }
        requires recorded { HasRecorded pass.old.me.0 pass.old.me.1 ticket }
        requires small { ticket + 1 < 2 ^ 64 }
        ensures same { (pass.new.table_id ≡ pass.old.table_id) × (pass.new.id ≡ pass.old.id) }
        ensures idle { pass.new.me ≡ (staged pass.old.me.0 Idle, []) }
    {
        self.table.shared.store::<Hand<M>>(pass, TURN, ticket + 1);
        if self.table.shared.peek(TICKETS) != ticket + 1 {
            self.table.shared.wake_all(TURN);
        }
    }

    // Lets the machine answer, records the entry and hands the turn on.
    fn act(&self, pass: &mut Stand<M>, ticket: u64, entry: M::Entry) -> M::Reply
        requires hall { pass.old.table_id ≡ self.now.table.shared.table_id }
        requires turn { Holds M.steps M.admits pass.old.me.0 pass.old.me.1 ticket entry }
        requires allowed { IsAllowed M.steps M.allows pass.old.me.0.known entry }
        requires part { 0 < pass.old.me.0.known.parts }
        requires small { ticket + 1 < 2 ^ 64 }
        ensures same { (pass.new.table_id ≡ pass.old.table_id) × (pass.new.id ≡ pass.old.id) }
        ensures call { Acts M.steps M.allows pass.old.me.0 entry result pass.new.me.0 }
        ensures back { pass.new.me.1 ≡ [] }
    {
        let asked = Snapshot::of(&entry);
        let reply = self.ask(pass, ticket, entry);
        self.record(pass, ticket, &asked, &reply);
        self.hand(pass, ticket);
        reply
    }

    // Makes one call.
    pub(crate) fn make<R: Wait>(
        &self,
        rt: &R,
        pass: &mut Stand<M>,
        entry: M::Entry,
    ) -> Result<M::Reply, M::Entry>
        requires hall { pass.old.table_id ≡ self.now.table.shared.table_id }
        requires free { IsFree pass.old }
        requires admitted { IsAdmitted M.steps M.allows M.admits pass.old.me.0.known entry }
        requires allowed { IsAllowed M.steps M.allows pass.old.me.0.known entry }
        ensures same { (pass.new.table_id ≡ pass.old.table_id) × (pass.new.id ≡ pass.old.id) }
        ensures free { IsFree pass.new }
        ensures stays { (pass.new.me.0.known.opening ≡ pass.old.me.0.known.opening) × (pass.new.me.0.known.parts ≡ pass.old.me.0.known.parts) }
        ensures leads { pass.new.me.0.known.leads ≡ pass.old.me.0.known.leads }
        ensures call { IfOk result (λ reply. Calls M.steps M.allows pass.old.me.0.known entry reply pass.new.me.0.known) }
        ensures worn { IfErr result (λ back. (back ≡ entry) × (2 ^ 62 ≤ pass.new.me.0.known.number) × IsKept pass.old.me.0.known pass.new.me.0.known) }
    {
        let length = self.look(pass);
        if length >= MOST {
            return Err(entry);
        }
        let ticket = self.draw(pass);
        self.wait(rt, pass, ticket);
        Ok(self.act(pass, ticket, entry))
    }

    // Splits a pass at a picked number of parts.
    fn cut<J: Count>(&self, pass: &mut Stand<M>, count: u32) -> Stand<M>
        requires hall { pass.old.table_id ≡ self.now.table.shared.table_id }
        requires idle { pass.old.me.0.stage ≡ Idle }
        requires parts { (0 < count) × (count < pass.old.me.0.known.parts) }
        requires picked { count ≡ J.count }
        ensures same { (pass.new.table_id ≡ pass.old.table_id) × (pass.new.id ≡ pass.old.id) }
        ensures left { pass.new.me ≡ (less pass.old.me.0 count, pass.old.me.1) }
        ensures right { (result.table_id ≡ pass.old.table_id) × (result.me ≡ (share pass.old.me.0 count, [])) }
    {
        let _ = count;
        self.table.shared.split_seat::<Cut<J>>(pass)
    }

    // Gives so many parts of a pass to a new one.
    pub(crate) fn give(&self, pass: &mut Stand<M>, count: u32) -> Stand<M>
        requires hall { pass.old.table_id ≡ self.now.table.shared.table_id }
        requires idle { pass.old.me.0.stage ≡ Idle }
        requires parts { (0 < count) × (count < pass.old.me.0.known.parts) }
        ensures same { (pass.new.table_id ≡ pass.old.table_id) × (pass.new.id ≡ pass.old.id) }
        ensures left { pass.new.me ≡ (less pass.old.me.0 count, pass.old.me.1) }
        ensures right { (result.table_id ≡ pass.old.table_id) × (result.me ≡ (share pass.old.me.0 count, [])) }
    {
        self.cut::<Brand>(pass, count)
    }

    // Puts two passes together. The load behind it compares the two histories.
    pub(crate) fn glue(&self, pass: &mut Stand<M>, other: Stand<M>)
        requires hall { (pass.old.table_id ≡ self.now.table.shared.table_id) × (other.table_id ≡ self.now.table.shared.table_id) }
        requires free { IsFree pass.old × IsFree other }
        ensures same { (pass.new.table_id ≡ pass.old.table_id) × (pass.new.id ≡ pass.old.id) }
        ensures both { pass.new.me ≡ (joined pass.old.me.0 other.me.0, []) }
        ensures free { IsFree pass.new }
        ensures begins { StartsWith pass.new.me.0.known.seen pass.old.me.0.known.seen × StartsWith pass.new.me.0.known.seen other.me.0.known.seen }
        ensures legal { HasSeenLegal M.steps pass.new.me.0.known }
        ensures led { IsTrue pass.old.me.0.known.leads → IsAllowedSince M.allows pass.new.me.0.known.seen pass.old.me.0.known.seen }
        ensures other { IsLedByOther M.allows pass.old.me.0.known other.me.0.known pass.new.me.0.known }
    {
        self.table.shared.join_seat::<Glue>(pass, other);
        self.table.shared.load::<Compare<M>>(pass, LENGTH);
    }
}
