// Who drives the machine, by the pass that leads.
ghost use Rattle.std.specs.Prelude.{◌≡◌, ◌≢◌, false, true, if◌then◌else◌, IfOk, IsTrue, OnErr, OnOk, Some};
ghost use Rattle.history_lock.specs.Passes.{IsPassOf, hall as place_of, known, leads, number, opening, own, parts, seen};
ghost use Rattle.machine_moves.specs.Told.{is_new_state};
ghost use Rattle.machine_steps.specs.Admitting.{Admits};
ghost use Rattle.machine_sharing.specs.Legal.{turns_of};
ghost use Rattle.machine_desk.specs.Arriving.{HasRoomFor};
ghost use Rattle.machine_desk.specs.Openings.{IsAhead};
ghost use Rattle.machine_desk.specs.Desks.{DeskLaw, Enters, HadMemory, WearsOut, calls_of, learning_behind, view_by};
ghost use Rattle.machine_desk.specs.Working.{Works};

use crate::laws::desk_laws;
use crate::opening::Opening;
use core_machine::{Core, Entry, JobItem, Reply};
use history_lock::{Hall, Pass};
use packet_workers::{Gate, Worked, work};
use std::alloc::Global;
use std::marker::Model;
use std::snapshot::Snapshot;
use std::sync::Wait;

/// The hall has room for no further entry: its history has 2^62 of them or more.
#[derive(Clone, Copy, Debug, PartialEq, Eq)]
pub struct Worn;

/// The desk at which the machine of a hall is driven, by the pass that leads, which is lent to it. Others may share the
/// machine by other passes: between two entries of the desk they do what they may, and nothing else.
#[derive(Drop)]
pub struct Desk<'h> {
    hall: &'h Hall<Core>,
    pass: &'h mut Pass<Core>,
    start: Snapshot<Core>,
    mark: Snapshot<Pass<Core>>,
    learning: bool,
    budget: u32,
    worn: bool,
    lacked: bool,
}

impl<'h> Model for Desk<'h> {
    ghost use Rattle.std.specs.Coded.{codes};
    ghost use Rattle.core_machine.specs.contracts.machine.Core as machine;
    ghost use Rattle.machine_steps.specs.contracts.entry.Entry as entry;
    ghost use Rattle.machine_steps.specs.contracts.reply.Reply as reply;
    ghost use Rattle.history_lock.specs.Passes.{IsPassOf, hall as place_of, known};
    ghost use Rattle.machine_desk.specs.Desks.{DeskView, IsLed, view_by};

    ghost Value = { DeskView };

    ghost coded = { Prim.hlevel (codes, machine.the_row.coded, entry.the_row.coded, reply.the_row.coded) };

    ghost view = { λ d. view_by (place_of d.pass.now) d.pass.ghost_name (known d.pass.now) (known d.mark.value) d.start.value d.worn };

    ghost invariant = { λ d. IsPassOf d.hall.now d.pass.now × IsLed (known d.mark.value) (known d.pass.now) d.start.value d.worn d.lacked d.learning d.budget };
}

impl<'h> Desk<'h> {
    /// The desk of a hall, by a pass that leads there and has seen nothing of it yet. The pass is lent until `end`.
    pub fn new(hall: &'h Hall<Core>, pass: &'h mut Pass<Core>, opening: Opening) -> Desk<'h>
        requires hall { IsPassOf hall.now pass.now }
        requires ahead { IsAhead (known pass.now) opening }
        ensures { result ≡ view_by (place_of pass.old) pass.entry.ghost_name (known pass.old) (known pass.old) opening.start.value false }
    {
        let Opening {
            start,
            learning,
            budget,
        } = opening;
        let mark = Snapshot::of(pass);
        Desk {
            hall,
            pass,
            start,
            mark,
            learning,
            budget,
            worn: false,
            lacked: false,
        }
    }

    /// The machine does what an entry asks. Others may have used it since the last one, but never so that a packet that there
    /// was room for finds none.
    ///
    /// # Errors
    ///
    /// `Worn`, from the first time on: nothing was made.
    pub fn enter<R: Wait>(&mut self, rt: &R, entry: Entry) -> Result<Reply, Worn>
        requires admits { Admits self.old.now entry }
        requires room { HasRoomFor entry self.old.now }
        ensures ok { IfOk result (λ reply. Enters self.old entry reply self.new) }
        ensures worn { OnErr result (WearsOut self.old self.new) }
        ensures again { OnOk result (self.old.worn ≡ false) }
        ensures footing { self.new.footing ≡ self.old.footing }
    {
        desk_laws();
        if self.worn {
            return Err(Worn);
        }
        let learning = learning_behind(&entry, self.learning);
        match self.hall.call(rt, self.pass, entry) {
            Ok(reply) => {
                self.learning = accepted(&reply, learning, self.learning);
                self.lacked |= lacks_memory(&reply);
                Ok(reply)
            }
            Err(_) => {
                self.worn = true;
                Err(Worn)
            }
        }
    }

    /// Works on a packet that waits, as `work` of `packet_workers` does. `Worn` from the first time on that the hall is found worn.
    pub fn work<R: Wait, G: Gate>(
        &mut self,
        rt: &R,
        alloc: Global,
        item: JobItem,
        gate: &G,
    ) -> Worked
        ensures works { Works item result self.old self.new }
        ensures footing { self.new.footing ≡ self.old.footing }
    {
        desk_laws();
        if self.worn {
            return Worked::Worn;
        }
        let worked = work(rt, alloc, self.hall, self.pass, self.budget, item, gate);
        self.worn = worked == Worked::Worn;
        self.lacked |= worked == Worked::NoMemory;
        worked
    }

    /// Marks the turns so far: whatever is done next, the history goes on from here.
    pub fn mark(&mut self)
        ensures { self.new ≡ record self.old { footing = record self.old.footing { marked = self.old.past } } }
    {
        self.mark = Snapshot::of(self.pass);
    }

    /// Whether the policy in force learns where hosts are.
    pub fn learning(&self) -> bool
        ensures { result ≡ self.now.now.policy.learning }
    {
        self.learning
    }

    /// Whether the hall was found worn.
    pub fn is_worn(&self) -> bool
        ensures { result ≡ self.now.worn }
    {
        self.worn
    }

    /// Whether memory sufficed for all calls of the desk's own.
    pub fn had_memory(&self) -> bool
        ensures { result ≡ true → HadMemory (calls_of self.now.past) self.now.own }
    {
        desk_laws();
        !self.lacked
    }

    /// What holds of each desk: its machine is sound, its turns are a legal history in which no packet found too many waiting,
    /// and a worn one has read so.
    pub fn law(&self)
        ensures { DeskLaw self.now }
    {
        desk_laws();
        let _ = &self.pass;
    }

    /// The pass again. Where it has all parts the hall can be closed with it.
    pub fn end(self) -> &'h mut Pass<Core>
        ensures reference { result.ghost_name ≡ self.entry.footing.name }
        ensures hall { place_of result.now ≡ self.entry.footing.place }
        ensures leads { IsTrue (leads result.now) }
        ensures parts { parts result.now ≡ self.entry.footing.parts }
        ensures opens { opening result.now ≡ Some self.entry.footing.start }
        ensures past { turns_of self.entry.footing.start (seen result.now) ≡ self.entry.past }
        ensures own { (own result.now ≡ self.entry.own) × (number result.now ≡ self.entry.number) }
    {
        let Desk { pass, .. } = self;
        pass
    }
}

// Whether hosts are learned behind an entry, where it is accepted.
fn learning_behind(entry: &Entry, learning: bool) -> bool
    ensures { result ≡ learning_behind entry.now learning }
{
    match entry {
        Entry::NewPolicy(policy) => policy.learning(),
        _ => learning,
    }
}

// Whether a reply tells that memory ran out.
fn lacks_memory(reply: &Reply) -> bool
    ensures { result ≡ false → reply.now ≢ Reply.NoMemory }
{
    matches!(reply, Reply::NoMemory)
}

// One of these two, by whether a reply tells of a new state.
fn accepted(reply: &Reply, behind: bool, ahead: bool) -> bool
    ensures { result ≡ (if is_new_state reply.now then behind else ahead) }
{
    match reply {
        Reply::NewState { .. } => behind,
        _ => ahead,
    }
}
