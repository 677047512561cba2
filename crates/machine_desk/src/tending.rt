// What a driver does about packets that wait.
ghost use Rattle.std.specs.Prelude.{◌≡◌, Err, IfErr, IfNone, IfOk, IfSome, OnErr, OnOk};
ghost use Rattle.machine_steps.specs.declared.entry.Entry.TheVariants.{OpenJobs};
ghost use Rattle.machine_steps.specs.declared.reply.Reply.TheVariants.{Count};
ghost use Rattle.worker_crew.specs.Takers.{IsTakerOf, account, places};
ghost use Rattle.machine_desk.specs.Desks.{Enters, WearsOut};
ghost use Rattle.machine_desk.specs.Tending.{BreaksBy, Done, GoesOn, HandsOver, IsEmptyFor, Reaches, Room, Stops, TakesAndWorks, WorksSo, at};

use crate::{Desk, Worn};
use core_machine::{Entry, JobItem, Reply};
use packet_workers::{Gate, Worked};
use std::alloc::Global;
use std::sync::Wait;
use worker_crew::{GaveUp, JobPass, Jobs, Lobby};

/// The most packets that may wait in the machine (OpenJobs answers so many where no further one is taken in).
const MOST_OPEN: u32 = 4096;

/// Why a driver can't go on.
#[derive(Clone, Copy, Debug, PartialEq, Eq)]
pub enum Broken {
    /// Its own call or work found no memory, or a worn hall.
    Own(GaveUp),
    /// A worker told in the lobby that it gave up.
    Worker(GaveUp),
}

/// What became of a packet that was handed over.
#[derive(Clone, Copy, Debug, PartialEq, Eq)]
pub enum Handed {
    /// It is in the queue.
    Queued,
    /// The queue was full, and the driver worked it.
    Worked(Worked),
}

/// With what a driver tends to packets that wait: the queue, the lobby in which workers tell of moves, who is told of each
/// packet's work, and from what a work takes memory.
#[derive(Clone, Copy)]
pub struct Tender<'a, G> {
    pub jobs: &'a Jobs<JobItem>,
    pub lobby: &'a Lobby,
    pub gate: &'a G,
    pub alloc: Global,
}

impl<'a, G: Gate> Tender<'a, G> {
    /// Puts a packet into the queue, which is told to the workers; where the queue is full, works it.
    pub fn hand_over<R: Wait>(
        &self,
        rt: &R,
        desk: &mut Desk<'_>,
        taker: &mut JobPass<JobItem>,
        item: JobItem,
    ) -> Handed
        requires taker { IsTakerOf self.now.jobs.now taker.old }
        ensures taker { IsTakerOf self.now.jobs.now taker.new }
        ensures handed { HandsOver result item (places self.now.jobs.now) (at desk.old taker.old) (at desk.new taker.new) }
        ensures footing { desk.new.footing ≡ desk.old.footing }
    {
        match self.jobs.offer(rt, taker, item) {
            Ok(()) => {
                self.lobby.offer(rt);
                Handed::Queued
            }
            Err(item) => Handed::Worked(desk.work(rt, self.alloc, item, self.gate)),
        }
    }

    /// Takes a packet from the queue, if there is one, and works it.
    pub fn work_one<R: Wait>(
        &self,
        rt: &R,
        desk: &mut Desk<'_>,
        taker: &mut JobPass<JobItem>,
    ) -> Option<Worked>
        requires taker { IsTakerOf self.now.jobs.now taker.old }
        ensures taker { IsTakerOf self.now.jobs.now taker.new }
        ensures some { IfSome result (λ worked. TakesAndWorks worked (at desk.old taker.old) (at desk.new taker.new)) }
        ensures none { IfNone result (at desk.new taker.new ≡ at desk.old taker.old) }
        ensures empty { IfNone result (IsEmptyFor (account taker.old)) }
        ensures footing { desk.new.footing ≡ desk.old.footing }
    {
        let item = self.jobs.take(rt, taker)?;
        Some(desk.work(rt, self.alloc, item, self.gate))
    }

    /// Waits until fewer packets wait in the machine than it takes in. The last that the driver did then was to ask. Where
    /// the queue has a packet it works that itself; else it sleeps until a worker tells of a move. Meant for a lobby that
    /// isn't closed: in a closed one nobody sleeps.
    ///
    /// # Errors
    ///
    /// `Broken`.
    #[tactic(auto, using(crate::proofs::Rounding::tending))]
    pub fn make_room<R: Wait>(
        &self,
        rt: &R,
        desk: &mut Desk<'_>,
        taker: &mut JobPass<JobItem>,
    ) -> Result<(), Broken>
        requires taker { IsTakerOf self.now.jobs.now taker.old }
        ensures taker { IsTakerOf self.now.jobs.now taker.new }
        ensures room { OnOk result (Reaches Room (at desk.old taker.old) (at desk.new taker.new)) }
        ensures broken { IfErr result (λ why. Stops Room why (at desk.old taker.old) (at desk.new taker.new)) }
        ensures footing { desk.new.footing ≡ desk.old.footing }
    {
        for _ in rt.forever() {
            let seen = self.lobby.news(rt).moves;
            let Ok(count) = self.open_jobs(rt, desk) else {
                return Err(Broken::Own(GaveUp::Worn));
            };
            if count < MOST_OPEN {
                return Ok(());
            }
            match self.works_one(rt, desk, taker) {
                Ok(true) => {}
                Ok(false) => {
                    if let Some(cause) = self.lobby.wait_past(rt, seen).broken {
                        return Err(self.broken_by(rt, desk, cause));
                    }
                }
                Err(cause) => return Err(Broken::Own(cause)),
            }
        }
        unreachable!()
    }

    /// Waits until no packet waits in the machine. The last that the driver did then was to ask. It works packets of the
    /// queue itself only while no worker has announced itself; else it sleeps until one tells of a move. Meant for a lobby
    /// that isn't closed.
    ///
    /// # Errors
    ///
    /// `Broken`.
    #[tactic(auto, using(crate::proofs::Rounding::tending))]
    pub fn await_all<R: Wait>(
        &self,
        rt: &R,
        desk: &mut Desk<'_>,
        taker: &mut JobPass<JobItem>,
    ) -> Result<(), Broken>
        requires taker { IsTakerOf self.now.jobs.now taker.old }
        ensures taker { IsTakerOf self.now.jobs.now taker.new }
        ensures done { OnOk result (Reaches Done (at desk.old taker.old) (at desk.new taker.new)) }
        ensures broken { IfErr result (λ why. Stops Done why (at desk.old taker.old) (at desk.new taker.new)) }
        ensures footing { desk.new.footing ≡ desk.old.footing }
    {
        for _ in rt.forever() {
            let news = self.lobby.news(rt);
            let Ok(count) = self.open_jobs(rt, desk) else {
                return Err(Broken::Own(GaveUp::Worn));
            };
            if count == 0 {
                return Ok(());
            }
            match self.works_alone(rt, desk, taker, news.workers) {
                Ok(true) => {}
                Ok(false) => {
                    if let Some(cause) = self.lobby.wait_past(rt, news.moves).broken {
                        return Err(self.broken_by(rt, desk, cause));
                    }
                }
                Err(cause) => return Err(Broken::Own(cause)),
            }
        }
        unreachable!()
    }

    // Why it can't go on, where a worker gave up so: who is told of a worn hall asks once more, and finds it so itself.
    pub(crate) fn broken_by<R: Wait>(&self, rt: &R, desk: &mut Desk<'_>, cause: GaveUp) -> Broken
        ensures breaks { BreaksBy cause result desk.old desk.new }
        ensures footing { desk.new.footing ≡ desk.old.footing }
    {
        if cause == GaveUp::Worn && self.open_jobs(rt, desk).is_err() {
            return Broken::Own(GaveUp::Worn);
        }
        Broken::Worker(cause)
    }

    // How many packets wait in the machine.
    fn open_jobs<R: Wait>(&self, rt: &R, desk: &mut Desk<'_>) -> Result<u32, Worn>
        ensures asks { IfOk result (λ count. Enters desk.old OpenJobs (Count count) desk.new) }
        ensures worn { OnErr result (WearsOut desk.old desk.new) }
        ensures footing { desk.new.footing ≡ desk.old.footing }
    {
        match desk.enter(rt, Entry::OpenJobs) {
            Ok(Reply::Count(count)) => Ok(count),
            Ok(_) => unreachable!(),
            Err(worn) => Err(worn),
        }
    }

    // Works a packet of the queue. Tells whether there was one.
    fn works_one<R: Wait>(
        &self,
        rt: &R,
        desk: &mut Desk<'_>,
        taker: &mut JobPass<JobItem>,
    ) -> Result<bool, GaveUp>
        requires taker { IsTakerOf self.now.jobs.now taker.old }
        ensures taker { IsTakerOf self.now.jobs.now taker.new }
        ensures goes_on { IfOk result (λ works. GoesOn Room works (at desk.old taker.old) (at desk.new taker.new)) }
        ensures fails { IfErr result (λ cause. WorksSo (Err cause) (at desk.old taker.old) (at desk.new taker.new)) }
        ensures footing { desk.new.footing ≡ desk.old.footing }
    {
        match self.work_one(rt, desk, taker) {
            Some(Worked::NoMemory) => Err(GaveUp::NoMemory),
            Some(Worked::Worn) => Err(GaveUp::Worn),
            Some(_) => Ok(true),
            None => Ok(false),
        }
    }

    // The same, unless workers are there.
    #[tactic(auto, using(crate::proofs::Rounding::sleeps_too))]
    fn works_alone<R: Wait>(
        &self,
        rt: &R,
        desk: &mut Desk<'_>,
        taker: &mut JobPass<JobItem>,
        workers: u32,
    ) -> Result<bool, GaveUp>
        requires taker { IsTakerOf self.now.jobs.now taker.old }
        ensures taker { IsTakerOf self.now.jobs.now taker.new }
        ensures goes_on { IfOk result (λ works. GoesOn Done works (at desk.old taker.old) (at desk.new taker.new)) }
        ensures fails { IfErr result (λ cause. WorksSo (Err cause) (at desk.old taker.old) (at desk.new taker.new)) }
        ensures footing { desk.new.footing ≡ desk.old.footing }
    {
        if workers > 0 {
            return Ok(false);
        }
        self.works_one(rt, desk, taker)
    }
}
