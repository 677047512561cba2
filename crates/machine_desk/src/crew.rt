// Who works beside a driver.
ghost use Rattle.std.specs.Prelude.{◌≡◌, IfErr, IfNone, IfOk, IfSome, OnErr, OnOk};
ghost use Rattle.worker_crew.specs.declared.gave_up.GaveUp.{GaveUp};
ghost use Rattle.worker_crew.specs.Takers.{places};
ghost use Rattle.machine_desk.specs.Crews.{IsCrew, IsCrewStill, sight};
ghost use Rattle.machine_desk.specs.Tending.{BreaksBy, Done, HandsOver, Reaches, Room, Stops, TakesAndWorks};

use crate::Desk;
use crate::tending::{Broken, Handed, Tender};
use core_machine::JobItem;
use packet_workers::{Gate, Worked};
use std::alloc::Global;
use std::sync::Wait;
use worker_crew::{JobPass, Jobs, Lobby};

/// The most workers beside a driver.
pub const MOST_WORKERS: u32 = 16;

/// How many packets their queue has places for.
pub const QUEUE_PLACES: u32 = 4_096;

/// Workers beside a driver: the queue from which they take packets that wait, the driver's pass for it, and the lobby in
/// which all wait for each other.
#[derive(Drop)]
pub struct Crew<'h> {
    pub(crate) jobs: &'h Jobs<JobItem>,
    pub(crate) taker: &'h mut JobPass<JobItem>,
    pub(crate) lobby: &'h Lobby,
}

impl<'h> Crew<'h> {
    /// Of this queue, with this pass, which is lent.
    pub fn new(
        jobs: &'h Jobs<JobItem>,
        taker: &'h mut JobPass<JobItem>,
        lobby: &'h Lobby,
    ) -> Crew<'h>
        ensures jobs { result.jobs ≡ jobs.entry }
        ensures taker { (result.taker.now ≡ taker.old) × (result.taker.ghost_name ≡ taker.entry.ghost_name) }
        ensures lobby { result.lobby ≡ lobby.entry }
    {
        Crew { jobs, taker, lobby }
    }

    /// Hands a packet over, as `Tender::hand_over` does.
    pub fn hand_over<R: Wait, G: Gate>(
        &mut self,
        rt: &R,
        gate: &G,
        alloc: Global,
        desk: &mut Desk<'_>,
        item: JobItem,
    ) -> Handed
        requires crew { IsCrew self.old }
        ensures handed { HandsOver result item (places self.old.jobs.now) (sight desk.old self.old) (sight desk.new self.new) }
        ensures still { IsCrewStill self.old self.new }
        ensures footing { desk.new.footing ≡ desk.old.footing }
    {
        let tender = self.tender(gate, alloc);
        tender.hand_over(rt, desk, self.taker, item)
    }

    /// Waits until the machine takes a further packet in, as `Tender::make_room` does.
    ///
    /// # Errors
    ///
    /// `Broken`.
    #[tactic(auto, using(crate::proofs::Parting::parts_waited))]
    pub fn make_room<R: Wait, G: Gate>(
        &mut self,
        rt: &R,
        gate: &G,
        alloc: Global,
        desk: &mut Desk<'_>,
    ) -> Result<(), Broken>
        requires crew { IsCrew self.old }
        ensures room { OnOk result (Reaches Room (sight desk.old self.old) (sight desk.new self.new)) }
        ensures broken { IfErr result (λ why. Stops Room why (sight desk.old self.old) (sight desk.new self.new)) }
        ensures still { IsCrewStill self.old self.new }
        ensures footing { desk.new.footing ≡ desk.old.footing }
    {
        let tender = self.tender(gate, alloc);
        tender.make_room(rt, desk, self.taker)
    }

    /// Waits until no packet waits, as `Tender::await_all` does.
    ///
    /// # Errors
    ///
    /// `Broken`.
    #[tactic(auto, using(crate::proofs::Parting::parts_waited))]
    pub fn await_all<R: Wait, G: Gate>(
        &mut self,
        rt: &R,
        gate: &G,
        alloc: Global,
        desk: &mut Desk<'_>,
    ) -> Result<(), Broken>
        requires crew { IsCrew self.old }
        ensures done { OnOk result (Reaches Done (sight desk.old self.old) (sight desk.new self.new)) }
        ensures broken { IfErr result (λ why. Stops Done why (sight desk.old self.old) (sight desk.new self.new)) }
        ensures still { IsCrewStill self.old self.new }
        ensures footing { desk.new.footing ≡ desk.old.footing }
    {
        let tender = self.tender(gate, alloc);
        tender.await_all(rt, desk, self.taker)
    }

    /// Takes a packet from the queue, if there is one, and works it, unless a worker has announced itself: meant for a
    /// machine on which no thread could be made.
    ///
    /// # Errors
    ///
    /// `Broken`, where a worker gave up: then no packet was taken.
    pub fn work_alone<R: Wait, G: Gate>(
        &mut self,
        rt: &R,
        gate: &G,
        alloc: Global,
        desk: &mut Desk<'_>,
    ) -> Result<Option<Worked>, Broken>
        requires crew { IsCrew self.old }
        ensures some { IfOk result (λ found. IfSome found (λ worked. TakesAndWorks worked (sight desk.old self.old) (sight desk.new self.new))) }
        ensures none { IfOk result (λ found. IfNone found (sight desk.new self.new ≡ sight desk.old self.old)) }
        ensures broken { IfErr result (λ why. (cause : GaveUp) × BreaksBy cause why desk.old desk.new) }
        ensures untaken { OnErr result (self.new.taker.now ≡ self.old.taker.now) }
        ensures still { IsCrewStill self.old self.new }
        ensures footing { desk.new.footing ≡ desk.old.footing }
    {
        let news = self.lobby.news(rt);
        let tender = self.tender(gate, alloc);
        if let Some(cause) = news.broken {
            return Err(tender.broken_by(rt, desk, cause));
        }
        if news.workers > 0 {
            return Ok(None);
        }
        Ok(tender.work_one(rt, desk, self.taker))
    }

    // With what it tends to packets.
    fn tender<'a, G: Gate>(&self, gate: &'a G, alloc: Global) -> Tender<'a, G>
    where
        'h: 'a,
        ensures jobs { result.jobs ≡ self.now.jobs }
    {
        Tender {
            jobs: self.jobs,
            lobby: self.lobby,
            gate,
            alloc,
        }
    }

    /// The pass again, which is lent no longer.
    pub fn end(self) -> &'h mut JobPass<JobItem>
        ensures reference { result.ghost_name ≡ self.entry.taker.ghost_name }
        ensures taker { result.now ≡ self.entry.taker.now }
    {
        let Crew { taker, .. } = self;
        taker
    }
}
