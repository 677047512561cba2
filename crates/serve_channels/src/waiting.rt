// Packets that wait are awaited, or worked.
ghost use Rattle.std.specs.Prelude.{◌≡◌, [], List, OnOk};
ghost use Rattle.maple_io.specs.declared.act.Act.{Act};
ghost use Rattle.serve_channels.specs.Keeping.{Are, Goes, ServesSome};
ghost use Rattle.serve_channels.specs.Passing.{HasCrew, Tends};
ghost use Rattle.serve_channels.specs.Servers.{IsSame};

use crate::Server;
use crate::laws::serving_laws;
use machine_desk::{QUEUE_PLACES, Stopped, answered, tending_laws};
use packet_workers::Gate;
use std::sync::Wait;

impl<'h> Server<'h> {
    /// Waits until no packet waits for an answer: with nobody beside the server none does.
    ///
    /// # Errors
    ///
    /// `Stopped`.
    pub fn await_all<R: Wait, G: Gate>(&mut self, rt: &R, gate: &G) -> Result<(), Stopped>
        requires serving { ServesSome self.old }
        ensures goes { OnOk result ((log : List Act) → Goes (Are []) self.old log self.new log) }
        ensures none { OnOk result (self.new.desk.now.jobs ≡ []) }
        ensures connections { self.new.connections ≡ self.old.connections }
        ensures same { IsSame self.old self.new }
    {
        serving_laws();
        tending_laws();
        self.desk.law();
        match &mut self.crew {
            None => Ok(()),
            Some(crew) => Ok(crew.await_all(rt, gate, self.alloc, &mut self.desk)?),
        }
    }

    /// Works packets of the crew's queue until it is empty, unless a worker has announced itself: meant for a machine on
    /// which no thread could be made.
    ///
    /// # Errors
    ///
    /// `Stopped`; also where a worker gave up.
    pub fn work_waiting<R: Wait, G: Gate>(&mut self, rt: &R, gate: &G) -> Result<(), Stopped>
        requires serving { ServesSome self.old }
        ensures goes { OnOk result ((log : List Act) → Goes (Are []) self.old log self.new log) }
        ensures connections { self.new.connections ≡ self.old.connections }
        ensures same { IsSame self.old self.new }
    {
        serving_laws();
        self.desk.law();
        for _ in 0..QUEUE_PLACES {
            if !self.work_one(rt, gate)? {
                return Ok(());
            }
        }
        Ok(())
    }

    // Works a packet of the queue, unless a worker has announced itself. Tells whether it did.
    fn work_one<R: Wait, G: Gate>(&mut self, rt: &R, gate: &G) -> Result<bool, Stopped>
        requires crew { HasCrew self.old }
        ensures tends { OnOk result (Tends self.old self.new) }
        ensures connections { self.new.connections ≡ self.old.connections }
        ensures same { IsSame self.old self.new }
    {
        tending_laws();
        let Some(crew) = &mut self.crew else {
            return Ok(false);
        };
        match crew.work_alone(rt, gate, self.alloc, &mut self.desk)? {
            None => Ok(false),
            Some(worked) => {
                answered(worked)?;
                Ok(true)
            }
        }
    }
}
