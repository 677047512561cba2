// Packets that wait, beside who works on them.
ghost use Rattle.std.specs.Prelude.{◌≡◌, OnOk};
ghost use Rattle.serve_channels.specs.Passing.{Attends, HasCrew, MakesRoom};
ghost use Rattle.serve_channels.specs.Servers.{IsSame};

use crate::Server;
use core_machine::JobItem;
use machine_desk::{Handed, Stopped, answered, tending_laws};
use packet_workers::Gate;
use std::sync::Wait;

impl<'h> Server<'h> {
    // Beside workers: waits until there is room for a further packet.
    pub(crate) fn make_room<R: Wait, G: Gate>(&mut self, rt: &R, gate: &G) -> Result<(), Stopped>
        requires crew { HasCrew self.old }
        ensures room { OnOk result (MakesRoom self.old self.new) }
        ensures connections { self.new.connections.items ≡ self.old.connections.items }
        ensures same { IsSame self.old self.new }
    {
        tending_laws();
        match &mut self.crew {
            None => Ok(()),
            Some(crew) => Ok(crew.make_room(rt, gate, self.alloc, &mut self.desk)?),
        }
    }

    // A packet that waits is answered, or handed over to the workers; where their queue is full the server answers it.
    pub(crate) fn attend<R: Wait, G: Gate>(
        &mut self,
        rt: &R,
        gate: &G,
        item: JobItem,
    ) -> Result<(), Stopped>
        requires crew { HasCrew self.old }
        ensures attends { OnOk result (Attends item self.old self.new) }
        ensures connections { self.new.connections.items ≡ self.old.connections.items }
        ensures same { IsSame self.old self.new }
    {
        tending_laws();
        match &mut self.crew {
            None => answered(self.desk.work(rt, self.alloc, item, gate)),
            Some(crew) => match crew.hand_over(rt, gate, self.alloc, &mut self.desk, item) {
                Handed::Queued => Ok(()),
                Handed::Worked(worked) => answered(worked),
            },
        }
    }
}
