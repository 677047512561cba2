// Who works beside the driver.
ghost use Rattle.std.specs.Prelude.{◌≡◌, not, OnErr, OnOk, is_some};
ghost use Rattle.sim_channels.specs.Channels.{IsKept, IsSame};
ghost use Rattle.machine_desk.specs.Laws.{Meanwhile};
ghost use Rattle.sim_channels.specs.Passes.{Attends, AwaitsAll, MakesRoom};

use crate::{Driver, Stopped};
use core_machine::JobItem;
use machine_desk::{Handed, answered, driving_laws, tending_laws};
use packet_workers::Gate;
use std::sync::Wait;

impl<'h> Driver<'h> {
    /// Whether nobody works beside the driver.
    pub fn works_alone(&self) -> bool
        ensures { result ≡ not (is_some self.now.crew) }
    {
        self.crew.is_none()
    }

    // Beside workers: waits until the machine takes a further packet in.
    #[tactic(auto, using(crate::proofs::Tended::same_beside))]
    pub(crate) fn make_room<R: Wait, G: Gate>(&mut self, rt: &R, gate: &G) -> Result<(), Stopped>
        requires kept { IsKept self.old }
        ensures room { OnOk result (MakesRoom self.old self.new) }
        ensures meanwhile { OnErr result (Meanwhile self.old.desk self.new.desk) }
        ensures same { IsSame self.old self.new }
    {
        driving_laws();
        tending_laws();
        match &mut self.crew {
            None => Ok(()),
            Some(crew) => Ok(crew.make_room(rt, gate, self.alloc, &mut self.desk)?),
        }
    }

    // Beside workers: waits until no packet waits.
    #[tactic(auto, using(crate::proofs::Tended::same_beside))]
    pub(crate) fn await_all<R: Wait, G: Gate>(&mut self, rt: &R, gate: &G) -> Result<(), Stopped>
        requires kept { IsKept self.old }
        ensures awaits { OnOk result (AwaitsAll self.old self.new) }
        ensures meanwhile { OnErr result (Meanwhile self.old.desk self.new.desk) }
        ensures same { IsSame self.old self.new }
    {
        driving_laws();
        tending_laws();
        match &mut self.crew {
            None => Ok(()),
            Some(crew) => Ok(crew.await_all(rt, gate, self.alloc, &mut self.desk)?),
        }
    }

    // A packet that waits is answered, or handed over to the workers; where their queue is full the driver answers it.
    #[tactic(auto, using(crate::proofs::Tended::same_beside))]
    pub(crate) fn attend<R: Wait, G: Gate>(
        &mut self,
        rt: &R,
        gate: &G,
        item: JobItem,
    ) -> Result<(), Stopped>
        requires kept { IsKept self.old }
        ensures attends { OnOk result (Attends item self.old self.new) }
        ensures meanwhile { OnErr result (Meanwhile self.old.desk self.new.desk) }
        ensures same { IsSame self.old self.new }
    {
        tending_laws();
        match &mut self.crew {
            None => answered(self.desk.work(rt, self.alloc, item, gate)),
            Some(crew) => {
                match crew.hand_over(rt, gate, self.alloc, &mut self.desk, item) {
                    Handed::Queued => Ok(()),
                    Handed::Worked(worked) => answered(worked),
                }
            }
        }
    }
}
