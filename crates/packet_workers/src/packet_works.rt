// What a crew's worker does with a packet that waits.
ghost use Rattle.std.specs.Prelude.{◌≡◌};
ghost use Rattle.packet_workers.specs.Crewing.{Makes, told_as};

use crate::gate::Gate;
use crate::worked::Worked;
use crate::working::work;
use core_machine::{Core, JobItem};
use history_lock::{Hall, Pass};
use std::alloc::Global;
use std::sync::Wait;
use worker_crew::{GaveUp, Works};

/// Works on packets, in a crew.
#[derive(Clone, Copy)]
pub struct PacketWorks<'a, G> {
    /// What runs and answers take memory from.
    pub alloc: Global,
    /// In steps, that of the machine's settings.
    pub budget: u32,
    /// Who is told of each packet's work.
    pub gate: &'a G,
}

impl<'a, G: Gate> Works<Core, JobItem> for PacketWorks<'a, G> {
    ghost suits = { λ w m. m.settings.budget ≡ w.budget };

    ghost makes = { λ w item told calls. Makes w.budget item told calls };

    #[tactic(auto, using(crate::proofs::Crewed::of_work))]
    fn work<R: Wait>(
        &self,
        rt: &R,
        hall: &Hall<Core>,
        pass: &mut Pass<Core>,
        item: JobItem,
    ) -> Result<(), GaveUp> {
        let worked = work(rt, self.alloc, hall, pass, self.budget, item, self.gate);
        told(worked)
    }
}

// How a worker tells of it.
fn told(worked: Worked) -> Result<(), GaveUp>
    ensures { result ≡ told_as worked }
{
    match worked {
        Worked::NoMemory => Err(GaveUp::NoMemory),
        Worked::Worn => Err(GaveUp::Worn),
        _ => Ok(()),
    }
}
