// The driver of the machine and devices.
ghost use Rattle.std.specs.Prelude.{◌≡◌, ℕ, ◌^◌, ◌<◌, [], IfErr, IfOk, length, map};
ghost use Rattle.std.specs.List.{AllByRecursion};
ghost use Rattle.sim_steps.specs.Showing.{AllIdle};
ghost use Rattle.world_steps.specs.Worlds.{messages_for};
ghost use Rattle.machine_desk.specs.Crews.{MayHave};
ghost use Rattle.machine_desk.specs.Openings.{IsAtStart};
ghost use Rattle.machine_steps.specs.Sound.{AreInRange};
ghost use Rattle.sim_channels.specs.Channels.{AreNumbered, Fits, bench, bench_at_start};
ghost use Rattle.sim_channels.specs.Delivering.{IsUnused};
ghost use Rattle.sim_channels.specs.Waiting.{IsAtRest};

use crate::Channel;
use crate::outbox::{connection_of, messages_for};
use device_port::Device;
use machine_desk::{Crew, Desk, Inbound};
use maple_base::{Bytes, NoMemory};
use message_blocks::Block;
use std::alloc::Global;

/// Who drives the machine at its desk, and the devices, which stand at places from 1 on.
#[derive(Drop)]
pub struct Driver<'h> {
    pub(crate) alloc: Global,
    pub(crate) desk: Desk<'h>,
    /// Who works beside it, if anybody does.
    pub(crate) crew: Option<Crew<'h>>,
    /// Of each place.
    pub(crate) channels: Vec<Channel>,
}

impl<'h> Driver<'h> {
    /// The desk of a machine ahead of its first entry, who works beside the driver, and these devices, of which none is
    /// plugged in.
    ///
    /// # Errors
    ///
    /// The desk and the crew again, where memory runs out, also where there are 2^32 devices or more.
    pub fn new<D: Device>(
        alloc: Global,
        desk: Desk<'h>,
        crew: Option<Crew<'h>>,
        devices: &[D],
    ) -> Result<Driver<'h>, (Desk<'h>, Option<Crew<'h>>)>
        requires start { IsAtStart desk }
        requires ranges { AreInRange desk.now.settings }
        requires crew { MayHave crew desk.footing.parts desk.now }
        requires idle { AllIdle (map D.meaning devices.now) }
        ensures desk { IfOk result (λ driver. driver.desk ≡ desk.entry) }
        ensures crew { IfOk result (λ driver. driver.crew ≡ crew.entry) }
        ensures opening { IfOk result (λ driver. bench driver (map D.meaning devices.now) ≡ bench_at_start desk.entry (map D.meaning devices.now)) }
        ensures fits { IfOk result (λ driver. Fits driver (map D.meaning devices.now)) }
        ensures rest { IfOk result IsAtRest }
        ensures back { IfErr result (λ back. (back.0 ≡ desk.entry) × (back.1 ≡ crew.entry)) }
    {
        match unplugged(alloc, &desk, devices.len()) {
            Ok(channels) => Ok(Driver {
                alloc,
                desk,
                crew,
                channels,
            }),
            Err(_) => Err((desk, crew)),
        }
    }
}

// Channels to so many devices, of which none is plugged in; nothing waits in the machine for them.
fn unplugged<'h>(alloc: Global, desk: &Desk<'h>, count: usize) -> Result<Vec<Channel>, NoMemory>
    requires none { (c : ℕ) → messages_for c desk.now.now ≡ [] }
    ensures few { IfOk result (λ _. count < 2 ^ 32) }
    ensures count { IfOk result (λ channels. length channels.items ≡ count) }
    ensures unused { IfOk result (λ channels. AllByRecursion IsUnused channels.items) }
    ensures names { IfOk result (λ channels. AreNumbered channels.items) }
{
    if u32::try_from(count).is_err() {
        return Err(NoMemory);
    }
    let mut channels = Vec::new(alloc);
    for at in 0..count {
        let connection = connection_of(at);
        channels.push(Channel {
            inbound: Inbound::new(alloc, connection),
            to: Block::new(Bytes::new(Vec::new(alloc)), messages_for(desk, &connection)),
            waiting: 0,
        })?;
    }
    Ok(channels)
}
