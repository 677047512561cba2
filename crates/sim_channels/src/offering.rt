// A message that was taken out is offered to its device.
ghost use Rattle.std.specs.Prelude.{◌≡◌, ◌<◌, IfOk, OnErr, OnOk, length, map};
ghost use Rattle.std.specs.List.{AllByRecursion};
ghost use Rattle.machine_moves.specs.Sends.{CanBeOffered};
ghost use Rattle.sim_steps.specs.Stretches.{BreaksOff};
ghost use Rattle.sim_channels.specs.Channels.{Fits, IsSame, bench};
ghost use Rattle.machine_desk.specs.declared.inbound.Stage.TheVariants.{Live};
ghost use Rattle.sim_channels.specs.Delivering.{CanOffer, GoesOn, OffersAt, OffersFirst, offers_left};
ghost use Rattle.sim_channels.specs.Staging.{HasStage};

use crate::outbox::connection_of;
use crate::{Channel, Driver, Stopped};
use core_machine::Note;
use device_port::{Device, Took};
use machine_desk::driving_laws;
use maple_base::NoMemory;
use std::sync::Wait;

impl<'h> Driver<'h> {
    // The next message is offered to the device with this index, which is left where it fails. Gives
    // whether it took the message in.
    pub(crate) fn offer_next<R: Wait, D: Device>(
        &mut self,
        rt: &R,
        devices: &mut [D],
        at: usize,
    ) -> Result<bool, Stopped>
        requires fits { Fits self.old (map D.meaning devices.old) }
        requires within { at < length devices.old }
        requires plugged { HasStage at Live self.old }
        requires can { CanOffer at self.old }
        requires some { 0 < offers_left at self.old }
        ensures done { OnOk result (OffersAt at self.old (map D.meaning devices.old) self.new (map D.meaning devices.new)) }
        ensures goes_on { IfOk result (λ took. GoesOn took at self.old self.new) }
        ensures broken { OnErr result (BreaksOff (bench self.old (map D.meaning devices.old)) self.new.desk.past) }
        ensures same { IsSame self.old self.new }
    {
        driving_laws();
        let failed = offer_first(&mut self.channels[at], &mut devices[at])?;
        let note = Note::Offered {
            device: connection_of(at),
            failed,
        };
        self.note(rt, note)?;
        if failed {
            self.leave(rt, at)?;
            return Ok(false);
        }
        Ok(true)
    }
}

// Offers the next message to the device behind a channel, and gives whether it failed.
fn offer_first<D: Device>(channel: &mut Channel, device: &mut D) -> Result<bool, NoMemory>
    requires some { 0 < length channel.old.to }
    requires can { AllByRecursion CanBeOffered channel.old.to }
    requires waiting { channel.old.waiting ≡ length (D.meaning device.old).pending }
    ensures { IfOk result (λ failed. OffersFirst failed channel.old (D.meaning device.old) channel.new (D.meaning device.new)) }
{
    let Some(waiting) = channel.waiting.checked_add(1) else {
        return Err(NoMemory);
    };
    match device.offer(channel.to.next()) {
        Took::Taken => {
            channel.to.drop_first();
            channel.waiting = waiting;
            Ok(false)
        }
        Took::Failed => Ok(true),
        Took::NoMemory => Err(NoMemory),
    }
}
