// What the machine has for devices is taken out and offered to them.
ghost use Rattle.std.specs.Prelude.{◌≡◌, ◌<◌, map, length, OnErr, OnOk};
ghost use Rattle.machine_desk.specs.declared.inbound.Stage.TheVariants.{Live};
ghost use Rattle.sim_steps.specs.Stretches.{BreaksOff, Carried};
ghost use Rattle.sim_channels.specs.Channels.{Fits, IsSame, bench};
ghost use Rattle.sim_channels.specs.Delivering.{Delivers};
ghost use Rattle.sim_channels.specs.Staging.{HasStage};
ghost use Rattle.sim_channels.specs.Waiting.{IsAtRest, IsDone, IsHeard, IsHeardThrough, IsOffered, IsQuiet, IsTaken, NoneWaits, StaysBut};

use crate::{Driver, Stopped};
use device_port::Device;
use machine_desk::{Stage, driving_laws};
use packet_workers::Gate;
use std::sync::Wait;

impl<'h> Driver<'h> {
    /// What the machine has for the device with this index is taken out and offered to it, message by
    /// message. Where the device fails it is left. Nothing is done where its session isn't open.
    ///
    /// # Errors
    ///
    /// `Stopped`.
    pub fn deliver<R: Wait, D: Device>(
        &mut self,
        rt: &R,
        devices: &mut [D],
        at: usize,
    ) -> Result<(), Stopped>
        requires fits { Fits self.old (map D.meaning devices.old) }
        requires within { at < length devices.old }
        requires offered { IsOffered at self.old }
        ensures fits { OnOk result (Fits self.new (map D.meaning devices.new)) }
        ensures carried { OnOk result (Carried (bench self.old (map D.meaning devices.old)) (bench self.new (map D.meaning devices.new))) }
        ensures taken { OnOk result (IsQuiet self.old → IsTaken at self.new) }
        ensures offered { OnOk result (IsOffered at self.new) }
        ensures heard { OnOk result (IsHeard at self.old → IsHeard at self.new) }
        ensures others { OnOk result (StaysBut (IsQuiet self.old) at self.old self.new) }
        ensures jobs { OnOk result (NoneWaits self.old.desk → NoneWaits self.new.desk) }
        ensures broken { OnErr result (BreaksOff (bench self.old (map D.meaning devices.old)) self.new.desk.past) }
        ensures same { IsSame self.old self.new }
    {
        match self.channels[at].inbound.stage() {
            Stage::Live => self.deliver_plugged(rt, devices, at),
            Stage::Unopened | Stage::Over => Ok(()),
        }
    }

    /// What the machine has for any of the devices is taken out and offered.
    ///
    /// # Errors
    ///
    /// `Stopped`.
    pub fn deliver_all<R: Wait, D: Device>(
        &mut self,
        rt: &R,
        devices: &mut [D],
    ) -> Result<(), Stopped>
        requires fits { Fits self.old (map D.meaning devices.old) }
        requires through { IsHeardThrough self.old }
        ensures fits { OnOk result (Fits self.new (map D.meaning devices.new)) }
        ensures carried { OnOk result (Carried (bench self.old (map D.meaning devices.old)) (bench self.new (map D.meaning devices.new))) }
        ensures rest { OnOk result (IsAtRest self.new) }
        ensures done { OnOk result (NoneWaits self.old.desk → IsDone self.new) }
        ensures broken { OnErr result (BreaksOff (bench self.old (map D.meaning devices.old)) self.new.desk.past) }
        ensures same { IsSame self.old self.new }
    {
        driving_laws();
        for at in 0..devices.len() {
            self.deliver(rt, devices, at)?;
        }
        Ok(())
    }

    /// Beside workers: waits until no packet waits, and delivers what came of that. Without them there is nothing to wait for.
    ///
    /// # Errors
    ///
    /// `Stopped`.
    pub fn catch_up<R: Wait, G: Gate, D: Device>(
        &mut self,
        rt: &R,
        gate: &G,
        devices: &mut [D],
    ) -> Result<(), Stopped>
        requires fits { Fits self.old (map D.meaning devices.old) }
        requires rest { IsAtRest self.old }
        ensures fits { OnOk result (Fits self.new (map D.meaning devices.new)) }
        ensures carried { OnOk result (Carried (bench self.old (map D.meaning devices.old)) (bench self.new (map D.meaning devices.new))) }
        ensures rest { OnOk result (IsAtRest self.new) }
        ensures done { OnOk result (IsDone self.new) }
        ensures broken { OnErr result (BreaksOff (bench self.old (map D.meaning devices.old)) self.new.desk.past) }
        ensures same { IsSame self.old self.new }
    {
        driving_laws();
        if self.works_alone() {
            return Ok(());
        }
        self.await_all(rt, gate)?;
        self.deliver_all(rt, devices)
    }

    // The same as `deliver` where its session is open.
    fn deliver_plugged<R: Wait, D: Device>(
        &mut self,
        rt: &R,
        devices: &mut [D],
        at: usize,
    ) -> Result<(), Stopped>
        requires fits { Fits self.old (map D.meaning devices.old) }
        requires within { at < length devices.old }
        requires plugged { HasStage at Live self.old }
        requires offered { IsOffered at self.old }
        ensures done { OnOk result (Delivers at self.old (map D.meaning devices.old) self.new (map D.meaning devices.new)) }
        ensures offered { OnOk result (IsOffered at self.new) }
        ensures broken { OnErr result (BreaksOff (bench self.old (map D.meaning devices.old)) self.new.desk.past) }
        ensures same { IsSame self.old self.new }
    {
        self.take_out(rt, at)?;
        while !self.channels[at].to.is_empty() {
            if !self.offer_next(rt, devices, at)? {
                return Ok(());
            }
        }
        Ok(())
    }
}
