// Sessions are opened, and end.
ghost use Rattle.std.specs.Prelude.{◌≡◌, ◌+◌, IfErr, OnErr, OnOk};
ghost use Rattle.machine_steps.specs.declared.entry.Entry.TheVariants as entries;
ghost use Rattle.machine_desk.specs.Desks.{WearsOut};
ghost use Rattle.machine_desk.specs.Orders.{Stops};
ghost use Rattle.machine_desk.specs.declared.inbound.Stage.TheVariants.{Live, Unopened};
ghost use Rattle.sim_channels.specs.Channels.{IsKept, IsSame};
ghost use Rattle.sim_channels.specs.Delivering.{Leaves};
ghost use Rattle.sim_channels.specs.Staging.{ClosesAt, HasStage, OpensAt};

use crate::Driver;
use machine_desk::{DeskStop, Worn, driving_laws};
use std::sync::Wait;

impl<'h> Driver<'h> {
    /// The machine opens a session for the device with this index. In vain the device is left alone from then on.
    ///
    /// # Errors
    ///
    /// As the desk's `ask`; the channel is as before.
    pub fn open<R: Wait>(&mut self, rt: &R, at: usize) -> Result<(), DeskStop>
        requires kept { IsKept self.old }
        requires unopened { HasStage at Unopened self.old }
        ensures opens { OnOk result (OpensAt at self.old self.new) }
        ensures kept { OnOk result (IsKept self.new) }
        ensures stops { IfErr result (λ stop. Stops stop (entries.Open (at + 1)) self.old.desk self.new.desk) }
        ensures rest { OnErr result (self.new ≡ record self.old { desk = self.new.desk }) }
        ensures same { IsSame self.old self.new }
    {
        driving_laws();
        self.desk.open(rt, &mut self.channels[at].inbound)?;
        Ok(())
    }

    /// The session of the device with this index ends, as its link failed or not, and it is left alone from then on. That
    /// takes no memory.
    ///
    /// # Errors
    ///
    /// `Worn`; the channel is as before.
    pub fn close<R: Wait>(&mut self, rt: &R, at: usize, fault: bool) -> Result<(), Worn>
        requires kept { IsKept self.old }
        requires plugged { HasStage at Live self.old }
        ensures closes { OnOk result (ClosesAt at fault self.old self.new) }
        ensures kept { OnOk result (IsKept self.new) }
        ensures worn { OnErr result (WearsOut self.old.desk self.new.desk) }
        ensures rest { OnErr result (self.new ≡ record self.old { desk = self.new.desk }) }
        ensures same { IsSame self.old self.new }
    {
        driving_laws();
        self.desk.close(rt, &mut self.channels[at].inbound, fault)?;
        Ok(())
    }

    /// The device with this index failed: its session ends, and it is left alone from then on.
    ///
    /// # Errors
    ///
    /// `Worn`; the channel is as before.
    pub fn leave<R: Wait>(&mut self, rt: &R, at: usize) -> Result<(), Worn>
        requires kept { IsKept self.old }
        requires plugged { HasStage at Live self.old }
        ensures worn { OnErr result (WearsOut self.old.desk self.new.desk) }
        ensures rest { OnErr result (self.new ≡ record self.old { desk = self.new.desk }) }
        ensures leaves { OnOk result (Leaves at self.old self.new) }
        ensures same { IsSame self.old self.new }
    {
        driving_laws();
        self.close(rt, at, true)?;
        Ok(())
    }
}
