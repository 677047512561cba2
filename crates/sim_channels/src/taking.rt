// The messages for a device are taken out of the machine.
ghost use Rattle.std.specs.Prelude.{◌≡◌, IfErr, IfOk, OnErr, OnOk};
ghost use Rattle.machine_desk.specs.declared.inbound.Stage.TheVariants.{Live};
ghost use Rattle.machine_desk.specs.Orders.{Stops};
ghost use Rattle.machine_steps.specs.declared.entry.Entry.TheVariants as entries;
ghost use Rattle.sim_channels.specs.Channels.{BreaksOffOver, IsKept, IsSame};
ghost use Rattle.sim_channels.specs.Delivering.{TakesMessages, TakesOut};
ghost use Rattle.sim_channels.specs.Staging.{HasStage};
ghost use Rattle.sim_channels.specs.Waiting.{IsOffered};

use crate::outbox::{connection_of, messages_ahead};
use crate::{Driver, Stopped};
use core_machine::{Entry, Reply};
use machine_desk::{Desk, DeskStop, driving_laws};
use maple_base::Bytes;
use message_blocks::{Block, Messages};
use std::sync::Wait;

impl<'h> Driver<'h> {
    // What the machine has for the device with this index is taken out; all that was taken out before was offered.
    pub(crate) fn take_out<R: Wait>(&mut self, rt: &R, at: usize) -> Result<(), Stopped>
        requires kept { IsKept self.old }
        requires plugged { HasStage at Live self.old }
        requires offered { IsOffered at self.old }
        ensures takes { OnOk result (TakesOut at self.old self.new) }
        ensures broken { OnErr result (BreaksOffOver self.old self.new) }
        ensures same { IsSame self.old self.new }
    {
        driving_laws();
        let (bytes, messages) = take_messages(rt, &mut self.desk, connection_of(at))?;
        self.channels[at].to = Block::new(bytes, messages);
        Ok(())
    }
}

// The messages for a connection are taken out at the desk.
fn take_messages<R: Wait>(
    rt: &R,
    desk: &mut Desk<'_>,
    connection: u32,
) -> Result<(Bytes, Messages), DeskStop>
    ensures takes { IfOk result (λ taken. TakesMessages connection taken.0 taken.1.value desk.old desk.new) }
    ensures stops { IfErr result (λ stop. Stops stop (entries.TakeOut connection) desk.old desk.new) }
    ensures footing { desk.new.footing ≡ desk.old.footing }
{
    match desk.ask(rt, Entry::TakeOut(connection))? {
        Reply::Out(bytes) => {
            let messages = messages_ahead(&*desk, &connection);
            Ok((bytes, messages))
        }
        _ => unreachable!(),
    }
}
