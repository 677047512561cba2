// What a device appended is heard.
ghost use Rattle.std.specs.Prelude.{◌≡◌, ◌+◌, ◌<◌, length, OnErr, OnOk, IfOk, IfSome};
ghost use Rattle.machine_desk.specs.Arriving.{TakesIn};
ghost use Rattle.machine_steps.specs.Admitting.{IsHeard};
ghost use Rattle.machine_desk.specs.Homes.{LeavesNone};
ghost use Rattle.machine_desk.specs.Laws.{Meanwhile};
ghost use Rattle.machine_desk.specs.Orders.{Stops};
ghost use Rattle.machine_desk.specs.declared.asking.DeskStop.{DeskStop};
ghost use Rattle.machine_steps.specs.declared.entry.Entry.TheVariants as entries;
ghost use Rattle.sim_channels.specs.Channels.{BreaksOffOver, IsKept, IsSame, home};
ghost use Rattle.sim_channels.specs.Waiting.{IsOffered};
ghost use Rattle.sim_channels.specs.Passes.{ComesAt, Follows, HearsAt, HearsNext, MakesRoomFor, Passed};

use crate::{Driver, Stopped};
use core_machine::Input;
use machine_desk::{Came, Heard, driving_laws, is_packet};
use packet_workers::Gate;
use std::sync::Wait;

impl<'h> Driver<'h> {
    /// What came next from the device with this index is heard, and the packet in it answered, or handed over to who works
    /// beside the driver; ahead of a packet there is room for it in the machine.
    ///
    /// # Errors
    ///
    /// `Stopped`.
    pub fn hear_next<R: Wait, G: Gate>(
        &mut self,
        rt: &R,
        gate: &G,
        at: usize,
    ) -> Result<Came, Stopped>
        requires kept { IsKept self.old }
        requires within { at < length self.old.channels.items }
        requires jobs { LeavesNone home self.old }
        requires offered { IsOffered at self.old }
        ensures next { IfOk result (λ came. HearsNext at came self.old self.new) }
        ensures passed { IfOk result (λ came. Passed at self.old self.new came) }
        ensures broken { OnErr result (BreaksOffOver self.old self.new) }
        ensures same { IsSame self.old self.new }
    {
        driving_laws();
        let Some(input) = self.next(at)? else {
            return Ok(Came::Nothing);
        };
        self.make_room_for(rt, gate, &input)?;
        let heard = self.hear(rt, at, input)?;
        let came = Came::of(&heard);
        self.follow(rt, gate, heard)?;
        Ok(came)
    }

    // What comes next from the device with this index is taken from its stream.
    #[tactic(auto, using(crate::proofs::Others::same_but))]
    fn next(&mut self, at: usize) -> Result<Option<Input>, Stopped>
        requires kept { IsKept self.old }
        requires within { at < length self.old.channels.items }
        ensures comes { IfOk result (λ found. ComesAt at found self.old self.new) }
        ensures heard { IfOk result (λ found. IfSome found IsHeard) }
        ensures kept { OnOk result (IsKept self.new) }
        ensures desk { self.new.desk ≡ self.old.desk }
        ensures same { IsSame self.old self.new }
    {
        Ok(self.channels[at].inbound.next()?)
    }

    // Where a packet came: waits until the machine takes it in.
    fn make_room_for<R: Wait, G: Gate>(
        &mut self,
        rt: &R,
        gate: &G,
        input: &Input,
    ) -> Result<(), Stopped>
        requires kept { IsKept self.old }
        ensures room { OnOk result (MakesRoomFor input.now self.old self.new) }
        ensures meanwhile { OnErr result (Meanwhile self.old.desk self.new.desk) }
        ensures same { IsSame self.old self.new }
    {
        if !is_packet(input) {
            return Ok(());
        }
        self.make_room(rt, gate)
    }

    // An input from the device with this index is heard, whose session may end by it.
    fn hear<R: Wait>(&mut self, rt: &R, at: usize, input: Input) -> Result<Heard, Stopped>
        requires kept { IsKept self.old }
        requires within { at < length self.old.channels.items }
        requires heard { IsHeard input }
        requires room { TakesIn input self.old.desk.now }
        ensures hears { IfOk result (λ heard. HearsAt at input heard self.old self.new) }
        ensures stops { OnErr result ((stop : DeskStop) × Stops stop (entries.Heard (at + 1) input) self.old.desk self.new.desk) }
        ensures kept { OnOk result (IsKept self.new) }
        ensures same { IsSame self.old self.new }
    {
        driving_laws();
        Ok(self.desk.hear(rt, &mut self.channels[at].inbound, input)?)
    }

    // The packet that was heard is answered, or handed over.
    fn follow<R: Wait, G: Gate>(&mut self, rt: &R, gate: &G, heard: Heard) -> Result<(), Stopped>
        requires kept { IsKept self.old }
        ensures follows { OnOk result (Follows heard self.old self.new) }
        ensures meanwhile { OnErr result (Meanwhile self.old.desk self.new.desk) }
        ensures same { IsSame self.old self.new }
    {
        match heard {
            Heard::Packet(item) => self.attend(rt, gate, item),
            Heard::Ended | Heard::State | Heard::Other => Ok(()),
        }
    }
}
