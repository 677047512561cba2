// What comes of a connection is heard.
ghost use Rattle.std.specs.Prelude.{◌≡◌, ◌<◌, IfOk, List, OnOk, length};
ghost use Rattle.maple_io.specs.declared.act.Act.{Act};
ghost use Rattle.machine_steps.specs.Admitting.{IsHeard};
ghost use Rattle.machine_desk.specs.Arriving.{TakesIn};
ghost use Rattle.serve_channels.specs.Hearing.{Hears};
ghost use Rattle.machine_desk.specs.declared.hearing.Came.TheVariants.{Nothing};
ghost use Rattle.serve_channels.specs.Keeping.{Goes, ServesSome};
ghost use Rattle.serve_channels.specs.Passing.{Follows, HasCrew, HearsAt, HearsInput, MakesRoomFor};
ghost use Rattle.serve_channels.specs.Servers.{IsSame, SameNumbers};

use crate::Server;
use crate::laws::serving_laws;
use core_machine::Input;
use machine_desk::{Came, Heard, Stopped, is_packet};
use packet_workers::Gate;
use std::sync::Wait;

impl<'h> Server<'h> {
    /// All that came of a connection is heard, message by message, until its session ends; a packet is answered, or handed
    /// over to who works beside. Of a number that isn't there nothing is heard.
    ///
    /// # Errors
    ///
    /// `Stopped`.
    pub fn hear<R: Wait, G: Gate>(&mut self, rt: &R, gate: &G, number: u32) -> Result<(), Stopped>
        requires serving { ServesSome self.old }
        ensures goes { OnOk result ((log : List Act) → Goes (Hears number Nothing) self.old log self.new log) }
        ensures numbers { SameNumbers self.old self.new }
        ensures same { IsSame self.old self.new }
    {
        let Some(at) = self.find(number) else {
            return Ok(());
        };
        loop {
            let came = self.hear_next(rt, gate, at)?;
            if !came.goes_on() {
                return Ok(());
            }
        }
    }

    // What came next of the connection with this index is heard, and the packet in it answered, or handed over; ahead of a
    // packet there is room for it in the machine.
    fn hear_next<R: Wait, G: Gate>(&mut self, rt: &R, gate: &G, at: usize) -> Result<Came, Stopped>
        requires serving { ServesSome self.old }
        requires within { at < length self.old.connections.items }
        ensures hears { IfOk result (λ came. HearsAt at came self.old self.new) }
        ensures numbers { SameNumbers self.old self.new }
        ensures same { IsSame self.old self.new }
    {
        serving_laws();
        self.desk.law();
        let Some(input) = self.connections[at].inbound.next()? else {
            return Ok(Came::Nothing);
        };
        self.make_room_for(rt, gate, &input)?;
        let heard = self.hear_input(rt, at, input)?;
        let came = Came::of(&heard);
        self.follow(rt, gate, heard)?;
        Ok(came)
    }

    // Where a packet came: waits until there is room for it in the machine.
    fn make_room_for<R: Wait, G: Gate>(
        &mut self,
        rt: &R,
        gate: &G,
        input: &Input,
    ) -> Result<(), Stopped>
        requires crew { HasCrew self.old }
        ensures room { OnOk result (MakesRoomFor input.now self.old self.new) }
        ensures connections { self.new.connections.items ≡ self.old.connections.items }
        ensures same { IsSame self.old self.new }
    {
        if !is_packet(input) {
            return Ok(());
        }
        self.make_room(rt, gate)
    }

    // An input of the connection with this index is heard, whose session may end by it; there is room for the packet in it.
    fn hear_input<R: Wait>(&mut self, rt: &R, at: usize, input: Input) -> Result<Heard, Stopped>
        requires within { at < length self.old.connections.items }
        requires heard { IsHeard input }
        requires room { TakesIn input self.old.desk.now }
        ensures hears { IfOk result (λ heard. HearsInput at input heard self.old self.new) }
        ensures numbers { SameNumbers self.old self.new }
        ensures same { IsSame self.old self.new }
    {
        Ok(
            self.desk
                .hear(rt, &mut self.connections[at].inbound, input)?,
        )
    }

    // The packet that was heard is answered, or handed over.
    fn follow<R: Wait, G: Gate>(&mut self, rt: &R, gate: &G, heard: Heard) -> Result<(), Stopped>
        requires crew { HasCrew self.old }
        ensures follows { OnOk result (Follows heard self.old self.new) }
        ensures connections { self.new.connections.items ≡ self.old.connections.items }
        ensures same { IsSame self.old self.new }
    {
        match heard {
            Heard::Packet(item) => self.attend(rt, gate, item),
            Heard::Ended | Heard::State | Heard::Other => Ok(()),
        }
    }
}
