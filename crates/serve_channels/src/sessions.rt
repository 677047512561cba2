// Sessions are opened, and end.
ghost use Rattle.std.specs.Prelude.{◌≡◌, ◌<◌, ◌∷◌, [], false, length, List, OnErr, OnOk};
ghost use Rattle.maple_io.specs.declared.act.Act.{Act};
ghost use Rattle.machine_steps.specs.declared.entry.Entry.TheVariants as entries;
ghost use Rattle.machine_steps.specs.Machine.{was_opened as was_session};
ghost use Rattle.serve_channels.specs.Delivering.{Leaves};
ghost use Rattle.serve_channels.specs.Keeping.{Are, Goes, GoesFrom, IsBegun};
ghost use Rattle.serve_channels.specs.Servers.{IsSame, IsUnknown, SameNumbers};

use crate::laws::serving_laws;
use crate::{Connection, Server};
use board_lines::SendQueue;
use core_machine::Entry;
use machine_desk::{Inbound, Stage, Stopped};
use std::sync::Wait;

impl<'h> Server<'h> {
    /// A connection was opened, with a number with which nothing was done before: the machine opens its session.
    ///
    /// # Errors
    ///
    /// `Stopped`: the connections are as before.
    pub fn open<R: Wait>(&mut self, rt: &R, number: u32) -> Result<(), Stopped>
        requires unknown { IsUnknown number self.old.connections.items }
        requires unused { was_session number self.old.desk.now ≡ false }
        ensures goes { OnOk result ((log : List Act) → GoesFrom (IsBegun number) (Are (entries.Open number ∷ [])) self.old log self.new log) }
        ensures kept { OnErr result (self.new.connections.items ≡ self.old.connections.items) }
        ensures same { IsSame self.old self.new }
    {
        serving_laws();
        self.desk.law();
        let Err(at) = self.place(number) else {
            unreachable!();
        };
        let mut inbound = Inbound::new(self.alloc, number);
        self.desk.open(rt, &mut inbound)?;
        let connection = Connection {
            inbound,
            queue: SendQueue::new(number, self.alloc),
            cut: false,
        };
        let Ok(()) = self.connections.insert(at, connection) else {
            return Err(Stopped);
        };
        Ok(())
    }

    /// A connection was closed by its peer, or broke: its session ends. Of a number that isn't there nothing ends.
    ///
    /// # Errors
    ///
    /// `Stopped`: the same numbers are there.
    pub fn end<R: Wait>(&mut self, rt: &R, number: u32, fault: bool) -> Result<(), Stopped>
        ensures goes { OnOk result ((log : List Act) → Goes (Are (entries.Gone number fault ∷ [])) self.old log self.new log) }
        ensures numbers { SameNumbers self.old self.new }
        ensures same { IsSame self.old self.new }
    {
        serving_laws();
        self.desk.law();
        let Some(at) = self.find(number) else {
            let gone = Entry::Gone {
                connection: number,
                fault,
            };
            self.desk.enter(rt, gone)?;
            return Ok(());
        };
        self.leave(rt, at, fault)
    }

    // The link of the connection with this index is over: so is its session.
    pub(crate) fn leave<R: Wait>(&mut self, rt: &R, at: usize, fault: bool) -> Result<(), Stopped>
        requires within { at < length self.old.connections.items }
        ensures leaves { OnOk result (Leaves at fault self.old self.new) }
        ensures numbers { SameNumbers self.old self.new }
        ensures same { IsSame self.old self.new }
    {
        let connection = &mut self.connections[at];
        let was_live = connection.inbound.stage() == Stage::Live;
        self.desk.close(rt, &mut connection.inbound, fault)?;
        connection.cut |= was_live;
        Ok(())
    }
}
