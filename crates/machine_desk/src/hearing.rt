// The session of a connection is opened, what it sends is heard, and the session ends.
ghost use Rattle.std.specs.Prelude.{◌≡◌, false, true, IfErr, IfOk, OnErr, OnOk};
ghost use Rattle.machine_moves.specs.Told.{is_end};
ghost use Rattle.machine_steps.specs.Admitting.{IsHeard};
ghost use Rattle.machine_steps.specs.declared.entry.Entry.TheVariants as entries;
ghost use Rattle.machine_steps.specs.Machine.{was_opened};
ghost use Rattle.machine_desk.specs.Arriving.{TakesIn};
ghost use Rattle.machine_desk.specs.Desks.{WearsOut};
ghost use Rattle.machine_desk.specs.Hearing.{Closes, Hears, IsStaged, Opens, came_of, goes_on, heard_by, stage_heard, stage_opened, was_begun};
ghost use Rattle.machine_desk.specs.Orders.{Stops};

use crate::laws::staging_laws;
use crate::{Desk, DeskStop, Inbound, Stage, Worn};
use core_machine::{Entry, Input, JobItem, Reply};
use std::sync::Wait;

/// What the machine made of an input.
#[derive(Drop)]
pub enum Heard {
    /// A packet, which waits for an answer.
    Packet(JobItem),
    /// The end of the session.
    Ended,
    /// A new state of the network.
    State,
    /// None of these.
    Other,
}

/// What came next of a connection.
#[derive(Clone, Copy, Debug, PartialEq, Eq)]
pub enum Came {
    /// Nothing that could be heard.
    Nothing,
    /// What ended the session.
    Ended,
    /// A message, and the machine told of no new state.
    Message,
    /// A message that made a state, as the machine told.
    State,
}

impl Came {
    /// What came, by what the machine made of it.
    pub fn of(heard: &Heard) -> Came
        ensures { result ≡ came_of heard.now }
    {
        match heard {
            Heard::Ended => Came::Ended,
            Heard::State => Came::State,
            Heard::Packet(_) | Heard::Other => Came::Message,
        }
    }

    /// Whether more may be to be heard.
    pub fn goes_on(self) -> bool
        ensures { result ≡ goes_on self }
    {
        matches!(self, Came::Message | Came::State)
    }
}

impl<'h> Desk<'h> {
    /// The machine opens the session of a connection, whose number is a new one: at another it does nothing. Where it has no
    /// place for the session, that is over at once.
    ///
    /// # Errors
    ///
    /// As `ask`; the connection is as before.
    pub fn open<R: Wait>(&mut self, rt: &R, inbound: &mut Inbound) -> Result<(), DeskStop>
        ensures ok { OnOk result (Opens self.old inbound.old self.new inbound.new) }
        ensures staged { OnOk result (was_opened inbound.old.connection self.old.now ≡ false → IsStaged inbound.new self.new.now) }
        ensures stops { IfErr result (λ stop. Stops stop (entries.Open inbound.old.connection) self.old self.new) }
        ensures same { OnErr result (inbound.new ≡ inbound.old) }
        ensures footing { self.new.footing ≡ self.old.footing }
    {
        staging_laws();
        self.law();
        let reply = self.ask(rt, Entry::Open(inbound.connection))?;
        inbound.stage = stage_opened(&reply);
        Ok(())
    }

    /// The machine hears an input of a connection, which may end its session. Where a packet comes with it there is room for one.
    ///
    /// # Errors
    ///
    /// As `ask`; the connection is as before.
    pub fn hear<R: Wait>(
        &mut self,
        rt: &R,
        inbound: &mut Inbound,
        input: Input,
    ) -> Result<Heard, DeskStop>
        requires heard { IsHeard input }
        requires room { TakesIn input self.old.now }
        ensures ok { IfOk result (λ heard. Hears input heard self.old inbound.old self.new inbound.new) }
        ensures staged { OnOk result (IsStaged inbound.old self.old.now → IsStaged inbound.new self.new.now) }
        ensures stops { IfErr result (λ stop. Stops stop (entries.Heard inbound.old.connection input) self.old self.new) }
        ensures same { OnErr result (inbound.new ≡ inbound.old) }
        ensures footing { self.new.footing ≡ self.old.footing }
    {
        staging_laws();
        self.law();
        let reply = self.ask(rt, Entry::Heard(inbound.connection, input))?;
        let heard = heard_by(reply);
        inbound.stage = stage_heard(&heard, inbound.stage);
        Ok(heard)
    }

    /// The session of a connection ends, with a fault of its link or without. It takes no memory.
    ///
    /// # Errors
    ///
    /// `Worn`; the connection is as before.
    pub fn close<R: Wait>(&mut self, rt: &R, inbound: &mut Inbound, fault: bool) -> Result<(), Worn>
        ensures ok { OnOk result (Closes fault self.old inbound.old self.new inbound.new) }
        ensures staged { OnOk result (was_begun inbound.old.stage ≡ true → IsStaged inbound.old self.old.now → IsStaged inbound.new self.new.now) }
        ensures worn { OnErr result (WearsOut self.old self.new) }
        ensures same { OnErr result (inbound.new ≡ inbound.old) }
        ensures footing { self.new.footing ≡ self.old.footing }
    {
        staging_laws();
        self.law();
        let connection = inbound.connection;
        self.enter(rt, Entry::Gone { connection, fault })?;
        inbound.stage = Stage::Over;
        Ok(())
    }
}

// The stage of a session that was opened with this reply.
fn stage_opened(reply: &Reply) -> Stage
    ensures { result ≡ stage_opened (is_end reply.now) }
{
    match reply {
        Reply::Ended(_) => Stage::Over,
        _ => Stage::Live,
    }
}

// The stage of a session behind an input, which may have ended it.
fn stage_heard(heard: &Heard, stage: Stage) -> Stage
    ensures { result ≡ stage_heard heard.now stage }
{
    match heard {
        Heard::Ended => Stage::Over,
        _ => stage,
    }
}

// What a reply tells of an input.
fn heard_by(reply: Reply) -> Heard
    ensures { result ≡ heard_by reply }
{
    match reply {
        Reply::Job(item) => Heard::Packet(item),
        Reply::Ended(_) => Heard::Ended,
        Reply::NewState { .. } => Heard::State,
        _ => Heard::Other,
    }
}
