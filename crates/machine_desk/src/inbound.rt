// What comes of one connection.
ghost use Rattle.std.specs.Prelude.{◌≡◌, ◌≤◌, IfOk, IfSome, OnErr, OnOk, None, length};
ghost use Rattle.of10_stream.specs.declared.reassembly.Next.TheVariants as answers;
ghost use Rattle.of10_stream.specs.Steps.{Tells, beginning, stored};
ghost use Rattle.machine_steps.specs.Admitting.{IsHeard};
ghost use Rattle.machine_desk.specs.declared.inbound.Stage.TheVariants.{Unopened};
ghost use Rattle.machine_desk.specs.Hearing.{Comes, Feeds, IsSameSession, LacksMemoryFor, told_as};

use core_machine::Input;
use maple_base::NoMemory;
use of10_stream::{Next, Reassembly};
use std::alloc::Global;

/// How the session of a connection stands.
#[derive(Clone, Copy, Debug, PartialEq, Eq)]
pub enum Stage {
    /// It was never opened.
    Unopened,
    /// It is open.
    Live,
    /// It ended, or the machine had no place for it. It is left alone from then on.
    Over,
}

/// What comes of one connection, and how its session stands.
#[derive(Drop)]
pub struct Inbound {
    pub(crate) connection: u32,
    pub(crate) stage: Stage,
    /// The bytes, behind the messages that were heard.
    pub(crate) from: Reassembly,
}

impl Inbound {
    /// The connection of this number, whose session was never opened, and of which nothing came.
    pub fn new(alloc: Global, connection: u32) -> Inbound
        ensures connection { result.connection ≡ connection }
        ensures stage { result.stage ≡ Unopened }
        ensures nothing { result.from.stream ≡ beginning }
    {
        Inbound {
            connection,
            stage: Stage::Unopened,
            from: Reassembly::new(alloc),
        }
    }

    /// Its number.
    pub fn connection(&self) -> u32
        ensures { result ≡ self.now.connection }
    {
        self.connection
    }

    /// How its session stands.
    pub fn stage(&self) -> Stage
        ensures { result ≡ self.now.stage }
    {
        self.stage
    }

    /// Bytes come, behind those before.
    ///
    /// # Errors
    ///
    /// `NoMemory`, also where it would be 2^64 bytes or more; none of them came.
    pub fn feed(&mut self, piece: &[u8]) -> Result<(), NoMemory>
        ensures ok { OnOk result (Feeds piece.now self.old self.new) }
        ensures err { OnErr result (self.new.from.stream ≡ self.old.from.stream) }
        ensures whole { OnErr result (self.old.from.stream.broken ≡ None) }
        ensures session { IsSameSession self.old self.new }
        ensures given_back { OnOk result (self.new.from.done ≤ length self.new.from.stream.rest) }
        ensures stored { OnErr result (stored self.new.from ≤ stored self.old.from) }
    {
        self.from.feed(piece)
    }

    /// What comes next, where the session is open: a whole message, or the fault at which all ends. `None` where there is
    /// neither yet, or the session isn't open.
    ///
    /// # Errors
    ///
    /// `NoMemory`, for a message whose bytes are all there. Nothing is taken.
    pub fn next(&mut self) -> Result<Option<Input>, NoMemory>
        ensures comes { IfOk result (λ found. Comes found self.old self.new) }
        ensures heard { IfOk result (λ found. IfSome found IsHeard) }
        ensures memory { OnErr result (LacksMemoryFor self.old self.new) }
        ensures stored { stored self.new.from ≤ stored self.old.from }
    {
        match self.stage {
            Stage::Live => next_input(&mut self.from),
            _ => Ok(None),
        }
    }
}

// What comes next of a stream: a whole message, or the fault at which it ends.
fn next_input(from: &mut Reassembly) -> Result<Option<Input>, NoMemory>
    ensures tells { IfOk result (λ found. Tells (told_as found) from.old.stream from.new.stream) }
    ensures heard { IfOk result (λ found. IfSome found IsHeard) }
    ensures memory { OnErr result (Tells answers.NoMemory from.old.stream from.new.stream) }
    ensures stored { stored from.new ≤ stored from.old }
{
    match from.next() {
        Next::Message(message) => Ok(Some(Input::Message(message))),
        Next::Bad { place, bad } => Ok(Some(Input::Bad { place, bad })),
        Next::More => Ok(None),
        Next::NoMemory => Err(NoMemory),
    }
}
