// A switch's session.
ghost use Rattle.std.specs.Prelude.{◌≡◌, ◌≤◌, ◌+◌, ◌<◌, ◌^◌, [], IfOk, OnOk, OnErr, IsOk, is_some, true, false, if◌then◌else◌};
ghost use Rattle.switch_session.specs.Room.{owed, next_room};

mod aiming;
mod hearing;
mod leaving;
mod sending;

use crate::outbox::Outbox;
use crate::part::UnderWay;
use crate::parts::{Aim, CLEARING_ROOM, Parts, no_rules};
use crate::told::Phase;
pub use aiming::Start;
use maple_base::{NoMemory, RuleList, Witness};
use of10_codec::{BodyRef, MessageRef, VERSION};
use std::alloc::Global;
use std::marker::Model;

/// The session of a switch on a connection.
#[derive(Drop)]
pub struct Session {
    alloc: Global,
    connection: u32,
    capacity: u32,
    phase: Phase,
    dpid: Option<u64>,
    ready: bool,
    quiet: bool,
    under_way: Option<UnderWay>,
    to_come: Parts,
    target: RuleList,
    next: Option<Aim>,
    prepared: Option<Witness<Aim>>,
    prepared_room: usize,
    used: u32,
    taken: u32,
    outbox: Outbox,
}

impl Model for Session {
    ghost use Rattle.switch_session.specs.Sessions.{State};
    ghost use Rattle.std.specs.Coded.{codes};
    ghost use Rattle.of10_codec.specs.contracts.message.Message as message;

    ghost Value = { State };

    ghost coded = { Prim.hlevel (codes, message.the_row.coded) };

    ghost use Rattle.switch_session.specs.Kept.{seen, IsSound};

    ghost view = { seen };

    ghost invariant = { IsSound };
}

impl Session {
    ghost use Rattle.switch_session.specs.Calls.{opened};

    /// A session on this connection, for a switch with room for so many rules, at most 65,535. A
    /// HELLO is in its outbox.
    ///
    /// # Errors
    ///
    /// `NoMemory`.
    pub fn open(alloc: Global, c: u32, capacity: u32) -> Result<Session, NoMemory>
        requires { capacity ≤ 65535 }
        ensures { IfOk result (λ session. session ≡ opened c capacity) }
    {
        let mut outbox = Outbox::new(alloc);
        outbox.put(
            &MessageRef {
                xid: 0,
                body: BodyRef::Hello { version: VERSION },
            },
            CLEARING_ROOM,
        )?;
        Ok(Session {
            alloc,
            connection: c,
            capacity,
            phase: Phase::First,
            dpid: None,
            ready: false,
            quiet: false,
            under_way: None,
            to_come: Parts::none(alloc),
            target: no_rules(alloc),
            next: None,
            prepared: None,
            prepared_room: 0,
            used: 0,
            taken: 0,
            outbox,
        })
    }

    /// The connection that it was opened on.
    pub fn connection(&self) -> u32
        ensures { result ≡ self.now.connection }
    {
        self.connection
    }

    /// How many rules its switch has room for.
    pub fn capacity(&self) -> u32
        ensures { result ≡ self.now.capacity }
    {
        self.capacity
    }

    /// How far it has come.
    pub fn phase(&self) -> Phase
        ensures { result ≡ self.now.phase }
    {
        self.phase
    }

    /// Whether the reply to a barrier wasn't heard yet.
    pub fn outstanding(&self) -> bool
        ensures { result ≡ is_some self.now.under_way }
    {
        self.under_way.is_some()
    }

    /// Whether the session heads for no rules since the switch refused a change.
    pub fn quiet(&self) -> bool
        ensures { result ≡ self.now.quiet }
    {
        self.quiet
    }

    /// The switch's number, that of the last FEATURES_REPLY that was told as `Features`; `None`
    /// before the first, and where `forget` gave it up since.
    pub fn dpid(&self) -> Option<u64>
        ensures { result ≡ self.now.dpid }
    {
        self.dpid
    }
}

// The room for what may leave without memory.
fn owed(to_come: &Parts, next: &Option<Aim>, prepared_room: usize, quiet: bool) -> usize
    requires { prepared_room < 2 ^ 30 }
    ensures value { result ≡ owed to_come.now next.now prepared_room quiet }
    ensures most { result < 2 ^ 32 }
{
    let spare = if quiet { 0 } else { CLEARING_ROOM };
    to_come.room() + next_room(next) + prepared_room + spare
}

fn next_room(next: &Option<Aim>) -> usize
    ensures value { result ≡ next_room next.now }
    ensures most { result < 2 ^ 28 }
{
    match next {
        None => 0,
        Some(aim) => aim.room(),
    }
}
