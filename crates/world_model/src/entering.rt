// The machine is given an entry, and the links follow.
ghost use Rattle.std.specs.Prelude.{◌≡◌, None};
ghost use Rattle.switch_session.specs.Calls.{CanBeHeard};
ghost use Rattle.machine_steps.specs.Admitting.{Admits, IsHeard};
ghost use Rattle.machine_steps.specs.declared.entry.Entry.TheVariants.{Open, Heard};
ghost use Rattle.machine_steps.specs.declared.entry.Input.TheVariants.{Message as Whole};
ghost use Rattle.world_steps.specs.Worlds.{IsFirstFrom, link_at};
ghost use Rattle.world_model.specs.Kept.{IsKept, IsFirstAt, FindsFirst};
ghost use Rattle.world_model.specs.Moves.{Makes};
ghost use Rattle.world_model.specs.Places.{links_of, world_of};
ghost use Rattle.world_model.specs.declared.moves.Move.TheVariants.{Machine};

use crate::moves::Moved;
use crate::sending::take_out;
use core_machine::{Core, Entry, Input, Reply};
use of10_codec::Message;
use world_places::{Place, forget_first, is_first, is_free, opened, place_of};

/// The machine does an entry.
pub fn enter(core: &mut Core, places: &mut Vec<Place>, entry: Entry) -> Moved
    requires kept { IsKept (world_of core.old places.old.items) }
    requires admits { Admits core.old entry }
    ensures { Makes (Machine entry) result (world_of core.old places.old.items) (world_of core.new places.new.items) }
{
    match entry {
        Entry::Open(connection) => open(core, places, connection),
        Entry::Heard(connection, input) => hear(core, places, connection, input),
        Entry::TakeOut(connection) => take_out(core, places, connection),
        entry => Moved::Replied(core.step(entry)),
    }
}

// A connection is opened; where it wasn't before, it gets a place.
fn open(core: &mut Core, places: &mut Vec<Place>, connection: u32) -> Moved
    requires { IsKept (world_of core.old places.old.items) }
    ensures { Makes (Machine (Open connection)) result (world_of core.old places.old.items) (world_of core.new places.new.items) }
{
    match place_of(places, connection) {
        Some(_) => Moved::Replied(core.step(Entry::Open(connection))),
        None => open_new(core, places, connection),
    }
}

fn open_new(core: &mut Core, places: &mut Vec<Place>, connection: u32) -> Moved
    requires kept { IsKept (world_of core.old places.old.items) }
    requires new { link_at connection (links_of places.old.items) ≡ None }
    ensures { Makes (Machine (Open connection)) result (world_of core.old places.old.items) (world_of core.new places.new.items) }
{
    if places.reserve(1).is_err() {
        return Moved::NoMemory;
    }
    let place = opened(core.alloc(), connection);
    match core.step(Entry::Open(connection)) {
        Reply::NoMemory => Moved::Replied(Reply::NoMemory),
        reply => {
            places.push_reserved(place);
            Moved::Replied(reply)
        }
    }
}

// A connection gave something.
fn hear(core: &mut Core, places: &mut Vec<Place>, connection: u32, input: Input) -> Moved
    requires kept { IsKept (world_of core.old places.old.items) }
    requires admits { IsHeard input }
    ensures { Makes (Machine (Heard connection input)) result (world_of core.old places.old.items) (world_of core.new places.new.items) }
{
    match input {
        Input::Message(message) => hear_message(core, places, connection, message),
        input => Moved::Replied(core.step(Entry::Heard(connection, input))),
    }
}

fn hear_message(
    core: &mut Core,
    places: &mut Vec<Place>,
    connection: u32,
    message: Message,
) -> Moved
    requires kept { IsKept (world_of core.old places.old.items) }
    requires admits { CanBeHeard message }
    ensures { Makes (Machine (Heard connection (Whole message))) result (world_of core.old places.old.items) (world_of core.new places.new.items) }
{
    match first_from(places, connection, &message) {
        Some(at) => hear_first(core, places, at, connection, message),
        None => hear_free(core, places, connection, message),
    }
}

fn hear_free(core: &mut Core, places: &mut Vec<Place>, connection: u32, message: Message) -> Moved
    requires admits { CanBeHeard message }
    requires first { IsFirstFrom connection message (links_of places.old.items) → ⊥ }
    ensures { Makes (Machine (Heard connection (Whole message))) result (world_of core.old places.old.items) (world_of core.new places.new.items) }
{
    if !is_free(&message) {
        return Moved::NotThere;
    }
    Moved::Replied(core.step(Entry::Heard(connection, Input::Message(message))))
}

// The place of a connection from which this message is the first.
fn first_from(places: &[Place], connection: u32, message: &Message) -> Option<usize>
    ensures { FindsFirst connection message.now (links_of places.now) result }
{
    let Some(at) = place_of(places, connection) else {
        return None;
    };
    if !is_first(&places[at], message) {
        return None;
    }
    Some(at)
}

fn hear_first(
    core: &mut Core,
    places: &mut Vec<Place>,
    at: usize,
    connection: u32,
    message: Message,
) -> Moved
    requires kept { IsKept (world_of core.old places.old.items) }
    requires admits { CanBeHeard message }
    requires first { IsFirstAt connection at message (links_of places.old.items) }
    ensures { Makes (Machine (Heard connection (Whole message))) result (world_of core.old places.old.items) (world_of core.new places.new.items) }
{
    match core.step(Entry::Heard(connection, Input::Message(message))) {
        Reply::NoMemory => Moved::Replied(Reply::NoMemory),
        reply => {
            forget_first(&mut places[at]);
            Moved::Replied(reply)
        }
    }
}
