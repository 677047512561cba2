// A switch deals with a message that waits.
ghost use Rattle.std.specs.Prelude.{◌≡◌, ◌<◌, ℕ, true, false, is_some, vec_len, vec_capacity, MatchBool};
ghost use Rattle.std.specs.Option.{option_map};
ghost use Rattle.device_port.specs.Switches.{Leads, change_of};
ghost use Rattle.model_switch.specs.Answers.{reply_of};
ghost use Rattle.world_places.specs.Acts.{ActsBy};
ghost use Rattle.world_places.specs.Answers.{adds_new};
ghost use Rattle.world_places.specs.Said.{body_said};
ghost use Rattle.world_places.specs.declared.acting.Act.TheVariants.{Process, Refuse, Answer};

use crate::acting::Acted;
use crate::pending::{begins_with_barrier, is_flow_mod, is_free_at, send};
use crate::place::Place;
use crate::said::{Said, Sent};
use flow_table::{Applied, Table};
use model_switch::change_of;
use of10_codec::{Body, Message};

/// How many ports a switch has, all up.
const PORT_COUNT: u16 = 48;

/// The message at this place is done, and answered, where it may be now.
pub fn process(place: &mut Place, at: usize) -> Acted
    ensures connection { place.new.connection ≡ place.old.connection }
    ensures room { place.new.table.capacity ≡ place.old.table.capacity }
    ensures acts { ActsBy (Process at) result place.old place.new }
{
    if !is_free_at(&place.pending, at) {
        return Acted::NotThere;
    }
    let body = &place.pending[at].body;
    if !reserve_answer(&mut place.sent, body) {
        return Acted::NoMemory;
    }
    if !change(&mut place.table, body) {
        return Acted::NoMemory;
    }
    let Message { xid, body } = place.pending.remove(at);
    send(&mut place.sent, xid, reply(place.dpid, PORT_COUNT, body));
    Acted::Done
}

// Makes room for the answer to a message, where it has one, and tells whether there was memory for that.
fn reserve_answer(sent: &mut Vec<Sent>, body: &Body) -> bool
    ensures same { sent.new.items ≡ sent.old.items }
    ensures room { result ≡ true → (dpid ports : ℕ) → is_some (reply_of dpid ports body.now) ≡ true → vec_len sent.new < vec_capacity sent.new }
    ensures memory { result ≡ false → (dpid ports : ℕ) → is_some (reply_of dpid ports body.now) ≡ true }
{
    if !is_answered(body) {
        return true;
    }
    sent.reserve(1).is_ok()
}

// Whether a switch says something to a message.
fn is_answered(body: &Body) -> bool
    ensures { (dpid ports : ℕ) → result ≡ is_some (reply_of dpid ports body.now) }
{
    matches!(
        body,
        Body::Hello { .. } | Body::FeaturesRequest | Body::EchoRequest(_) | Body::BarrierRequest
    )
}

// What a switch with this number and so many ports says to a message.
fn reply(dpid: u64, ports: u16, body: Body) -> Option<Said>
    ensures { option_map body_said result ≡ reply_of dpid ports body }
{
    match body {
        Body::Hello { .. } => Some(Said::Hello),
        Body::FeaturesRequest => Some(Said::Features { dpid, ports }),
        Body::EchoRequest(bytes) => Some(Said::Echo(bytes)),
        Body::BarrierRequest => Some(Said::Barrier),
        _ => None,
    }
}

// Does what a message asks of the table, and tells whether there was room for that.
fn change(table: &mut Table, body: &Body) -> bool
    ensures table { MatchBool result (Leads body.now table.old.rules table.new.rules) (table.new ≡ table.old) }
    ensures room { table.new.capacity ≡ table.old.capacity }
    ensures memory { result ≡ false → adds_new (change_of body.now) table.old.rules ≡ true }
{
    match change_of(body) {
        Some(change) => !matches!(table.apply(&change), Applied::Full | Applied::NoMemory),
        None => true,
    }
}

/// The change of the table that is pending at this place is refused.
pub fn refuse(place: &mut Place, at: usize) -> Acted
    ensures connection { place.new.connection ≡ place.old.connection }
    ensures room { place.new.table.capacity ≡ place.old.table.capacity }
    ensures acts { ActsBy (Refuse at) result place.old place.new }
{
    if !is_free_at(&place.pending, at) || !is_flow_mod(&place.pending[at].body) {
        return Acted::NotThere;
    }
    if place.sent.reserve(1).is_err() {
        return Acted::NoMemory;
    }
    let message = place.pending.remove(at);
    send(&mut place.sent, message.xid, Some(Said::NoRoom));
    Acted::Done
}

/// The barrier that is pending first is answered.
pub fn answer(place: &mut Place) -> Acted
    ensures connection { place.new.connection ≡ place.old.connection }
    ensures room { place.new.table.capacity ≡ place.old.table.capacity }
    ensures acts { ActsBy Answer result place.old place.new }
{
    if !begins_with_barrier(&place.pending) {
        return Acted::NotThere;
    }
    if place.sent.reserve(1).is_err() {
        return Acted::NoMemory;
    }
    let message = place.pending.remove(0);
    send(&mut place.sent, message.xid, Some(Said::Barrier));
    Acted::Done
}
