// What a world keeps of a connection.
ghost use Rattle.std.specs.Prelude.{◌≡◌, ◌<◌, ◌++◌, [], drop, length, map, Decides, OnErr, OnOk};
ghost use Rattle.std.specs.List.{position};
ghost use Rattle.world_places.specs.Places.{BeginsWith, HasRoom, Keeps, is_of, most_rules, opened_switch, switch_of, to_of};
ghost use Rattle.world_places.specs.Said.{message_sent};

use crate::said::{Sent, is_sent};
use flow_table::Table;
use maple_base::NoMemory;
use message_blocks::Block;
use of10_codec::Message;
use std::alloc::Global;

/// A connection that was opened, with the switch behind it, and what is on its way between the two.
#[derive(Drop)]
pub struct Place {
    /// The connection's number.
    pub connection: u32,
    /// What is on its way to the switch.
    pub blocks: Vec<Block>,
    /// The switch's number.
    pub dpid: u64,
    /// Its rules.
    pub table: Table,
    /// The messages that came in and wait.
    pub pending: Vec<Message>,
    /// What it sent and wasn't heard yet.
    pub sent: Vec<Sent>,
}

/// A connection as it is opened: the switch has its number, no rules, and room for as many as a
/// table may have.
pub fn opened(alloc: Global, connection: u32) -> Place
    ensures connection { result.connection ≡ connection }
    ensures to { to_of result ≡ [] }
    ensures switch { switch_of result ≡ opened_switch connection }
    ensures room { result.table.capacity ≡ most_rules }
{
    Place {
        connection,
        blocks: Vec::new(alloc),
        dpid: u64::from(connection),
        table: Table::new(alloc, u32::MAX),
        pending: Vec::new(alloc),
        sent: Vec::new(alloc),
    }
}

/// The first place of a connection.
pub fn place_of(places: &[Place], connection: u32) -> Option<usize>
    ensures { result ≡ position (is_of connection) places.now }
{
    places.iter().position(|p| p.connection == connection)
}

/// Makes room for a block, ahead of `put`.
///
/// # Errors
///
/// `NoMemory`, where there is no room.
pub fn make_room(place: &mut Place) -> Result<(), NoMemory>
    ensures same { Keeps place.old place.new }
    ensures table { place.new.table ≡ place.old.table }
    ensures room { OnOk result (HasRoom place.new) }
    ensures full { OnErr result (HasRoom place.old → ⊥) }
{
    place.blocks.reserve(1)?;
    Ok(())
}

/// A block goes on its way to the switch. It takes no memory.
pub fn put(place: &mut Place, block: Block)
    requires { HasRoom place.old }
    ensures connection { place.new.connection ≡ place.old.connection }
    ensures room { place.new.table.capacity ≡ place.old.table.capacity }
    ensures to { to_of place.new ≡ to_of place.old ++ block }
    ensures switch { switch_of place.new ≡ switch_of place.old }
{
    if !block.is_empty() {
        place.blocks.push_reserved(block);
    }
}

/// Whether a message is the first that the switch sent and that wasn't heard yet.
pub fn is_first(place: &Place, message: &Message) -> bool
    ensures { Decides result (BeginsWith message.now (switch_of place.now).sent) }
{
    begins_with(&place.sent, message)
}

fn begins_with(sent: &[Sent], message: &Message) -> bool
    ensures { Decides result (BeginsWith message.now (map message_sent sent.now)) }
{
    match sent {
        [first, ..] => is_sent(first, message),
        [] => false,
    }
}

/// The first message that the switch sent is heard, and gone.
pub fn forget_first(place: &mut Place)
    requires { 0 < length (switch_of place.old).sent }
    ensures connection { place.new.connection ≡ place.old.connection }
    ensures room { place.new.table.capacity ≡ place.old.table.capacity }
    ensures to { to_of place.new ≡ to_of place.old }
    ensures switch { switch_of place.new ≡ record (switch_of place.old) { sent = drop 1 (switch_of place.old).sent } }
{
    let _gone = place.sent.remove(0);
}
