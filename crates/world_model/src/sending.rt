// What the machine sends goes on its way to a switch.
ghost use Rattle.std.specs.Prelude.{◌≡◌};
ghost use Rattle.std.specs.List.{AllByRecursion};
ghost use Rattle.message_blocks.specs.Spelling.{IsSpelled};
ghost use Rattle.machine_steps.specs.declared.entry.Entry.TheVariants.{TakeOut};
ghost use Rattle.world_steps.specs.Worlds.{messages_for};
ghost use Rattle.world_model.specs.Acts.{TakesHere};
ghost use Rattle.world_model.specs.Kept.{IsKept};
ghost use Rattle.world_model.specs.Moves.{Makes};
ghost use Rattle.world_model.specs.Places.{link_of, world_of};
ghost use Rattle.world_model.specs.declared.moves.Move.TheVariants.{Machine};

use crate::moves::Moved;
use core_machine::{Core, Entry, Reply};
use machine_moves::sends_law;
use maple_base::Witness;
use message_blocks::{Block, Messages};
use world_places::{Place, make_room, place_of, put};
use world_steps::world_laws;

/// The messages for a connection are taken out, and go on their way.
pub fn take_out(core: &mut Core, places: &mut Vec<Place>, connection: u32) -> Moved
    requires { IsKept (world_of core.old places.old.items) }
    ensures { Makes (Machine (TakeOut connection)) result (world_of core.old places.old.items) (world_of core.new places.new.items) }
{
    sends_law();
    world_laws();
    match place_of(places, connection) {
        Some(at) => take_out_here(core, &mut places[at]),
        None => match core.step(Entry::TakeOut(connection)) {
            Reply::Out(_) => Moved::Done,
            reply => Moved::Replied(reply),
        },
    }
}

fn take_out_here(core: &mut Core, place: &mut Place) -> Moved
    requires { AllByRecursion IsSpelled (messages_for place.old.connection core.old) }
    ensures { TakesHere place.old.connection result core.old core.new (link_of place.old) (link_of place.new) }
{
    if make_room(place).is_err() {
        return Moved::NoMemory;
    }
    let messages = messages_for(core, place);
    match core.step(Entry::TakeOut(place.connection)) {
        Reply::Out(bytes) => {
            put(place, Block::new(bytes, messages));
            Moved::Done
        }
        reply => Moved::Replied(reply),
    }
}

// The messages that wait in the machine for a place's connection. It does nothing when it runs.
fn messages_for(core: &Core, place: &Place) -> Messages
    ensures { result.value ≡ messages_for place.now.connection core.now }
{
    Witness::picked(&(core, place))
}
