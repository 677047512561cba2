// The switch of a connection makes a step.
ghost use Rattle.std.specs.Prelude.{◌≡◌};
ghost use Rattle.machine_steps.specs.Machine.{State};
ghost use Rattle.world_model.specs.Acts.{move_of, moved_of};
ghost use Rattle.world_model.specs.Moves.{Makes};
ghost use Rattle.world_model.specs.Places.{links_of, world_of, AreOthers};

use crate::moves::Moved;
use std::alloc::Global;
use world_places::{Act, Acted, Place, carry_out_at, place_of};

/// The switch of a connection does so.
pub fn carry_out(alloc: Global, places: &mut Vec<Place>, connection: u32, act: &Act) -> Moved
    requires { AreOthers (links_of places.old.items) }
    ensures { (machine : State) → Makes (move_of connection act.now) result (world_of machine places.old.items) (world_of machine places.new.items) }
{
    let Some(at) = place_of(places, connection) else {
        return Moved::NotThere;
    };
    moved(carry_out_at(alloc, &mut places[at], act))
}

fn moved(acted: Acted) -> Moved
    ensures { result ≡ moved_of acted }
{
    match acted {
        Acted::Done => Moved::Done,
        Acted::Saw(seen) => Moved::Saw(seen),
        Acted::NotThere => Moved::NotThere,
        Acted::NoMemory => Moved::NoMemory,
    }
}
