// A switch makes a step.
ghost use Rattle.std.specs.Prelude.{◌≡◌};
ghost use Rattle.world_places.specs.Acts.{ActsBy};
ghost use Rattle.world_places.specs.declared.acting.Act.TheVariants.{Look};

use crate::place::Place;
use crate::processing::{answer, process, refuse};
use crate::taking::take;
use flow_table::Table;
use maple_base::openflow::{ACTION, NO_MATCH};
use maple_base::{Key, Seen};
use model_switch::sends_up;
use std::alloc::Global;

/// What a switch is to do.
#[derive(Drop)]
pub enum Act {
    /// Take the next message in.
    Take,
    /// Process the pending message at this place.
    Process(u32),
    /// Refuse the change of its table at this place.
    Refuse(u32),
    /// Answer the barrier that is pending first.
    Answer,
    /// Look a packet's key up.
    Look(Key),
}

/// What came of it.
#[derive(Drop)]
pub enum Acted {
    /// The switch did so.
    Done,
    /// What the look-up found.
    Saw(Seen),
    /// There is no such step. Nothing changed.
    NotThere,
    /// Memory ran out ahead of the step. Nothing changed.
    NoMemory,
}

/// The switch at a place does so.
pub fn carry_out_at(alloc: Global, place: &mut Place, act: &Act) -> Acted
    ensures connection { place.new.connection ≡ place.old.connection }
    ensures room { place.new.table.capacity ≡ place.old.table.capacity }
    ensures acts { ActsBy act.now result place.old place.new }
{
    match act {
        Act::Take => take(alloc, place),
        Act::Process(at) => process(place, *at as usize),
        Act::Refuse(at) => refuse(place, *at as usize),
        Act::Answer => answer(place),
        Act::Look(key) => look(place, key),
    }
}

// Looks a key up.
fn look(place: &Place, key: &Key) -> Acted
    ensures { ActsBy (Look key.now) result place.now place.now }
{
    if !key.valid() {
        return Acted::NotThere;
    }
    let Some(rule) = place.table.choose(key) else {
        return Acted::Saw(Seen::Miss { reason: NO_MATCH });
    };
    if sends_up(rule) {
        return Acted::Saw(Seen::Miss { reason: ACTION });
    }
    Acted::Saw(Seen::Hit(rule.actions))
}
