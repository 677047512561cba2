// The world, move by move.
ghost use Rattle.std.specs.Prelude.{◌≡◌, [], length};
ghost use Rattle.world_model.specs.Kept.{IsKept, IsOpening, IsRightRun};
ghost use Rattle.world_model.specs.Moves.{AdmitsMove, Makes};
ghost use Rattle.world_model.specs.Places.{world_of};

use crate::acting::carry_out;
use crate::entering::enter;
use crate::moves::{Move, Moved};
use core_machine::Core;
use machine_moves::growth_laws;
use std::marker::Model;
use world_places::{Act, Place};
use world_right::run_laws;

/// The controller's machine, and the switches behind its connections. It keeps that a run of the world led to it.
#[derive(Drop)]
pub struct World {
    core: Core,
    places: Vec<Place>,
}

impl Model for World {
    ghost use Rattle.std.specs.Coded.{codes};
    ghost use Rattle.of10_codec.specs.contracts.message.Message as message;
    ghost use Rattle.core_machine.specs.contracts.machine.Core as machine;
    ghost use Rattle.world_steps.specs.Worlds.{World as WorldSeen};

    ghost Value = { WorldSeen };

    ghost coded = { Prim.hlevel (codes, message.the_row.coded, machine.the_row.coded) };

    ghost use Rattle.world_model.specs.Kept.{IsKept};
    ghost use Rattle.world_model.specs.Places.{world_of};

    ghost view = { λ a. world_of a.core a.places.items };

    ghost invariant = { λ a. IsKept (world_of a.core a.places.items) };
}

impl World {
    /// The world of a machine ahead of its first entry, without connections.
    pub fn new(core: Core) -> World
        requires { IsOpening core }
        ensures { result ≡ record { machine = core; links = [] } }
    {
        core.law();
        let places = Vec::new(core.alloc());
        World { core, places }
    }

    /// A run led to the world; it is right, and each open session is in a stage with its link.
    pub fn law(&self)
        ensures { IsRightRun self.now }
    {
        run_laws();
        let _ = &self.core;
    }
}

/// Makes a step, where there is one. Where memory doesn't suffice nothing changes.
pub fn step_world(world: &mut World, step: Move) -> Moved
    requires admits { AdmitsMove world.old step }
    ensures { Makes step result world.old world.new }
{
    growth_laws();
    make(&mut world.core, &mut world.places, step)
}

fn make(core: &mut Core, places: &mut Vec<Place>, step: Move) -> Moved
    requires kept { IsKept (world_of core.old places.old.items) }
    requires admits { AdmitsMove (world_of core.old places.old.items) step }
    ensures { Makes step result (world_of core.old places.old.items) (world_of core.new places.new.items) }
{
    let alloc = core.alloc();
    match step {
        Move::Machine(entry) => enter(core, places, entry),
        Move::Take(connection) => carry_out(alloc, places, connection, &Act::Take),
        Move::Process(connection, at) => carry_out(alloc, places, connection, &Act::Process(at)),
        Move::Refuse(connection, at) => carry_out(alloc, places, connection, &Act::Refuse(at)),
        Move::Answer(connection) => carry_out(alloc, places, connection, &Act::Answer),
        Move::Look(connection, key) => carry_out(alloc, places, connection, &Act::Look(key)),
    }
}
