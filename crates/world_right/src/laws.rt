// What each stage promises of the switch's table, and what holds of every run of the world.
ghost use Rattle.world_right.specs.Hits.{HitsAreRight, TablesHaveRoom, RestIsNewest};
ghost use Rattle.world_right.specs.Laws.{EveryRunIsRight, SessionsArePlaced, TablesAreComplete, HitsAtRestAreNow, SinceIsWhole, SinceNeverFalls};

use machine_history::history_laws;
use machine_moves::{growth_laws, session_laws};
use machine_steps::machine_laws;
use rule_builder::choice_law;
use update_plan::shield_laws;
use world_stages::{opening_law, switch_law, turn_law};
use world_steps::world_laws;

/// At a ready session, what the switch may choose sends to the controller or is plain evaluation's
/// decision in a state from since to now, and its table keeps to the capacity. Where no barrier is
/// outstanding it is just the rules of the switch's traces.
pub fn hit_laws()
    ensures hits { HitsAreRight }
    ensures room { TablesHaveRoom }
    ensures newest { RestIsNewest }
{
    choice_law();
    shield_laws();
}

/// Every run of the world is right, and each open session is in a stage. At a ready session with no
/// barrier outstanding the switch's table is, up to order, exactly the rules of the live traces'
/// tree, and a hit is of the state now. Since is never past now, nor before the state in which the
/// target of the update that was acknowledged whole last was aimed at, and it never falls.
pub fn run_laws()
    ensures right { EveryRunIsRight }
    ensures placed { SessionsArePlaced }
    ensures complete { TablesAreComplete }
    ensures now { HitsAtRestAreNow }
    ensures whole { SinceIsWhole }
    ensures falls { SinceNeverFalls }
{
    growth_laws();
    history_laws();
    hit_laws();
    machine_laws();
    opening_law();
    session_laws();
    switch_law();
    turn_law();
    world_laws();
}
