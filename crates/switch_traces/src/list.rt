// The traces of a tree, in order, which only proofs read.
ghost use Rattle.std.specs.Prelude.{◌≡◌, [], ◌∷◌, ◌++◌};
ghost use Rattle.trace_tree.specs.Stands.{has_other_number};
ghost use Rattle.topo_paths.specs.Scenes.{cell_in};
ghost use Rattle.tree_prune.specs.Current.{is_current};
ghost use Rattle.switch_traces.specs.Traces.{those};

use maple_base::{GhostList, Witness};
use topo_paths::Scene;
use trace_tree::Trace;

/// Those of which each recorded cell has its recorded value.
pub fn current(traces: &GhostList<Trace>, scene: &Scene) -> GhostList<Trace>
    ensures { result.value ≡ those (is_current (cell_in scene.now)) traces.now.value }
{
    Witness::picked(&(traces, scene))
}

/// Those that have another number.
pub fn others(traces: &GhostList<Trace>, number: u64) -> GhostList<Trace>
    ensures { result.value ≡ those (has_other_number number) traces.now.value }
{
    Witness::picked(&(traces, number))
}

/// With this trace behind them.
pub fn with(traces: &GhostList<Trace>, trace: &Trace) -> GhostList<Trace>
    ensures { result.value ≡ traces.now.value ++ trace.now ∷ [] }
{
    Witness::picked(&(traces, trace))
}
