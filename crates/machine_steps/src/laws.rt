// What each step of the machine keeps, and what holds of its runs.
ghost use Rattle.machine_steps.specs.Laws.{OpensSound, KeepsSound, RunsStay, LentRuns};
ghost use Rattle.machine_steps.specs.Running.{CellsAreOfKind, CurrentRunsAreNow, RunsAreAsked, RunsCanBeLearned};

use policy_meaning::policy_laws::meaning_laws;
use policy_meaning::question_laws::{reading_laws, tree_laws};
use priority_plan::plan_law;
use switch_session::session_laws;
use switch_traces::traces_laws;
use trace_tree::scratch_laws;
use tree_prune::live_laws;

/// The opening state is sound, and each step within its condition keeps that. A run that may be
/// committed still may later, and one of the policy in force may be.
pub fn machine_laws()
    ensures opens { OpensSound }
    ensures keeps { KeepsSound }
    ensures runs { RunsStay }
    ensures lent { LentRuns }
{
    live_laws();
    meaning_laws();
    plan_law();
    reading_laws();
    scratch_laws();
    session_laws();
    traces_laws();
    tree_laws();
}

/// What holds of a run that is recorded in the state now, or was and is current.
pub fn running_laws()
    ensures now { CurrentRunsAreNow }
    ensures asked { RunsAreAsked }
    ensures learned { RunsCanBeLearned }
    ensures kinds { CellsAreOfKind }
{
    live_laws();
    scratch_laws();
    traces_laws();
    tree_laws();
}
