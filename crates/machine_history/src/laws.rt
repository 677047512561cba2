// What holds of every history of the machine.
ghost use Rattle.machine_history.specs.Laws.{ListsAreLive, OpenedOnce, AnswersAreEvaluation, LearningIsExact};

use machine_steps::{machine_laws, running_laws};
use policy_meaning::question_laws::tree_laws;
use tree_prune::live_laws;

/// Of each legal history: the machine's lists of traces are the live traces, each job's number is
/// of one packet, each answer is plain evaluation's in the state then, and what it says of learning
/// is exactly so.
pub fn history_laws()
    ensures live { ListsAreLive }
    ensures once { OpenedOnce }
    ensures answers { AnswersAreEvaluation }
    ensures exact { LearningIsExact }
{
    live_laws();
    machine_laws();
    running_laws();
    tree_laws();
}
