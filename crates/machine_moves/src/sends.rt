// What the machine sends.
ghost use Rattle.machine_moves.specs.Sends.{SendsLaw};

use machine_steps::{machine_laws, running_laws};
use of10_codec::writing_laws;
use policy_meaning::policy_laws::meaning_laws;
use policy_meaning::question_laws::{reading_laws, tree_laws};
use rule_builder::rules_law;
use switch_traces::traces_laws;
use update_plan::batch_laws;

/// In each legal history of the machine, each message of each outbox is of a kind that a controller
/// sends, and the bytes that it is written as spell it.
pub fn sends_law()
    ensures { SendsLaw }
{
    batch_laws();
    machine_laws();
    meaning_laws();
    reading_laws();
    rules_law();
    running_laws();
    traces_laws();
    tree_laws();
    writing_laws();
}
