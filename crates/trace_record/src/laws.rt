// What holds of two runs.
ghost use Rattle.trace_record.specs.Laws.{NeverClash};

use policy_meaning::question_laws::tree_laws;

/// Two runs of one policy, budget and switch, whose cells have their values in one environment, don't
/// clash where the key of one doesn't meet the other's items.
pub fn run_laws()
    ensures no_clash { NeverClash }
{
    tree_laws();
}
