// The list of a switch's traces, and its rules.
ghost use Rattle.std.specs.Prelude.{◌≡◌, ◌≤◌, ◌==◌, [], true, length, position, IfOk, MatchOption};
ghost use Rattle.std.specs.List.{list_any};
ghost use Rattle.std.specs.List.Sorted.{IsPermutation};
ghost use Rattle.priority_plan.specs.Rules.{level_limit, levels_of, rules_of};
ghost use Rattle.trace_tree.specs.Growth.{scratch};
ghost use Rattle.tree_prune.specs.Current.{is_current};
ghost use Rattle.switch_traces.specs.Traces.{Learnings, those};
ghost use Rattle.switch_traces.specs.Lists.{AreRulesOf};
ghost use Rattle.machine_parts.specs.Finding.{is_list_of, is_listed};
ghost use Rattle.machine_steps.specs.Machine.{traces_in, put_traces};

use maple_base::{EnvNow, NoMemory, Rule, RuleList};
use std::alloc::Global;
use switch_traces::SwitchTraces;

/// The traces of a switch.
pub fn traces_of(learned: &[SwitchTraces], switch: u64) -> Option<&SwitchTraces>
    ensures { MatchOption result (traces_in learned.now switch ≡ []) (λ t. t.now.traces ≡ traces_in learned.now switch) }
{
    for traces in learned {
        if traces.switch() == switch {
            return Some(traces);
        }
    }
    None
}

/// Retires the traces of a switch, and tells how many they were.
pub fn retire(learned: &mut Vec<SwitchTraces>, switch: u64) -> u32
    requires listed { list_any (λ (l : Learnings). l.switch == switch) learned.old.items ≡ true }
    ensures told { result ≡ length (traces_in learned.old.items switch) }
    ensures retired { learned.new.items ≡ put_traces switch [] learned.old.items }
{
    let Some(place) = place_of(learned, switch) else {
        unreachable!()
    };
    let retired = learned[place].len();
    learned[place].clear();
    retired
}

/// Where the traces of a switch stand.
pub fn place_of(learned: &[SwitchTraces], switch: u64) -> Option<usize>
    ensures { result ≡ position (λ (l : Learnings). l.switch == switch) learned.now }
{
    learned.iter().position(|traces| traces.switch() == switch)
}

/// The rules of a switch's traces, in any order.
pub fn rules_of(alloc: Global, learned: &[SwitchTraces], switch: u64) -> Result<Vec<Rule>, NoMemory>
    requires levels { levels_of (scratch (traces_in learned.now switch)) ≤ level_limit }
    ensures { IfOk result (λ list. IsPermutation (rules_of (scratch (traces_in learned.now switch))) list.items) }
{
    match traces_of(learned, switch) {
        None => Ok(Vec::new(alloc)),
        Some(traces) => all_rules(alloc, traces),
    }
}

// Facts and barriers in one list.
fn all_rules(alloc: Global, traces: &SwitchTraces) -> Result<Vec<Rule>, NoMemory>
    requires levels { levels_of (scratch traces.now.traces) ≤ level_limit }
    ensures { IfOk result (λ list. IsPermutation (rules_of (scratch traces.now.traces)) list.items) }
{
    let rules = traces.rules()?;
    let mut list = Vec::from_slice(alloc, rules.facts())?;
    list.extend_from_slice(rules.barriers())?;
    Ok(list)
}

/// The rules of a switch's traces without those of which a recorded cell has another value.
pub fn rules_left<E: EnvNow>(
    alloc: Global,
    learned: &[SwitchTraces],
    dpid: u64,
    env: &E,
) -> Result<RuleList, NoMemory>
    requires levels { levels_of (scratch (traces_in learned.now dpid)) ≤ level_limit }
    ensures { IfOk result (λ rules. AreRulesOf (those (is_current (E.has env.now)) (traces_in learned.now dpid)) rules) }
{
    match traces_of(learned, dpid) {
        Some(traces) => traces.rules_where(env),
        None => SwitchTraces::new(alloc, dpid).rules_where(env),
    }
}

fn is_list_of(traces: &SwitchTraces, dpid: u64) -> bool
    ensures { result ≡ is_list_of dpid traces.now }
{
    traces.switch() == dpid
}

/// Whether a switch has a list of traces.
pub fn is_listed(learned: &[SwitchTraces], dpid: u64) -> bool
    ensures { result ≡ is_listed dpid learned.now }
{
    learned.iter().any(|traces| is_list_of(traces, dpid))
}
