// The rules of one node.
ghost use Rattle.std.specs.Prelude.{◌≡◌, ◌+◌, ◌≤◌};
ghost use Rattle.priority_plan.specs.Rules.{level_limit, fact, barrier, fact_actions, fact_of, barrier_of};

use maple_base::{Actions, CONTROLLER_PORT, Decision, Match, Rule};
use trace_tree::Leaf;

/// A rule of a tree, with its kind.
#[derive(Clone, Copy)]
pub enum Row {
    /// The rule of a trace.
    Fact(Rule),
    /// A rule that sends to the controller, between the sides of a test.
    Barrier(Rule),
}

impl Row {
    /// The fact, if it is one.
    pub fn fact(&self) -> Option<Rule>
        ensures { result ≡ fact_of self.now }
    {
        match self {
            Row::Fact(rule) => Some(*rule),
            Row::Barrier(_) => None,
        }
    }

    /// The barrier, if it is one.
    pub fn barrier(&self) -> Option<Rule>
        ensures { result ≡ barrier_of self.now }
    {
        match self {
            Row::Fact(_) => None,
            Row::Barrier(rule) => Some(*rule),
        }
    }
}

/// The rule of a trace, at the first level above the base.
pub fn fact(leaf: &Leaf, of: &Match, base: u64) -> Rule
    requires { base + 1 ≤ level_limit }
    ensures { result ≡ fact leaf.now of.now base }
{
    let actions = fact_actions(&leaf.decision);
    Rule {
        of: *of,
        priority: (base + 1) as u16,
        actions,
        cookie: 0,
        idle: 0,
    }
}

/// A rule of this priority that sends to the controller.
pub fn barrier(of: &Match, priority: u64) -> Rule
    requires { priority ≤ level_limit }
    ensures { result ≡ barrier of.now priority }
{
    Rule {
        of: *of,
        priority: priority as u16,
        actions: Actions::new(&[CONTROLLER_PORT]),
        cookie: 0,
        idle: 0,
    }
}

fn fact_actions(decision: &Decision) -> Actions
    ensures { result ≡ fact_actions decision.now }
{
    match decision {
        Decision::Path(path) => match path.items() {
            [first, ..] => decision.actions_at(first.switch),
            [] => decision.actions_at(0),
        },
        _ => decision.actions_at(0),
    }
}
