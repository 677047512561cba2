// The rules of a tree.
ghost use Rattle.std.specs.Prelude.{◌≡◌};

use crate::Rule;
use std::marker::Model;

/// The rules of a tree: facts, which do what a policy decided, and barriers, which send to the
/// controller.
#[derive(Drop)]
pub struct RuleList {
    facts: Vec<Rule>,
    barriers: Vec<Rule>,
}

impl Model for RuleList {
    ghost use Rattle.maple_base.specs.RuleLists.{Rules};

    ghost Value = { Rules };

    ghost view = { λ a. record { facts = a.facts.items; barriers = a.barriers.items } };
}

impl RuleList {
    /// These facts and these barriers.
    pub fn new(facts: Vec<Rule>, barriers: Vec<Rule>) -> RuleList
        ensures facts { result.facts ≡ facts.items }
        ensures barriers { result.barriers ≡ barriers.items }
    {
        RuleList { facts, barriers }
    }

    /// The facts, in order.
    pub fn facts(&self) -> &[Rule]
        ensures { result.now ≡ self.now.facts }
    {
        &self.facts
    }

    /// The barriers, in order.
    pub fn barriers(&self) -> &[Rule]
        ensures { result.now ≡ self.now.barriers }
    {
        &self.barriers
    }
}
