// The walker: it runs a policy, and has its questions answered.
ghost use Rattle.std.specs.Prelude.{◌≡◌, IfOk};
ghost use Rattle.policy_lang.specs.TreeOf.{tree_of};
ghost use Rattle.policy_meaning.specs.Leads.{Leads};
ghost use Rattle.policy_meaning.specs.Meaning.{meaning};

use crate::asker::{Asker, Stop, Unanswered};
use crate::expression_walk::{Local, Walk};
use crate::scope::Scope;
use crate::statements::Runner;
use maple_base::{Decision, Outcome};
use policy_lang::Policy;
use std::alloc::Global;

/// Runs a policy at a switch in at most so many steps, and gives back who answered. The answers that
/// were given, each to the question that the policy asks behind those before, lead to the outcome.
#[tactic(auto, using(crate::proofs::Whole::run_ends))]
pub fn run<A: Asker>(
    alloc: Global,
    policy: &Policy,
    budget: u32,
    switch: u64,
    asker: A,
) -> (Result<Outcome, Unanswered>, A)
    ensures outcome { IfOk result.0 (λ o. Leads A.said asker (meaning (tree_of policy.now.body) budget switch) result.1 o) }
    ensures key { A.key result.1 ≡ A.key asker }
{
    let scope = Scope::new(alloc);
    let mut runner = Runner {
        walk: Walk {
            asker,
            steps: budget,
            alloc,
        },
        local: Local { switch, scope },
    };
    let outcome = match runner.block(policy.body()) {
        Ok(()) => Ok(Outcome::Decided(Decision::Drop)),
        Err(Stop::Ended(outcome)) => Ok(outcome),
        Err(Stop::Unanswered) => Err(Unanswered),
    };
    (outcome, runner.finish())
}
