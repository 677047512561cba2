// Plain evaluation: the answers are a key's and an environment's.
ghost use Rattle.std.specs.Prelude.{◌≡◌, IfOk, IsTrue};
ghost use Rattle.maple_base.specs.declared.cells.Cell.{Cell};
ghost use Rattle.maple_base.specs.declared.cells.Value.{Value};
ghost use Rattle.maple_base.specs.Keys.{valid_key};
ghost use Rattle.policy_lang.specs.TreeOf.{tree_of};
ghost use Rattle.policy_meaning.specs.Meaning.{eval_of};
ghost use Rattle.policy_eval.specs.Answers.{IsBudget};
ghost use Rattle.policy_eval.specs.Evaluated.{Evaluates};

use crate::asker::{Asker, Unanswered};
use crate::run;
use maple_base::{Cell, EnvNow, Field, Key, NoMemory, Outcome, Value};
use policy_lang::Policy;
use std::alloc::Global;

// Answers by a key and an environment.
#[derive(Drop)]
struct Evaluator<'a, E: EnvNow> {
    env: &'a E,
    key: &'a Key,
}

impl<'a, E: EnvNow> Asker for Evaluator<'a, E> {
    ghost key = { λ s. s.key.now };

    ghost said = { λ s a t. Evaluates s.key.now s.env.now t.key.now t.env.now E.has a };

    fn field(&mut self, field: Field) -> Result<u64, Unanswered> {
        Ok(self.key.get(field))
    }

    fn test(&mut self, field: Field, value: u64) -> Result<bool, Unanswered> {
        Ok(self.key.get(field) == value)
    }

    fn cell(&mut self, cell: Cell) -> Result<Value, Unanswered> {
        Ok(self.env.cell(cell))
    }
}

/// What a policy decides at a switch, in an environment, of a packet with this key, in at most so
/// many steps.
pub fn eval<E: EnvNow>(
    alloc: Global,
    policy: &Policy,
    budget: u32,
    env: &E,
    switch: u64,
    key: &Key,
) -> Result<Outcome, NoMemory>
    requires key { IsTrue (valid_key key.now) }
    requires budget { IsBudget budget }
    ensures { IfOk result (λ outcome. outcome ≡ eval_of (tree_of policy.now.body) budget (E.has env.now) switch key.now) }
{
    let (outcome, _) = run(alloc, policy, budget, switch, Evaluator { env, key });
    match outcome {
        Ok(outcome) => Ok(outcome),
        Err(Unanswered) => Err(NoMemory),
    }
}
