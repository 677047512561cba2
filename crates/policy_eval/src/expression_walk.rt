// A run under way, and what expressions give in it.
ghost use Rattle.std.specs.Prelude.{◌≡◌, ◌<◌, ◌≤◌, suc, OnOk, OnErr, IfOk, IfErr, length};
ghost use Rattle.policy_lang.specs.Forms.{atom_of as plain_atom, callee_of};
ghost use Rattle.policy_lang.specs.TreeOf.{term_of, terms_of};
ghost use Rattle.policy_meaning.specs.Meaning.{atom_of, called, value_of, numbers_of};
ghost use Rattle.maple_base.specs.declared.decision.Outcome.TheVariants.{Spent};
ghost use Rattle.policy_eval.specs.Data.{datum_of};
ghost use Rattle.policy_eval.specs.declared.asker.Stop.TheVariants.{Ended};
ghost use Rattle.policy_eval.specs.ExpressionParts.{GivesDatum, call_of, is_of, not_of, pair_of};
ghost use Rattle.policy_eval.specs.Walked.{GivesValue, GivesNumbers};

use crate::asker::{Asker, Stop, Unanswered};
use crate::datum::{Datum, made};
use crate::scope::Scope;
use maple_base::{Cell, Field, Operator, Outcome, Place, Value};
use policy_lang::{Atom, Callee, Expr, Form};
use std::alloc::Global;

// What a part of a run sees: its switch and the names in force.
#[derive(Drop)]
pub struct Local {
    pub switch: u64,
    pub scope: Scope,
}

// A run under way: who answers its questions, the steps that are left, and where its lists are made.
pub struct Walk<A> {
    pub asker: A,
    pub steps: u32,
    pub alloc: Global,
}

// Counts a step of those that are left; the run ends where none is.
pub fn count(steps: &mut u32) -> Result<(), Stop>
    ensures counted { OnOk result (steps.old ≡ suc steps.new) }
    ensures none { OnErr result (steps.old ≡ 0) }
    ensures kept { OnErr result (steps.new ≡ steps.old) }
    ensures spent { IfErr result (λ stop. stop ≡ Ended Spent) }
{
    let left = steps.checked_sub(1);
    *steps = left.ok_or(Stop::Ended(Outcome::Spent))?;
    Ok(())
}

impl<A: Asker> Walk<A> {
    // What an expression without parts gives.
    fn atom(&mut self, atom: Atom<'_>, at: &Local) -> Result<Datum, Unanswered>
        ensures given { GivesDatum A.said self.old.asker (atom_of (plain_atom atom.entry) at.now.switch at.now.scope) self.new.asker result }
        ensures key { A.key self.new.asker ≡ A.key self.old.asker }
        ensures steps { self.new.steps ≡ self.old.steps }
    {
        match atom {
            Atom::Number(number) => Ok(Datum::Number(number)),
            Atom::Var(name) => Ok(at.scope.named(name)),
            Atom::SwitchOf(name) => Ok(Datum::Number(at.scope.named(name).place().switch)),
            Atom::PortOf(name) => Ok(Datum::Number(at.scope.named(name).place().port)),
            Atom::PacketSwitch => Ok(Datum::Number(at.switch)),
            Atom::Packet(field) => Ok(Datum::Number(self.asker.field(field)?)),
        }
    }

    // What a call gives of two data. Whether a port is up is asked of the environment.
    fn called(&mut self, callee: Callee, left: Datum, right: Datum) -> Result<Datum, Unanswered>
        ensures given { GivesDatum A.said self.old.asker (called (callee_of callee) (datum_of left) (datum_of right)) self.new.asker result }
        ensures key { A.key self.new.asker ≡ A.key self.old.asker }
        ensures steps { self.new.steps ≡ self.old.steps }
    {
        let switch = left.number();
        let port = right.number();
        match callee {
            Callee::Up => {
                let value = self.asker.cell(Cell::Up { switch, port })?;
                Ok(Datum::Truth(matches!(value, Value::Flag(true))))
            }
            Callee::At => Ok(Datum::At(Place { switch, port })),
        }
    }

    // What an expression gives.
    #[cycle(expressions)]
    #[tactic(auto, using(crate::proofs::Values::value_spent))]
    pub fn value(&mut self, expr: &Expr, at: &Local) -> Result<Datum, Stop>
        ensures given { GivesValue A.said self.old at.now (value_of (term_of expr.now)) result self.new }
        ensures key { A.key self.new.asker ≡ A.key self.old.asker }
        ensures fewer { OnOk result (self.new.steps < self.old.steps) }
    {
        count(&mut self.steps)?;
        match expr.form() {
            Form::Single(single) => Ok(self.atom(single, at)?),
            Form::Call(callee, left, right) => self.call(callee, left, right, at),
            Form::Is(field, part) => self.has_number(field, part, at),
            Form::Not(part) => self.opposite(part, at),
            Form::Pair(op, left, right) => self.pair(op, left, right, at),
        }
    }

    // What a call gives, where its own step is counted.
    #[cycle(expressions)]
    #[tactic(auto, using(policy_meaning::proofs::Walks::leads_end, policy_meaning::proofs::Walks::leads_next))]
    fn call(&mut self, callee: Callee, left: &Expr, right: &Expr, at: &Local) -> Result<Datum, Stop>
        ensures given { GivesValue A.said self.old at.now (call_of (callee_of callee) left.now right.now) result self.new }
        ensures key { A.key self.new.asker ≡ A.key self.old.asker }
        ensures fewer { OnOk result (self.new.steps < self.old.steps) }
    {
        let left = self.value(left, at)?;
        let right = self.value(right, at)?;
        Ok(self.called(callee, left, right)?)
    }

    // Whether a field has the number of an expression, where the step of `is` is counted.
    #[cycle(expressions)]
    #[tactic(auto, using(policy_meaning::proofs::Walks::leads_end, policy_meaning::proofs::Walks::leads_next, policy_meaning::proofs::Walks::leads_test))]
    fn has_number(&mut self, field: Field, part: &Expr, at: &Local) -> Result<Datum, Stop>
        ensures given { GivesValue A.said self.old at.now (is_of field part.now) result self.new }
        ensures key { A.key self.new.asker ≡ A.key self.old.asker }
        ensures fewer { OnOk result (self.new.steps < self.old.steps) }
    {
        let number = self.value(part, at)?.number();
        Ok(Datum::Truth(self.asker.test(field, number)?))
    }

    // What `not` makes of an expression, where its own step is counted.
    #[cycle(expressions)]
    #[tactic(auto, using(policy_meaning::proofs::Walks::leads_end, policy_meaning::proofs::Walks::leads_next))]
    fn opposite(&mut self, part: &Expr, at: &Local) -> Result<Datum, Stop>
        ensures given { GivesValue A.said self.old at.now (not_of part.now) result self.new }
        ensures key { A.key self.new.asker ≡ A.key self.old.asker }
        ensures fewer { OnOk result (self.new.steps < self.old.steps) }
    {
        let truth = self.value(part, at)?.truth();
        Ok(Datum::Truth(!truth))
    }

    // What an operator makes of two expressions, where its own step is counted. The right one is
    // evaluated only where the left one doesn't settle the operator.
    #[cycle(expressions)]
    #[tactic(auto, using(policy_meaning::proofs::Walks::leads_end, policy_meaning::proofs::Walks::leads_next, crate::proofs::Values::settled, crate::proofs::Values::unsettled_ends, crate::proofs::Values::unsettled_gives))]
    fn pair(&mut self, op: Operator, left: &Expr, right: &Expr, at: &Local) -> Result<Datum, Stop>
        ensures given { GivesValue A.said self.old at.now (pair_of op left.now right.now) result self.new }
        ensures key { A.key self.new.asker ≡ A.key self.old.asker }
        ensures fewer { OnOk result (self.new.steps < self.old.steps) }
    {
        let left = self.value(left, at)?;
        if let Some(datum) = left.settles(op) {
            return Ok(datum);
        }
        let right = self.value(right, at)?;
        Ok(made(op, left, right))
    }

    // The numbers of expressions, from left to right.
    #[tactic(auto, using(crate::proofs::Numbers::none_left, crate::proofs::Numbers::first_ends, crate::proofs::Numbers::rest_ends, crate::proofs::Numbers::rest_goes))]
    pub fn numbers(&mut self, exprs: &[Expr], at: &Local) -> Result<Vec<u64>, Stop>
        ensures given { GivesNumbers A.said self.old at.now (numbers_of (terms_of exprs.now)) result self.new }
        ensures key { A.key self.new.asker ≡ A.key self.old.asker }
        ensures each { IfOk result (λ v. length v.items ≡ length exprs.now) }
        ensures fewer { OnOk result (self.new.steps ≤ self.old.steps) }
    {
        let [first, rest @ ..] = exprs else {
            return Ok(Vec::new(self.alloc));
        };
        let number = self.value(first, at)?.number();
        let mut numbers = self.numbers(rest, at)?;
        numbers.insert(0, number)?;
        Ok(numbers)
    }
}
