// What an `if` asks.
ghost use Rattle.std.specs.Prelude.{◌≡◌, ◌<◌, false, OnOk, IfOk};
ghost use Rattle.std.specs.Option.{option_map};
ghost use Rattle.policy_lang.specs.TreeOf.{ask_of};
ghost use Rattle.policy_eval.specs.Data.{datum_of};
ghost use Rattle.policy_meaning.specs.Values.{source_cell, source_told};
ghost use Rattle.policy_meaning.specs.Meaning.{head_of};
ghost use Rattle.policy_eval.specs.StatementParts.{source_of, binds_of, GivesHead};

use crate::asker::{Asker, Stop};
use crate::datum::Datum;
use crate::expression_walk::count;
use crate::statements::Runner;
use maple_base::{Cell, Name, Value};
use policy_lang::{Expr, Head};

// What a head that binds a name reads: where a host is, by which port a switch is reached, or what
// a table has.
#[derive(Clone, Copy)]
pub enum Source {
    Host,
    Hop,
    Table(Name),
}

impl Source {
    // The cell that is read by a number.
    fn cell(self, from: u64, number: u64) -> Cell
        ensures { result ≡ source_cell (source_of self) from number }
    {
        match self {
            Source::Host => Cell::Host(number),
            Source::Hop => Cell::Hop { from, to: number },
            Source::Table(table) => Cell::Num { table, key: number },
        }
    }

    // What its value tells.
    fn told(self, value: Value) -> Option<Datum>
        ensures { option_map datum_of result ≡ source_told (source_of self) value }
    {
        match (self, value) {
            (Source::Host, Value::At(place)) => Some(Datum::At(place)),
            (Source::Hop, Value::At(place)) => Some(Datum::Number(place.port)),
            (Source::Table(_), Value::Number(number)) => Some(Datum::Number(number)),
            _ => None,
        }
    }
}

impl<A: Asker> Runner<A> {
    // Whether a head that binds a name holds; the name is then in force.
    #[tactic(auto, using(policy_meaning::proofs::Walks::leads_end, policy_meaning::proofs::Walks::leads_next, policy_meaning::proofs::Walks::leads_cell))]
    fn binds(&mut self, source: Source, expr: &Expr, name: &Name) -> Result<bool, Stop>
        ensures given { GivesHead A.said self.old (binds_of source expr.now name.now) result self.new }
        ensures kept { IfOk result (λ held. held ≡ false → self.new.local.scope ≡ self.old.local.scope) }
        ensures place { self.new.local.switch ≡ self.old.local.switch }
        ensures key { A.key self.new.walk.asker ≡ A.key self.old.walk.asker }
        ensures fewer { OnOk result (self.new.walk.steps < self.old.walk.steps) }
    {
        count(&mut self.walk.steps)?;
        let number = self.walk.value(expr, &self.local)?.number();
        let found = self
            .walk
            .asker
            .cell(source.cell(self.local.switch, number))?;
        let Some(datum) = source.told(found) else {
            return Ok(false);
        };
        self.local.scope.declare(*name, datum)?;
        Ok(true)
    }

    // Whether a head holds; a name that it binds is then in force.
    #[tactic(auto, using(policy_meaning::proofs::Walks::leads_end, policy_meaning::proofs::Walks::leads_next))]
    pub fn head(&mut self, head: &Head) -> Result<bool, Stop>
        ensures given { GivesHead A.said self.old (head_of (ask_of head.now)) result self.new }
        ensures kept { IfOk result (λ held. held ≡ false → self.new.local.scope ≡ self.old.local.scope) }
        ensures place { self.new.local.switch ≡ self.old.local.switch }
        ensures key { A.key self.new.walk.asker ≡ A.key self.old.walk.asker }
        ensures fewer { OnOk result (self.new.walk.steps < self.old.walk.steps) }
    {
        match head {
            Head::Host(expr, name) => self.binds(Source::Host, expr, name),
            Head::Hop(expr, name) => self.binds(Source::Hop, expr, name),
            Head::Lookup(table, expr, name) => self.binds(Source::Table(*table), expr, name),
            Head::Test(expr) => Ok(self.walk.value(expr, &self.local)?.truth()),
        }
    }
}
