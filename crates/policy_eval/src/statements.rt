// What statements do.
ghost use Rattle.std.specs.Prelude.{◌≡◌, ◌≤◌, length, OnOk};
ghost use Rattle.policy_lang.specs.TreeOf.{term_of, terms_of};
ghost use Rattle.policy_meaning.specs.Meaning.{out_of, route_of, let_of, assign_of};
ghost use Rattle.policy_eval.specs.StatementParts.{GoesOn, statement_runs, branch_runs, second_runs, repeat_runs, block_runs, runs_of};

use crate::asker::{Asker, Stop};
use crate::expression_walk::{Local, Walk, count};
use crate::ports::sent_out;
use crate::ways::way_to;
use maple_base::{Decision, Name, Outcome};
use policy_lang::{Block, Expr, Head, Statement};

// A run of a policy under way, and what it sees.
pub struct Runner<A> {
    pub walk: Walk<A>,
    pub local: Local,
}

impl<A: Asker> Runner<A> {
    // The packet goes out of these ports.
    #[tactic(auto, using(policy_meaning::proofs::Walks::leads_end, policy_meaning::proofs::Walks::leads_next))]
    fn out(&mut self, exprs: &[Expr]) -> Result<(), Stop>
        requires few { length exprs.now ≤ 16 }
        ensures given { GoesOn A.said self.old (out_of (terms_of exprs.now)) result self.new }
        ensures place { self.new.local.switch ≡ self.old.local.switch }
        ensures key { A.key self.new.walk.asker ≡ A.key self.old.walk.asker }
        ensures fewer { OnOk result (self.new.walk.steps ≤ self.old.walk.steps) }
    {
        let numbers = self.walk.numbers(exprs, &self.local)?;
        let decision = sent_out(self.walk.alloc, &numbers)?;
        Err(Stop::Ended(Outcome::Decided(decision)))
    }

    // The packet goes along the way to a place.
    #[tactic(auto, using(policy_meaning::proofs::Walks::leads_end, crate::proofs::Hops::route_ends, crate::proofs::Hops::route_goes))]
    fn route(&mut self, expr: &Expr) -> Result<(), Stop>
        ensures given { GoesOn A.said self.old (route_of (term_of expr.now)) result self.new }
        ensures place { self.new.local.switch ≡ self.old.local.switch }
        ensures key { A.key self.new.walk.asker ≡ A.key self.old.walk.asker }
        ensures fewer { OnOk result (self.new.walk.steps ≤ self.old.walk.steps) }
    {
        let to = self.walk.value(expr, &self.local)?.place();
        let path = way_to(self.local.switch, to, &mut self.walk)?;
        Err(Stop::Ended(Outcome::Decided(Decision::Path(path))))
    }

    // Declares a name.
    #[tactic(auto, using(policy_meaning::proofs::Walks::leads_end, policy_meaning::proofs::Walks::leads_next))]
    fn declare(&mut self, name: &Name, expr: &Expr) -> Result<(), Stop>
        ensures given { GoesOn A.said self.old (let_of name.now (term_of expr.now)) result self.new }
        ensures place { self.new.local.switch ≡ self.old.local.switch }
        ensures key { A.key self.new.walk.asker ≡ A.key self.old.walk.asker }
        ensures fewer { OnOk result (self.new.walk.steps ≤ self.old.walk.steps) }
    {
        let datum = self.walk.value(expr, &self.local)?;
        self.local.scope.declare(*name, datum)?;
        Ok(())
    }

    // Gives a name another value.
    #[tactic(auto, using(policy_meaning::proofs::Walks::leads_end, policy_meaning::proofs::Walks::leads_next))]
    fn assign(&mut self, name: &Name, expr: &Expr) -> Result<(), Stop>
        ensures given { GoesOn A.said self.old (assign_of name.now (term_of expr.now)) result self.new }
        ensures place { self.new.local.switch ≡ self.old.local.switch }
        ensures key { A.key self.new.walk.asker ≡ A.key self.old.walk.asker }
        ensures fewer { OnOk result (self.new.walk.steps ≤ self.old.walk.steps) }
    {
        let datum = self.walk.value(expr, &self.local)?;
        self.local.scope.assign(name, datum);
        Ok(())
    }

    // Runs a statement, behind its own step.
    #[cycle(statements)]
    #[tactic(auto, using(crate::proofs::Branches::if_goes, crate::proofs::Branches::while_goes))]
    fn statement(&mut self, statement: &Statement) -> Result<(), Stop>
        ensures given { GoesOn A.said self.old (statement_runs statement.now) result self.new }
        ensures place { self.new.local.switch ≡ self.old.local.switch }
        ensures key { A.key self.new.walk.asker ≡ A.key self.old.walk.asker }
        ensures fewer { OnOk result (self.new.walk.steps ≤ self.old.walk.steps) }
    {
        match statement {
            Statement::Drop => Err(Stop::Ended(Outcome::Decided(Decision::Drop))),
            Statement::Flood => Err(Stop::Ended(Outcome::Decided(Decision::Flood))),
            Statement::Out(exprs) => self.out(exprs.items()),
            Statement::Route(expr) => self.route(expr),
            Statement::Let(name, expr) => self.declare(name, expr),
            Statement::Assign(name, expr) => self.assign(name, expr),
            Statement::If(head, first, second) => self.branch(head, first, second),
            Statement::While(test, body) => self.repeat(test, body),
        }
    }

    // Runs the first block where a head holds, and else the second, if there is one.
    #[cycle(statements)]
    #[tactic(auto, using(policy_meaning::proofs::Walks::leads_end, crate::proofs::Branches::first_ends, crate::proofs::Branches::first_goes, crate::proofs::Branches::second_on))]
    fn branch(&mut self, head: &Head, first: &Block, second: &Option<Block>) -> Result<(), Stop>
        ensures given { GoesOn A.said self.old (branch_runs head.now first.now second.now) result self.new }
        ensures place { self.new.local.switch ≡ self.old.local.switch }
        ensures key { A.key self.new.walk.asker ≡ A.key self.old.walk.asker }
        ensures fewer { OnOk result (self.new.walk.steps ≤ self.old.walk.steps) }
    {
        let outer = self.local.scope.len();
        if !self.head(head)? {
            return self.otherwise(second);
        }
        self.block(first)?;
        self.local.scope.truncate(outer);
        Ok(())
    }

    // Runs a block, if there is one.
    #[cycle(statements)]
    fn otherwise(&mut self, block: &Option<Block>) -> Result<(), Stop>
        ensures given { GoesOn A.said self.old (second_runs block.now) result self.new }
        ensures place { self.new.local.switch ≡ self.old.local.switch }
        ensures key { A.key self.new.walk.asker ≡ A.key self.old.walk.asker }
        ensures fewer { OnOk result (self.new.walk.steps ≤ self.old.walk.steps) }
    {
        match block {
            None => Ok(()),
            Some(block) => self.block(block),
        }
    }

    // Runs a block as long as an expression is true.
    #[cycle(statements)]
    #[tactic(auto, using(crate::proofs::Rounds::all_left, crate::proofs::Rounds::test_ends, crate::proofs::Rounds::test_fails, crate::proofs::Rounds::body_ends, crate::proofs::Rounds::body_goes))]
    fn repeat(&mut self, test: &Expr, body: &Block) -> Result<(), Stop>
        ensures given { GoesOn A.said self.old (repeat_runs test.now body.now) result self.new }
        ensures place { self.new.local.switch ≡ self.old.local.switch }
        ensures key { A.key self.new.walk.asker ≡ A.key self.old.walk.asker }
        ensures fewer { OnOk result (self.new.walk.steps ≤ self.old.walk.steps) }
    {
        while self.walk.value(test, &self.local)?.truth() {
            self.block(body)?;
        }
        Ok(())
    }

    // Runs a block; names that it declares are in force up to its end.
    #[cycle(statements)]
    #[tactic(auto, using(policy_meaning::proofs::Walks::leads_end, policy_meaning::proofs::Walks::leads_next))]
    pub fn block(&mut self, block: &Block) -> Result<(), Stop>
        ensures given { GoesOn A.said self.old (block_runs block.now) result self.new }
        ensures place { self.new.local.switch ≡ self.old.local.switch }
        ensures key { A.key self.new.walk.asker ≡ A.key self.old.walk.asker }
        ensures fewer { OnOk result (self.new.walk.steps ≤ self.old.walk.steps) }
    {
        let outer = self.local.scope.len();
        self.statements(block.items())?;
        self.local.scope.truncate(outer);
        Ok(())
    }

    // Runs statements, one after the other, each of which takes a step.
    #[cycle(statements)]
    #[tactic(auto, using(crate::proofs::Blocks::spent_here, crate::proofs::Blocks::statement_ends, crate::proofs::Blocks::statement_goes, crate::proofs::Blocks::all_run))]
    fn statements(&mut self, items: &[Statement]) -> Result<(), Stop>
        ensures given { GoesOn A.said self.old (runs_of items.now) result self.new }
        ensures place { self.new.local.switch ≡ self.old.local.switch }
        ensures key { A.key self.new.walk.asker ≡ A.key self.old.walk.asker }
        ensures fewer { OnOk result (self.new.walk.steps ≤ self.old.walk.steps) }
    {
        for item in items {
            count(&mut self.walk.steps)?;
            self.statement(item)?;
        }
        Ok(())
    }

    // Who answered.
    pub fn finish(self) -> A
        ensures { result ≡ self.walk.asker }
    {
        let Runner {
            walk,
            local: _local,
        } = self;
        let Walk {
            asker,
            steps: _steps,
            alloc: _alloc,
        } = walk;
        asker
    }
}
