// Expressions, made of their parts.
ghost use Rattle.std.specs.Prelude.{◌≡◌, false, IfOk, MatchOption};
ghost use Rattle.policy_grammar.specs.Grammar.{is_single};
ghost use Rattle.policy_lang.specs.Tree.{Single, Call, Is, Not, Pair};
ghost use Rattle.policy_lang.specs.TreeOf.{term_of};
ghost use Rattle.policy_tree.specs.Trees.{atom_in, callee_in};
ghost use Rattle.policy_tree.specs.Machine.{written_callee, callee_onto, made};
ghost use Rattle.policy_tree.specs.Stands.{Makes};

use crate::state::{Builder, Callee};
use maple_base::{Field, NoMemory};
use policy_grammar::{Event, Operator};
use policy_lang::Expr;
use policy_tokens::Token;
use std::alloc::Global;

// The expression of one token.
fn single_of(token: Token) -> Option<Expr>
    ensures { MatchOption result (is_single token ≡ false) (λ e. term_of e ≡ Single (atom_in token)) }
{
    match token {
        Token::Name(name) => Some(Expr::Var(name)),
        Token::Field(field) => Some(Expr::Packet(field)),
        Token::PacketSwitch => Some(Expr::PacketSwitch),
        Token::SwitchOf(name) => Some(Expr::SwitchOf(name)),
        Token::PortOf(name) => Some(Expr::PortOf(name)),
        Token::Number(number) => Some(Expr::Number(number)),
        Token::Keyword(_) | Token::Sign(_) => None,
    }
}

fn call_of(alloc: Global, callee: Callee, left: Expr, right: Expr) -> Result<Expr, NoMemory>
    ensures { IfOk result (λ e. term_of e ≡ Call (callee_in (written_callee callee)) (term_of left) (term_of right)) }
{
    let left = Box::new(alloc, left)?;
    let right = Box::new(alloc, right)?;
    Ok(match callee {
        Callee::Up => Expr::Up(left, right),
        Callee::At => Expr::At(left, right),
    })
}

fn test_of(alloc: Global, field: Field, part: Expr) -> Result<Expr, NoMemory>
    ensures { IfOk result (λ e. term_of e ≡ Is field (term_of part)) }
{
    Ok(Expr::Is(field, Box::new(alloc, part)?))
}

fn negation_of(alloc: Global, part: Expr) -> Result<Expr, NoMemory>
    ensures { IfOk result (λ e. term_of e ≡ Not (term_of part)) }
{
    Ok(Expr::Not(Box::new(alloc, part)?))
}

fn pair_of(alloc: Global, operator: Operator, left: Expr, right: Expr) -> Result<Expr, NoMemory>
    ensures { IfOk result (λ e. term_of e ≡ Pair operator (term_of left) (term_of right)) }
{
    let left = Box::new(alloc, left)?;
    let right = Box::new(alloc, right)?;
    Ok(match operator {
        Operator::Or => Expr::Or(left, right),
        Operator::And => Expr::And(left, right),
        Operator::Equal => Expr::Equal(left, right),
        Operator::NotEqual => Expr::NotEqual(left, right),
        Operator::Less => Expr::Less(left, right),
        Operator::LessEqual => Expr::LessEqual(left, right),
        Operator::Add => Expr::Add(left, right),
        Operator::Sub => Expr::Sub(left, right),
    })
}

impl Builder {
    /// An expression of one token.
    pub fn single(&mut self, token: Token) -> Result<bool, NoMemory>
        ensures { IfOk result (Makes (made (Event.Single token)) self.old self.new) }
    {
        let Some(expr) = single_of(token) else {
            return Ok(false);
        };
        self.exprs.push(expr)?;
        Ok(true)
    }

    /// The word of a call.
    pub fn callee(&mut self, callee: Callee) -> Result<bool, NoMemory>
        ensures { IfOk result (Makes (callee_onto callee) self.old self.new) }
    {
        self.callees.push(callee)?;
        Ok(true)
    }

    /// The end of a call.
    #[tactic(auto, using(crate::proofs::Terms::call_is))]
    pub fn call(&mut self, alloc: Global) -> Result<bool, NoMemory>
        ensures { IfOk result (Makes (made Event.Call) self.old self.new) }
    {
        let Some(callee) = self.callees.pop() else {
            return Ok(false);
        };
        let Some((left, right)) = self.exprs.pop_two() else {
            return Ok(false);
        };
        self.exprs.push(call_of(alloc, callee, left, right)?)?;
        Ok(true)
    }

    /// The end of what is negated.
    #[tactic(auto, using(crate::proofs::Terms::not_is))]
    pub fn negation(&mut self, alloc: Global) -> Result<bool, NoMemory>
        ensures { IfOk result (Makes (made Event.Negation) self.old self.new) }
    {
        let Some(part) = self.exprs.pop() else {
            return Ok(false);
        };
        self.exprs.push(negation_of(alloc, part)?)?;
        Ok(true)
    }

    /// The end of what a field is compared with.
    #[tactic(auto, using(crate::proofs::Terms::test_is))]
    pub fn test(&mut self, alloc: Global) -> Result<bool, NoMemory>
        ensures { IfOk result (Makes (made Event.Test) self.old self.new) }
    {
        let Some((tested, part)) = self.exprs.pop_two() else {
            return Ok(false);
        };
        let Expr::Packet(field) = tested else {
            return Ok(false);
        };
        self.exprs.push(test_of(alloc, field, part)?)?;
        Ok(true)
    }

    /// The end of an operator's right part.
    #[tactic(auto, using(crate::proofs::Terms::pair_is))]
    pub fn pair(&mut self, alloc: Global, operator: Operator) -> Result<bool, NoMemory>
        ensures { IfOk result (Makes (made (Event.Pair operator)) self.old self.new) }
    {
        let Some((left, right)) = self.exprs.pop_two() else {
            return Ok(false);
        };
        self.exprs.push(pair_of(alloc, operator, left, right)?)?;
        Ok(true)
    }
}
