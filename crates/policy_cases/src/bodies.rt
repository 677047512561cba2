// Bodies that are made in memory, also such as no text has.
use crate::texts::text_in;
use crate::trees::push_tree;
use case_text::{CaseStop, Words, push_text};
use maple_base::{Name, NoMemory};
use maple_text::value_of;
use policy_lang::{Block, Expr, Exprs, Head, Statement};
use policy_tree::PolicyParts;
use std::alloc::Global;

/// body STATEMENT ..: as `tree`, of these statements: `drop=COUNT`, so often `drop;`; `unknown`, `out x;`;
/// `not=COUNT`, an `if` of so many `not` ahead of `1 == 1`; `sum=COUNT`, an `out` of a sum of so many signs.
pub fn body(alloc: Global, words: Words<'_>, out: &mut String) -> Result<(), CaseStop> {
    let mut list = Vec::new(alloc);
    for word in words.rest().split_whitespace() {
        push_statements(alloc, word, &mut list)?;
    }
    let parts = PolicyParts {
        tables: Vec::new(alloc),
        learning: false,
        body: Block::new(list),
    };
    push_tree(alloc, parts, out)
}

/// body_form STATEMENT .. : TEXT: whether the answer to `body` is this text.
pub fn body_form(alloc: Global, words: Words<'_>, out: &mut String) -> Result<(), CaseStop> {
    let (statements, form) = words.rest().split_once(" : ").ok_or(CaseStop::Unread)?;
    let mut wanted = String::new(alloc);
    push_text(&text_in(alloc, Words::new(form))?, &mut wanted)?;
    let mut given = String::new(alloc);
    body(alloc, Words::new(statements), &mut given)?;
    Ok(out.push_str(if given.as_str() == wanted.as_str() {
        "same"
    } else {
        "other"
    })?)
}

fn push_statements(alloc: Global, word: &str, list: &mut Vec<Statement>) -> Result<(), CaseStop> {
    let (kind, count) = word.split_once('=').unwrap_or((word, "1"));
    let count = value_of(count.as_bytes()).ok_or(CaseStop::Unread)?;
    match kind {
        "drop" => Ok(push_drops(count, list)?),
        "unknown" => Ok(list.push(out_of(alloc, unknown()?)?)?),
        "not" => Ok(list.push(if_of(alloc, nots_of(alloc, count)?))?),
        "sum" => Ok(list.push(out_of(alloc, sum_of(alloc, count)?)?)?),
        _ => Err(CaseStop::Unread),
    }
}

fn push_drops(count: u64, list: &mut Vec<Statement>) -> Result<(), NoMemory> {
    for _ in 0..count {
        list.push(Statement::Drop)?;
    }
    Ok(())
}

fn unknown() -> Result<Expr, CaseStop> {
    Ok(Expr::Var(Name::new(b"x").ok_or(CaseStop::Unread)?))
}

fn sum_of(alloc: Global, signs: u64) -> Result<Expr, NoMemory> {
    let mut sum = Expr::Number(1);
    for _ in 0..signs {
        sum = Expr::Add(Box::new(alloc, sum)?, Box::new(alloc, Expr::Number(1))?);
    }
    Ok(sum)
}

fn nots_of(alloc: Global, nots: u64) -> Result<Expr, NoMemory> {
    let (left, right) = (Expr::Number(1), Expr::Number(1));
    let mut expr = Expr::Equal(Box::new(alloc, left)?, Box::new(alloc, right)?);
    for _ in 0..nots {
        expr = Expr::Not(Box::new(alloc, expr)?);
    }
    Ok(expr)
}

fn if_of(alloc: Global, test: Expr) -> Statement {
    Statement::If(Head::Test(test), Block::new(Vec::new(alloc)), None)
}

fn out_of(alloc: Global, expr: Expr) -> Result<Statement, NoMemory> {
    let mut exprs = Vec::new(alloc);
    exprs.push(expr)?;
    Ok(Statement::Out(Exprs::new(exprs)))
}
