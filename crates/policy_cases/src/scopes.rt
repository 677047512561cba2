// The names in force in an evaluation.
use case_text::{CaseStop, Subject, Words};
use case_values::{name_of, push_flag, push_place};
use maple_base::NoMemory;
use policy_eval::{Datum, Scope};
use std::alloc::{AllocError, Global};

/// The names in force and what they stand for.
#[derive(Drop)]
pub struct Scopes {
    scope: Scope,
}

impl Subject for Scopes {
    fn new(alloc: Global) -> Result<Scopes, NoMemory> {
        Ok(Scopes {
            scope: Scope::new(alloc),
        })
    }

    fn answer(&mut self, call: Words<'_>, out: &mut String) -> Result<(), CaseStop> {
        let mut words = call;
        match words.word() {
            "declare" => declare(&mut self.scope, words, out),
            "assign" => assign(&mut self.scope, words, out),
            "keep" => keep(&mut self.scope, words, out),
            "named" => named(&self.scope, words, out),
            _ => Err(CaseStop::Unread),
        }
    }
}

// declare NAME DATUM
fn declare(scope: &mut Scope, mut words: Words<'_>, out: &mut String) -> Result<(), CaseStop> {
    let name = name_of(words.word())?;
    scope.declare(name, datum_in(words)?)?;
    Ok(out.push_str("ok")?)
}

// assign NAME DATUM: to the name that was declared last of its like.
fn assign(scope: &mut Scope, mut words: Words<'_>, out: &mut String) -> Result<(), CaseStop> {
    let name = name_of(words.word())?;
    scope.assign(&name, datum_in(words)?);
    Ok(out.push_str("ok")?)
}

// keep COUNT: so many names, those that were declared first.
fn keep(scope: &mut Scope, mut words: Words<'_>, out: &mut String) -> Result<(), CaseStop> {
    scope.truncate(usize::try_from(words.number()?)?);
    Ok(out.push_str("ok")?)
}

// named NAME: what the name stands for.
fn named(scope: &Scope, mut words: Words<'_>, out: &mut String) -> Result<(), CaseStop> {
    let name = name_of(words.word())?;
    Ok(push_datum(scope.named(&name), out)?)
}

// `yes` or `no`, a number, or the switch and the port of a place.
fn datum_in(mut words: Words<'_>) -> Result<Datum, CaseStop> {
    let mut second = words;
    match second.word() {
        "yes" => Ok(Datum::Truth(true)),
        "no" => Ok(Datum::Truth(false)),
        _ if second.is_empty() => Ok(Datum::Number(words.number()?)),
        _ => Ok(Datum::At(words.place()?)),
    }
}

fn push_datum(datum: Datum, out: &mut String) -> Result<(), AllocError> {
    match datum {
        Datum::Number(number) => write!(out, "{number}"),
        Datum::Truth(truth) => push_flag(truth, out),
        Datum::At(place) => push_place(place, out),
    }
}
