// Keys and matches, names, paths and decisions.
use crate::decisions::decision_of;
use case_text::{CaseStop, Subject, Words};
use case_values::{BLANK, key_of, match_of, push_actions, push_decision, push_flag, with_fields};
use maple_base::{Decision, Field, Key, Match, Name, NoMemory};
use std::alloc::{AllocError, Global};

/// A key that others are made of, and that matches are asked of.
#[derive(Drop)]
pub struct Base {
    alloc: Global,
    key: Key,
}

impl Subject for Base {
    fn new(alloc: Global) -> Result<Base, NoMemory> {
        Ok(Base { alloc, key: BLANK })
    }

    fn answer(&mut self, mut call: Words<'_>, out: &mut String) -> Result<(), CaseStop> {
        match call.word() {
            "key" => {
                self.key = key_of(call)?;
                out.push_str("ok")?;
            }
            "valid" => push_flag(with_fields(self.key, call)?.valid(), out)?,
            "match" => push_judged(&match_of(call.word())?, &self.key, out)?,
            "name" => push_flag(Name::new(call.rest().as_bytes()).is_some(), out)?,
            "field" => push_field(Field::named(call.rest().as_bytes()), out)?,
            "decision" => push_decision(&decision_of(self.alloc, call.word())?, out)?,
            "copy" => push_copy(&decision_of(self.alloc, call.word())?, out)?,
            "actions" => push_actions_at(self.alloc, call, out)?,
            _ => return Err(CaseStop::Unread),
        }
        Ok(())
    }
}

// Whether a match fits the key, is normal, and is exact.
fn push_judged(of: &Match, key: &Key, out: &mut String) -> Result<(), AllocError> {
    push_flag(of.fits(key), out)?;
    out.push_str(" ")?;
    push_flag(of.is_normal(), out)?;
    out.push_str(" ")?;
    push_flag(of.is_exact(), out)
}

fn push_field(field: Option<Field>, out: &mut String) -> Result<(), AllocError> {
    match field {
        Some(field) => write!(out, "{field:?} {}", field.name()),
        None => out.push_str("none"),
    }
}

fn push_copy(decision: &Decision, out: &mut String) -> Result<(), NoMemory> {
    let copy = decision.copy()?;
    Ok(push_decision(&copy, out)?)
}

// SWITCH DECISION: what a copy of the decision has the switch do.
fn push_actions_at(alloc: Global, mut call: Words<'_>, out: &mut String) -> Result<(), CaseStop> {
    let switch = call.number()?;
    let copy = decision_of(alloc, call.word())?.copy()?;
    Ok(push_actions(&copy.actions_at(switch), out)?)
}
