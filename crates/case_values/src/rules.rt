// Rules: `PRIORITY ACTIONS MATCH`. Actions are `drop`, `barrier`, which sends to the controller, or
// `out1+2`; an idle time stands behind `/`, and a cookie behind another.
use crate::matches::{match_of, push_match};
use case_text::{CaseStop, Words};
use maple_base::{Actions, CONTROLLER_PORT, Rule};
use std::alloc::{AllocError, Global};

/// The rule that the next three words are.
pub fn rule_of(alloc: Global, words: &mut Words<'_>) -> Result<Rule, CaseStop> {
    let priority = words.number_u16()?;
    let word = words.word();
    let (actions, rest) = word.split_once('/').unwrap_or((word, "0"));
    let (idle, cookie) = rest.split_once('/').unwrap_or((rest, "0"));
    Ok(Rule {
        of: match_of(words.word())?,
        priority,
        actions: actions_of(alloc, actions)?,
        cookie: Words::new(cookie).number()?,
        idle: Words::new(idle).number_u16()?,
    })
}

/// The actions that a word names, at most 16.
pub fn actions_of(alloc: Global, word: &str) -> Result<Actions, CaseStop> {
    match word {
        "drop" => Ok(Actions::new(&[])),
        "barrier" => Ok(Actions::new(&[CONTROLLER_PORT])),
        _ => outputs_of(alloc, word.strip_prefix("out").ok_or(CaseStop::Unread)?),
    }
}

fn outputs_of(alloc: Global, ports: &str) -> Result<Actions, CaseStop> {
    let mut list = Vec::new(alloc);
    for port in ports.split('+') {
        list.push(Words::new(port).number_u16()?)?;
    }
    if list.len() > 16 {
        return Err(CaseStop::Unread);
    }
    Ok(Actions::new(&list))
}

/// The rules that all words are: those of the actions `barrier` apart, as barriers.
pub fn rules_of(alloc: Global, words: Words<'_>) -> Result<(Vec<Rule>, Vec<Rule>), CaseStop> {
    let mut facts = Vec::new(alloc);
    let mut barriers = Vec::new(alloc);
    let mut left = words;
    for _ in 0..words.rest().len() {
        if left.is_empty() {
            break;
        }
        let rule = rule_of(alloc, &mut left)?;
        if rule.actions.items() == [CONTROLLER_PORT].as_slice() {
            barriers.push(rule)?;
        } else {
            facts.push(rule)?;
        }
    }
    Ok((facts, barriers))
}

/// Appends actions as `actions_of` reads them.
pub fn push_actions(actions: &Actions, out: &mut String) -> Result<(), AllocError> {
    let ports = actions.items();
    if ports.is_empty() {
        return out.push_str("drop");
    }
    if ports == [CONTROLLER_PORT].as_slice() {
        return out.push_str("barrier");
    }
    let mut sign = "out";
    for port in ports {
        write!(out, "{sign}{port}")?;
        sign = "+";
    }
    Ok(())
}

/// Appends a rule as `rule_of` reads it.
pub fn push_rule(rule: &Rule, out: &mut String) -> Result<(), AllocError> {
    write!(out, "{} ", rule.priority)?;
    push_actions(&rule.actions, out)?;
    if rule.cookie > 0 {
        write!(out, "/{}/{}", rule.idle, rule.cookie)?;
    } else if rule.idle > 0 {
        write!(out, "/{}", rule.idle)?;
    }
    out.push_str(" ")?;
    push_match(&rule.of, out)
}
