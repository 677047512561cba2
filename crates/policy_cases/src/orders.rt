// What the lines of a script ask for.
use crate::texts::text_in;
use case_text::{CaseStop, Words, push_hex, push_text};
use case_values::push_place;
use env_cells::Update;
use maple_base::{Name, NoMemory};
use script_text::{Next, Step, StepStop, next_order};
use std::alloc::{AllocError, Global};

// How many places there are.
const PLACES: u32 = 3;

/// script TEXT: each order with the number of its line, and how the script ends.
pub fn script(alloc: Global, words: Words<'_>, out: &mut String) -> Result<(), CaseStop> {
    let text = text_in(alloc, words)?;
    Ok(push_script(alloc, &text, out)?)
}

fn push_script(alloc: Global, script: &[u8], out: &mut String) -> Result<(), NoMemory> {
    let mut rest = script;
    let mut number = 1usize;
    for _ in 0..script.len() {
        if rest.is_empty() {
            break;
        }
        match next_order(alloc, rest, PLACES) {
            Ok(next) => {
                push_next(number, &next, out)?;
                number = number.saturating_add(next.passed);
                rest = next.rest;
            }
            Err(stop) => return push_stop(number, stop, out),
        }
    }
    write!(out, "{number} ends")?;
    Ok(())
}

fn push_stop(number: usize, stop: StepStop, out: &mut String) -> Result<(), NoMemory> {
    match stop {
        StepStop::End => write!(out, "{number} quits")?,
        StepStop::Refused(kind) => write!(out, "{number} {kind:?}")?,
        StepStop::NoMemory => return Err(NoMemory),
    }
    Ok(())
}

fn push_next(number: usize, next: &Next<'_>, out: &mut String) -> Result<(), AllocError> {
    write!(out, "{number} ")?;
    push_step(&next.step, next.text, out)?;
    out.push_str("; ")
}

fn push_step(step: &Step, policy: &[u8], out: &mut String) -> Result<(), AllocError> {
    match step {
        Step::Nothing => out.push_str("nothing"),
        Step::Plug(place) => write!(out, "plug {place}"),
        Step::Unplug(place) => write!(out, "unplug {place}"),
        Step::Arrival { place, port, frame } => {
            write!(out, "arrival {place} {port} ")?;
            push_hex(frame.items(), out)
        }
        Step::Turn { place, turns } => write!(out, "turn {place} {turns}"),
        Step::Settle => out.push_str("settle"),
        Step::Change(update) => push_update(update, out),
        Step::NewPolicy => push_policy(policy, out),
        Step::Rules(switch) => write!(out, "rules {switch}"),
    }
}

// The text of a policy stands between quotes.
fn push_policy(policy: &[u8], out: &mut String) -> Result<(), AllocError> {
    out.push_str("newpolicy \"")?;
    push_text(policy, out)?;
    out.push_str("\"")
}

fn push_update(update: &Update, out: &mut String) -> Result<(), AllocError> {
    match update {
        Update::Host { mac, place } => write!(out, "host {mac} {} {}", place.switch, place.port),
        Update::NoHost { mac } => write!(out, "nohost {mac}"),
        Update::Link { from, to } => {
            write!(out, "link {} {} ", from.switch, from.port)?;
            push_place(*to, out)
        }
        Update::NoLink { from } => write!(out, "nolink {} {}", from.switch, from.port),
        Update::Set { table, key, value } => {
            push_named("set ", table, out)?;
            write!(out, " {key} {value}")
        }
        Update::Unset { table, key } => {
            push_named("unset ", table, out)?;
            write!(out, " {key}")
        }
        _ => out.push_str("another update"),
    }
}

fn push_named(verb: &str, table: &Name, out: &mut String) -> Result<(), AllocError> {
    out.push_str(verb)?;
    push_text(table.text(), out)
}
