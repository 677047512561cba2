// Entries of the machine.
ghost use Rattle.std.specs.Prelude.{◌≡◌, true, IfOk};
ghost use Rattle.machine_steps.specs.Admitting.{IsOperators};
ghost use Rattle.machine_cases.specs.Entries.{IsPlain};

use crate::connection_entries::{connection_entry, of_bytes, of_features};
use crate::notes::note_of;
use crate::packet_entries::packet_entry;
use case_text::{CaseStop, Words};
use case_values::{cell_of, update_of};
use env_cells::Update;
use machine_steps::Entry;
use policy_lang::Policy;
use policy_text::read_policy;
use std::alloc::Global;

/// The entry of a call.
pub fn entry_of(alloc: Global, call: Words<'_>) -> Result<Entry, CaseStop>
    ensures { IfOk result (λ entry. IsPlain entry) }
{
    let mut words = call;
    match words.word() {
        "policy" => Ok(Entry::NewPolicy(policy_of(alloc, words.rest())?)),
        "packet" | "frame" | "kept" | "padded" => packet_entry(alloc, call),
        "note" => Ok(Entry::Note(note_of(alloc, words)?)),
        "hear" => of_bytes(alloc, words),
        "features" => of_features(alloc, 1, words),
        "answers" => of_features(alloc, 0, words),
        "open" | "bad" | "gone" | "fault" | "take" | "list" => connection_entry(call),
        "cell" | "force" | "rules" | "jobs" | "decide" => asking(call),
        _ => change(alloc, call),
    }
}

/// The policy of a text.
pub fn policy_of(alloc: Global, text: &str) -> Result<Policy, CaseStop> {
    match read_policy(alloc, text.as_bytes()) {
        Ok(policy) => Ok(policy),
        Err(_) => Err(CaseStop::Unread),
    }
}

// cell CELL, force, rules SWITCH, jobs, decide JOB
fn asking(call: Words<'_>) -> Result<Entry, CaseStop>
    ensures { IfOk result (λ entry. IsPlain entry) }
{
    let mut words = call;
    match words.word() {
        "cell" => Ok(Entry::ReadCell(cell_of(words.word())?)),
        "force" => Ok(Entry::ReadPolicy),
        "rules" => Ok(Entry::ReadRules(words.number()?)),
        "jobs" => Ok(Entry::OpenJobs),
        _ => Ok(Entry::Decide(words.number()?)),
    }
}

// An update that an operator makes.
fn change(alloc: Global, call: Words<'_>) -> Result<Entry, CaseStop>
    ensures { IfOk result (λ entry. IsPlain entry) }
{
    let update = update_of(alloc, call)?;
    if is_operators(&update) {
        Ok(Entry::Change(update))
    } else {
        Err(CaseStop::Unread)
    }
}

fn is_operators(update: &Update) -> bool
    ensures { result ≡ true → IsOperators update.now }
{
    match update {
        Update::Host { .. } => true,
        Update::NoHost { .. } => true,
        Update::Link { .. } => true,
        Update::NoLink { .. } => true,
        Update::Set { .. } => true,
        Update::Unset { .. } => true,
        _ => false,
    }
}
