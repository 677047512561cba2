// Each entry has its call.
ghost use Rattle.std.specs.Prelude.{◌≡◌};
ghost use Rattle.machine_steps.specs.Admitting.{Admits};
ghost use Rattle.machine_steps.specs.Sound.{IsSound};
ghost use Rattle.machine_steps.specs.Steps.{Steps, link_end};

use crate::messages::hear;
use crate::policies::renew;
use crate::runs::{commit, decide};
use crate::updates::change;
use machine_parts::Parts;
use machine_parts::ends::end_session;
use machine_parts::notes::tell_note;
use machine_parts::opens::open_session;
use machine_parts::reads::{open_jobs, read_cell, read_policy, read_rules};
use machine_parts::takes::{take_out, take_report};
use machine_steps::{Entry, Reply};
use switch_session::End;

/// Does what an entry asks, and answers.
pub fn step(parts: &mut Parts, entry: Entry) -> Reply
    requires sound { IsSound parts.old }
    requires admits { Admits parts.old entry }
    ensures { Steps parts.old entry result parts.new }
{
    match entry {
        Entry::Open(connection) => open_session(parts, connection),
        Entry::Heard(connection, input) => hear(parts, connection, &input),
        Entry::Gone { connection, fault } => { end_session(parts, connection, link_end(fault)) }
        Entry::Change(update) => change(parts, &update),
        Entry::NewPolicy(policy) => renew(parts, policy),
        Entry::ReadCell(cell) => read_cell(parts, cell),
        Entry::ReadPolicy => read_policy(parts),
        Entry::ReadRules(switch) => read_rules(parts, switch),
        Entry::OpenJobs => open_jobs(parts),
        Entry::Commit { job, run } => commit(parts, job, run),
        Entry::Decide(job) => decide(parts, job),
        Entry::TakeOut(connection) => take_out(parts, connection),
        Entry::TakeReport => take_report(parts),
        Entry::Note(note) => tell_note(parts, &note),
    }
}

// How a session ends whose connection ended.
fn link_end(fault: bool) -> End
    ensures { result ≡ link_end fault }
{
    if fault { End::LinkFault } else { End::LinkEnd }
}
