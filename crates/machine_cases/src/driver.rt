// A machine that calls drive, with the runs that were recorded.
ghost use Rattle.std.specs.Prelude.{◌≡◌, ℕ, IfSome, Contains};
ghost use Rattle.trace_record.specs.Runs.{Recorded};
ghost use Rattle.machine_cases.specs.Entries.{IsPlain};

use crate::begun::Begins;
use crate::connection_entries::{heard, of_features};
use crate::entries::entry_of;
use crate::limits::{core_of, settings_of};
use crate::recording::recorded;
use crate::replies::{push_lines, push_reply};
use case_text::{CaseStop, Words};
use core_machine::{Core, Entry, JobItem, Reply};
use std::alloc::{AllocError, Global};
use std::marker::Model;
use trace_record::Run;

// A HELLO, and the reply to the first barrier (OpenFlow 1.0, 5.1).
const HELLO: &[u8] = &[1, 0, 0, 8, 0, 0, 0, 7];

const FIRST_BARRIER: &[u8] = &[1, 19, 0, 8, 0, 0, 0, 2];

/// The machine, with the jobs that it opened so far, and the runs that were recorded for them and not committed yet.
#[derive(Drop)]
pub struct Driver {
    core: Core,
    budget: u32,
    items: Vec<JobItem>,
    runs: Vec<(u64, Run)>,
}

impl Model for Driver {
    ghost use Rattle.std.specs.Prelude.{ℕ};
    ghost use Rattle.machine_cases.specs.Driving.{IsDriven};

    ghost Value = { ℕ };

    ghost view = { λ a. a.budget };

    ghost invariant = { λ a. IsDriven a.core a.budget a.runs.items };
}

impl Begins for Driver {
    // new CAPACITY LEVELS BUDGET POLICY
    fn begin(alloc: Global, call: Words<'_>) -> Result<Driver, CaseStop> {
        let mut words = call;
        let settings = settings_of(&mut words)?;
        let core = core_of(alloc, settings, words.rest())?;
        Ok(Driver {
            core,
            budget: settings.budget,
            items: Vec::new(alloc),
            runs: Vec::new(alloc),
        })
    }

    fn tell(&mut self, alloc: Global, call: Words<'_>, out: &mut String) -> Result<(), CaseStop> {
        let mut words = call;
        match words.word() {
            "each" => self.tell_each(alloc, words, out),
            _ => self.tell_one(alloc, call, out),
        }
    }
}

impl Driver {
    // Appends the reply to a call, and the lines of the report.
    fn tell_one(
        &mut self,
        alloc: Global,
        call: Words<'_>,
        out: &mut String,
    ) -> Result<(), CaseStop> {
        let reply = self.reply(alloc, call)?;
        push_reply(alloc, &reply, is_list(call), out)?;
        self.push_report(out)
    }

    // each A B CALL -> ANSWER: makes the call for each number from A up to B, which stands in the place of each `#` of the call and
    // of its answer. Appends the first number for which another answer came, with that answer.
    fn tell_each(
        &mut self,
        alloc: Global,
        call: Words<'_>,
        out: &mut String,
    ) -> Result<(), CaseStop> {
        let mut words = call;
        let first = words.number()?;
        let end = words.number()?;
        let (asked, wanted) = words.rest().split_once(" -> ").ok_or(CaseStop::Unread)?;
        for turn in first..end {
            if !self.tells(alloc, asked, wanted, turn, out)? {
                return Ok(());
            }
        }
        Ok(out.push_str("ok")?)
    }

    // Whether the answer is the one that is wanted, else it is appended.
    fn tells(
        &mut self,
        alloc: Global,
        asked: &str,
        wanted: &str,
        turn: u64,
        out: &mut String,
    ) -> Result<bool, CaseStop> {
        let call = filled(alloc, asked, turn)?;
        let mut told = String::new(alloc);
        self.tell_one(alloc, Words::new(call.as_str()), &mut told)?;
        if told.as_str() == filled(alloc, wanted, turn)?.as_str() {
            return Ok(true);
        }
        write!(out, "{turn} {told}")?;
        Ok(false)
    }

    fn push_report(&mut self, out: &mut String) -> Result<(), CaseStop> {
        match self.ask(Entry::TakeReport) {
            Reply::Lines(report) => push_lines(report.items(), out),
            _ => Err(CaseStop::NoMemory),
        }
    }

    fn reply(&mut self, alloc: Global, call: Words<'_>) -> Result<Reply, CaseStop> {
        let mut words = call;
        match words.word() {
            "record" => self.record_call(alloc, words),
            "commit" => self.commit_call(words),
            "boot" => self.boot(alloc, words),
            _ => self.enter(alloc, call),
        }
    }

    // record JOB: records a run for a job.
    fn record_call(&mut self, alloc: Global, mut words: Words<'_>) -> Result<Reply, CaseStop> {
        let job = words.number()?;
        self.record(alloc, job)?;
        Ok(Reply::Done)
    }

    fn record(&mut self, alloc: Global, job: u64) -> Result<(), CaseStop> {
        let item = item_of(&self.items, job).ok_or(CaseStop::Unread)?;
        let run = recorded(alloc, &mut self.core, self.budget, &item)?;
        self.runs.push((job, run))?;
        Ok(())
    }

    // commit JOB, commit JOB of JOB: commits the run that was recorded for the job that is named last.
    fn commit_call(&mut self, mut words: Words<'_>) -> Result<Reply, CaseStop> {
        let job = words.number()?;
        let other = run_word(job, words)?;
        self.commit(job, other)
    }

    fn commit(&mut self, job: u64, other: u64) -> Result<Reply, CaseStop> {
        let Some(run) = taken(&mut self.runs, other) else {
            return Err(CaseStop::Unread);
        };
        Ok(self.core.step(Entry::Commit { job, run }))
    }

    // boot C SWITCH PORTS: opens a connection, up to the reply to the first barrier.
    fn boot(&mut self, alloc: Global, call: Words<'_>) -> Result<Reply, CaseStop> {
        let mut words = call;
        let connection = words.number_u32()?;
        let hello = heard(alloc, connection, HELLO)?;
        let features = of_features(alloc, 1, call)?;
        let barrier = heard(alloc, connection, FIRST_BARRIER)?;
        self.ask(Entry::Open(connection));
        self.ask(hello);
        self.ask(features);
        self.ask(Entry::TakeOut(connection));
        Ok(self.ask(barrier))
    }

    fn enter(&mut self, alloc: Global, call: Words<'_>) -> Result<Reply, CaseStop> {
        let entry = entry_of(alloc, call)?;
        let reply = self.ask(entry);
        if let Reply::Job(item) = &reply {
            self.items.push(*item)?;
        }
        Ok(reply)
    }

    fn ask(&mut self, entry: Entry) -> Reply
        requires { IsPlain entry }
    {
        self.core.step(entry)
    }
}

fn is_list(call: Words<'_>) -> bool {
    let mut words = call;
    words.word() == "list"
}

// The job of this number.
fn item_of(items: &[JobItem], job: u64) -> Option<JobItem> {
    for item in items {
        if item.job() == job {
            return Some(*item);
        }
    }
    None
}

// The job whose run is committed: this one, unless `of` names another.
fn run_word(job: u64, mut words: Words<'_>) -> Result<u64, CaseStop> {
    match words.word() {
        "" => Ok(job),
        "of" => words.number(),
        _ => Err(CaseStop::Unread),
    }
}

// Takes out a run that was recorded for this job.
fn taken(runs: &mut Vec<(u64, Run)>, job: u64) -> Option<Run>
    ensures taken { IfSome result (λ run. (n : ℕ) × Contains runs.old.items (n, run)) }
    ensures rest { (n : ℕ) (run : Recorded) → Contains runs.new.items (n, run) → Contains runs.old.items (n, run) }
{
    let at = runs.iter().position(|kept| kept.0 == job)?;
    let (_, run) = runs.swap_remove(at);
    Some(run)
}

// A text with a number in the place of each `#`.
fn filled(alloc: Global, text: &str, turn: u64) -> Result<String, AllocError> {
    let mut whole = String::new(alloc);
    let (first, rest) = text.split_once('#').unwrap_or((text, ""));
    whole.push_str(first)?;
    if first.len() == text.len() {
        return Ok(whole);
    }
    for part in rest.split('#') {
        write!(whole, "{turn}{part}")?;
    }
    Ok(whole)
}
