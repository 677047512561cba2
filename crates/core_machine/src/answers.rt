// A run ends the open job at a place: its packet is answered, and its trace is learned.
ghost use Rattle.std.specs.Prelude.{◌≡◌, ◌<◌, Some, IfOk, OnErr, length, remove};
ghost use Rattle.std.specs.List.{slice_get};
ghost use Rattle.std.specs.VecDeque.{deque_len};
ghost use Rattle.core_machine.specs.Concluding.{AnswersAt, AnswersIn, CanAnswerIn, ConcludesAt, HasRun, HasTrace, SpendsAt, count_behind};
ghost use Rattle.machine_steps.specs.Sound.{IsSound};

use machine_parts::answering::answer;
use machine_parts::shared::next_number;
use machine_parts::{Connection, Parts, finding, lists, make_room};
use machine_steps::{Job, Reply, running_laws};
use maple_base::{NoMemory, Outcome, Settings};
use report_text::{Learnt, Line};
use std::collections::VecDeque;
use switch_traces::SwitchTraces;
use trace_record::Run;
use trace_tree::Trace;

/// Ends the job at a place as its run in the state now says.
///
/// # Errors
///
/// `NoMemory`. Nothing changes then.
pub fn conclude(parts: &mut Parts, at: usize, run: Run) -> Result<Reply, NoMemory>
    requires sound { IsSound parts.old }
    requires run { HasRun at run parts.old }
    ensures concludes { IfOk result (λ reply. ConcludesAt at run parts.old reply parts.new) }
    ensures kept { OnErr result (parts.new ≡ parts.old) }
{
    running_laws();
    let (items, cells, outcome) = run.into_parts();
    match outcome {
        Outcome::Spent => spend(parts, at),
        Outcome::Decided(decision) => {
            let number = next_number(parts.trace_count)?;
            let trace = Trace {
                number,
                items,
                cells,
                decision,
            };
            answer_at(parts, at, trace)
        }
    }
}

// The policy ran out of steps for the job at a place.
fn spend(parts: &mut Parts, at: usize) -> Result<Reply, NoMemory>
    requires sound { IsSound parts.old }
    requires within { at < length parts.old.jobs }
    ensures spends { IfOk result (λ reply. SpendsAt at parts.old reply parts.new) }
    ensures kept { OnErr result (parts.new ≡ parts.old) }
{
    make_room(&mut parts.lines, &parts.sessions, 1)?;
    let job = close_at(&mut parts.jobs, at);
    parts.lines.push_reserved(Line::Spent {
        switch: job.switch,
        port: job.key.in_port,
    });
    Ok(Reply::Spent)
}

// Answers the job at a place as the trace of its run decides, and learns the trace.
fn answer_at(parts: &mut Parts, at: usize, trace: Trace) -> Result<Reply, NoMemory>
    requires sound { IsSound parts.old }
    requires trace { HasTrace at trace parts.old }
    ensures answers { IfOk result (λ reply. AnswersAt at trace parts.old reply parts.new) }
    ensures kept { OnErr result (parts.new ≡ parts.old) }
{
    let number = trace.number;
    let decision = trace.decision.copy()?;
    let told = decision.copy()?;
    make_room(&mut parts.lines, &parts.sessions, 1)?;
    let learnt = answer_in(
        &mut parts.learned,
        &mut parts.sessions,
        parts.settings,
        &parts.jobs[at],
        trace,
    )?;
    let job = close_at(&mut parts.jobs, at);
    let count = count_behind(learnt, number, parts.trace_count);
    parts.trace_count = count;
    parts.lines.push_reserved(Line::Answer {
        switch: job.switch,
        port: job.key.in_port,
        decision: told,
        learnt,
    });
    Ok(Reply::Answered { decision, learnt })
}

// Answers a job at the session of its connection, and learns the trace there.
fn answer_in(
    learned: &mut Vec<SwitchTraces>,
    sessions: &mut Vec<Connection>,
    settings: Settings,
    job: &Job,
    trace: Trace,
) -> Result<Learnt, NoMemory>
    requires can { CanAnswerIn settings job.now trace learned.old.items sessions.old.items }
    ensures answers { IfOk result (λ learns. AnswersIn settings job.now trace learned.old.items sessions.old.items learns learned.new.items sessions.new.items) }
    ensures traces_kept { OnErr result (learned.new.items ≡ learned.old.items) }
    ensures sessions_kept { OnErr result (sessions.new.items ≡ sessions.old.items) }
{
    let Some(place) = lists::place_of(learned, job.switch) else {
        unreachable!()
    };
    let Some(at) = finding::place_of(sessions, job.connection) else {
        unreachable!()
    };
    let actions = trace.decision.actions_at(job.switch);
    let learnt = answer(
        &mut learned[place],
        &mut sessions[at],
        settings,
        job,
        actions,
        trace,
    )?;
    Ok(learnt)
}

// Closes the job at a place, and hands it out. Few jobs move where it is among the oldest.
fn close_at(jobs: &mut VecDeque<Job>, at: usize) -> Job
    requires within { at < deque_len jobs.old }
    ensures job { slice_get jobs.old.items at ≡ Some result }
    ensures left { jobs.new.items ≡ remove jobs.old.items at }
{
    let Some(job) = jobs.remove(at) else {
        unreachable!()
    };
    job
}

// How many traces were learned, where the next one would have this number.
fn count_behind(learnt: Learnt, number: u64, count: u64) -> u64
    ensures { result ≡ count_behind learnt number count }
{
    if learnt == Learnt::Learned {
        number
    } else {
        count
    }
}
