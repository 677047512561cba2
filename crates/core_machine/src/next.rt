// What the machine does behind the line of a state, in room that was made ahead of the state.
ghost use Rattle.std.specs.Prelude.{◌≡◌, ◌+◌, ◌≤◌, OnOk, OnErr, vec_len, vec_capacity};
ghost use Rattle.std.specs.VecDeque.{deque_len, deque_capacity};
ghost use Rattle.core_machine.specs.Following.{IsNext, IsOfCount, count_behind, follows, jobs_behind, jobs_needed, lines_behind, lines_needed};

use machine_parts::{Parts, make_room};
use machine_steps::Job;
use maple_base::NoMemory;
use report_text::Line;
use std::collections::VecDeque;

/// What follows.
#[derive(Drop)]
pub enum Next {
    Nothing,
    /// It is told that a packet of this connection found no room.
    Overload(u32),
    /// The job is opened, which has the next number.
    Job(Job),
}

/// Does what follows where no state is reached.
///
/// # Errors
///
/// `NoMemory`. Nothing changes then.
pub fn follow_now(parts: &mut Parts, next: Next) -> Result<(), NoMemory>
    requires next { IsNext next parts.old }
    ensures follows { OnOk result (parts.new ≡ follows next parts.old) }
    ensures kept { OnErr result (parts.new ≡ parts.old) }
{
    make_room(&mut parts.lines, &parts.sessions, lines_needed(&next))?;
    make_room_for_job(&mut parts.jobs, &next)?;
    follow(
        &mut parts.lines,
        &mut parts.jobs,
        &mut parts.job_count,
        next,
    );
    Ok(())
}

/// How many lines it tells.
pub fn lines_needed(next: &Next) -> usize
    ensures is { result ≡ lines_needed next.now }
    ensures few { result ≤ 1 }
{
    match next {
        Next::Overload(_) => 1,
        _ => 0,
    }
}

/// Room for the job that follows, if one does.
///
/// # Errors
///
/// `NoMemory`. No job has changed then.
pub fn make_room_for_job(jobs: &mut VecDeque<Job>, next: &Next) -> Result<(), NoMemory>
    ensures jobs { jobs.new.items ≡ jobs.old.items }
    ensures job { OnOk result (deque_len jobs.new + jobs_needed next.now ≤ deque_capacity jobs.new) }
{
    jobs.reserve(jobs_needed(next))?;
    Ok(())
}

// How many jobs it opens.
fn jobs_needed(next: &Next) -> usize
    ensures { result ≡ jobs_needed next.now }
{
    match next {
        Next::Job(_) => 1,
        _ => 0,
    }
}

/// Does what follows, in the room that was made.
pub fn follow(lines: &mut Vec<Line>, jobs: &mut VecDeque<Job>, job_count: &mut u64, next: Next)
    requires line { vec_len lines.old + lines_needed next ≤ vec_capacity lines.old }
    requires job { deque_len jobs.old + jobs_needed next ≤ deque_capacity jobs.old }
    requires next { IsOfCount next job_count.old }
    ensures lines { lines.new.items ≡ lines_behind next lines.old.items }
    ensures len { vec_len lines.new ≡ vec_len lines.old + lines_needed next }
    ensures capacity { vec_capacity lines.new ≡ vec_capacity lines.old }
    ensures jobs { jobs.new.items ≡ jobs_behind next jobs.old.items }
    ensures count { job_count.new ≡ count_behind next job_count.old }
{
    match next {
        Next::Nothing => {}
        Next::Overload(device) => lines.push_reserved(Line::Overload { device }),
        Next::Job(job) => {
            *job_count = job.number;
            jobs.push_back_reserved(job);
        }
    }
}
