// Packets are answered: by runs that were recorded elsewhere, or by one that is made here.
ghost use Rattle.std.specs.Prelude.{◌≡◌, ◌≢◌, ◌<◌, ◌↔◌, ◌==◌, IsTrue, IfOk, OnErr, MatchOption, Contains, find, length, option_copied, position};
ghost use Rattle.maple_base.specs.Keys.{valid_key};
ghost use Rattle.policy_eval.specs.Answers.{IsBudget};
ghost use Rattle.policy_meaning.specs.Cells.{Gives};
ghost use Rattle.topo_paths.specs.Scenes.{cell_in};
ghost use Rattle.trace_record.specs.Runs.{IsOfCall, IsRun};
ghost use Rattle.tree_prune.specs.Stale.{differs, stale_in};
ghost use Rattle.report_text.specs.declared.line.Line.TheVariants.{Stale as StaleLine};
ghost use Rattle.machine_steps.specs.declared.job.Job.{Job as JobData};
ghost use Rattle.machine_steps.specs.declared.reply.Reply.TheVariants.{Stale};
ghost use Rattle.machine_steps.specs.Admitting.{IsOfHistory};
ghost use Rattle.machine_steps.specs.Machine.{policy_number, tells};
ghost use Rattle.machine_steps.specs.Sound.{IsSound};
ghost use Rattle.machine_steps.specs.Steps.{Commits, Decides};
ghost use Rattle.core_machine.specs.Concluding.{HasJob, HasJobOf, HasNoJobOf, HasRun, IsFresh, IsStale};

use crate::answers::conclude;
use machine_parts::Parts;
use machine_parts::shared::{policy_number, tell};
use machine_steps::{Differs, Job, Reply, running_laws};
use maple_base::{Cell, EnvNow, Key, NoMemory, Value};
use policy_lang::Policy;
use report_text::Line;
use std::alloc::Global;
use std::collections::VecDeque;
use topo_paths::Scene;
use trace_record::{NowView, Run, record};

/// Takes a run that was recorded for a job: where it is as it would be now, it ends the job.
pub fn commit(parts: &mut Parts, number: u64, run: Run) -> Reply
    requires sound { IsSound parts.old }
    requires run { IsOfHistory run parts.old }
    ensures { Commits number run parts.old result parts.new }
{
    match try_commit(parts, number, run) {
        Ok(reply) => reply,
        Err(NoMemory) => Reply::NoMemory,
    }
}

fn try_commit(parts: &mut Parts, number: u64, run: Run) -> Result<Reply, NoMemory>
    requires sound { IsSound parts.old }
    requires run { IsOfHistory run parts.old }
    ensures commits { IfOk result (λ reply. Commits number run parts.old reply parts.new) }
    ensures kept { OnErr result (parts.new ≡ parts.old) }
{
    running_laws();
    let Some(at) = job_of(parts, number, run.switch(), run.key()) else {
        return Ok(Reply::NotOpen);
    };
    match difference(parts, &run) {
        Some(differs) => tell_stale(parts, number, differs),
        None => conclude(parts, at, run),
    }
}

/// Runs the policy for a job, which ends it.
pub fn decide(parts: &mut Parts, number: u64) -> Reply
    requires sound { IsSound parts.old }
    ensures { Decides number parts.old result parts.new }
{
    match try_decide(parts, number) {
        Ok(reply) => reply,
        Err(NoMemory) => Reply::NoMemory,
    }
}

fn try_decide(parts: &mut Parts, number: u64) -> Result<Reply, NoMemory>
    requires sound { IsSound parts.old }
    ensures decides { IfOk result (λ reply. Decides number parts.old reply parts.new) }
    ensures kept { OnErr result (parts.new ≡ parts.old) }
{
    running_laws();
    let Some(at) = job_at(parts, number) else {
        return Ok(Reply::NotOpen);
    };
    let run = run_for(parts, at)?;
    conclude(parts, at, run)
}

// The place of the open job of a number.
fn job_at(parts: &Parts, number: u64) -> Option<usize>
    ensures { MatchOption result ((j : JobData) → Contains parts.now.jobs j → j.number ≢ number) (λ at. HasJob number at parts.now) }
{
    place_of(&parts.jobs, number)
}

// The place of the open job of a number, where it is of this switch and key.
fn job_of(parts: &Parts, number: u64, switch: u64, key: &Key) -> Option<usize>
    requires sound { IsSound parts.now }
    ensures { MatchOption result (HasNoJobOf number switch key.now parts.now) (λ at. HasJobOf number switch key.now at parts.now) }
{
    let Some(at) = job_at(parts, number) else {
        return None;
    };
    if is_of(&parts.jobs[at], switch, key) {
        Some(at)
    } else {
        None
    }
}

// What isn't any more as a run recorded it.
fn difference(parts: &Parts, run: &Run) -> Option<Differs>
    ensures { MatchOption result (IsFresh run.now parts.now) (λ d. IsStale run.now parts.now d) }
{
    let recorded = run.number();
    let current = policy_number(parts);
    if recorded != current {
        return Some(Differs::OfPolicy { recorded, current });
    }
    let (cell, recorded, current) = stale_cell(run.cells().items(), &parts.scene)?;
    Some(Differs::OfCell {
        cell,
        recorded,
        current,
    })
}

// Tells that a run is stale.
fn tell_stale(parts: &mut Parts, job: u64, differs: Differs) -> Result<Reply, NoMemory>
    ensures reply { IfOk result (λ reply. (reply ≡ Stale differs) × (parts.new ≡ tells (StaleLine job) parts.old)) }
    ensures kept { OnErr result (parts.new ≡ parts.old) }
{
    tell(parts, Line::Stale { job })?;
    Ok(Reply::Stale(differs))
}

// The policy's run for the job at a place, in the state now.
fn run_for(parts: &Parts, at: usize) -> Result<Run, NoMemory>
    requires sound { IsSound parts.now }
    requires within { at < length parts.now.jobs }
    ensures { IfOk result (λ run. HasRun at run parts.now) }
{
    let job = &parts.jobs[at];
    run_now(
        parts.alloc,
        &parts.policy,
        policy_number(parts),
        parts.settings.budget,
        job,
        &parts.scene,
    )
}

// The place of the job of a number.
fn place_of(jobs: &VecDeque<Job>, number: u64) -> Option<usize>
    ensures { result ≡ position (λ (j : JobData). j.number == number) jobs.now.items }
{
    jobs.iter().position(|job| job.number == number)
}

// Whether a job is of this switch and key.
fn is_of(job: &Job, switch: u64, key: &Key) -> bool
    ensures { IsTrue result ↔ ((job.now.switch ≡ switch) × (job.now.key ≡ key.now)) }
{
    job.switch == switch && job.key == *key
}

// The first cell that has another value than the recorded one, with both.
fn stale_cell(cells: &[(Cell, Value)], scene: &Scene) -> Option<(Cell, Value, Value)>
    ensures { result ≡ stale_in (cell_in scene.now) cells.now }
{
    let (cell, recorded) = first_changed(cells, scene)?;
    Some((*cell, *recorded, scene.cell(*cell)))
}

fn first_changed<'a>(cells: &'a [(Cell, Value)], scene: &Scene) -> Option<&'a (Cell, Value)>
    ensures { option_copied result ≡ find (differs (cell_in scene.now)) cells.now }
{
    cells.iter().find(|entry| differs(entry, scene))
}

fn differs(entry: &(Cell, Value), scene: &Scene) -> bool
    ensures { result ≡ differs (cell_in scene.now) entry.now }
{
    scene.cell(entry.0) != entry.1
}

// The run of a policy for a job, in this scene.
fn run_now(
    alloc: Global,
    policy: &Policy,
    number: u64,
    budget: u32,
    job: &Job,
    scene: &Scene,
) -> Result<Run, NoMemory>
    requires key { IsTrue (valid_key job.now.key) }
    requires budget { IsBudget budget }
    ensures run { IfOk result (λ run. IsRun run) }
    ensures call { IfOk result (λ run. IsOfCall policy.now number budget job.now.switch job.now.key run) }
    ensures cells { IfOk result (λ run. Gives (cell_in scene.now) run.cells) }
{
    let mut view = NowView::new(scene);
    let Ok(run) = record(
        alloc, policy, number, budget, job.switch, &job.key, &mut view,
    ) else {
        return Err(NoMemory);
    };
    run.law();
    Ok(run)
}
