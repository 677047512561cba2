// The work on a packet that waits, in rounds.
ghost use Rattle.std.specs.Prelude.{◌≡◌, ◌∷◌, [], ◌+◌, ◌<◌, ◌≤◌, ◌^◌, IfOk, IfErr};
ghost use Rattle.history_lock.specs.Passes.{IsPassOf, hall as place, known, seen};
ghost use Rattle.machine_steps.specs.declared.entry.Entry.TheVariants.{Commit as CommitEntry, Decide as DecideEntry};
ghost use Rattle.machine_steps.specs.declared.reply.Reply.TheVariants.{NoMemory as LacksMemory};
ghost use Rattle.packet_workers.specs.declared.worked.Worked.TheVariants.{NoMemory};
ghost use Rattle.policy_eval.specs.Answers.{IsBudget};
ghost use Rattle.machine_sharing.specs.Longer.{IsTold, Lends};
ghost use Rattle.machine_sharing.specs.Sharing.{stale_count};
ghost use Rattle.packet_workers.specs.Rounds.{Does, IsBudgetOf, Works, worked_by};
ghost use Rattle.packet_workers.specs.Pieces.{CommitsBack, CommitsLast, Ends, EndsWork, GoesBack, IsLending, IsStaleCommit};
ghost use Rattle.packet_workers.specs.Pieces.{LendsIt, LendsNot, Records, RecordsNot, unrecorded_by};

use crate::gate::Gate;
use crate::view::{Back, HallView, Start};
use crate::worked::Worked;
use core_machine::{Core, Entry, JobItem, Reply};
use history_lock::{Hall, Pass};
use machine_sharing::longer_laws;
use policy_lang::Policy;
use std::alloc::Global;
use std::marker::Brand;
use std::sync::{Arc, Wait};
use trace_record::{RecordError, Run, record};

// The most rounds, ahead of the decision.
const ROUNDS: u32 = 3;

// What the work on a packet goes by.
#[derive(Drop)]
struct Task<'a> {
    alloc: Global,
    hall: &'a Hall<Core>,
    budget: u32,
    item: JobItem,
}

/// Works on a packet that waits, by a pass of the machine's hall. In each round the policy is read, a run of it is recorded,
/// of which each cell is read by an entry of its own, and the run is committed: so evaluation runs between calls. Behind the
/// third stale Commit the machine is asked to decide itself.
///
/// The budget, in steps, is that of the machine's settings. The gate is told ahead of the first Commit, and behind the last
/// reply.
pub fn work<R: Wait, G: Gate>(
    rt: &R,
    alloc: Global,
    hall: &Hall<Core>,
    pass: &mut Pass<Core>,
    budget: u32,
    item: JobItem,
    gate: &G,
) -> Worked
    requires hall { IsPassOf hall.now pass.old }
    requires budget { IsBudgetOf budget (known pass.old) }
    ensures hall { IsPassOf hall.now pass.new }
    ensures works { Works item budget (known pass.old) (known pass.new) result }
{
    let task = Task {
        alloc,
        hall,
        budget,
        item,
    };
    let (worked, asked) = task.rounds(rt, gate, pass, ROUNDS, 0);
    gate.after(task.item.job(), asked);
    worked
}

impl<'a> Task<'a> {
    // So many rounds, and then the decision. Also how many cells were asked, beside those so far.
    fn rounds<R: Wait, G: Gate>(
        &self,
        rt: &R,
        gate: &G,
        pass: &mut Pass<Core>,
        left: u32,
        asked: u32,
    ) -> (Worked, u32)
        requires hall { IsPassOf self.now.hall.now pass.old }
        requires budget { IsBudgetOf self.now.budget (known pass.old) }
        requires stale { 3 ≤ left + stale_count self.now.item.job (seen pass.old) }
        ensures hall { IsPassOf self.now.hall.now pass.new }
        ensures does { Does left self.now.item self.now.budget (known pass.old) (known pass.new) result.0 }
    {
        if left == 0 {
            return (self.decide(rt, pass), asked);
        }
        let (outcome, more) = self.round(rt, gate, pass, left == ROUNDS);
        let asked = asked.saturating_add(more);
        match outcome {
            Err(worked) => (worked, asked),
            Ok(()) => self.rounds(rt, gate, pass, left - 1, asked),
        }
    }

    // One round, the first or a later one. Ok where its run was stale. Also how many cells were asked.
    fn round<R: Wait, G: Gate>(
        &self,
        rt: &R,
        gate: &G,
        pass: &mut Pass<Core>,
        first: bool,
    ) -> (Result<(), Worked>, u32)
        requires hall { IsPassOf self.now.hall.now pass.old }
        requires budget { IsBudgetOf self.now.budget (known pass.old) }
        ensures hall { IsPassOf self.now.hall.now pass.new }
        ensures back { IfOk result.0 (λ _. GoesBack self.now.item self.now.budget (known pass.old) (known pass.new)) }
        ensures ends { IfErr result.0 (λ worked. EndsWork self.now.item self.now.budget (known pass.old) (known pass.new) worked) }
    {
        longer_laws();
        match self.lend(rt, pass) {
            Err(worked) => (Err(worked), 0),
            Ok((number, policy)) => self.committed(rt, gate, pass, first, number, policy),
        }
    }

    // The policy in force, with its number.
    fn lend<R: Wait>(&self, rt: &R, pass: &mut Pass<Core>) -> Result<(u64, Arc<Policy>), Worked>
        requires hall { IsPassOf self.now.hall.now pass.old }
        ensures hall { IsPassOf self.now.hall.now pass.new }
        ensures lent { IfOk result (λ lent. LendsIt lent.0 lent.1.value (known pass.old) (known pass.new)) }
        ensures broken { IfErr result (λ worked. LendsNot worked (known pass.old) (known pass.new)) }
    {
        longer_laws();
        match self.hall.call(rt, pass, Entry::ReadPolicy) {
            Ok(reply) => lent(reply),
            Err(_) => Err(Worked::Worn),
        }
    }

    // The rest of a round, whose policy was lent.
    fn committed<R: Wait, G: Gate>(
        &self,
        rt: &R,
        gate: &G,
        pass: &mut Pass<Core>,
        first: bool,
        number: u64,
        policy: Arc<Policy>,
    ) -> (Result<(), Worked>, u32)
        requires hall { IsPassOf self.now.hall.now pass.old }
        requires small { (known pass.old).number < 2 ^ 62 }
        requires budget { IsBudgetOf self.now.budget (known pass.old) × IsBudget self.now.budget }
        requires told { IsTold number policy.value (seen pass.old) }
        ensures hall { IsPassOf self.now.hall.now pass.new }
        ensures back { IfOk result.0 (λ _. CommitsBack self.now.item self.now.budget number policy.value (known pass.old) (known pass.new)) }
        ensures ends { IfErr result.0 (λ worked. CommitsLast self.now.item self.now.budget number policy.value (known pass.old) (known pass.new) worked) }
    {
        longer_laws();
        let (recorded, asked) = self.recorded(rt, pass, &policy, number);
        match recorded {
            Err(worked) => (Err(worked), asked),
            Ok(run) => {
                tell_first(gate, &self.item, first);
                (self.commit(rt, pass, run), asked)
            }
        }
    }

    // A run of a policy for the packet, over cells that are read for it. Also how many were asked.
    fn recorded<R: Wait>(
        &self,
        rt: &R,
        pass: &mut Pass<Core>,
        policy: &Policy,
        number: u64,
    ) -> (Result<Run, Worked>, u32)
        requires hall { IsPassOf self.now.hall.now pass.old }
        requires small { (known pass.old).number < 2 ^ 62 }
        requires budget { IsBudget self.now.budget }
        ensures hall { IsPassOf self.now.hall.now pass.new }
        ensures run { IfOk result.0 (λ run. Records self.now.item self.now.budget number policy.now (known pass.old) (known pass.new) run) }
        ensures broken { IfErr result.0 (λ worked. RecordsNot (known pass.old) (known pass.new) worked) }
    {
        self.recorded_over::<R, Brand>(rt, pass, policy, number)
            .into_value()
    }

    // The same, over a view that begins there, by this reference.
    fn recorded_over<'p, R: Wait, J: Start>(
        &'p self,
        rt: &'p R,
        pass: &'p mut Pass<Core>,
        policy: &Policy,
        number: u64,
    ) -> Back<'p, (Result<Run, Worked>, u32)>
        requires hall { IsPassOf self.now.hall.now pass.now }
        requires start { J.start ≡ known pass.now }
        requires halls { J.halls ≡ place pass.now ∷ [] }
        requires name { J.name ≡ pass.ghost_name }
        requires small { (known pass.now).number < 2 ^ 62 }
        requires budget { IsBudget self.now.budget }
        ensures same_reference { result.pass.ghost_name ≡ pass.entry.ghost_name }
        ensures hall { IsPassOf self.now.hall.now result.pass.now }
        ensures run { IfOk result.value.0 (λ run. Records self.now.item self.now.budget number policy.now (known pass.old) (known result.pass.now) run) }
        ensures broken { IfErr result.value.0 (λ worked. RecordsNot (known pass.old) (known result.pass.now) worked) }
    {
        let mut view = HallView::<'p, R, J>::new(rt, self.hall, pass);
        let recorded = record(
            self.alloc,
            policy,
            number,
            self.budget,
            self.item.switch(),
            self.item.key(),
            &mut view,
        );
        let Back { pass, value: asked } = view.finish();
        match recorded {
            Ok(run) => {
                run.law();
                let value = (Ok(run), asked);
                Back { pass, value }
            }
            Err(why) => {
                let value = (Err(unrecorded(why)), asked);
                Back { pass, value }
            }
        }
    }

    // Commits a run of a policy that was lent.
    fn commit<R: Wait>(&self, rt: &R, pass: &mut Pass<Core>, run: Run) -> Result<(), Worked>
        requires hall { IsPassOf self.now.hall.now pass.old }
        requires budget { IsBudgetOf self.now.budget (known pass.old) × (run.budget ≡ self.now.budget) }
        requires packet { (run.switch ≡ self.now.item.switch) × (run.key ≡ self.now.item.key) }
        requires told { IsTold run.number run.policy (seen pass.old) }
        ensures hall { IsPassOf self.now.hall.now pass.new }
        ensures stale { IfOk result (λ _. IsStaleCommit self.now.item.job run (known pass.old) (known pass.new)) }
        ensures ends { IfErr result (λ worked. Ends self.now.item (CommitEntry self.now.item.job run) (known pass.old) (known pass.new) worked) }
    {
        longer_laws();
        run.law();
        let job = self.item.job();
        match self.hall.call(rt, pass, Entry::Commit { job, run }) {
            Ok(reply) => match ended(reply) {
                Some(worked) => Err(worked),
                None => Ok(()),
            },
            Err(_) => Err(Worked::Worn),
        }
    }

    // The machine decides itself.
    fn decide<R: Wait>(&self, rt: &R, pass: &mut Pass<Core>) -> Worked
        requires hall { IsPassOf self.now.hall.now pass.old }
        requires stale { 3 ≤ stale_count self.now.item.job (seen pass.old) }
        ensures hall { IsPassOf self.now.hall.now pass.new }
        ensures ends { Ends self.now.item (DecideEntry self.now.item.job) (known pass.old) (known pass.new) result }
    {
        longer_laws();
        match self.hall.call(rt, pass, Entry::Decide(self.item.job())) {
            Ok(reply) => match ended(reply) {
                Some(worked) => worked,
                None => unreachable!(),
            },
            Err(_) => Worked::Worn,
        }
    }
}

// Tells the gate of the first Commit.
fn tell_first<G: Gate>(gate: &G, item: &JobItem, first: bool) {
    if first {
        gate.before(item.job());
    }
}

// What a ReadPolicy replied.
fn lent(reply: Reply) -> Result<(u64, Arc<Policy>), Worked>
    requires lending { IsLending reply }
    ensures lent { IfOk result (λ lent. Lends lent.0 lent.1.value reply) }
    ensures broken { IfErr result (λ worked. (reply ≡ LacksMemory) × (worked ≡ NoMemory)) }
{
    match reply {
        Reply::Policy(number, policy) => Ok((number, policy)),
        Reply::NoMemory => Err(Worked::NoMemory),
        _ => unreachable!(),
    }
}

// Why no run was recorded.
fn unrecorded(why: RecordError) -> Worked
    ensures { result ≡ unrecorded_by why }
{
    match why {
        RecordError::Unread => Worked::Worn,
        RecordError::NoMemory => Worked::NoMemory,
    }
}

// What a last reply says.
fn ended(reply: Reply) -> Option<Worked>
    ensures { result ≡ worked_by reply }
{
    match reply {
        Reply::Answered { .. } => Some(Worked::Answered),
        Reply::Spent => Some(Worked::Spent),
        Reply::NotOpen => Some(Worked::NotOpen),
        Reply::NoMemory => Some(Worked::NoMemory),
        _ => None,
    }
}
