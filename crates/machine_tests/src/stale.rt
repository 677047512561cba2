// A packet is worked on while another thread moves its host, so that its first Commit is stale.
ghost use Rattle.std.specs.Prelude.{◌≡◌, IsTrue};
ghost use Rattle.history_lock.specs.declared.view.Known.{Known};
ghost use Rattle.history_lock.specs.Histories.{IsAdmitted, IsAllowed};
ghost use Rattle.history_lock.specs.Passes.{IsPassOf, known, leads, parts};
ghost use Rattle.packet_workers.specs.Rounds.{IsBudgetOf};

use crate::waiting::{TO_HOST, host_at, packet_for_host, reports};
use crate::works::{BUDGET, Told, machine};
use core_machine::{Core, JobItem, Reply};
use history_lock::{Hall, Machine, Pass};
use packet_workers::{Gate, Worked, work};
use std::alloc::Global;
use std::sync::Wait;
use std::sync::atomic::{AtomicBool, Ordering};
use std::test::Fail;
use std::thread;
use std::thread::{Threads, join};

// How often a thread looks whether the other one is there.
const TRIES: u32 = 20_000_000;

// The host moves to port 3 behind the first run, so the second one answers.
const REPORT: &[u8] =
    b"open c1\nstate 1 pruned 0\nready c1 s1\nstate 2 pruned 0\nstate 3 pruned 0\nstale 1\nanswer s1 4 out 3 learned\n";

// Whether it is set, within so many tries.
fn comes(flag: &AtomicBool) -> bool {
    for _ in 0..TRIES {
        if flag.load(Ordering::SeqCst) {
            return true;
        }
        thread::yield_now();
    }
    false
}

// Holds the first Commit up until the other thread has made its call.
#[derive(Drop)]
struct Meeting {
    told: Told,
    held: AtomicBool,
    called: AtomicBool,
    late: AtomicBool,
}

impl Meeting {
    fn new() -> Meeting {
        Meeting {
            told: Told::new(),
            held: AtomicBool::new(false),
            called: AtomicBool::new(false),
            late: AtomicBool::new(false),
        }
    }

    // Waits for the other thread. Where it doesn't come, they didn't meet.
    fn wait_for(&self, flag: &AtomicBool) {
        if !comes(flag) {
            self.late.store(true, Ordering::SeqCst);
        }
    }

    fn wait_for_commit(&self) {
        self.wait_for(&self.held);
    }

    fn has_called(&self) {
        self.called.store(true, Ordering::SeqCst);
    }

    fn met(&self) -> bool {
        !self.late.load(Ordering::SeqCst)
    }
}

impl Gate for Meeting {
    fn before(&self, job: u64) {
        self.told.before(job);
        self.held.store(true, Ordering::SeqCst);
        self.wait_for(&self.called);
    }

    fn after(&self, job: u64, asked: u32) {
        self.told.after(job, asked);
    }
}

// What a thread works at a machine.
trait Task<M: Machine> {
    // What its pass has to know.
    ghost suits: { Self → Known M M.Entry M.Reply → Type 0 };

    fn perform<R: Wait>(&self, rt: &R, hall: &Hall<M>, pass: &mut Pass<M>) -> Worked
        requires hall { IsPassOf hall.now pass.old }
        requires suits { suits self.now (known pass.old) }
        ensures { IsPassOf hall.now pass.new × (parts pass.new ≡ parts pass.old) };
}

// A packet that waits, and who is told of its work.
#[derive(Clone, Copy)]
struct Packet<'a> {
    alloc: Global,
    item: JobItem,
    meeting: &'a Meeting,
}

impl<'a> Task<Core> for Packet<'a> {
    ghost suits = { λ p k. IsBudgetOf 100 k };

    fn perform<R: Wait>(&self, rt: &R, hall: &Hall<Core>, pass: &mut Pass<Core>) -> Worked {
        work(rt, self.alloc, hall, pass, BUDGET, self.item, self.meeting)
    }
}

// Makes a call once the other thread's Commit is held up.
fn call_between<R: Wait, M: Machine>(
    rt: &R,
    hall: &Hall<M>,
    pass: &mut Pass<M>,
    entry: M::Entry,
    meeting: &Meeting,
) -> Option<M::Reply>
where
    M::Entry: Drop,
    requires hall { IsPassOf hall.now pass.old }
    requires admitted { IsAdmitted M.steps M.allows M.admits (known pass.old) entry }
    requires allowed { IsAllowed M.steps M.allows (known pass.old) entry }
    ensures { IsPassOf hall.now pass.new × (parts pass.new ≡ parts pass.old) }
{
    meeting.wait_for_commit();
    let reply = hall.call(rt, pass, entry).ok();
    meeting.has_called();
    reply
}

// One thread performs a task, and this one makes a call meanwhile.
fn beside<R: Threads + Wait + Sync, M: Machine + Send, T: Task<M> + Sync>(
    rt: &R,
    hall: &Hall<M>,
    mut a: Pass<M>,
    mut b: Pass<M>,
    task: &T,
    entry: M::Entry,
    meeting: &Meeting,
) -> ((Worked, Pass<M>), (Option<M::Reply>, Pass<M>))
where
    M::Entry: Send + Drop,
    M::Reply: Send + Drop,
    requires halls { IsPassOf hall.now a × IsPassOf hall.now b }
    requires task { T.suits task.now (known a) }
    requires admitted { IsAdmitted M.steps M.allows M.admits (known b) entry }
    requires allowed { IsAllowed M.steps M.allows (known b) entry }
    ensures left { IsPassOf hall.now result.0.1 × (parts result.0.1 ≡ parts a) }
    ensures right { IsPassOf hall.now result.1.1 × (parts result.1.1 ≡ parts b) }
{
    join(
        rt,
        move || -> (Worked, Pass<M>)
            requires { IsPassOf hall.now a × T.suits task.now (known a) }
            ensures { IsPassOf hall.entry.now result.1 × (parts result.1 ≡ parts a) }
        {
            let worked = task.perform(rt, hall, &mut a);
            (worked, a)
        },
        move || -> (Option<M::Reply>, Pass<M>)
            requires { IsPassOf hall.now b × IsAdmitted M.steps M.allows M.admits (known b) entry × IsAllowed M.steps M.allows (known b) entry }
            ensures { IsPassOf hall.entry.now result.1 × (parts result.1 ≡ parts b) }
        {
            let reply = call_between(rt, hall, &mut b, entry, meeting);
            (reply, b)
        },
    )
}

// The packet is worked on, and its host moves to port 3 ahead of the first Commit.
fn work_and_move<R: Threads + Wait + Sync>(
    rt: &R,
    hall: &Hall<Core>,
    worker: Pass<Core>,
    leader: Pass<Core>,
    packet: &Packet,
) -> ((Worked, Pass<Core>), (Option<Reply>, Pass<Core>))
    requires halls { IsPassOf hall.now worker × IsPassOf hall.now leader }
    requires leads { IsTrue (leads leader) }
    requires budget { IsBudgetOf 100 (known worker) }
    ensures left { IsPassOf hall.now result.0.1 × (parts result.0.1 ≡ parts worker) }
    ensures right { IsPassOf hall.now result.1.1 × (parts result.1.1 ≡ parts leader) }
{
    beside(rt, hall, worker, leader, packet, host_at(3), packet.meeting)
}

fn is_third_state(reply: Option<Reply>) -> bool {
    matches!(
        reply,
        Some(Reply::NewState {
            state: 3,
            pruned: 0
        })
    )
}

#[test]
fn a_stale_round(rt: HostRuntime) -> Result<(), Fail> {
    let alloc = rt.alloc();
    let Some(core) = machine(alloc, TO_HOST, BUDGET) else {
        panic!(&rt; "memory")
    };
    let Ok((hall, mut a)) = Hall::open(alloc, core) else {
        panic!(&rt; "memory")
    };
    let Some(item) = packet_for_host(&rt, alloc, &hall, &mut a) else {
        panic!(&rt; "no packet waits")
    };
    let b = hall.split(&mut a, 512);
    let meeting = Meeting::new();
    let packet = Packet {
        alloc,
        item,
        meeting: &meeting,
    };
    let ((worked, b), (moved, mut a)) = work_and_move(&rt, &hall, b, a, &packet);
    hall.join(&mut a, b);
    let core = hall.close(a);
    assert!(&rt; meeting.met());
    assert!(&rt; is_third_state(moved));
    assert!(&rt; worked == Worked::Answered);
    assert!(&rt; meeting.told.all() == [1, 1, 1, 2]);
    assert!(&rt; reports(core, REPORT));
    Ok(())
}
