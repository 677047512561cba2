// Two threads call one machine: one leads, and one reads.
ghost use Rattle.std.specs.Prelude.{◌≡◌, IsTrue};
ghost use Rattle.history_lock.specs.Histories.{IsAdmitted, IsAllowed};
ghost use Rattle.history_lock.specs.Passes.{IsPassOf, known, leads, parts};

use crate::threads::{HELLO, machine};
use core_machine::{Core, Entry, Reply};
use history_lock::{Hall, Machine, Pass};
use std::sync::Wait;
use std::test::Fail;
use std::thread::{Threads, join};

// What a call was answered, with its pass.
type Asked<M> = (Option<<M as Machine>::Reply>, Pass<M>);

// Two threads call a machine, each once.
fn both<R: Threads + Wait + Sync, M: Machine + Send>(
    rt: &R,
    hall: &Hall<M>,
    mut a: Pass<M>,
    mut b: Pass<M>,
    first: M::Entry,
    second: M::Entry,
) -> (Asked<M>, Asked<M>)
where
    M::Entry: Send + Drop,
    M::Reply: Send + Drop,
    requires halls { IsPassOf hall.now a × IsPassOf hall.now b }
    requires first { IsAdmitted M.steps M.allows M.admits (known a) first × IsAllowed M.steps M.allows (known a) first }
    requires second { IsAdmitted M.steps M.allows M.admits (known b) second × IsAllowed M.steps M.allows (known b) second }
    ensures left { IsPassOf hall.now result.0.1 × (parts result.0.1 ≡ parts a) }
    ensures right { IsPassOf hall.now result.1.1 × (parts result.1.1 ≡ parts b) }
{
    join(
        rt,
        move || -> Asked<M>
            requires { IsPassOf hall.now a × IsAdmitted M.steps M.allows M.admits (known a) first × IsAllowed M.steps M.allows (known a) first }
            ensures { IsPassOf hall.entry.now result.1 × (parts result.1 ≡ parts a) }
        {
            let reply = hall.call(rt, &mut a, first).ok();
            (reply, a)
        },
        move || -> Asked<M>
            requires { IsPassOf hall.now b × IsAdmitted M.steps M.allows M.admits (known b) second × IsAllowed M.steps M.allows (known b) second }
            ensures { IsPassOf hall.entry.now result.1 × (parts result.1 ≡ parts b) }
        {
            let reply = hall.call(rt, &mut b, second).ok();
            (reply, b)
        },
    )
}

// One leads and opens a connection, the other reads the policy.
fn open_and_read<R: Threads + Wait + Sync>(
    rt: &R,
    hall: &Hall<Core>,
    a: Pass<Core>,
    b: Pass<Core>,
) -> (Asked<Core>, Asked<Core>)
    requires { IsPassOf hall.now a × IsTrue (leads a) × IsPassOf hall.now b }
    ensures left { IsPassOf hall.now result.0.1 × (parts result.0.1 ≡ parts a) }
    ensures right { IsPassOf hall.now result.1.1 × (parts result.1.1 ≡ parts b) }
{
    both(rt, hall, a, b, Entry::Open(1), Entry::ReadPolicy)
}

fn is_done(reply: Option<Reply>) -> bool {
    matches!(reply, Some(Reply::Done))
}

fn is_first_policy(reply: Option<Reply>) -> bool {
    matches!(reply, Some(Reply::Policy(0, _)))
}

// Whether the machine has a HELLO for the connection.
fn greets(mut core: Core) -> bool {
    match core.step(Entry::TakeOut(1)) {
        Reply::Out(bytes) => bytes.items() == HELLO,
        _ => false,
    }
}

#[test]
fn one_leads_and_one_reads(rt: HostRuntime) -> Result<(), Fail> {
    let Ok((hall, mut a)) = Hall::open(rt.alloc(), machine(rt.alloc())?) else {
        panic!(&rt; "memory")
    };
    let b = hall.split(&mut a, 512);
    let ((opened, mut a), (policy, b)) = open_and_read(&rt, &hall, a, b);
    hall.join(&mut a, b);
    let core = hall.close(a);
    assert!(&rt; is_done(opened));
    assert!(&rt; is_first_policy(policy));
    assert!(&rt; greets(core));
    Ok(())
}
