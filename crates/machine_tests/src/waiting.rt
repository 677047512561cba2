// A packet that waits is answered over a hall of the machine.
ghost use Rattle.std.specs.Prelude.{◌≡◌, ◌≤◌, IfSome, IsTrue};
ghost use Rattle.history_lock.specs.Passes.{IsPassOf, known, leads, opening, parts};
ghost use Rattle.machine_steps.specs.Admitting.{Admits};
ghost use Rattle.machine_steps.specs.Machine.{State};
ghost use Rattle.packet_workers.specs.Rounds.{IsBudgetOf};

use crate::works::{BUDGET, Told, machine};
use core_machine::{Core, Entry, Input, JobItem, Reply};
use env_cells::Update;
use history_lock::{Hall, Pass};
use maple_base::Place;
use of10_codec::decode;
use packet_workers::{Open, PacketWorks, Worked, work};
use std::alloc::{AllocError, Global};
use std::sync::Wait;
use std::test::Fail;
use worker_crew::{GaveUp, Works};

pub(crate) const TO_HOST: &[u8] = b"policy { if host(pkt.dl_dst) as h { out h.port; } flood; }";

// Asks an empty table for 4,000 numbers.
const ASKS_MUCH: &[u8] =
    b"table t; policy { let i = 0; while i < 4000 { if t[i] as v { out v; } i = i + 1; } flood; }";

// Its steps: 2 for the let and 1 for the while, 10 a round, 3 for the last test and 1 for the end.
const MUCH: u32 = 40_007;

// A HELLO and the reply to the first barrier (OpenFlow 1.0, 5.1).
const HELLO: &[u8] = &[1, 0, 0, 8, 0, 0, 0, 7];

const FIRST_BARRIER: &[u8] = &[1, 19, 0, 8, 0, 0, 0, 2];

// How the reply to the FEATURES_REQUEST begins, of switch 1 with four ports (5.3.1).
const FEATURES: &[u8] = &[1, 6, 0, 224, 0, 0, 0, 1, 0, 0, 0, 0, 0, 0, 0, 1];

// A PACKET_IN (5.4.1) at port 4, of a packet from 02:00:00:00:00:01 to 02:00:00:00:00:09.
const PACKET_IN: &[u8] = &[
    1, 10, 0, 32, 0, 0, 0, 0, 255, 255, 255, 255, 0, 14, 0, 4, 0, 0, 2, 0, 0, 0, 0, 9, 2, 0, 0, 0,
    0, 1, 0x90, 0,
];

const REPORT: &[u8] =
    b"open c1\nstate 1 pruned 0\nready c1 s1\nstate 2 pruned 0\nanswer s1 4 out 2 learned\n";

const SPENT_REPORT: &[u8] =
    b"open c1\nstate 1 pruned 0\nready c1 s1\nstate 2 pruned 0\nspent s1 4\n";

const FLOOD_REPORT: &[u8] =
    b"open c1\nstate 1 pruned 0\nready c1 s1\nstate 2 pruned 0\nanswer s1 4 flood learned\n";

// The machine does what an entry asks that may come at any moment.
fn enter<R: Wait>(rt: &R, hall: &Hall<Core>, pass: &mut Pass<Core>, entry: Entry) -> Option<Reply>
    requires hall { IsPassOf hall.now pass.old × IsTrue (leads pass.old) }
    requires plain { (m : State) → Admits m entry }
    ensures stays { IsPassOf hall.now pass.new × (opening pass.new ≡ opening pass.old) × (parts pass.new ≡ parts pass.old) }
    ensures leads { IsTrue (leads pass.new) }
{
    hall.call(rt, pass, entry).ok()
}

// What a message of connection 1 asks.
fn heard(alloc: Global, bytes: &[u8]) -> Option<Entry>
    ensures { IfSome result (λ entry. (m : State) → Admits m entry) }
{
    match decode(alloc, bytes) {
        Ok(message) => Some(Entry::Heard(1, Input::Message(message))),
        Err(_) => None,
    }
}

// Connection 1 brings the message of these bytes.
fn hear<R: Wait>(
    rt: &R,
    alloc: Global,
    hall: &Hall<Core>,
    pass: &mut Pass<Core>,
    bytes: &[u8],
) -> Option<Reply>
    requires { IsPassOf hall.now pass.old × IsTrue (leads pass.old) }
    ensures stays { IsPassOf hall.now pass.new × (opening pass.new ≡ opening pass.old) × (parts pass.new ≡ parts pass.old) }
    ensures leads { IsTrue (leads pass.new) }
{
    let entry = heard(alloc, bytes)?;
    enter(rt, hall, pass, entry)
}

fn features(alloc: Global) -> Result<Vec<u8>, AllocError> {
    let mut bytes = Vec::new(alloc);
    bytes.extend_from_slice(FEATURES)?;
    bytes.resize(32, 0)?;
    for port in 1..=4u8 {
        bytes.extend_from_slice(&[0, port])?;
        bytes.resize(bytes.len().saturating_add(46), 0)?;
    }
    Ok(bytes)
}

// Switch 1 comes by connection 1.
fn boot<R: Wait>(rt: &R, alloc: Global, hall: &Hall<Core>, pass: &mut Pass<Core>) -> Option<Reply>
    requires { IsPassOf hall.now pass.old × IsTrue (leads pass.old) }
    ensures stays { IsPassOf hall.now pass.new × (opening pass.new ≡ opening pass.old) × (parts pass.new ≡ parts pass.old) }
    ensures leads { IsTrue (leads pass.new) }
{
    let features = features(alloc).ok()?;
    enter(rt, hall, pass, Entry::Open(1))?;
    hear(rt, alloc, hall, pass, HELLO)?;
    hear(rt, alloc, hall, pass, &features)?;
    enter(rt, hall, pass, Entry::TakeOut(1))?;
    hear(rt, alloc, hall, pass, FIRST_BARRIER)
}

// The host 02:00:00:00:00:09 is at this port of switch 1 now.
pub(crate) fn host_at(port: u64) -> Entry
    ensures { (m : State) → Admits m result }
{
    let place = Place { switch: 1, port };
    let mac = 0x0200_0000_0009;
    Entry::Change(Update::Host { mac, place })
}

// The host stands at port 2, and a packet for it comes.
pub(crate) fn packet_for_host<R: Wait>(
    rt: &R,
    alloc: Global,
    hall: &Hall<Core>,
    pass: &mut Pass<Core>,
) -> Option<JobItem>
    requires { IsPassOf hall.now pass.old × IsTrue (leads pass.old) }
    ensures stays { IsPassOf hall.now pass.new × (opening pass.new ≡ opening pass.old) × (parts pass.new ≡ parts pass.old) }
    ensures leads { IsTrue (leads pass.new) }
{
    boot(rt, alloc, hall, pass)?;
    enter(rt, hall, pass, host_at(2))?;
    match hear(rt, alloc, hall, pass, PACKET_IN)? {
        Reply::Job(item) => Some(item),
        _ => None,
    }
}

// Whether the machine has this to report.
pub(crate) fn reports(mut core: Core, lines: &[u8]) -> bool {
    match core.step(Entry::TakeReport) {
        Reply::Lines(bytes) => bytes.items() == lines,
        _ => false,
    }
}

// How the work on a packet went: what it answered, what its gate was told, and the machine then.
#[derive(Drop)]
struct Outcome {
    worked: Worked,
    told: [u64; 4],
    core: Core,
}

// A packet comes and is worked on.
fn worked_on<R: Wait>(
    rt: &R,
    alloc: Global,
    hall: &Hall<Core>,
    pass: &mut Pass<Core>,
    budget: u32,
    told: &Told,
) -> Option<Worked>
    requires hall { IsPassOf hall.now pass.old × IsTrue (leads pass.old) }
    requires budget { IsBudgetOf budget (known pass.old) }
    ensures { IsPassOf hall.now pass.new × (parts pass.new ≡ parts pass.old) }
{
    let item = packet_for_host(rt, alloc, hall, pass)?;
    Some(work(rt, alloc, hall, pass, budget, item, told))
}

// The same at the machine of a policy, with so many steps a packet.
fn works_at<R: Wait>(rt: &R, alloc: Global, text: &[u8], budget: u32) -> Option<Outcome>
    requires { (1 ≤ budget) × (budget ≤ 65536) }
{
    let core = machine(alloc, text, budget)?;
    let Ok((hall, mut pass)) = Hall::open(alloc, core) else {
        return None;
    };
    let gate = Told::new();
    let worked = worked_on(rt, alloc, &hall, &mut pass, budget, &gate);
    let told = gate.all();
    let core = hall.close(pass);
    match worked {
        Some(worked) => Some(Outcome { worked, told, core }),
        None => None,
    }
}

#[test]
fn a_packet_that_waits(rt: HostRuntime) -> Result<(), Fail> {
    let Some(outcome) = works_at(&rt, rt.alloc(), TO_HOST, BUDGET) else {
        panic!(&rt; "no packet waits")
    };
    assert!(&rt; outcome.worked == Worked::Answered);
    assert!(&rt; outcome.told == [1, 1, 1, 1]);
    assert!(&rt; reports(outcome.core, REPORT));
    Ok(())
}

#[test]
fn a_policy_that_takes_too_many_steps(rt: HostRuntime) -> Result<(), Fail> {
    let Some(outcome) = works_at(&rt, rt.alloc(), TO_HOST, 1) else {
        panic!(&rt; "no packet waits")
    };
    assert!(&rt; outcome.worked == Worked::Spent);
    assert!(&rt; outcome.told == [1, 1, 1, 0]);
    assert!(&rt; reports(outcome.core, SPENT_REPORT));
    Ok(())
}

#[test]
fn a_policy_that_asks_much(rt: HostRuntime) -> Result<(), Fail> {
    let Some(outcome) = works_at(&rt, rt.alloc(), ASKS_MUCH, MUCH) else {
        panic!(&rt; "no packet waits")
    };
    assert!(&rt; outcome.worked == Worked::Answered);
    assert!(&rt; outcome.told == [1, 1, 1, 4000]);
    assert!(&rt; reports(outcome.core, FLOOD_REPORT));
    Ok(())
}

// As a crew's worker does it.
fn worked_in_crew<R: Wait>(
    rt: &R,
    alloc: Global,
    hall: &Hall<Core>,
    pass: &mut Pass<Core>,
    item: JobItem,
) -> Result<(), GaveUp>
    requires hall { IsPassOf hall.now pass.old }
    requires budget { IsBudgetOf 100 (known pass.old) }
    ensures stays { IsPassOf hall.now pass.new × (parts pass.new ≡ parts pass.old) }
{
    let works = PacketWorks {
        alloc,
        budget: BUDGET,
        gate: &Open,
    };
    works.work(rt, hall, pass, item)
}

#[test]
fn a_crews_work(rt: HostRuntime) -> Result<(), Fail> {
    let alloc = rt.alloc();
    let Some(core) = machine(alloc, TO_HOST, BUDGET) else {
        panic!(&rt; "memory")
    };
    let Ok((hall, mut pass)) = Hall::open(alloc, core) else {
        panic!(&rt; "memory")
    };
    let Some(item) = packet_for_host(&rt, alloc, &hall, &mut pass) else {
        panic!(&rt; "no packet waits")
    };
    let told = worked_in_crew(&rt, alloc, &hall, &mut pass, item);
    let core = hall.close(pass);
    assert!(&rt; told == Ok(()));
    assert!(&rt; reports(core, REPORT));
    Ok(())
}
