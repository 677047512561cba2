// The machine, what it is told and what it answers, sessions and devices may go to another thread.
ghost use Rattle.machine_steps.specs.Sound.{AreInRange};

use core_machine::{Core, Entry, JobItem, Reply};
use device_port::Device;
use maple_base::{Settings, Turned};
use model_switch::{Backward, Failing, Liar, Logged, Orderly, Refusing, Shuffled};
use policy_text::read_policy;
use std::alloc::Global;
use std::test::Fail;
use std::thread::{Threads, join};
use switch_session::Session;

// The HELLO that a session begins with.
pub(crate) const HELLO: &[u8] = &[1, 0, 0, 8, 0, 0, 0, 0];

// The value, behind a stay in another thread.
fn and_back<T: Drop + Send>(rt: &impl Threads, value: T) -> T {
    let (value, ()) = join(rt, move || value, || ());
    value
}

fn items_and_back(rt: &impl Threads, items: Vec<JobItem>) -> Vec<JobItem> {
    and_back(rt, items)
}

fn reply_and_back(rt: &impl Threads, reply: Reply) -> Reply {
    and_back(rt, reply)
}

fn entry_and_back(rt: &impl Threads, entry: Entry) -> Entry {
    and_back(rt, entry)
}

fn core_and_back(rt: &impl Threads, core: Core) -> Core {
    and_back(rt, core)
}

pub(crate) fn machine(alloc: Global) -> Result<Core, Fail> {
    let Ok(policy) = read_policy(alloc, b"policy { drop; }") else {
        return Err(Fail::from("a policy"));
    };
    match Core::new(alloc, policy, settings()) {
        Ok(core) => Ok(core),
        Err(_) => Err(Fail::from("memory")),
    }
}

pub(crate) fn settings() -> Settings
    ensures { AreInRange result }
{
    Settings {
        capacity: 1,
        levels: 1,
        budget: 1,
        workers: 0,
    }
}

#[test]
fn machines(rt: HostRuntime) -> Result<(), Fail> {
    let items = items_and_back(&rt, Vec::new(rt.alloc()));
    assert!(&rt; items.is_empty());
    let reply = reply_and_back(&rt, Reply::Count(7));
    assert!(&rt; matches!(reply, Reply::Count(7)));
    let entry = entry_and_back(&rt, Entry::OpenJobs);
    assert!(&rt; matches!(entry, Entry::OpenJobs));
    let mut core = core_and_back(&rt, machine(rt.alloc())?);
    assert!(&rt; matches!(core.step(Entry::OpenJobs), Reply::Count(0)));
    Ok(())
}

#[test]
fn sessions(rt: HostRuntime) -> Result<(), Fail> {
    let Ok(opened) = Session::open(rt.alloc(), 1, 5) else {
        return Err(Fail::from("memory"));
    };
    let mut session = and_back(&rt, opened);
    match session.take_out() {
        Ok(bytes) => assert!(&rt; bytes.items() == HELLO),
        Err(_) => return Err(Fail::from("memory")),
    }
    Ok(())
}

// Whether no message waits in the device, behind a stay in another thread.
fn rests<D: Device + Send>(rt: &impl Threads, alloc: Global, device: D) -> bool {
    let mut device = and_back(rt, device);
    let mut out = Vec::new(alloc);
    matches!(device.turn(&mut out), Turned::Nothing) && out.is_empty()
}

fn orderly(alloc: Global) -> Orderly {
    Orderly::new(alloc, 1, 3, 2)
}

#[test]
fn devices(rt: HostRuntime) -> Result<(), Fail> {
    let alloc = rt.alloc();
    assert!(&rt; rests(&rt, alloc, orderly(alloc)));
    assert!(&rt; rests(&rt, alloc, Logged::new(alloc, orderly(alloc))));
    assert!(&rt; rests(&rt, alloc, Backward::new(alloc, 1, 3, 2)));
    assert!(&rt; rests(&rt, alloc, Failing::new(orderly(alloc), Vec::new(alloc))));
    assert!(&rt; rests(&rt, alloc, Refusing::new(orderly(alloc), Vec::new(alloc))));
    assert!(&rt; rests(&rt, alloc, Liar::new(orderly(alloc), 1, Vec::new(alloc))));
    assert!(&rt; rests(&rt, alloc, Shuffled::new(alloc, 1, 3, 2, 7)));
    let boxed: Box<dyn Device + Send> = Box::new(alloc, orderly(alloc))?;
    assert!(&rt; rests(&rt, alloc, boxed));
    Ok(())
}
