// A packet that waits is worked on over a hall of the machine, and a gate is told of it.
ghost use Rattle.std.specs.Prelude.{◌≡◌, ◌≤◌, IfSome};

use core_machine::{Core, JobItem};
use history_lock::Hall;
use maple_base::{Key, Settings};
use packet_workers::{Gate, Worked, work};
use policy_text::read_policy;
use std::alloc::Global;
use std::sync::atomic::{AtomicU64, Ordering};
use std::test::Fail;

pub(crate) const BUDGET: u32 = 100;

const DROPS: &[u8] = b"policy { drop; }";

// How often a gate was told, and what was said last.
#[derive(Drop)]
pub(crate) struct Told {
    before: AtomicU64,
    after: AtomicU64,
    job: AtomicU64,
    asked: AtomicU64,
}

impl Told {
    pub(crate) fn new() -> Told {
        Told {
            before: AtomicU64::new(0),
            after: AtomicU64::new(0),
            job: AtomicU64::new(0),
            asked: AtomicU64::new(0),
        }
    }

    // How often before and after, of which job, with how many cells.
    pub(crate) fn all(&self) -> [u64; 4] {
        [
            self.before.load(Ordering::SeqCst),
            self.after.load(Ordering::SeqCst),
            self.job.load(Ordering::SeqCst),
            self.asked.load(Ordering::SeqCst),
        ]
    }
}

impl Gate for Told {
    fn before(&self, _job: u64) {
        self.before.fetch_add(1, Ordering::SeqCst);
    }

    fn after(&self, job: u64, asked: u32) {
        self.after.fetch_add(1, Ordering::SeqCst);
        self.job.store(job, Ordering::SeqCst);
        self.asked.store(u64::from(asked), Ordering::SeqCst);
    }
}

// The machine of a policy, with so many steps a packet.
pub(crate) fn machine(alloc: Global, text: &[u8], budget: u32) -> Option<Core>
    requires { (1 ≤ budget) × (budget ≤ 65536) }
    ensures { IfSome result (λ core. core.settings.budget ≡ budget) }
{
    let policy = read_policy(alloc, text).ok()?;
    let settings = Settings {
        capacity: 100,
        levels: 50,
        budget,
        workers: 0,
    };
    Core::new(alloc, policy, settings).ok()
}

// A packet that no switch sent.
fn unsent() -> Option<JobItem> {
    let key = Key {
        in_port: 1,
        dl_src: 1,
        dl_dst: 2,
        dl_vlan: 0xffff,
        dl_pcp: 0,
        dl_type: 0x9000,
        nw_tos: 0,
        nw_proto: 0,
        nw_src: 0,
        nw_dst: 0,
        tp_src: 0,
        tp_dst: 0,
    };
    if key.valid() {
        Some(JobItem::new(5, 1, key))
    } else {
        None
    }
}

#[test]
fn a_packet_that_does_not_wait(rt: HostRuntime) -> Result<(), Fail> {
    let alloc = rt.alloc();
    let Some(core) = machine(alloc, DROPS, BUDGET) else {
        panic!(&rt; "memory")
    };
    let Some(item) = unsent() else {
        panic!(&rt; "a key")
    };
    let Ok((hall, mut pass)) = Hall::open(alloc, core) else {
        panic!(&rt; "memory")
    };
    let told = Told::new();
    let worked = work(&rt, alloc, &hall, &mut pass, BUDGET, item, &told);
    hall.close(pass);
    assert!(&rt; worked == Worked::NotOpen);
    assert!(&rt; told.all() == [1, 1, 5, 0]);
    Ok(())
}
