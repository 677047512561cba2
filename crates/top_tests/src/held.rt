// Gates that hold packets up until others come.
use crate::running::{BOOT, BOOTED, run};
use maple_top::Status;
use packet_workers::{Gate, Open};
use std::alloc::{AllocError, Global};
use std::sync::atomic::{AtomicBool, AtomicU32, Ordering};
use std::test::Fail;
use std::thread;

// How often a thread looks whether what it waits for is there.
const TRIES: u32 = 500_000_000;

const SSH: &str = "policy { if pkt.tp_dst is 22 { drop; } out 2; }\n%%\n";

// Whether the first packet's work began, whether that of the second is over, and whether one of them waited in vain.
#[derive(Drop)]
struct Crossed {
    first_came: AtomicBool,
    second_went: AtomicBool,
    is_late: AtomicBool,
}

impl Crossed {
    fn new() -> Crossed {
        Crossed {
            first_came: AtomicBool::new(false),
            second_went: AtomicBool::new(false),
            is_late: AtomicBool::new(false),
        }
    }

    fn wait_for(&self, flag: &AtomicBool) {
        if !comes(flag) {
            self.is_late.store(true, Ordering::SeqCst);
        }
    }

    fn met(&self) -> bool {
        !self.is_late.load(Ordering::SeqCst)
    }
}

// Whether it is set, within so many tries.
fn comes(flag: &AtomicBool) -> bool {
    for _ in 0..TRIES {
        if flag.load(Ordering::SeqCst) {
            return true;
        }
        thread::yield_now();
    }
    false
}

impl Gate for Crossed {
    fn before(&self, job: u64) {
        match job {
            1 => {
                self.first_came.store(true, Ordering::SeqCst);
                self.wait_for(&self.second_went);
            }
            2 => self.wait_for(&self.first_came),
            _ => {}
        }
    }

    fn after(&self, job: u64, _asked: u32) {
        if job == 2 {
            self.second_went.store(true, Ordering::SeqCst);
        }
    }
}

fn text_of(alloc: Global, parts: &[&str]) -> Result<String, AllocError> {
    let mut text = String::new(alloc);
    for part in parts {
        text.push_str(part)?;
    }
    Ok(text)
}

// Two packets hold each other: no thread could work them one behind the other.
#[test]
fn two_packets_that_hold_each_other(rt: HostRuntime) -> Result<(), Fail> {
    let packets = "packet 1 1 tp_dst=80\npacket 1 1 tp_dst=22\n";
    let input = text_of(rt.alloc(), &[SSH, BOOT, packets])?;
    let lines =
        "miss c1 1 0\nmiss c1 1 0\nanswer s1 1 drop learned\nanswer s1 1 out 2 learned\nend\n";
    let wanted = text_of(rt.alloc(), &[BOOTED, lines])?;
    for turn in 0..200 {
        let gate = Crossed::new();
        let came = run(&rt, rt.alloc(), "sim --workers 2", &input, &gate, &[])?;
        assert!(rt; gate.met(), "run {turn}");
        assert_eq!(&rt; came.status, Status::Done);
        assert_eq!(&rt; came.text(), wanted.as_str());
    }
    Ok(())
}

// Holds packets up until three are there.
#[derive(Drop)]
struct Crowd {
    came: AtomicU32,
    is_late: AtomicBool,
}

impl Crowd {
    fn new() -> Crowd {
        Crowd {
            came: AtomicU32::new(0),
            is_late: AtomicBool::new(false),
        }
    }

    fn met(&self) -> bool {
        !self.is_late.load(Ordering::SeqCst)
    }
}

// Whether it comes to three, within so many tries.
fn fills(count: &AtomicU32) -> bool {
    for _ in 0..TRIES {
        if count.load(Ordering::SeqCst) >= 3 {
            return true;
        }
        thread::yield_now();
    }
    false
}

impl Gate for Crowd {
    fn before(&self, _job: u64) {
        self.came.fetch_add(1, Ordering::SeqCst);
        if !fills(&self.came) {
            self.is_late.store(true, Ordering::SeqCst);
        }
    }

    fn after(&self, _job: u64, _asked: u32) {}
}

// How many lines of a report begin so.
fn count_of(report: &str, beginning: &str) -> u32 {
    let mut count = 0u32;
    for line in report.lines() {
        if line.starts_with(beginning) {
            count = count.saturating_add(1);
        }
    }
    count
}

// 5,000 packets come before a device has a turn.
fn packets(alloc: Global) -> Result<String, AllocError> {
    let mut input = text_of(alloc, &[SSH, BOOT])?;
    for _ in 0..5000 {
        input.push_str("packet 1 1 tp_dst=80\n")?;
    }
    Ok(input)
}

// Whether each of these packets missed and was answered, in a run that came to its end.
fn are_answered(report: &str) -> bool {
    report.starts_with(BOOTED)
        && report.ends_with("\nend\n")
        && count_of(report, "miss c1 1 0") == 5000
        && count_of(report, "answer s1 1 out 2 ") == 5000
        && report.lines().count() == 10_005
}

#[test]
fn more_packets_than_may_wait(rt: HostRuntime) -> Result<(), Fail> {
    let input = packets(rt.alloc())?;
    let came = run(&rt, rt.alloc(), "sim --workers 0", &input, &Open, &[])?;
    assert_eq!(&rt; came.status, Status::Done);
    assert!(&rt; are_answered(came.text()));

    // Both workers are held up, so as many packets wait as may: then the driver works one itself.
    let gate = Crowd::new();
    let came = run(&rt, rt.alloc(), "sim --workers 2", &input, &gate, &[])?;
    assert!(&rt; gate.met());
    assert_eq!(&rt; came.status, Status::Done);
    assert!(&rt; are_answered(came.text()));
    Ok(())
}

// Counts the packets that were worked.
#[derive(Drop)]
struct Counts {
    before: AtomicU32,
    after: AtomicU32,
}

impl Counts {
    fn new() -> Counts {
        Counts {
            before: AtomicU32::new(0),
            after: AtomicU32::new(0),
        }
    }

    // Whether it was told of so many, ahead and behind.
    fn are(&self, packets: u32) -> bool {
        self.before.load(Ordering::SeqCst) == packets
            && self.after.load(Ordering::SeqCst) == packets
    }
}

impl Gate for Counts {
    fn before(&self, _job: u64) {
        self.before.fetch_add(1, Ordering::SeqCst);
    }

    fn after(&self, _job: u64, _asked: u32) {
        self.after.fetch_add(1, Ordering::SeqCst);
    }
}

// Whoever works a packet, the gate is told of it.
#[test]
fn the_gate_is_told_of_each_packet(rt: HostRuntime) -> Result<(), Fail> {
    let packets = "packet 1 1 tp_dst=80\npacket 1 1 tp_dst=22\n";
    let input = text_of(rt.alloc(), &[SSH, BOOT, packets])?;
    for words in ["sim --workers 0", "sim --workers 3"] {
        let gate = Counts::new();
        let came = run(&rt, rt.alloc(), words, &input, &gate, &[])?;
        assert_eq!(&rt; came.status, Status::Done);
        assert!(&rt; gate.are(2));
    }
    Ok(())
}
