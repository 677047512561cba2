// Gates that hold packets up until others come.
use crate::running::{BARRIER_REQUEST, SENT_OUT, board_of, boot, booted_and, heard, quit, serve};
use maple_base::NoMemory;
use maple_io::{MemBoard, MemTurn};
use maple_top::Status;
use packet_workers::Gate;
use std::alloc::{AllocError, Global};
use std::sync::atomic::{AtomicBool, AtomicU32, Ordering};
use std::test::Fail;
use std::thread;

// How often a thread looks whether what it waits for is there.
const TRIES: u32 = 500_000_000;

// Whether the first packet's work began, whether that of the second is over, and whether one of them waited in vain.
#[derive(Drop)]
struct Crossed {
    first_came: AtomicBool,
    second_went: AtomicBool,
    is_late: AtomicBool,
}

impl Crossed {
    fn new() -> Crossed {
        Crossed {
            first_came: AtomicBool::new(false),
            second_went: AtomicBool::new(false),
            is_late: AtomicBool::new(false),
        }
    }

    fn wait_for(&self, flag: &AtomicBool) {
        if !comes(flag) {
            self.is_late.store(true, Ordering::SeqCst);
        }
    }

    fn met(&self) -> bool {
        !self.is_late.load(Ordering::SeqCst)
    }
}

// Whether it is set, within so many tries.
fn comes(flag: &AtomicBool) -> bool {
    for _ in 0..TRIES {
        if flag.load(Ordering::SeqCst) {
            return true;
        }
        thread::yield_now();
    }
    false
}

impl Gate for Crossed {
    fn before(&self, job: u64) {
        match job {
            1 => {
                self.first_came.store(true, Ordering::SeqCst);
                self.wait_for(&self.second_went);
            }
            2 => self.wait_for(&self.first_came),
            _ => {}
        }
    }

    fn after(&self, job: u64, _asked: u32) {
        if job == 2 {
            self.second_went.store(true, Ordering::SeqCst);
        }
    }
}

// A packet of 54 bytes that came in by port 1, to this TCP port.
fn packet(alloc: Global, turns: &mut Vec<MemTurn>, tcp_port: u8) -> Result<(), AllocError> {
    let mut bytes = Vec::from_slice(
        alloc,
        b"\x01\x0a\x00\x48\x00\x00\x00\x00\xff\xff\xff\xff\x00\x36\x00\x01\x00\x00",
    )?;
    bytes.extend_from_slice(b"\x00\x00\x00\x00\x00\x00\x00\x00\x00\x00\x00\x00\x08\x00")?;
    bytes.extend_from_slice(b"\x45\x00\x00\x28\x00\x00\x00\x00\x40\x06\x00\x00")?;
    bytes.extend_from_slice(b"\x00\x00\x00\x00\x00\x00\x00\x00\x00\x00\x00")?;
    bytes.push(tcp_port)?;
    bytes.extend_from_slice(b"\x00\x00\x00\x00\x00\x00\x00\x00\x50")?;
    bytes.extend_from_slice(b"\x00\x00\x00\x00\x00\x00\x00")?;
    heard(alloc, turns, &bytes)
}

fn two_packets(alloc: Global) -> Result<Option<MemBoard>, NoMemory> {
    let mut turns = Vec::new(alloc);
    boot(alloc, &mut turns)?;
    packet(alloc, &mut turns, 80)?;
    packet(alloc, &mut turns, 22)?;
    quit(alloc, &mut turns)?;
    board_of(alloc, turns)
}

// Behind what the switch hears until it is ready: the second packet's rule, which drops TCP to port 22, with priority 1, and a
// barrier; then the first packet.
const CROSSED: [&[u8]; 3] = [
    b"\x01\x0e\x00\x48\x00\x00\x00\x03\x00\x38\x20\x4f\x00\x00\x00\x00\x00\x00\x00\x00\x00\x00\x00\x00\x00\x00\x00\x00\x00\x00\x08\x00\
\x00\x06\x00\x00\x00\x00\x00\x00\x00\x00\x00\x00\x00\x00\x00\x16\x00\x00\x00\x00\x00\x00\x00\x00\x00\x00\x00\x00\x00\x00\x00\x01\
\xff\xff\xff\xff\xff\xff\x00\x00",
    BARRIER_REQUEST,
    SENT_OUT,
];

// Two packets hold each other: no thread could work them one behind the other.
#[test]
fn two_packets_that_hold_each_other(rt: HostRuntime) -> Result<(), Fail> {
    let alloc = rt.alloc();
    let wanted =
        "open c1\nstate 1 pruned 0\nready c1 s1\nanswer s1 1 drop learned\nanswer s1 1 out 2 learned\nend\n";
    let words = "serve --listen 6633 --control 6634 --workers 2";
    for turn in 0..200 {
        let gate = Crossed::new();
        let Some(mut board) = two_packets(alloc)? else {
            return Err(Fail::from("a board"));
        };
        let came = serve(&rt, alloc, words, &gate, &mut board)?;
        assert!(rt; gate.met(), "run {turn}");
        assert_eq!(&rt; came.status, Status::Done);
        assert_eq!(&rt; came.text(), wanted);
        let mut sent = Vec::new(alloc);
        board.sent(1, &mut sent)?;
        assert_eq!(&rt; sent.len(), 266);
        assert!(&rt; sent == booted_and(alloc, &CROSSED)?);
    }
    Ok(())
}

// Counts the packets that were worked.
#[derive(Drop)]
struct Counts {
    before: AtomicU32,
    after: AtomicU32,
}

impl Counts {
    fn new() -> Counts {
        Counts {
            before: AtomicU32::new(0),
            after: AtomicU32::new(0),
        }
    }

    // Whether it was told of so many, ahead and behind.
    fn are(&self, packets: u32) -> bool {
        self.before.load(Ordering::SeqCst) == packets
            && self.after.load(Ordering::SeqCst) == packets
    }
}

impl Gate for Counts {
    fn before(&self, _job: u64) {
        self.before.fetch_add(1, Ordering::SeqCst);
    }

    fn after(&self, _job: u64, _asked: u32) {
        self.after.fetch_add(1, Ordering::SeqCst);
    }
}

// Whoever works a packet, the gate is told of it.
#[test]
fn the_gate_is_told_of_each_packet(rt: HostRuntime) -> Result<(), Fail> {
    let alloc = rt.alloc();
    for words in [
        "serve --listen 6633 --control 6634",
        "serve --workers 3 --control=6634 --listen=6633",
    ] {
        let gate = Counts::new();
        let Some(mut board) = two_packets(alloc)? else {
            return Err(Fail::from("a board"));
        };
        let came = serve(&rt, alloc, words, &gate, &mut board)?;
        assert_eq!(&rt; came.status, Status::Done);
        assert!(&rt; gate.are(2));
    }
    Ok(())
}
