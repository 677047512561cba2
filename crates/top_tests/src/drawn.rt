// Scripts by a fixed sequence of numbers, run beside workers.
use crate::ledger::{Change, EACH, POLICY, misses_in, port_of};
use crate::running::{BOOT, run};
use maple_top::Status;
use packet_workers::Open;
use std::alloc::{AllocError, Global};
use std::test::Fail;

const SCRIPTS: u64 = 300;

// So many packets miss, at the least, in all of them.
const MISSES: u32 = 2_000;

// An input, what it changes, and how many packets it has.
#[derive(Drop)]
struct Drawn {
    numbers: u64,
    text: String,
    changes: Vec<Change>,
    packets: u64,
}

impl Drawn {
    fn new(alloc: Global, seed: u64) -> Result<Drawn, AllocError> {
        let mut text = String::new(alloc);
        text.push_str(POLICY)?;
        text.push_str(BOOT)?;
        Ok(Drawn {
            numbers: seed,
            text,
            changes: Vec::new(alloc),
            packets: 0,
        })
    }

    // A number below this one.
    fn below(&mut self, end: u64) -> u64 {
        self.numbers = self
            .numbers
            .wrapping_mul(6364136223846793005)
            .wrapping_add(1442695040888963407);
        (self.numbers >> 33).checked_rem(end).unwrap_or(0)
    }

    fn line(&mut self) -> Result<(), AllocError> {
        match self.below(16) {
            0 => self.text.push_str("settle\n"),
            1 => self.text.push_str("turn 1 3\n"),
            2 | 3 => self.set_host(),
            4 => self.unset_host(),
            5 | 6 => self.set_entry(),
            7 => self.unset_entry(),
            _ => self.packet(),
        }
    }

    fn packet(&mut self) -> Result<(), AllocError> {
        self.packets = self.packets.saturating_add(1);
        let host = self.below(EACH);
        let key = self.below(EACH);
        let port = port_of(self.packets, host, key);
        writeln!(
            self.text,
            "packet 1 {port} dl_dst=02:00:00:00:00:0{host} tp_dst={key}"
        )
    }

    fn set_host(&mut self) -> Result<(), AllocError> {
        let host = self.below(EACH);
        let port = self.below(40).saturating_add(1);
        self.changes.push(Change::Host(host, Some(port)))?;
        writeln!(self.text, "host 02:00:00:00:00:0{host} 1 {port}")
    }

    fn unset_host(&mut self) -> Result<(), AllocError> {
        let host = self.below(EACH);
        self.changes.push(Change::Host(host, None))?;
        writeln!(self.text, "nohost 02:00:00:00:00:0{host}")
    }

    fn set_entry(&mut self) -> Result<(), AllocError> {
        let key = self.below(EACH);
        let value = self.below(10).saturating_add(1);
        self.changes.push(Change::Entry(key, Some(value)))?;
        writeln!(self.text, "set t {key} {value}")
    }

    fn unset_entry(&mut self) -> Result<(), AllocError> {
        let key = self.below(EACH);
        self.changes.push(Change::Entry(key, None))?;
        writeln!(self.text, "unset t {key}")
    }
}

// An input of 10 to 59 lines behind the first.
fn draw(alloc: Global, seed: u64) -> Result<Drawn, AllocError> {
    let mut drawn = Drawn::new(alloc, seed)?;
    let lines = drawn.below(50).saturating_add(10);
    for _ in 0..lines {
        drawn.line()?;
    }
    Ok(drawn)
}

#[test]
fn answers_are_those_of_the_states_shown(rt: HostRuntime) -> Result<(), Fail> {
    let mut all = 0u32;
    for seed in 0..SCRIPTS {
        let drawn = draw(rt.alloc(), seed)?;
        let came = run(&rt, rt.alloc(), "sim --workers 3", &drawn.text, &Open, &[])?;
        assert_eq!(&rt; came.status, Status::Done);
        let Some(misses) = misses_in(rt.alloc(), came.text(), &drawn.changes)? else {
            panic!(rt; "script {seed}")
        };
        all = all.saturating_add(misses);
    }
    assert!(&rt; all >= MISSES);
    Ok(())
}
