// What a report says of packets, against a model of the network and of the policy.
use case_text::Words;
use std::alloc::{AllocError, Global};

/// The policy of the model. The number 7 spends the budget.
pub(crate) const POLICY: &str =
    "table t;\npolicy {\n  if host(pkt.dl_dst) as h { out h.port; }\n  if t[pkt.tp_dst] as v { if v == 7 { while 1 == 1 { } } out v; }\n  drop;\n}\n%%\n";

/// How many hosts there are, and keys of the table.
pub(crate) const EACH: u64 = 4;

// Packets come by ports below this one.
const PORTS: u64 = 1_024;

/// The port by which a packet comes names it: its number among the packets, from 1 on, the host that it is for, and the key
/// at which the table is asked.
pub(crate) fn port_of(number: u64, host: u64, key: u64) -> u64 {
    number
        .saturating_mul(16)
        .saturating_add(host.saturating_mul(4))
        .saturating_add(key)
}

/// What a script changes: a host's port, or what the table has at a key.
#[derive(Clone, Copy)]
pub(crate) enum Change {
    Host(u64, Option<u64>),
    Entry(u64, Option<u64>),
}

// What becomes of a packet.
#[derive(Clone, Copy, PartialEq, Eq)]
enum Decision {
    Out(u64),
    Drop,
    Spent,
}

// Where hosts are, and what the table has.
#[derive(Clone, Copy)]
struct Network {
    hosts: [Option<u64>; 4],
    entries: [Option<u64>; 4],
}

impl Network {
    fn change(&mut self, change: Change) -> Option<()> {
        match change {
            Change::Host(host, port) => put(&mut self.hosts, host, port),
            Change::Entry(key, value) => put(&mut self.entries, key, value),
        }
    }

    // What the policy says of the packet that came by this port.
    fn decision(&self, port: u64) -> Option<Decision> {
        let host = self.hosts.get((port / 4 % 4) as usize)?;
        let entry = self.entries.get((port % 4) as usize)?;
        Some(match (host, entry) {
            (Some(port), _) => Decision::Out(*port),
            (None, Some(7)) => Decision::Spent,
            (None, Some(port)) => Decision::Out(*port),
            (None, None) => Decision::Drop,
        })
    }
}

fn put(slots: &mut [Option<u64>], at: u64, value: Option<u64>) -> Option<()> {
    let slot = slots.get_mut(at as usize)?;
    *slot = value;
    Some(())
}

// A report as far as it was read: the network in its state, the changes that are still to come, and which packets wait.
#[derive(Drop)]
struct Ledger<'a> {
    state: u64,
    network: Network,
    changes: &'a [Change],
    waits: Vec<bool>,
    misses: u32,
}

impl<'a> Ledger<'a> {
    fn new(alloc: Global, changes: &'a [Change]) -> Result<Ledger<'a>, AllocError> {
        let mut waits = Vec::new(alloc);
        waits.resize(PORTS as usize, false)?;
        Ok(Ledger {
            state: 0,
            network: Network {
                hosts: [None; 4],
                entries: [None; 4],
            },
            changes,
            waits,
            misses: 0,
        })
    }

    // Reads a line; none where it is wrong.
    fn read(&mut self, line: &str) -> Option<()> {
        let mut words = Words::new(line);
        match words.word() {
            "state" => self.change(words.number().ok()?),
            "miss" => {
                self.misses = self.misses.saturating_add(1);
                self.set_waiting(port_in(&mut words)?, true)
            }
            "answer" => {
                let port = port_in(&mut words)?;
                self.answer(port, decision_in(&mut words)?)
            }
            "spent" => self.answer(port_in(&mut words)?, Decision::Spent),
            "overload" => None,
            _ => Some(()),
        }
    }

    // Another state: the first is that of the switch.
    fn change(&mut self, state: u64) -> Option<()> {
        if state != self.state.saturating_add(1) {
            return None;
        }
        self.state = state;
        if state > 1 {
            let (change, rest) = self.changes.split_first()?;
            self.changes = rest;
            self.network.change(*change)?;
        }
        Some(())
    }

    fn answer(&mut self, port: u64, decision: Decision) -> Option<()> {
        if self.network.decision(port)? != decision {
            return None;
        }
        self.set_waiting(port, false)
    }

    // The packet that came by this port waits now, or no longer; it didn't, or did.
    fn set_waiting(&mut self, port: u64, waits: bool) -> Option<()> {
        let slot = self.waits.get_mut(port as usize)?;
        if *slot == waits {
            return None;
        }
        *slot = waits;
        Some(())
    }

    fn is_whole(&self) -> bool {
        self.changes.is_empty() && !self.waits.contains(&true)
    }
}

// The port behind the word of a connection or a switch.
fn port_in(words: &mut Words<'_>) -> Option<u64> {
    words.word();
    words.number().ok()
}

fn decision_in(words: &mut Words<'_>) -> Option<Decision> {
    match words.word() {
        "drop" => Some(Decision::Drop),
        "out" => Some(Decision::Out(words.number().ok()?)),
        _ => None,
    }
}

/// How many packets missed. None where the report is wrong: where not each of them has its one answer, that of the policy
/// in the state that the report shows there, or where not all changes make a state.
pub(crate) fn misses_in(
    alloc: Global,
    report: &str,
    changes: &[Change],
) -> Result<Option<u32>, AllocError> {
    let mut ledger = Ledger::new(alloc, changes)?;
    for line in report.lines() {
        if ledger.read(line).is_none() {
            return Ok(None);
        }
    }
    Ok(if ledger.is_whole() {
        Some(ledger.misses)
    } else {
        None
    })
}
