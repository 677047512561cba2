// The up ports of a switch.
ghost use Rattle.std.specs.Prelude.{◌≡◌, ◌<◌, ◌^◌, IfOk, OnOk, OnErr, IsTrue};
ghost use Rattle.std.specs.Ordering.{nat_cmp};
ghost use Rattle.std.specs.FinSet as set;
ghost use Rattle.maple_base.specs.Ports.{is_port};
ghost use Rattle.env_cells.specs.Listed.{is_listed_up, listed_up};

use maple_base::{NoMemory, Port, is_port};
use std::alloc::{AllocError, Global};
use std::collections::BTreeSet;
use std::marker::Model;

/// The numbers of a switch's up ports.
#[derive(Drop)]
pub struct UpPorts {
    numbers: BTreeSet<u16>,
}

impl Model for UpPorts {
    ghost use Rattle.std.specs.Prelude.{◌≡◌, true};
    ghost use Rattle.std.specs.List.{list_all};
    ghost use Rattle.std.specs.Ordering.{nat_cmp};
    ghost use Rattle.std.specs.Coded.{coded_ℕ};
    ghost use Rattle.std.specs.FinSet as set;
    ghost use Rattle.maple_base.specs.Ports.{is_port};

    ghost Value = { set.FinSet nat_cmp };

    ghost coded = { set.code coded_ℕ };

    ghost view = { λ a. set.from_list a.numbers.keys };

    ghost invariant = { λ a. list_all is_port a.numbers.keys ≡ true };
}

impl UpPorts {
    /// No ports.
    pub fn new(alloc: Global) -> Self
        ensures { result ≡ set.empty }
    {
        UpPorts {
            numbers: BTreeSet::new(alloc),
        }
    }

    /// The ports that a list says are up, of those in 1 to 65,280.
    pub fn listed(alloc: Global, ports: &[Port]) -> Result<Self, NoMemory>
        ensures { IfOk result (λ up. up ≡ listed_up ports.now) }
    {
        let mut up = UpPorts::new(alloc);
        for port in ports {
            if is_listed_up(port) {
                up.insert(port.number)?;
            }
        }
        Ok(up)
    }

    /// How many ports are up.
    pub fn len(&self) -> u64
        ensures count { result ≡ set.len self.now }
        ensures small { result < 2 ^ 63 }
    {
        self.numbers.len() as u64
    }

    /// Whether a port is up.
    pub fn has(&self, port: u64) -> bool
        ensures { result ≡ set.contains self.now port }
    {
        match u16::try_from(port) {
            Ok(port) => self.numbers.contains(&port),
            Err(_) => false,
        }
    }

    /// How many ports are up once this one is.
    pub fn len_with(&self, port: u16) -> u64
        ensures { result ≡ set.len (set.insert self.now port) }
    {
        if self.has(u64::from(port)) {
            self.len()
        } else {
            self.len() + 1
        }
    }

    /// The port goes up.
    pub fn insert(&mut self, port: u16) -> Result<(), NoMemory>
        requires { IsTrue (is_port port) }
        ensures ok { OnOk result (self.new ≡ set.insert self.old port) }
        ensures err { OnErr result (self.new ≡ self.old) }
    {
        self.numbers.insert(port)?;
        Ok(())
    }

    /// The port goes down.
    pub fn remove(&mut self, port: u16)
        ensures { self.new ≡ set.remove self.old port }
    {
        self.numbers.remove(&port);
    }
}

impl Clone for UpPorts {
    ghost is_clone = { λ up copy. copy ≡ up };

    fn clone(&self) -> Result<UpPorts, AllocError> {
        let numbers = self.numbers.clone()?;
        Ok(UpPorts { numbers })
    }
}

fn is_listed_up(port: &Port) -> bool
    ensures { result ≡ is_listed_up port.now }
{
    port.up && is_port(u64::from(port.number))
}
