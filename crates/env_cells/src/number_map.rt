// Finite maps from numbers.
ghost use Rattle.std.specs.Prelude.{◌≡◌, ◌<◌, ◌^◌, IfOk, OnOk, OnErr, IsTrue};
ghost use Rattle.std.specs.Option.{option_copied};
ghost use Rattle.std.specs.Ordering.{nat_cmp};
ghost use Rattle.std.specs.Coded.{coded_ℕ};
ghost use Rattle.std.specs.FinMap as map;
ghost use Rattle.std.specs.FinSet as set;
ghost use Rattle.maple_base.specs.Ports.{is_port};
ghost use Rattle.env_cells.specs.Environment.{ports_in};

use crate::up_ports::UpPorts;
use maple_base::NoMemory;
use std::alloc::{AllocError, Global};
use std::collections::BTreeMap;
use std::marker::Model;

/// Values by numbers.
#[derive(Drop)]
pub struct NumberMap<V> {
    entries: BTreeMap<u64, V>,
}

impl<V> Model for NumberMap<V> {
    ghost Value = { map.FinMap nat_cmp V };

    ghost coded = { map.code coded_ℕ V.code };

    ghost view = { λ a. map.from_entries a.entries.entries };
}

impl<V: Drop> NumberMap<V> {
    /// No values.
    pub fn new(alloc: Global) -> Self
        ensures { result ≡ map.empty }
    {
        NumberMap {
            entries: BTreeMap::new(alloc),
        }
    }

    /// How many values there are.
    pub fn len(&self) -> u64
        ensures count { result ≡ map.len self.now }
        ensures small { result < 2 ^ 63 }
    {
        self.entries.len() as u64
    }

    /// Whether there is a value at the key.
    pub fn has(&self, key: u64) -> bool
        ensures { result ≡ map.contains_key self.now key }
    {
        self.entries.contains_key(&key)
    }

    /// The value at the key.
    pub fn get(&self, key: u64) -> Option<&V>
        ensures { option_copied result ≡ map.get self.now key }
    {
        self.entries.get(&key)
    }

    /// How many values there are once the key has one.
    pub fn len_with(&self, key: u64) -> u64
        ensures { (value : V) → result ≡ map.len (map.insert self.now key value) }
    {
        if self.has(key) {
            self.len()
        } else {
            self.len() + 1
        }
    }

    /// Gives the key this value.
    pub fn insert(&mut self, key: u64, value: V) -> Result<(), NoMemory>
        ensures ok { OnOk result (self.new ≡ map.insert self.old key value) }
        ensures err { OnErr result (self.new ≡ self.old) }
    {
        self.entries.insert(key, value)?;
        Ok(())
    }

    /// Takes the key's value out, if it has one.
    pub fn remove(&mut self, key: u64)
        ensures { self.new ≡ map.remove self.old key }
    {
        let _ = self.entries.remove(&key);
    }
}

impl<V: Clone> Clone for NumberMap<V> {
    ghost is_clone = { λ m copy. ((v w : V) → V.is_clone v w → w ≡ v) → copy ≡ m };

    fn clone(&self) -> Result<NumberMap<V>, AllocError> {
        let entries = self.entries.clone()?;
        Ok(NumberMap { entries })
    }
}

impl NumberMap<UpPorts> {
    /// A port of a known switch goes up.
    pub fn raise(&mut self, switch: u64, port: u16) -> Result<(), NoMemory>
        requires known { IsTrue (map.contains_key self.old switch) }
        requires port { IsTrue (is_port port) }
        ensures ok { OnOk result (self.new ≡ map.insert self.old switch (set.insert (ports_in self.old switch) port)) }
        ensures err { OnErr result (self.new ≡ self.old) }
    {
        let Some(up) = self.entries.get_mut(&switch) else {
            return Ok(());
        };
        up.insert(port)?;
        Ok(())
    }

    /// A port of a known switch goes down.
    pub fn lower(&mut self, switch: u64, port: u16)
        requires known { IsTrue (map.contains_key self.old switch) }
        ensures { self.new ≡ map.insert self.old switch (set.remove (ports_in self.old switch) port) }
    {
        let Some(up) = self.entries.get_mut(&switch) else {
            return;
        };
        up.remove(port);
    }
}
