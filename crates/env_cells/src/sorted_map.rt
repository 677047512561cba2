// Values by keys, in the keys' order.
ghost use Rattle.std.specs.Prelude.{◌≡◌, ◌<◌, ◌^◌, IfOk, IfErr, OnOk, OnErr};
ghost use Rattle.std.specs.Option.{option_copied};
ghost use Rattle.std.specs.declared.cmp.Ordering.{Ordering as Compared};
ghost use Rattle.std.specs.Cmp.{IsTotalOrder};
ghost use Rattle.std.specs.FinMap as map;
ghost use Rattle.env_cells.specs.Environment.{place_cmp, name_cmp};
ghost use Rattle.env_cells.specs.KeyOrders.{name_order_total, name_order_apart, place_order_total, place_order_apart};
ghost use Rattle.env_cells.specs.Sorted.{AreEqual, IsHit, IsGap, map_of, replaced};

use maple_base::{Name, NoMemory, Place};
use std::alloc::Global;
use std::cmp::Ordering;
use std::marker::Model;

/// What values are found by: keys in an order.
pub trait Key: Copy {
    /// The order of two keys.
    ghost order: { Self → Self → Compared };

    fn order(&self, other: &Self) -> Ordering
        ensures { result ≡ order self.now other.now };

    ghost total: { IsTotalOrder order };

    /// Two keys of which neither is less are one.
    ghost apart: { map.IsAntisymmetric order };
}

impl Key for Place {
    ghost order = { place_cmp };

    ghost total = { place_order_total };

    ghost apart = { place_order_apart };

    fn order(&self, other: &Place) -> Ordering {
        self.cmp(other)
    }
}

impl Key for Name {
    ghost order = { name_cmp };

    ghost total = { name_order_total };

    ghost apart = { name_order_apart };

    fn order(&self, other: &Name) -> Ordering {
        self.text().cmp(other.text())
    }
}

/// Values by keys, in the keys' order.
#[derive(Drop)]
pub struct SortedMap<K: Key, V> {
    pub(crate) entries: Vec<(K, V)>,
}

impl<K: Key, V> Model for SortedMap<K, V> {
    ghost use Rattle.std.specs.Prelude.{◌≡◌, true, List};
    ghost use Rattle.std.specs.FinMap.{is_sorted};

    ghost Value = { List (K × V) };

    ghost view = { λ a. a.entries.items };

    ghost invariant = { λ a. is_sorted K.order a.entries.items ≡ true };
}

impl<K: Key, V: Drop> SortedMap<K, V> {
    /// No values.
    pub fn new(alloc: Global) -> Self
        ensures { map_of K.order result ≡ map.empty }
    {
        SortedMap {
            entries: Vec::new(alloc),
        }
    }

    /// The keys with their values, in the keys' order.
    pub fn entries(&self) -> &[(K, V)]
        ensures { result.now ≡ map.entries (map_of K.order self.now) }
    {
        &self.entries
    }

    /// The keys with their values, in the keys' order, and no map any more.
    pub fn into_entries(self) -> Vec<(K, V)>
        ensures { result.items ≡ map.entries (map_of K.order self) }
    {
        self.entries
    }

    /// How many values there are.
    pub fn len(&self) -> u64
        ensures count { result ≡ map.len (map_of K.order self.now) }
        ensures small { result < 2 ^ 63 }
    {
        self.entries.len() as u64
    }

    /// Whether the key has a value.
    pub fn has(&self, key: &K) -> bool
        ensures { result ≡ map.contains_key (map_of K.order self.now) key.now }
    {
        self.get(key).is_some()
    }

    /// The key's value.
    pub fn get(&self, key: &K) -> Option<&V>
        ensures { option_copied result ≡ map.get (map_of K.order self.now) key.now }
    {
        match self.place(key) {
            Ok(place) => Some(&self.entries[place].1),
            Err(_) => None,
        }
    }

    /// How many values there are once the key has one.
    pub fn len_with(&self, key: &K) -> u64
        ensures { (value : V) → result ≡ map.len (map.insert (map_of K.order self.now) key.now value) }
    {
        if self.has(key) {
            self.len()
        } else {
            self.len() + 1
        }
    }

    /// Gives the key this value.
    pub fn insert(&mut self, key: K, value: V) -> Result<(), NoMemory>
        ensures ok { OnOk result (map_of K.order self.new ≡ map.insert (map_of K.order self.old) key value) }
        ensures err { OnErr result (self.new ≡ self.old) }
    {
        match self.place(&key) {
            Ok(place) => self.entries[place] = (key, value),
            Err(place) => self.entries.insert(place, (key, value))?,
        }
        Ok(())
    }

    /// Gives the key this value, if it has one.
    pub fn replace(&mut self, key: &K, value: V)
        ensures { map_of K.order self.new ≡ replaced K.order (map_of K.order self.old) key.now value }
    {
        if let Ok(place) = self.place(key) {
            self.entries[place] = (*key, value);
        }
    }

    /// Takes the key's value out, if it has one.
    pub fn remove(&mut self, key: &K)
        ensures { map_of K.order self.new ≡ map.remove (map_of K.order self.old) key.now }
    {
        if let Ok(place) = self.place(key) {
            self.entries.remove(place);
        }
    }

    // Where the key's value stands, or where it would go.
    pub(crate) fn place(&self, key: &K) -> Result<usize, usize>
        ensures found { IfOk result (IsHit K.order self.now key.now) }
        ensures absent { IfErr result (IsGap K.order self.now key.now) }
    {
        self.entries.binary_search_by(|entry| entry.0.order(key))
    }
}

impl<K: Key, V: Clone> SortedMap<K, V> {
    /// Equal values at the same keys.
    pub fn copy(&self) -> Result<SortedMap<K, V>, NoMemory>
        requires keys { AreEqual K.is_clone }
        requires values { AreEqual V.is_clone }
        ensures { IfOk result (λ copy. copy ≡ self.now) }
    {
        let entries = self.entries.clone()?;
        Ok(SortedMap { entries })
    }
}
