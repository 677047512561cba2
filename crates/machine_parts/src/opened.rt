// The connections that were opened.
ghost use Rattle.std.specs.Prelude.{◌≡◌, OnOk, OnErr};
ghost use Rattle.std.specs.FinSet as set;

use maple_base::NoMemory;
use std::alloc::Global;
use std::collections::BTreeSet;
use std::marker::Model;

/// The numbers of connections that were opened.
#[derive(Drop)]
pub struct Opened {
    numbers: BTreeSet<u32>,
}

impl Model for Opened {
    ghost use Rattle.std.specs.Ordering.{nat_cmp};
    ghost use Rattle.std.specs.Coded.{coded_ℕ};
    ghost use Rattle.std.specs.FinSet as set;

    ghost Value = { set.FinSet nat_cmp };

    ghost coded = { set.code coded_ℕ };

    ghost view = { λ a. set.from_list a.numbers.keys };
}

impl Opened {
    /// None.
    pub fn none(alloc: Global) -> Opened
        ensures { result ≡ set.empty }
    {
        Opened {
            numbers: BTreeSet::new(alloc),
        }
    }

    /// Whether the connection of this number was opened.
    pub fn has(&self, connection: u32) -> bool
        ensures { result ≡ set.contains self.now connection }
    {
        self.numbers.contains(&connection)
    }

    /// The connection of this number is opened.
    pub fn insert(&mut self, connection: u32) -> Result<(), NoMemory>
        ensures ok { OnOk result (self.new ≡ set.insert self.old connection) }
        ensures err { OnErr result (self.new ≡ self.old) }
    {
        self.numbers.insert(connection)?;
        Ok(())
    }
}
