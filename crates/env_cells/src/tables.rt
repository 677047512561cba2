// Tables of numbers by their names.
ghost use Rattle.std.specs.Prelude.{◌≡◌, IsTrue, IfOk, OnOk, OnErr};
ghost use Rattle.std.specs.FinMap as map;
ghost use Rattle.env_cells.specs.Environment.{name_cmp};
ghost use Rattle.env_cells.specs.Named.{tables_named, with_number, without_number, with_tables};
ghost use Rattle.env_cells.specs.Sorted.{map_of};

use crate::number_map::NumberMap;
use crate::sorted_map::SortedMap;
use maple_base::{Name, NoMemory};
use std::alloc::Global;

/// The declared tables, in the order of their names.
pub type TableMap = SortedMap<Name, NumberMap<u64>>;

impl SortedMap<Name, NumberMap<u64>> {
    /// A table has this number at the key.
    pub fn set(&mut self, name: &Name, key: u64, value: u64) -> Result<(), NoMemory>
        requires declared { IsTrue (map.contains_key (map_of name_cmp self.old) name.now) }
        ensures ok { OnOk result (map_of name_cmp self.new ≡ with_number (map_of name_cmp self.old) name.now key value) }
        ensures err { OnErr result (self.new ≡ self.old) }
    {
        let Ok(place) = self.place(name) else {
            return Ok(());
        };
        let (_, numbers) = &mut self.entries[place];
        numbers.insert(key, value)?;
        Ok(())
    }

    /// A table has no number at the key.
    pub fn unset(&mut self, name: &Name, key: u64)
        requires declared { IsTrue (map.contains_key (map_of name_cmp self.old) name.now) }
        ensures { map_of name_cmp self.new ≡ without_number (map_of name_cmp self.old) name.now key }
    {
        let Ok(place) = self.place(name) else {
            return;
        };
        let (_, numbers) = &mut self.entries[place];
        numbers.remove(key);
    }

    /// Exactly the tables of these names are there: those that were keep their numbers, the others
    /// are empty.
    pub fn declare(&mut self, names: &[Name]) -> Result<(), NoMemory>
        ensures ok { OnOk result (map_of name_cmp self.new ≡ tables_named (map_of name_cmp self.old) names.now) }
        ensures err { OnErr result (self.new ≡ self.old) }
    {
        let mut tables = TableMap::named(*self.entries.allocator(), names)?;
        tables.take_over(&mut self.entries);
        *self = tables;
        Ok(())
    }

    // Empty tables of these names.
    fn named(alloc: Global, names: &[Name]) -> Result<TableMap, NoMemory>
        ensures { IfOk result (λ tables. map_of name_cmp tables ≡ tables_named map.empty names.now) }
    {
        let mut tables = SortedMap::new(alloc);
        let mut left = names.len();
        while left > 0 {
            left -= 1;
            tables.insert(names[left], NumberMap::new(alloc))?;
        }
        Ok(tables)
    }

    // Takes the numbers of tables that are there too.
    fn take_over(&mut self, tables: &mut Vec<(Name, NumberMap<u64>)>)
        ensures { map_of name_cmp self.new ≡ with_tables (map_of name_cmp self.old) tables.old.items }
    {
        while let Some((name, numbers)) = tables.pop() {
            self.replace(&name, numbers);
        }
    }
}
