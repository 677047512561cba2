// What is known of the network.
ghost use Rattle.std.specs.Prelude.{◌≡◌, ◌≤◌, true, false, None, Some, Err, length, IsTrue, All, IfOk, OnOk, OnErr};
ghost use Rattle.std.specs.FinMap as map;
ghost use Rattle.maple_base.specs.Kinds.{of_kind};
ghost use Rattle.env_cells.specs.declared.updates.Update.{Update};
ghost use Rattle.env_cells.specs.declared.updates.Update.TheVariants as updates;
ghost use Rattle.maple_base.specs.declared.update_refused.UpdateRefused.{UpdateRefused};
ghost use Rattle.env_cells.specs.declared.updates.UpdateError.TheVariants.{Refused};
ghost use Rattle.maple_base.specs.declared.cells.Cell.TheVariants.{Up, Num};
ghost use Rattle.maple_base.specs.declared.cells.Value.TheVariants.{Flag};
ghost use Rattle.env_cells.specs.Environment.{nothing_known, knows};
ghost use Rattle.env_cells.specs.Changes.{applied};
ghost use Rattle.env_cells.specs.Refusals.{refusal_of, HasRoomForTables};
ghost use Rattle.env_cells.specs.Answers.{Answers};
ghost use Rattle.env_cells.specs.Values.{value_in, IsNoHop};
ghost use Rattle.env_cells.specs.Limits.{IsWithinLimits};
ghost use Rattle.env_cells.specs.Most.{most_links, most_switches};
ghost use Rattle.env_cells.specs.Lists.{StartApart, RiseByPlace, IsBetweenPorts, IsKnown, NamesFewSwitches};

use crate::number_map::NumberMap;
use crate::sorted_map::SortedMap;
use crate::tables::TableMap;
use crate::up_ports::UpPorts;
use crate::{Update, UpdateError};
use maple_base::{Cell, Name, Names, NoMemory, Place, Ports, UpdateRefused, Value};
use std::alloc::Global;
use std::marker::Model;

/// The most switches of an environment.
pub const MOST_SWITCHES: u64 = 64;

/// The most up ports of a switch.
pub const MOST_UP_PORTS: u64 = 1364;

/// The most hosts of an environment.
pub const MOST_HOSTS: u64 = 65536;

/// The most links of an environment.
pub const MOST_LINKS: u64 = 4096;

/// The most tables of an environment.
pub const MOST_TABLES: u64 = 16;

/// The most numbers of a table.
pub const MOST_NUMBERS: u64 = 65536;

/// What is known of the network: the switches with their up ports, hosts, links, and tables of
/// numbers. At most 64 switches with 1,364 up ports each, 65,536 hosts, 4,096 links, and 16 tables
/// of 65,536 numbers.
#[derive(Drop)]
pub struct Env {
    pub(crate) switches: NumberMap<UpPorts>,
    pub(crate) hosts: NumberMap<Place>,
    pub(crate) links: SortedMap<Place, Place>,
    pub(crate) tables: TableMap,
    pub(crate) alloc: Global,
}

impl Model for Env {
    ghost use Rattle.env_cells.specs.Environment.{Environment, environment_code, environment_of};
    ghost use Rattle.env_cells.specs.Limits.{IsWithinLimits};

    ghost Value = { Environment };

    ghost coded = { environment_code };

    ghost view = { λ a. environment_of a.switches a.hosts a.links a.tables };

    ghost invariant = { λ a. IsWithinLimits (environment_of a.switches a.hosts a.links a.tables) };
}

impl Env {
    /// An environment without switches, hosts, links and tables.
    pub fn new(alloc: Global) -> Env
        ensures { result ≡ nothing_known }
    {
        Env {
            switches: NumberMap::new(alloc),
            hosts: NumberMap::new(alloc),
            links: SortedMap::new(alloc),
            tables: TableMap::new(alloc),
            alloc,
        }
    }

    /// Makes an update. `Tables` declares at most 16 tables. An update that is refused, or that
    /// memory doesn't suffice for, changes nothing.
    pub fn apply(&mut self, update: &Update) -> Result<(), UpdateError>
        requires tables { HasRoomForTables update.now }
        ensures accepted { OnOk result (refusal_of self.old update.now ≡ None) }
        ensures applied { OnOk result (self.new ≡ applied self.old update.now) }
        ensures refused { (r : UpdateRefused) → result ≡ Err (Refused r) → refusal_of self.old update.now ≡ Some r }
        ensures unchanged { OnErr result (self.new ≡ self.old) }
    {
        self.change(update)
    }

    /// What the environment has in a cell. Next hops take more than the links: their cells are not
    /// asked here.
    pub fn value(&self, cell: Cell) -> Value
        requires no_hop { IsNoHop cell }
        ensures told { result ≡ value_in self.now cell }
        ensures kind { IsTrue (of_kind cell result) }
    {
        match cell {
            Cell::Host(mac) => match self.hosts.get(mac) {
                Some(place) => Value::At(*place),
                None => Value::Nothing,
            },
            Cell::Hop { .. } => Value::Nothing,
            Cell::Up { switch, port } => Value::Flag(self.is_up(switch, port)),
            Cell::Num { table, key } => self.number(&table, key),
        }
    }

    /// The links, in the order of their first places.
    pub fn links(&self) -> &[(Place, Place)]
        ensures links { result.now ≡ map.entries self.now.links }
        ensures apart { StartApart result.now }
        ensures few { length result.now ≤ most_links }
        ensures ports { All IsBetweenPorts result.now }
        ensures known { All (IsKnown self.now) result.now }
        ensures switches { map.len self.now.switches ≤ most_switches }
        ensures named { NamesFewSwitches result.now }
        ensures order { RiseByPlace result.now }
        ensures limits { IsWithinLimits self.now }
    {
        self.links.entries()
    }

    /// Where the link from a place ends, if one begins there.
    pub fn link(&self, from: Place) -> Option<Place>
        ensures { result ≡ map.get self.now.links from }
    {
        self.links.get(&from).copied()
    }

    /// Whether a switch is known.
    pub fn knows(&self, switch: u64) -> bool
        ensures { result ≡ knows self.now switch }
    {
        self.switches.has(switch)
    }

    /// An equal environment.
    pub fn copy(&self) -> Result<Env, NoMemory>
        ensures equal { IfOk result (λ env. env ≡ self.now) }
        ensures limits { IsWithinLimits self.now }
    {
        Ok(Env {
            switches: self.switches.clone()?,
            hosts: self.hosts.clone()?,
            links: self.links.copy()?,
            tables: self.tables.copy()?,
            alloc: self.alloc,
        })
    }

    pub(crate) fn is_up(&self, switch: u64, port: u64) -> bool
        ensures { Flag result ≡ value_in self.now (Up switch port) }
    {
        match self.switches.get(switch) {
            Some(up) => up.has(port),
            None => false,
        }
    }

    pub(crate) fn number(&self, table: &Name, key: u64) -> Value
        ensures { result ≡ value_in self.now (Num table.now key) }
    {
        match self.tables.get(table) {
            Some(numbers) => match numbers.get(key) {
                Some(number) => Value::Number(*number),
                None => Value::Nothing,
            },
            None => Value::Nothing,
        }
    }

    fn change(&mut self, update: &Update) -> Result<(), UpdateError>
        requires tables { HasRoomForTables update.now }
        ensures { Answers self.old update.now result self.new }
    {
        match update {
            Update::Switch { switch, ports } => self.set_switch(*switch, ports),
            Update::Port { switch, port, up } => {
                if *up {
                    self.raise_port(*switch, *port)
                } else {
                    self.lower_port(*switch, *port)
                }
            }
            Update::Host { mac, place } => self.set_host(*mac, *place),
            Update::NoHost { mac } => {
                self.remove_host(*mac);
                Ok(())
            }
            Update::Link { from, to } => self.set_link(*from, *to),
            Update::NoLink { from } => self.remove_link(*from),
            Update::Set { table, key, value } => self.set_number(table, *key, *value),
            Update::Unset { table, key } => self.remove_number(table, *key),
            Update::Tables(names) => self.set_tables(names),
        }
    }

    fn set_switch(&mut self, switch: u64, ports: &Ports) -> Result<(), UpdateError>
        ensures { Answers self.old (updates.Switch switch ports.now) result self.new }
    {
        let up = UpPorts::listed(self.alloc, ports.items())?;
        self.check_listed(switch, &up)?;
        self.switches.insert(switch, up)?;
        Ok(())
    }

    fn raise_port(&mut self, switch: u64, port: u16) -> Result<(), UpdateError>
        ensures { Answers self.old (updates.Port switch port true) result self.new }
    {
        self.check_raised(switch, port)?;
        self.switches.raise(switch, port)?;
        Ok(())
    }

    fn lower_port(&mut self, switch: u64, port: u16) -> Result<(), UpdateError>
        ensures { Answers self.old (updates.Port switch port false) result self.new }
    {
        self.check_lowered(switch, port)?;
        self.switches.lower(switch, port);
        Ok(())
    }

    fn set_host(&mut self, mac: u64, place: Place) -> Result<(), UpdateError>
        ensures { Answers self.old (updates.Host mac place) result self.new }
    {
        self.check_host(mac, place)?;
        self.hosts.insert(mac, place)?;
        Ok(())
    }

    fn remove_host(&mut self, mac: u64)
        ensures { self.new ≡ record self.old { hosts = map.remove self.old.hosts mac } }
    {
        self.hosts.remove(mac);
    }

    fn set_link(&mut self, from: Place, to: Place) -> Result<(), UpdateError>
        ensures { Answers self.old (updates.Link from to) result self.new }
    {
        self.check_link(from, to)?;
        self.links.insert(from, to)?;
        Ok(())
    }

    fn remove_link(&mut self, from: Place) -> Result<(), UpdateError>
        ensures { Answers self.old (updates.NoLink from) result self.new }
    {
        self.check_start(from)?;
        self.links.remove(&from);
        Ok(())
    }

    fn set_number(&mut self, table: &Name, key: u64, value: u64) -> Result<(), UpdateError>
        ensures { Answers self.old (updates.Set table.now key value) result self.new }
    {
        self.check_number(table, key)?;
        self.tables.set(table, key, value)?;
        Ok(())
    }

    fn remove_number(&mut self, table: &Name, key: u64) -> Result<(), UpdateError>
        ensures { Answers self.old (updates.Unset table.now key) result self.new }
    {
        self.check_table(table)?;
        self.tables.unset(table, key);
        Ok(())
    }

    fn set_tables(&mut self, names: &Names) -> Result<(), UpdateError>
        requires { HasRoomForTables (updates.Tables names.now) }
        ensures { Answers self.old (updates.Tables names.now) result self.new }
    {
        self.tables.declare(names.items())?;
        Ok(())
    }
}
