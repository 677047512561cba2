// The environment behind an update.
ghost use Rattle.std.specs.Prelude.{◌≡◌, None, Some, Err, IsTrue, IfOk, OnOk};
ghost use Rattle.std.specs.FinMap as map;
ghost use Rattle.std.specs.List.{list_any};
ghost use Rattle.std.specs.Ordering.{eq_by_cmp};
ghost use Rattle.maple_base.specs.Kinds.{of_kind};
ghost use Rattle.maple_base.specs.declared.cells.Cell.TheVariants.{Host, Up, Num};
ghost use Rattle.maple_base.specs.declared.cells.Value.TheVariants.{Flag};
ghost use Rattle.maple_base.specs.declared.update_refused.UpdateRefused.{UpdateRefused};
ghost use Rattle.env_cells.specs.declared.updates.UpdateError.TheVariants.{Refused};
ghost use Rattle.env_cells.specs.Behind.{listed_in};
ghost use Rattle.env_cells.specs.Changes.{applied};
ghost use Rattle.env_cells.specs.Environment.{name_cmp};
ghost use Rattle.env_cells.specs.Limits.{IsWithinLimits};
ghost use Rattle.env_cells.specs.Refusals.{refusal_of, HasRoomForTables};
ghost use Rattle.env_cells.specs.Values.{value_in, IsNoHop};

use crate::environment::Env;
use crate::sorted_map::Key;
use crate::up_ports::UpPorts;
use crate::updates::{Update, UpdateError};
use maple_base::{Cell, Name, NoMemory, Place, Value};
use std::alloc::Global;
use std::marker::Model;

/// The environment as it would be after an update. It reads the environment before it, and has of
/// its own the up ports that the update lists.
#[derive(Drop)]
pub struct EnvBehind<'a> {
    env: &'a Env,
    update: &'a Update,
    listed: UpPorts,
}

impl<'a> Model for EnvBehind<'a> {
    ghost use Rattle.std.specs.Prelude.{◌≡◌};
    ghost use Rattle.env_cells.specs.Behind.{listed_in};
    ghost use Rattle.env_cells.specs.Changes.{applied};
    ghost use Rattle.env_cells.specs.Environment.{Environment, environment_code};

    ghost Value = { Environment };

    ghost coded = { environment_code };

    ghost view = { λ a. applied a.env.now a.update.now };

    ghost invariant = { λ a. a.listed ≡ listed_in a.update.now };
}

impl Env {
    /// What the environment would be after an update, which is refused as `apply` refuses it. The
    /// environment isn't changed, and isn't copied.
    pub fn behind<'a>(&'a self, update: &'a Update) -> Result<EnvBehind<'a>, UpdateError>
        requires tables { HasRoomForTables update.now }
        ensures accepted { OnOk result (refusal_of self.now update.now ≡ None) }
        ensures behind { IfOk result (λ behind. behind ≡ applied self.now update.now) }
        ensures limits { IfOk result (λ behind. IsWithinLimits behind) }
        ensures refused { (r : UpdateRefused) → result ≡ Err (Refused r) → refusal_of self.now update.now ≡ Some r }
    {
        let listed = listed_in(self.alloc, update)?;
        self.check(update, &listed)?;
        Ok(EnvBehind {
            env: self,
            update,
            listed,
        })
    }
}

impl<'a> EnvBehind<'a> {
    /// What the environment would have in a cell, other than a next hop.
    pub fn value(&self, cell: Cell) -> Value
        requires no_hop { IsNoHop cell }
        ensures told { result ≡ value_in self.now cell }
        ensures kind { IsTrue (of_kind cell result) }
    {
        match cell {
            Cell::Host(mac) => host(self.env, self.update, mac),
            Cell::Hop { .. } => Value::Nothing,
            Cell::Up { switch, port } => {
                Value::Flag(is_up(self.env, self.update, &self.listed, switch, port))
            }
            Cell::Num { table, key } => number(self.env, self.update, &table, key),
        }
    }

    /// The links that there would be, in the order of their first places.
    pub fn links(&self) -> Result<Vec<(Place, Place)>, NoMemory>
        ensures links { IfOk result (λ links. links.items ≡ map.entries self.now.links) }
    {
        let env = self.env;
        let mut links = env.links.copy()?;
        match self.update {
            Update::Link { from, to } => links.insert(*from, *to)?,
            Update::NoLink { from } => links.remove(from),
            _ => {}
        }
        Ok(links.into_entries())
    }
}

/// The up ports that an update lists.
fn listed_in(alloc: Global, update: &Update) -> Result<UpPorts, NoMemory>
    ensures { IfOk result (λ up. up ≡ listed_in update.now) }
{
    match update {
        Update::Switch { ports, .. } => UpPorts::listed(alloc, ports.items()),
        _ => Ok(UpPorts::new(alloc)),
    }
}

/// Where a host would be after an update.
#[tactic(auto, using(crate::proofs::Overlaid::set_here, crate::proofs::Overlaid::set_there, crate::proofs::Overlaid::gone_here, crate::proofs::Overlaid::gone_there))]
fn host(env: &Env, update: &Update, mac: u64) -> Value
    ensures { result ≡ value_in (applied env.now update.now) (Host mac) }
{
    match update {
        Update::Host { mac: moved, place } => {
            if *moved == mac {
                Value::At(*place)
            } else {
                env.value(Cell::Host(mac))
            }
        }
        Update::NoHost { mac: gone } => {
            if *gone == mac {
                Value::Nothing
            } else {
                env.value(Cell::Host(mac))
            }
        }
        _ => env.value(Cell::Host(mac)),
    }
}

/// Whether a port would be up after an update that lists these ports.
#[tactic(auto, using(crate::proofs::Overlaid::set_here, crate::proofs::Overlaid::set_there, crate::proofs::Overlaid::turned_here, crate::proofs::Overlaid::turned_there, crate::proofs::Overlaid::turned_elsewhere))]
fn is_up(env: &Env, update: &Update, listed: &UpPorts, switch: u64, port: u64) -> bool
    requires { listed.now ≡ listed_in update.now }
    ensures { Flag result ≡ value_in (applied env.now update.now) (Up switch port) }
{
    match update {
        Update::Switch { switch: known, .. } => {
            if *known == switch {
                listed.has(port)
            } else {
                env.is_up(switch, port)
            }
        }
        Update::Port {
            switch: known,
            port: turned,
            up,
        } => {
            if *known == switch && u64::from(*turned) == port {
                *up
            } else {
                env.is_up(switch, port)
            }
        }
        _ => env.is_up(switch, port),
    }
}

/// The number that there would be in a table after an update.
#[tactic(auto, using(crate::proofs::Overlaid::set_here, crate::proofs::Overlaid::set_there, crate::proofs::Overlaid::gone_here, crate::proofs::Overlaid::gone_there, crate::proofs::Overlaid::numbers_here, crate::proofs::Overlaid::numbers_there, crate::proofs::Overlaid::numbers_same, crate::proofs::Overlaid::numbers_kept, crate::proofs::Overlaid::numbers_dropped))]
fn number(env: &Env, update: &Update, table: &Name, key: u64) -> Value
    ensures { result ≡ value_in (applied env.now update.now) (Num table.now key) }
{
    match update {
        Update::Set {
            table: written,
            key: at,
            value,
        } => {
            if is_same(table, written) && *at == key {
                Value::Number(*value)
            } else {
                env.number(table, key)
            }
        }
        Update::Unset {
            table: written,
            key: at,
        } => {
            if is_same(table, written) && *at == key {
                Value::Nothing
            } else {
                env.number(table, key)
            }
        }
        Update::Tables(names) => {
            if is_listed(table, names.items()) {
                env.number(table, key)
            } else {
                Value::Nothing
            }
        }
        _ => env.number(table, key),
    }
}

fn is_listed(table: &Name, names: &[Name]) -> bool
    ensures { result ≡ list_any (eq_by_cmp name_cmp table.now) names.now }
{
    names.iter().any(|name| is_same(table, name))
}

fn is_same(name: &Name, other: &Name) -> bool
    ensures { result ≡ eq_by_cmp name_cmp name.now other.now }
{
    name.order(other).is_eq()
}
