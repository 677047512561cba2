// The environment with next hops.
ghost use Rattle.std.specs.Prelude.{◌≡◌, ◌≤◌, false, length, None, Some, Err, IsTrue, IfOk, OnOk, OnErr};
ghost use Rattle.maple_base.specs.Kinds.{of_kind};
ghost use Rattle.maple_base.specs.declared.update_refused.UpdateRefused.{UpdateRefused};
ghost use Rattle.env_cells.specs.declared.updates.UpdateError.TheVariants.{Refused};
ghost use Rattle.env_cells.specs.declared.updates.Update.TheVariants as updates;
ghost use Rattle.env_cells.specs.Environment.{nothing_known, knows};
ghost use Rattle.env_cells.specs.Changes.{applied};
ghost use Rattle.env_cells.specs.Refusals.{refusal_of, HasRoomForTables};
ghost use Rattle.env_cells.specs.Most.{most_links};
ghost use Rattle.env_cells.specs.Lists.{NamesFewSwitches};
ghost use Rattle.env_cells.specs.Limits.{IsWithinLimits};
ghost use Rattle.topo_paths.specs.Beside.{KeepsHops, StartOnce};
ghost use Rattle.topo_paths.specs.Graphs.{IsGraph, RisePorts};
ghost use Rattle.topo_paths.specs.Scenes.{links_in, cell_in, HopIsShown};
ghost use Rattle.topo_paths.specs.Tables.{HasTable};

use crate::behind::Behind;
use crate::hop_table::HopTable;
use crate::least::has_beside;
use env_cells::{Env, MOST_LINKS, Update, UpdateError};
use maple_base::{Cell, EnvNow, NoMemory, Place, Value};
use std::alloc::Global;
use std::marker::Model;

/// The most links of an environment, as a length.
const LINKS: usize = MOST_LINKS as usize;

/// The environment, with the next hops over its links.
#[derive(Drop)]
pub struct Scene {
    env: Env,
    table: HopTable,
}

impl Model for Scene {
    ghost use Rattle.env_cells.specs.Environment.{Environment, environment_code};

    ghost Value = { Environment };

    ghost coded = { environment_code };

    ghost use Rattle.env_cells.specs.Most.{most_links};
    ghost use Rattle.topo_paths.specs.Scenes.{links_in};
    ghost use Rattle.topo_paths.specs.Tables.{HasRoom, HasTable};

    ghost view = { λ a. a.env };

    ghost invariant = { λ a. HasRoom a.table most_links × HasTable (links_in a.env) a.table };
}

impl Scene {
    /// The empty environment.
    pub fn new(alloc: Global) -> Result<Scene, NoMemory>
        ensures { IfOk result (λ scene. scene ≡ nothing_known) }
    {
        let env = Env::new(alloc);
        let mut table = HopTable::new(alloc, LINKS)?;
        table.rebuild(links_of(&env));
        Ok(Scene { env, table })
    }

    /// Makes an update, as the environment does. `Tables` declares at most 16 tables. An update that
    /// is refused, or that memory doesn't suffice for, changes nothing.
    #[tactic(auto, using(crate::proofs::Beside::table_kept))]
    pub fn apply(&mut self, update: &Update) -> Result<(), UpdateError>
        requires tables { HasRoomForTables update.now }
        ensures accepted { OnOk result (refusal_of self.old update.now ≡ None) }
        ensures applied { OnOk result (self.new ≡ applied self.old update.now) }
        ensures refused { (r : UpdateRefused) → result ≡ Err (Refused r) → refusal_of self.old update.now ≡ Some r }
        ensures unchanged { OnErr result (self.new ≡ self.old) }
    {
        let changed = self.changes_hops(update);
        self.env.apply(update)?;
        let links = links_of(&self.env);
        if changed {
            self.table.rebuild(links);
        }
        Ok(())
    }

    /// What the environment would be after an update, which is refused as `apply` refuses it. The scene
    /// isn't changed, and isn't copied.
    #[tactic(auto, using(crate::proofs::Beside::table_kept))]
    pub fn behind<'a>(&'a self, update: &'a Update) -> Result<Behind<'a>, UpdateError>
        requires tables { HasRoomForTables update.now }
        ensures accepted { OnOk result (refusal_of self.now update.now ≡ None) }
        ensures behind { IfOk result (λ behind. behind ≡ applied self.now update.now) }
        ensures limits { IfOk result (λ behind. IsWithinLimits behind) }
        ensures refused { (r : UpdateRefused) → result ≡ Err (Refused r) → refusal_of self.now update.now ≡ Some r }
    {
        let changed = self.changes_hops(update);
        let env = self.env.behind(update)?;
        Ok(Behind::new(env, &self.table, changed)?)
    }

    /// Whether next hops may be others after an update.
    #[tactic(auto, using(crate::proofs::Beside::keeps_same, crate::proofs::Beside::link_gone))]
    fn changes_hops(&self, update: &Update) -> bool
        ensures { result ≡ false → KeepsHops (links_in self.now) (links_in (applied self.now update.now)) }
    {
        match update {
            Update::Link { from, to } => self.link_changes_hops(*from, *to),
            Update::NoLink { from } => self.env.link(*from).is_some(),
            _ => false,
        }
    }

    /// Whether next hops may be others with a link from the one place to the other.
    #[tactic(auto, using(crate::proofs::Beside::link_there, crate::proofs::Beside::link_beside))]
    fn link_changes_hops(&self, from: Place, to: Place) -> bool
        ensures { result ≡ false → KeepsHops (links_in self.now) (links_in (applied self.now (updates.Link from to))) }
    {
        match self.env.link(from) {
            Some(place) => place != to,
            None => !has_beside(links_of(&self.env), 0, from, to),
        }
    }

    /// Whether a switch is known.
    pub fn knows(&self, switch: u64) -> bool
        ensures { result ≡ knows self.now switch }
    {
        self.env.knows(switch)
    }

    /// The links, in the order of their first places.
    pub fn links(&self) -> &[(Place, Place)]
        ensures links { result.now ≡ links_in self.now }
        ensures graph { IsGraph result.now }
        ensures limits { IsWithinLimits self.now }
    {
        self.env.links()
    }

    fn table(&self) -> &HopTable
        ensures { HasTable (links_in self.now) result.now }
    {
        &self.table
    }

    /// An equal scene.
    pub fn copy(&self) -> Result<Scene, NoMemory>
        ensures equal { IfOk result (λ scene. scene ≡ self.now) }
        ensures limits { IsWithinLimits self.now }
    {
        Ok(Scene {
            env: self.env.copy()?,
            table: self.table.copy(LINKS)?,
        })
    }
}

impl EnvNow for Scene {
    ghost has = { λ scene cell. cell_in scene cell };

    fn cell(&self, cell: Cell) -> Value
        ensures told { result ≡ cell_in self.now cell }
        ensures kind { IsTrue (of_kind cell result) }
        ensures hop { HopIsShown (links_in self.now) cell result }
    {
        match cell {
            Cell::Hop { from, to } => self.table().shown(from, to),
            _ => self.env.value(cell),
        }
    }
}

/// The links of an environment, which rise by port.
#[tactic(auto, using(crate::proofs::Beside::rise_by_port, crate::proofs::Moved::one_link))]
fn links_of(env: &Env) -> &[(Place, Place)]
    ensures links { result.now ≡ links_in env.now }
    ensures many { length result.now ≤ most_links }
    ensures few { NamesFewSwitches result.now }
    ensures graph { IsGraph result.now }
    ensures rise { RisePorts result.now }
    ensures once { StartOnce result.now }
{
    env.links()
}
