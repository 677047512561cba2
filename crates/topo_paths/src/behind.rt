// The environment behind an update, with next hops.
ghost use Rattle.std.specs.Prelude.{◌≡◌, false, IsTrue, IfOk, MatchOption};
ghost use Rattle.maple_base.specs.Kinds.{of_kind};
ghost use Rattle.env_cells.specs.Limits.{IsWithinLimits};
ghost use Rattle.topo_paths.specs.Scenes.{links_in, cell_in, HopIsShown};
ghost use Rattle.topo_paths.specs.Tables.{HasTable, IsTableOf};

use crate::hop_table::HopTable;
use env_cells::EnvBehind;
use maple_base::{Cell, EnvNow, NoMemory, Value};
use std::marker::Model;

/// The environment as it would be after an update, with its next hops. It reads the scene before the
/// update, and has next hops of its own only where they may be others.
#[derive(Drop)]
pub struct Behind<'a> {
    env: EnvBehind<'a>,
    table: &'a HopTable,
    own: Option<HopTable>,
}

impl<'a> Model for Behind<'a> {
    ghost use Rattle.env_cells.specs.Environment.{Environment, environment_code};
    ghost use Rattle.topo_paths.specs.Scenes.{links_in};
    ghost use Rattle.std.specs.Prelude.{unwrap_or};
    ghost use Rattle.topo_paths.specs.Tables.{HasTable};

    ghost Value = { Environment };

    ghost coded = { environment_code };

    ghost view = { λ a. a.env };

    ghost invariant = { λ a. HasTable (links_in a.env) (unwrap_or a.own a.table.now) };
}

impl<'a> Behind<'a> {
    /// An environment behind an update, with these next hops where the update changes none.
    #[tactic(auto, using(crate::proofs::Beside::own_or))]
    pub(crate) fn new(
        env: EnvBehind<'a>,
        table: &'a HopTable,
        changed: bool,
    ) -> Result<Behind<'a>, NoMemory>
        requires within { IsWithinLimits env }
        requires kept { changed ≡ false → IsTableOf (links_in env) table.now }
        ensures { IfOk result (λ behind. behind ≡ env.entry) }
    {
        let own = own_table(&env, changed)?;
        Ok(Behind { env, table, own })
    }

    fn table(&self) -> &HopTable
        ensures { HasTable (links_in self.now) result.now }
    {
        match &self.own {
            Some(table) => table,
            None => self.table,
        }
    }
}

/// The next hops behind an update, where it may change them.
fn own_table(env: &EnvBehind<'_>, changed: bool) -> Result<Option<HopTable>, NoMemory>
    requires { IsWithinLimits env.now }
    ensures { IfOk result (λ own. MatchOption own (changed ≡ false) (HasTable (links_in env.now))) }
{
    if !changed {
        return Ok(None);
    }
    let links = env.links()?;
    let mut table = HopTable::new(*links.allocator(), links.len())?;
    table.rebuild(&links);
    Ok(Some(table))
}

impl<'a> EnvNow for Behind<'a> {
    ghost has = { λ behind cell. cell_in behind cell };

    fn cell(&self, cell: Cell) -> Value
        ensures told { result ≡ cell_in self.now cell }
        ensures kind { IsTrue (of_kind cell result) }
        ensures hop { HopIsShown (links_in self.now) cell result }
    {
        match cell {
            Cell::Hop { from, to } => self.table().shown(from, to),
            _ => self.env.value(cell),
        }
    }
}
