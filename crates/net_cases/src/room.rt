// How many tables an update may declare.
ghost use Rattle.std.specs.Prelude.{◌≤◌, IsTrue};
ghost use Rattle.std.specs.FinSet as set;
ghost use Rattle.env_cells.specs.Environment.{name_cmp};
ghost use Rattle.env_cells.specs.Most.{most_tables};
ghost use Rattle.env_cells.specs.Refusals.{HasRoomForTables};

use env_cells::Update;
use maple_base::Names;

/// Whether an update declares at most 16 tables.
pub fn has_room(update: &Update) -> bool
    ensures { IsTrue result → HasRoomForTables update.now }
{
    match update {
        Update::Tables(names) => is_few(names),
        _ => true,
    }
}

#[tactic(auto, using(env_cells::specs::FewNames::few_names))]
fn is_few(names: &Names) -> bool
    ensures { IsTrue result → set.len (set.from_list {R = name_cmp} names.now) ≤ most_tables }
{
    names.items().len() <= 16
}
