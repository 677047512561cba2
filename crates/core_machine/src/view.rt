// Cells of a machine, read by its entry for that.
ghost use Rattle.std.specs.Prelude.{◌≡◌};
ghost use Rattle.topo_paths.specs.Scenes.{cell_in};
ghost use Rattle.machine_steps.specs.declared.entry.Entry.TheVariants.{ReadCell};
ghost use Rattle.machine_steps.specs.declared.reply.Reply.TheVariants.{Value as ValueRead};
ghost use Rattle.machine_steps.specs.Steps.{Steps};

use crate::machine::Core;
use machine_steps::{Entry, Reply, running_laws};
use maple_base::{Cell, EnvView, Value};

/// What a policy's run reads cells from: the machine's state now. Each read is an entry ReadCell of the machine, and
/// it never refuses.
#[derive(Drop)]
pub struct CoreView<'a> {
    core: &'a mut Core,
}

impl<'a> CoreView<'a> {
    /// The view over this machine.
    pub fn new(core: &'a mut Core) -> CoreView<'a>
        ensures { result.core.now ≡ core.old }
    {
        CoreView { core }
    }

    /// What the machine answers to ReadCell. Nothing else of it is asked or changed.
    pub fn ask(&mut self, cell: Cell) -> Value
        ensures told { result ≡ cell_in self.old.core.now.scene cell }
        ensures kept { self.new.core.now ≡ self.old.core.now }
    {
        match self.core.step(Entry::ReadCell(cell)) {
            Reply::Value(value) => value,
            _ => unreachable!(),
        }
    }
}

impl<'a> EnvView for CoreView<'a> {
    // the replies of the machine as it is now
    ghost gave = { λ view cell value. Steps view.core.now (ReadCell cell) (ValueRead value) view.core.now };

    ghost refused = { λ view. 0 };

    fn read(&mut self, cell: Cell) -> Option<Value> {
        self.core.law();
        running_laws();
        Some(self.ask(cell))
    }

    fn refusals(&self) -> u64 {
        0
    }
}
