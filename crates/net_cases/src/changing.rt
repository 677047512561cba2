// A view that changes, and that refuses a read.
ghost use Rattle.std.specs.Prelude.{IsTrue};
ghost use Rattle.maple_base.specs.Kinds.{of_kind};

use maple_base::{Cell, EnvView, Place, Value};

/// A view that tells another place at each read, and refuses one read. Of a next hop it tells the
/// switch whose number is one more.
#[derive(Drop)]
pub struct Changing {
    /// How many reads there were.
    pub reads: u64,
    /// Which read is refused, from 1; 0 where none is.
    pub refuses: u64,
    /// How many reads were refused.
    pub refusals: u64,
}

fn told(cell: Cell, reads: u64) -> Value
    ensures { IsTrue (of_kind cell result) }
{
    match cell {
        Cell::Host(_) => Value::At(Place {
            switch: reads,
            port: reads,
        }),
        Cell::Hop { from, .. } => Value::At(Place {
            switch: from.saturating_add(1),
            port: 3,
        }),
        Cell::Up { .. } => Value::Flag(reads % 2 == 1),
        Cell::Num { .. } => Value::Number(reads),
    }
}

impl EnvView for Changing {
    ghost gave = { λ view cell value. Unit {0} };

    ghost refused = { λ view. view.refusals };

    fn read(&mut self, cell: Cell) -> Option<Value> {
        self.reads = self.reads.saturating_add(1);
        if self.reads == self.refuses {
            self.refusals = self.refusals.saturating_add(1);
            return None;
        }
        Some(told(cell, self.reads))
    }

    fn refusals(&self) -> u64 {
        self.refusals
    }
}
