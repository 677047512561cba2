// An environment: switches in a line.
use maple_base::{Cell, EnvNow, Place, Value};

/// Switches 1 to 300 in a line, each a hop by port 7 from the one before it. The host 5 is at port 4
/// of switch 3, port 2 of switch 1 is up, and each table has 80 at 1.
#[derive(Clone, Copy)]
pub struct Line;

impl EnvNow for Line {
    ghost use Rattle.std.specs.Prelude.{◌+◌, ◌==◌, ◌&&◌, nat_lt, cond};
    ghost use Rattle.maple_base.specs.declared.cells.Cell.TheVariants.{Host, Hop, Up, Num};
    ghost use Rattle.maple_base.specs.declared.cells.Value.TheVariants.{Nothing, At, Number, Flag};

    ghost has = { λ e c. elim c [
      | Host m ↦ cond (m == 5) (At (record { switch = 3; port = 4 })) Nothing
      | Hop from to ↦ cond (nat_lt from 300) (At (record { switch = from + 1; port = 7 })) Nothing
      | Up switch port ↦ Flag (switch == 1 && port == 2)
      | Num table key ↦ cond (key == 1) (Number 80) Nothing
    ] };

    fn cell(&self, cell: Cell) -> Value {
        match cell {
            Cell::Host(5) => Value::At(Place { switch: 3, port: 4 }),
            Cell::Hop { from, .. } if from < 300 => Value::At(Place {
                switch: from + 1,
                port: 7,
            }),
            Cell::Up { switch, port } => Value::Flag(switch == 1 && port == 2),
            Cell::Num { key: 1, .. } => Value::Number(80),
            _ => Value::Nothing,
        }
    }
}
