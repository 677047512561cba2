// What was read in cells.
ghost use Rattle.std.specs.Prelude.{◌≡◌, ◌++◌, ◌∷◌, [], None, true, OnOk, IsTrue, IfSome};
ghost use Rattle.std.specs.List.{list_all};
ghost use Rattle.maple_base.specs.Kinds.{of_kind};
ghost use Rattle.policy_meaning.specs.Cells.{given, is_of_kind};

use maple_base::{Cell, Cells, NoMemory, Value};
use std::alloc::Global;
use std::collections::HashMap;
use std::marker::Model;

// The cells that were read, with their values, in order.
#[derive(Drop)]
pub struct ReadCells {
    list: Vec<(Cell, Value)>,
    // The same as a table.
    table: HashMap<Cell, Value>,
}

impl Model for ReadCells {
    ghost use Rattle.std.specs.Prelude.{List};
    ghost use Rattle.maple_base.specs.declared.cells.Cell.{Cell};
    ghost use Rattle.maple_base.specs.declared.cells.Value.{Value as CellValue};
    ghost use Rattle.trace_record.specs.Tables.{AreKept};

    ghost Value = { List (Cell × CellValue) };

    ghost view = { λ a. a.list.items };

    ghost invariant = { λ a. AreKept a.list.items a.table };
}

impl ReadCells {
    pub fn new(alloc: Global) -> ReadCells
        ensures { result ≡ [] }
    {
        ReadCells {
            list: Vec::new(alloc),
            table: HashMap::new(alloc),
        }
    }

    // What was read in a cell.
    #[tactic(auto, using(crate::proofs::Tables::given_kind))]
    pub fn given(&self, cell: &Cell) -> Option<Value>
        ensures given { result ≡ given cell.now self.now }
        ensures kind { IfSome result (λ value. IsTrue (of_kind cell.now value)) }
    {
        self.table.get(cell).copied()
    }

    // Notes what was read in a new cell behind the others.
    pub fn push(&mut self, cell: &Cell, value: Value) -> Result<(), NoMemory>
        requires new { given cell.now self.old ≡ None }
        requires kind { IsTrue (of_kind cell.now value) }
        ensures { OnOk result (self.new ≡ self.old ++ (cell.now, value) ∷ []) }
    {
        self.list.reserve(1)?;
        self.table.insert(*cell, value)?;
        self.list.push_reserved((*cell, value));
        Ok(())
    }

    pub fn into_cells(self) -> Cells
        ensures cells { result ≡ self }
        ensures kinds { list_all is_of_kind result ≡ true }
    {
        Cells::new(self.list)
    }
}
