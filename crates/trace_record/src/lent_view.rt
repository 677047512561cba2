// A view that is lent to a walk.
ghost use Rattle.std.specs.Prelude.{◌≡◌, ℕ, IfSome, IsTrue};
ghost use Rattle.maple_base.specs.declared.cells.Cell.{Cell as CellData};
ghost use Rattle.maple_base.specs.declared.cells.Value.{Value as ValueData};
ghost use Rattle.maple_base.specs.Kinds.{of_kind};
ghost use Rattle.trace_record.specs.Since.{IsSince};

use maple_base::{Cell, EnvView, Value};
use std::marker::{Brand, Model, PhantomData};

// What a view had given where a walk began, how often it had refused, and by which reference it was lent. Each call
// picks them, so they hold on every way out.
pub trait Start {
    ghost gave: { CellData → ValueData → Type 0 };

    ghost refused: { ℕ };

    ghost name: { ℕ };
}

impl Start for Brand {
    ghost gave = { λ c v. Unit {0} };

    ghost refused = { 0 };

    ghost name = { 0 };
}

// A view that was lent, given back beside a value.
pub struct Back<'a, V, T> {
    pub view: &'a mut V,
    pub value: T,
}

impl<'a, V, T> Back<'a, V, T> {
    // The value alone. The view is no longer lent.
    pub fn into_value(self) -> T
        ensures value { result ≡ self.entry.value }
        ensures view { self.exit.0.now ≡ self.entry.view.now }
    {
        let Back { view: _view, value } = self;
        value
    }
}

// A view that is lent: since the start it was read, and nothing else.
pub struct LentView<'a, V: EnvView, J: Start> {
    view: &'a mut V,
    of: PhantomData<J>,
}

impl<'a, V: EnvView, J: Start> Model for LentView<'a, V, J> {
    ghost use Rattle.std.specs.Prelude.{◌≡◌};
    ghost use Rattle.trace_record.specs.Since.{IsSince};

    ghost Value = { V };

    ghost view = { λ a. a.view.now };

    ghost invariant = { λ a. (J.name ≡ a.view.ghost_name) × IsSince J.gave J.refused (V.gave a.view.now) (V.refused a.view.now) };
}

impl<'a, V: EnvView, J: Start> LentView<'a, V, J> {
    pub fn new(view: &'a mut V) -> LentView<'a, V, J>
        requires name { J.name ≡ view.ghost_name }
        requires since { IsSince J.gave J.refused (V.gave view.now) (V.refused view.now) }
        ensures { result ≡ view.old }
    {
        LentView {
            view,
            of: PhantomData,
        }
    }

    // What a cell has, or `None` where the view refuses to tell.
    pub fn read(&mut self, cell: Cell) -> Option<Value>
        ensures given { IfSome result (V.gave self.new cell) }
        ensures kind { IfSome result (λ value. IsTrue (of_kind cell value)) }
        ensures kept { (c : CellData) (v : ValueData) → V.gave self.old c v → V.gave self.new c v }
    {
        self.view.read(cell)
    }

    // The view again, beside a value.
    pub fn finish<T>(self, value: T) -> Back<'a, V, T>
        ensures same { result.view.now ≡ self.entry }
        ensures value { result.value ≡ value }
        ensures name { J.name ≡ result.view.ghost_name }
        ensures since { IsSince J.gave J.refused (V.gave result.view.now) (V.refused result.view.now) }
    {
        let LentView { view, of: _ } = self;
        Back { view, value }
    }
}
