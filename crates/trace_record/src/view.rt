// A view that tells what an environment has.
ghost use Rattle.std.specs.Prelude.{◌≡◌};

use maple_base::{Cell, EnvNow, EnvView, Value};

/// A view over an environment: it tells every cell.
#[derive(Drop)]
pub struct NowView<'a, E: EnvNow> {
    env: &'a E,
}

impl<'a, E: EnvNow> NowView<'a, E> {
    /// The view over this environment.
    pub fn new(env: &'a E) -> NowView<'a, E>
        ensures { result.env.now ≡ env.now }
    {
        NowView { env }
    }
}

impl<'a, E: EnvNow> EnvView for NowView<'a, E> {
    ghost gave = { λ view cell value. value ≡ E.has view.env.now cell };

    ghost refused = { λ view. 0 };

    fn read(&mut self, cell: Cell) -> Option<Value> {
        Some(self.env.cell(cell))
    }

    fn refusals(&self) -> u64 {
        0
    }
}
