// The hops of a packet.
ghost use Rattle.std.specs.Prelude.{◌≡◌, IfOk};
ghost use Rattle.maple_base.specs.Paths.{IsPath};

use crate::{NoMemory, Place};
use std::marker::Model;

/// The hops of a packet, in order: 1 to 64 switches, each with the port, of 1 to 65,280, that the
/// packet leaves by.
#[derive(Drop)]
pub struct Path {
    list: Vec<Place>,
}

impl Model for Path {
    ghost use Rattle.std.specs.Prelude.{List};
    ghost use Rattle.maple_base.specs.declared.cells.Place.{Place};
    ghost use Rattle.maple_base.specs.Paths.{IsPath};

    ghost Value = { List Place };

    ghost view = { λ a. a.list.items };

    ghost invariant = { λ a. IsPath a.list.items };
}

impl Path {
    /// These hops.
    pub fn new(list: Vec<Place>) -> Path
        requires { IsPath list.items }
        ensures { result ≡ list.items }
    {
        Path { list }
    }

    /// The hops, in order.
    pub fn items(&self) -> &[Place]
        ensures hops { result.now ≡ self.now }
        ensures path { IsPath self.now }
    {
        &self.list
    }

    /// An equal path.
    pub fn copy(&self) -> Result<Path, NoMemory>
        ensures { IfOk result (λ path. path ≡ self.now) }
    {
        let list = Vec::from_slice(*self.list.allocator(), &self.list)?;
        Ok(Path { list })
    }
}
