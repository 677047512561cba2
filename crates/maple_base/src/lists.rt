// Vectors, which contracts see as lists.
ghost use Rattle.std.specs.Prelude.{◌≡◌};

use crate::{Cell, Item, Name, Port, TableMod, Value};
use std::marker::Model;

/// A vector that contracts see as the list of its items.
#[derive(Drop)]
pub struct Listed<T> {
    list: Vec<T>,
}

/// Bytes.
pub type Bytes = Listed<u8>;

/// Words of a command line, in order.
pub type Words = Listed<Bytes>;

/// Ports of a switch, in order.
pub type Ports = Listed<Port>;

/// What an evaluation asked of its packet, with the answers, in order.
pub type Items = Listed<Item>;

/// Cells with the values that were read in them, in order.
pub type Cells = Listed<(Cell, Value)>;

/// Names, in order.
pub type Names = Listed<Name>;

/// Changes of a flow table, in order.
pub type Mods = Listed<TableMod>;

impl<T> Model for Listed<T> {
    ghost use Rattle.std.specs.Prelude.{List};

    ghost Value = { List T };

    ghost view = { λ a. a.list.items };
}

impl<T> Listed<T> {
    /// These items.
    pub fn new(list: Vec<T>) -> Listed<T>
        ensures { result ≡ list.items }
    {
        Listed { list }
    }

    /// The items, in order.
    pub fn items(&self) -> &[T]
        ensures { result.now ≡ self.now }
    {
        &self.list
    }
}
