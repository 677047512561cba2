// The next hops between all switches that links name.
ghost use Rattle.std.specs.Prelude.{◌≡◌, ◌≤◌, ℕ, List, length, IfOk};
ghost use Rattle.env_cells.specs.Lists.{NamesFewSwitches};
ghost use Rattle.topo_paths.specs.Beside.{StartOnce};
ghost use Rattle.topo_paths.specs.Graphs.{RisePorts};
ghost use Rattle.topo_paths.specs.NextHops.{next_hop};
ghost use Rattle.topo_paths.specs.Tables.{HasRoom, HasTable, IsShown, IsSquare, IsTableOf};
ghost use Rattle.topo_paths.specs.Walks.{Link};

use crate::least::keep_least;
use crate::rows::{Ends, Row, SWITCHES, find_hops};
use crate::switches::{find_ends, index_of};
use maple_base::{NoMemory, Place, Value};
use std::alloc::Global;

/// The links without another beside them, the switches that they name, and for each place of these a
/// row: the next hops to the switch there from each of them.
#[derive(Drop)]
pub struct HopTable {
    pub least: Vec<(Place, Place)>,
    pub switches: Vec<u64>,
    pub ends: Vec<Ends>,
    pub rows: Vec<Row>,
}

impl HopTable {
    /// A table with room for so many links.
    pub fn new(alloc: Global, links: usize) -> Result<HopTable, NoMemory>
        ensures room { IfOk result (λ table. HasRoom table links) }
    {
        Ok(HopTable {
            least: Vec::with_capacity(alloc, links)?,
            switches: Vec::with_capacity(alloc, SWITCHES)?,
            ends: Vec::with_capacity(alloc, links)?,
            rows: vec![in alloc; [None; SWITCHES]; SWITCHES]?,
        })
    }

    /// Makes this the table of these links, which rise by port.
    pub fn rebuild(&mut self, links: &[(Place, Place)])
        requires room { HasRoom self.old (length links.now) }
        requires few { NamesFewSwitches links.now }
        requires rise { RisePorts links.now }
        requires once { StartOnce links.now }
        ensures room { (n : ℕ) → HasRoom self.old n → HasRoom self.new n }
        ensures table { IsTableOf links.now self.new }
    {
        keep_least(&mut self.least, links);
        let least = self.least.as_slice();
        find_ends(&mut self.switches, &mut self.ends, least);
        find_hops(&mut self.rows, least, &self.ends);
    }

    /// The next hop from one switch to another.
    pub fn hop(&self, from: u64, to: u64) -> Option<Place>
        requires { IsSquare self.now }
        ensures { (links : List Link) → IsTableOf links self.now → result ≡ next_hop links from to }
    {
        let row = index_of(&self.switches, to)?;
        let column = index_of(&self.switches, from)?;
        self.rows[row][column]
    }

    /// What a cell of the next hop from one switch to another has.
    pub fn shown(&self, from: u64, to: u64) -> Value
        requires { IsSquare self.now }
        ensures { (links : List Link) → HasTable links self.now → IsShown links from to result }
    {
        match self.hop(from, to) {
            Some(place) => Value::At(place),
            None => Value::Nothing,
        }
    }

    /// A table of the same links, with room for so many.
    pub fn copy(&self, links: usize) -> Result<HopTable, NoMemory>
        requires { IsSquare self.now }
        ensures room { IfOk result (λ table. HasRoom table links) }
        ensures table { IfOk result (λ table. (list : List Link) → IsTableOf list self.now → IsTableOf list table) }
    {
        let alloc = *self.switches.allocator();
        let mut switches = Vec::with_capacity(alloc, SWITCHES)?;
        switches.extend_from_slice(&self.switches)?;
        Ok(HopTable {
            least: Vec::with_capacity(alloc, links)?,
            switches,
            ends: Vec::with_capacity(alloc, links)?,
            rows: Vec::from_slice(alloc, &self.rows)?,
        })
    }
}
