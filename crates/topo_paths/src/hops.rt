// Next hops over links.
ghost use Rattle.std.specs.Prelude.{◌≡◌, ◌≢◌, ◌⊎◌, IfOk, IfSome, IfNone, IsTrue};
ghost use Rattle.maple_base.specs.Paths.{IsPath, is_hop};
ghost use Rattle.std.specs.List.Sorted.{IsPermutation};
ghost use Rattle.topo_paths.specs.Graphs.{IsGraph, RisePorts};
ghost use Rattle.topo_paths.specs.NextHops.{next_hop};
ghost use Rattle.topo_paths.specs.Walks.{IsNextHop, IsWay, NoWalk};
ghost use Rattle.topo_paths.specs.Ways.{IsWholeWay};

use crate::hop_table::HopTable;
use maple_base::{NoMemory, Path, Place};
use std::alloc::Global;
use std::marker::Model;

/// The next hops between all switches over links.
#[derive(Drop)]
pub struct Hops {
    links: Vec<(Place, Place)>,
    table: HopTable,
}

impl Model for Hops {
    ghost use Rattle.std.specs.Prelude.{List};
    ghost use Rattle.topo_paths.specs.Walks.{Link};
    ghost use Rattle.topo_paths.specs.Tables.{HasTable};

    ghost Value = { List Link };

    ghost view = { λ a. a.links.items };

    ghost invariant = { λ a. HasTable a.links.items a.table };
}

impl Hops {
    /// The next hops over links of which no two begin at one place, which name at most 64
    /// switches, and whose ports are from 1 to 65,280.
    pub fn build(alloc: Global, links: &[(Place, Place)]) -> Result<Hops, NoMemory>
        requires { IsGraph links.now }
        ensures { IfOk result (λ hops. hops ≡ links.now) }
    {
        let rising = rising(alloc, links)?;
        let mut table = HopTable::new(alloc, rising.len())?;
        table.rebuild(&rising);
        let links = Vec::from_slice(alloc, links)?;
        Ok(Hops { links, table })
    }

    /// The next hop between two switches: the least port of the first whose link begins a shortest
    /// walk of links to the second, with the switch at which that link ends. None where the two
    /// are one or no walk leads from the first to the second.
    pub fn hop(&self, from: u64, to: u64) -> Option<Place>
        ensures value { result ≡ next_hop self.now from to }
        ensures some { IfSome result (λ hop. IsNextHop self.now from to hop) }
        ensures none { IfNone result ((from ≡ to) ⊎ NoWalk self.now from to) }
        ensures port { IfSome result (λ hop. IsTrue (is_hop hop)) }
    {
        self.table.hop(from, to)
    }

    /// The next hops from one switch to another, one after the other: 1 to 64 hops, each the
    /// switch that is left and the port. None where there is no next hop.
    pub fn path(&self, from: u64, to: u64) -> Result<Option<Path>, NoMemory>
        ensures some { IfOk result (λ answer. IfSome answer (λ path. IsWay self.now to from to path)) }
        ensures path { IfOk result (λ answer. IfSome answer (λ path. IsPath path)) }
        ensures none { IfOk result (λ answer. IfNone answer ((from ≡ to) ⊎ NoWalk self.now from to)) }
        ensures apart { IfOk result (λ answer. IfSome answer (λ path. from ≢ to)) }
    {
        let hops = self.way(from, to)?;
        if hops.is_empty() {
            return Ok(None);
        }
        Ok(Some(Path::new(hops)))
    }

    // The next hops from one switch to another, as far as they lead.
    fn way(&self, from: u64, to: u64) -> Result<Vec<Place>, NoMemory>
        ensures { IfOk result (λ hops. IsWholeWay self.now from to hops.items) }
    {
        let mut hops = Vec::new(*self.table.switches.allocator());
        let mut at = from;
        while let Some(next) = self.hop(at, to) {
            hops.push(Place {
                switch: at,
                port: next.port,
            })?;
            at = next.switch;
        }
        Ok(hops)
    }
}

/// These links in the order of the ports at which they begin.
fn rising(alloc: Global, links: &[(Place, Place)]) -> Result<Vec<(Place, Place)>, NoMemory>
    ensures moved { IfOk result (λ list. IsPermutation links.now list.items) }
    ensures rise { IfOk result (λ list. RisePorts list.items) }
{
    let mut list = Vec::from_slice(alloc, links)?;
    list.sort_unstable_by_key(|link| link.0.port);
    Ok(list)
}
