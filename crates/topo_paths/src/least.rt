// Links beside others: of those between two switches only the one by the least port makes next hops.
ghost use Rattle.std.specs.Prelude.{◌≡◌, ◌<◌, ◌≤◌, true, length, vec_len};
ghost use Rattle.std.specs.List.{list_any};
ghost use Rattle.std.specs.Vec.{vec_capacity};
ghost use Rattle.topo_paths.specs.Beside.{is_beside, AreLeast, IsKept};
ghost use Rattle.topo_paths.specs.Graphs.{RisePorts};

use maple_base::Place;

/// Keeps of links that rise by port those without another beside them.
pub fn keep_least(least: &mut Vec<(Place, Place)>, links: &[(Place, Place)])
    requires room { length links.now ≤ vec_capacity least.old }
    requires rise { RisePorts links.now }
    ensures least { AreLeast links.now least.new.items }
    ensures capacity { vec_capacity least.new ≡ vec_capacity least.old }
{
    least.clear();
    let mut first = 0;
    for link in links {
        first = keep(least, first, link);
    }
}

/// Keeps a further link, if none of the kept ones from this index on is beside it. The index at
/// which those of its switch begin.
fn keep(least: &mut Vec<(Place, Place)>, first: usize, link: &(Place, Place)) -> usize
    requires room { vec_len least.old < vec_capacity least.old }
    ensures kept { IsKept least.old.items link.now least.new.items }
    ensures capacity { vec_capacity least.new ≡ vec_capacity least.old }
{
    let mut first = first;
    if first < least.len() && least[first].0.switch != link.0.switch {
        first = least.len();
    }
    if !has_beside(least, first, link.0, link.1) {
        least.push_reserved(*link);
    }
    first
}

/// Whether some link, from this index on, leads from the switch of a place, by a lesser port, to that
/// of another.
pub fn has_beside(links: &[(Place, Place)], first: usize, from: Place, to: Place) -> bool
    ensures { result ≡ true → list_any (is_beside from to) links.now ≡ true }
{
    for index in first..links.len() {
        if is_beside(&links[index], from, to) {
            return true;
        }
    }
    false
}

/// Whether a link leads from the switch of the one place, by a lesser port, to that of the other.
fn is_beside(link: &(Place, Place), from: Place, to: Place) -> bool
    ensures { result ≡ is_beside from to link.now }
{
    link.1.switch == to.switch && link.0.port < from.port && link.0.switch == from.switch
}
