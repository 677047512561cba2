// The next hops between named switches, level by level.
ghost use Rattle.std.specs.Prelude.{◌≡◌, ℕ, ◌<◌, length, All, Some, None, false, not, ◌&&◌, ◌==◌, if◌then◌else◌};
ghost use Rattle.env_cells.specs.Most.{most_switches};
ghost use Rattle.topo_paths.specs.NextHops.{hop_over};
ghost use Rattle.topo_paths.specs.Rows.{AreWithin, AreRows, cell_at};
ghost use Rattle.topo_paths.specs.Levels.{IsNextLevel, IsJoined, IsWritten, has, reaches};

use env_cells::MOST_SWITCHES;
use maple_base::Place;

/// The most switches that links name, as a length.
pub const SWITCHES: usize = MOST_SWITCHES as usize;

/// The switches between which a link leads, by their places among the named ones.
#[derive(Clone, Copy)]
pub struct Ends {
    pub from: u8,
    pub to: u8,
}

/// The next hops from each named switch, by its place, to one of them.
pub type Row = [Option<Place>; SWITCHES];

/// The places that each named switch reaches, a bit a place.
type Reach = [u64; SWITCHES];

/// Finds the next hops over links that rise by port, a row for each place.
pub fn find_hops(rows: &mut [Row], links: &[(Place, Place)], ends: &[Ends])
    requires square { length rows.old ≡ most_switches }
    requires within { All AreWithin ends.now }
    requires long { length ends.now ≡ length links.now }
    ensures square { length rows.new ≡ most_switches }
    ensures hops { AreRows links.now ends.now rows.new }
{
    clear(rows);
    let mut reach = alone();
    for _ in links {
        if !extend(rows, &mut reach, links, ends) {
            return;
        }
    }
}

/// No hops.
fn clear(rows: &mut [Row])
    requires square { length rows.old ≡ most_switches }
    ensures square { length rows.new ≡ most_switches }
    ensures none { (from to : ℕ) → from < most_switches → to < most_switches → cell_at rows.new to from ≡ None }
{
    for place in 0..SWITCHES {
        rows[place] = [None; SWITCHES];
    }
}

/// Each place reaches itself.
fn alone() -> Reach
    ensures masks { length result ≡ most_switches }
    ensures own { (from to : ℕ) → from < most_switches → to < most_switches → reaches result from to ≡ (from == to) }
{
    let mut reach = [0; SWITCHES];
    for place in 0..SWITCHES {
        reach[place] = 1 << place;
    }
    reach
}

/// Puts one more link in front of all walks. Whether a further place is reached.
fn extend(rows: &mut [Row], reach: &mut [u64], links: &[(Place, Place)], ends: &[Ends]) -> bool
    requires square { length rows.old ≡ most_switches }
    requires masks { length reach.old ≡ most_switches }
    requires within { All AreWithin ends.now }
    requires long { length ends.now ≡ length links.now }
    ensures square { length rows.new ≡ most_switches }
    ensures masks { length reach.new ≡ most_switches }
    ensures more { IsNextLevel links.now ends.now reach.old rows.old reach.new rows.new }
    ensures none { result ≡ false → reach.new ≡ reach.old }
{
    let mut before = [0; SWITCHES];
    before.copy_from_slice(reach);
    let mut grown = false;
    for (i, link) in links.iter().enumerate() {
        if join(rows, reach, &before, &ends[i], link) {
            grown = true;
        }
    }
    grown
}

/// Lets the place at which a link begins reach what the place reached before at which it ends; the
/// hop is that over the link. Whether one of those places is new.
#[tactic(auto, using(crate::proofs::Masks::joined_none, crate::proofs::Masks::joined_some))]
fn join(
    rows: &mut [Row],
    reach: &mut [u64],
    before: &[u64],
    e: &Ends,
    link: &(Place, Place),
) -> bool
    requires square { length rows.old ≡ most_switches }
    requires masks { length reach.old ≡ most_switches }
    requires before { length before.now ≡ most_switches }
    requires within { AreWithin e.now }
    ensures square { length rows.new ≡ most_switches }
    ensures masks { length reach.new ≡ most_switches }
    ensures joined { IsJoined e.now (hop_over link.now) before.now reach.old rows.old reach.new rows.new }
    ensures none { result ≡ false → reach.new ≡ reach.old }
{
    let from = e.from as usize;
    let new = without(before[e.to as usize], reach[from]);
    if new == 0 {
        return false;
    }
    reach[from] |= new;
    write_hops(rows, from, new, hop_over(link));
    true
}

/// The places of a mask that another doesn't have.
#[tactic(auto, using(crate::proofs::Masks::has_and_not))]
fn without(mask: u64, other: u64) -> u64
    ensures { (place : ℕ) → place < most_switches → has result place ≡ (has mask place && not (has other place)) }
{
    mask & !other
}

/// Writes the hop from one place to each place of a mask.
fn write_hops(rows: &mut [Row], from: usize, mask: u64, hop: Place)
    requires square { length rows.old ≡ most_switches }
    requires from { from < most_switches }
    ensures square { length rows.new ≡ most_switches }
    ensures hops { IsWritten from mask hop rows.old rows.new }
{
    let mut left = mask;
    while left != 0 {
        let to = left.trailing_zeros() as usize;
        rows[to][from] = Some(hop);
        left &= !(1 << to);
    }
}

fn hop_over(link: &(Place, Place)) -> Place
    ensures { result ≡ hop_over link.now }
{
    Place {
        switch: link.1.switch,
        port: link.0.port,
    }
}
