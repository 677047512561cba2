// The switches that links name, by their places in a list.
ghost use Rattle.std.specs.Prelude.{◌≡◌, ◌≢◌, ℕ, ◌<◌, ◌≤◌, ◌⊎◌, [], ◌∷◌, ◌++◌, List, length, AllPairs, Contains, MatchOption, slice_index, vec_len};
ghost use Rattle.std.specs.Vec.{vec_capacity};
ghost use Rattle.env_cells.specs.Lists.{NamesFewSwitches};
ghost use Rattle.env_cells.specs.Most.{most_switches};
ghost use Rattle.topo_paths.specs.Rows.{AreEnds, KeepPlaces};

use crate::rows::Ends;
use maple_base::Place;

/// The place of a switch among the named ones.
pub fn index_of(switches: &[u64], switch: u64) -> Option<usize>
    ensures { MatchOption result (¬ Contains switches.now switch) (λ i. (i < length switches.now) × (slice_index switches.now i ≡ switch)) }
{
    switches.iter().position(|s| *s == switch)
}

/// The place of a switch among the named ones, sought at one place first.
fn index_near(switches: &[u64], switch: u64, hint: usize) -> Option<usize>
    ensures { MatchOption result (¬ Contains switches.now switch) (λ i. (i < length switches.now) × (slice_index switches.now i ≡ switch)) }
{
    if hint < switches.len() && switches[hint] == switch {
        return Some(hint);
    }
    index_of(switches, switch)
}

/// The place of a switch among the named ones, sought at one place first. One that is not named yet
/// is named.
#[tactic(auto, using(crate::proofs::Naming::same_places, crate::proofs::Naming::one_place_more))]
fn name(switches: &mut Vec<u64>, switch: u64, hint: usize) -> usize
    requires distinct { AllPairs ◌≢◌ switches.old.items }
    requires room { (¬ Contains switches.old.items switch) → vec_len switches.old < vec_capacity switches.old }
    ensures distinct { AllPairs ◌≢◌ switches.new.items }
    ensures place { (result < length switches.new.items) × (slice_index switches.new.items result ≡ switch) }
    ensures kept { KeepPlaces switches.old.items switches.new.items }
    ensures only { (s : ℕ) → Contains switches.new.items s → Contains switches.old.items s ⊎ (switch ≡ s) }
    ensures capacity { vec_capacity switches.new ≡ vec_capacity switches.old }
{
    if let Some(place) = index_near(switches, switch, hint) {
        return place;
    }
    let place = switches.len();
    switches.push_reserved(switch);
    place
}

/// Names the switches of links, each once, and finds the places of the two of each link.
pub fn find_ends(switches: &mut Vec<u64>, ends: &mut Vec<Ends>, links: &[(Place, Place)])
    requires room { most_switches ≤ vec_capacity switches.old }
    requires room_for_ends { length links.now ≤ vec_capacity ends.old }
    requires few { NamesFewSwitches links.now }
    ensures ends { AreEnds links.now switches.new.items ends.new.items }
    ensures long { length ends.new.items ≡ length links.now }
    ensures capacity { vec_capacity switches.new ≡ vec_capacity switches.old }
    ensures capacity_of_ends { vec_capacity ends.new ≡ vec_capacity ends.old }
{
    switches.clear();
    ends.clear();
    let mut hint = Ends { from: 0, to: 0 };
    for (from, to) in links {
        let start = name(switches, from.switch, usize::from(hint.from));
        let end = name(switches, to.switch, usize::from(hint.to));
        hint = Ends {
            from: start as u8,
            to: end as u8,
        };
        ends.push_reserved(hint);
    }
}
