// Next hops between 64 switches with random links, against a search by hand.
use crate::networks::{link, next, switches};
use env_cells::Update;
use maple_base::{Cell, EnvNow, NoMemory, Place, Value};
use std::alloc::Global;
use std::test::Fail;
use topo_paths::{Hops, Scene};

// How many links lead on from a switch that was reached.
fn count_of(reached: &[(u64, u64)], switch: u64) -> Option<u64> {
    for (at, count) in reached {
        if *at == switch {
            return Some(*count);
        }
    }
    None
}

// Reaches the switches from which a link leads to one that so many links lead on from.
fn spread(
    reached: &mut Vec<(u64, u64)>,
    links: &[(Place, Place)],
    level: u64,
) -> Result<(), NoMemory> {
    for (start, end) in links {
        let ends_there = count_of(reached, end.switch) == Some(level);
        if ends_there && count_of(reached, start.switch).is_none() {
            reached.push((start.switch, level.wrapping_add(1)))?;
        }
    }
    Ok(())
}

// The switches that lead to one, each with the number of links of a shortest walk, breadth first.
fn search(alloc: Global, links: &[(Place, Place)], to: u64) -> Result<Vec<(u64, u64)>, NoMemory> {
    let mut reached = Vec::new(alloc);
    reached.push((to, 0))?;
    for level in 0..64 {
        let count = reached.len();
        spread(&mut reached, links, level)?;
        if reached.len() == count {
            break;
        }
    }
    Ok(reached)
}

// Whether a link leads from a switch to one that is a link nearer.
fn leads_nearer(reached: &[(u64, u64)], link: &(Place, Place), from: u64) -> bool {
    if link.0.switch != from {
        return false;
    }
    match (count_of(reached, from), count_of(reached, link.1.switch)) {
        (Some(far), Some(near)) => near < far,
        _ => false,
    }
}

// The hop by the least port over a link that leads nearer.
fn best_hop(reached: &[(u64, u64)], links: &[(Place, Place)], from: u64) -> Value {
    let mut best = Value::Nothing;
    for link in links {
        if leads_nearer(reached, link, from) {
            let switch = link.1.switch;
            let port = link.0.port;
            let is_first = match best {
                Value::At(hop) => port < hop.port,
                _ => true,
            };
            if is_first {
                best = Value::At(Place { switch, port });
            }
        }
    }
    best
}

// Whether the hops to one switch are those that the search finds, from the scene and from its links.
fn agrees(scene: &Scene, hops: &Hops, reached: &[(u64, u64)], to: u64) -> bool {
    let links = scene.links();
    for from in 1..65 {
        let best = best_hop(reached, links, from);
        if scene.cell(Cell::Hop { from, to }) != best {
            return false;
        }
        let hop = match hops.hop(from, to) {
            Some(hop) => Value::At(hop),
            None => Value::Nothing,
        };
        if hop != best {
            return false;
        }
    }
    true
}

fn all_agree(alloc: Global, scene: &Scene) -> Result<bool, NoMemory> {
    let hops = Hops::build(alloc, scene.links())?;
    for to in 1..65 {
        let reached = search(alloc, scene.links(), to)?;
        if !agrees(scene, &hops, &reached, to) {
            return Ok(false);
        }
    }
    Ok(true)
}

fn place(numbers: u64) -> Place {
    Place {
        switch: numbers % 64 + 1,
        port: numbers / 64 % 5 + 1,
    }
}

// 64 switches with so many random links, of which some replace others.
fn network(alloc: Global, seed: u64, count: u64) -> Result<Scene, Fail> {
    let mut scene = switches(alloc, 64)?;
    let mut state = seed;
    for _ in 0..count {
        state = next(state);
        let from = place(state >> 20);
        let to = place(state >> 40);
        link(&mut scene, from, to)?;
    }
    Ok(scene)
}

#[test]
fn hops_between_64_switches_agree_with_a_search(rt: HostRuntime) -> Result<(), Fail> {
    for (seed, count) in [(1, 60), (2, 110), (3, 200), (4, 1000)] {
        let scene = network(rt.alloc(), seed, count)?;
        assert!(rt; all_agree(rt.alloc(), &scene)?, "at {seed}");
    }
    Ok(())
}

#[test]
fn hops_follow_links_that_go(rt: HostRuntime) -> Result<(), Fail> {
    let mut scene = network(rt.alloc(), 5, 150)?;
    for switch in 1..65 {
        let from = Place { switch, port: 1 };
        scene.apply(&Update::NoLink { from })?;
    }
    assert!(rt; all_agree(rt.alloc(), &scene)?);
    Ok(())
}
