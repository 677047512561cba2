// Next hops against a search over all walks, in networks of four switches.
use crate::networks::{link, next, switches};
use maple_base::{NoMemory, Place};
use std::alloc::Global;
use std::test::Fail;
use topo_paths::{Hops, Scene};

// How many links the shortest walk has that begins with this one, of at most three links.
fn fewest(links: &[(Place, Place)], first: &(Place, Place), to: u64) -> Option<u64> {
    let at = first.1.switch;
    if at == to {
        return Some(1);
    }
    if has_link(links, at, to) {
        return Some(2);
    }
    for (start, end) in links {
        if start.switch == at && has_link(links, end.switch, to) {
            return Some(3);
        }
    }
    None
}

fn has_link(links: &[(Place, Place)], from: u64, to: u64) -> bool {
    for (start, end) in links {
        if start.switch == from && end.switch == to {
            return true;
        }
    }
    false
}

// Whether so many links by this port come before the best so far.
fn is_before(count: u64, port: u64, best: Option<(u64, Place)>) -> bool {
    match best {
        Some((least, hop)) => count < least || (count == least && port < hop.port),
        None => true,
    }
}

// The hop by the least port of those that begin a walk of the fewest links.
fn best_hop(links: &[(Place, Place)], from: u64, to: u64) -> Option<Place> {
    let mut best: Option<(u64, Place)> = None;
    for link in links {
        if link.0.switch == from {
            if let Some(count) = fewest(links, link, to) {
                if is_before(count, link.0.port, best) {
                    let switch = link.1.switch;
                    let port = link.0.port;
                    best = Some((count, Place { switch, port }));
                }
            }
        }
    }
    match best {
        Some((_, hop)) => Some(hop),
        None => None,
    }
}

// A network of 4 switches and up to 7 links, by a fixed sequence of numbers.
fn network(alloc: Global, seed: u64) -> Result<Scene, Fail> {
    let mut scene = switches(alloc, 4)?;
    let mut state = seed;
    for _ in 0..7 {
        state = next(state);
        let numbers = state >> 33;
        let from = Place {
            switch: numbers % 4 + 1,
            port: numbers / 4 % 3 + 1,
        };
        let to = Place {
            switch: numbers / 12 % 4 + 1,
            port: numbers / 48 % 3 + 1,
        };
        link(&mut scene, from, to)?;
    }
    Ok(scene)
}

// Whether each next hop is the one that the search finds.
fn agrees(hops: &Hops, links: &[(Place, Place)]) -> bool {
    for from in 1..5 {
        for to in 1..5 {
            if from != to && hops.hop(from, to) != best_hop(links, from, to) {
                return false;
            }
        }
    }
    true
}

fn hops_agree(alloc: Global, scene: &Scene) -> Result<bool, NoMemory> {
    let hops = Hops::build(alloc, scene.links())?;
    Ok(agrees(&hops, scene.links()))
}

#[test]
fn hops_agree_with_a_search_over_all_walks(rt: HostRuntime) -> Result<(), Fail> {
    for seed in 0..100 {
        let scene = network(rt.alloc(), seed)?;
        assert!(rt; hops_agree(rt.alloc(), &scene)?, "at {seed}");
    }
    Ok(())
}
