// Decisions: `drop`, `flood`, ports, or a path by its hops.
use case_text::CaseStop;
use case_values::actions_of;
use maple_base::{Decision, NoMemory, Path, Place};
use std::alloc::Global;

/// The decision that a word is.
pub fn decision_of(alloc: Global, word: &str) -> Result<Decision, CaseStop> {
    match word {
        "drop" => Ok(Decision::Drop),
        "flood" => Ok(Decision::Flood),
        "1:5,2:6" => Ok(Decision::Path(two_hops(alloc)?)),
        "1:1,2:16" => Ok(Decision::Path(two_other_hops(alloc)?)),
        "64_hops" => Ok(Decision::Path(most_hops(alloc)?)),
        _ => Ok(Decision::Out(actions_of(alloc, word)?)),
    }
}

// By port 5 of switch 1, and port 6 of switch 2.
fn two_hops(alloc: Global) -> Result<Path, NoMemory> {
    let hops = [Place { switch: 1, port: 5 }, Place { switch: 2, port: 6 }];
    Ok(Path::new(Vec::from_slice(alloc, &hops)?))
}

fn two_other_hops(alloc: Global) -> Result<Path, NoMemory> {
    let hops = [
        Place { switch: 1, port: 1 },
        Place {
            switch: 2,
            port: 16,
        },
    ];
    Ok(Path::new(Vec::from_slice(alloc, &hops)?))
}

// Each with a switch of twenty digits and a port of five.
fn most_hops(alloc: Global) -> Result<Path, NoMemory> {
    let hop = Place {
        switch: u64::MAX,
        port: 65_280,
    };
    Ok(Path::new(Vec::from_slice(alloc, &[hop; 64])?))
}
