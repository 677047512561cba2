// Networks with links by a fixed sequence of numbers.
use env_cells::Update;
use maple_base::{Place, Ports};
use std::alloc::Global;
use std::test::Fail;
use topo_paths::Scene;

/// The switches 1 to `count`, without links.
pub fn switches(alloc: Global, count: u64) -> Result<Scene, Fail> {
    let mut scene = Scene::new(alloc)?;
    for switch in 0..count {
        let update = Update::Switch {
            switch: switch.saturating_add(1),
            ports: Ports::new(Vec::new(alloc)),
        };
        scene.apply(&update)?;
    }
    Ok(scene)
}

/// A link between two places, which may take the place of another.
pub fn link(scene: &mut Scene, from: Place, to: Place) -> Result<(), Fail> {
    Ok(scene.apply(&Update::Link { from, to })?)
}

/// The number that the sequence has behind one.
pub fn next(state: u64) -> u64 {
    state
        .wrapping_mul(6364136223846793005)
        .wrapping_add(1442695040888963407)
}
