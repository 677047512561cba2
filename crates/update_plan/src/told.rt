// What a plan tells.
use maple_base::Mods;

/// What a switch is told so that it comes from one list of rules to another.
#[derive(Drop)]
pub struct Plan {
    /// The table is cleared ahead of both batches, which lead from the empty list.
    pub clear: bool,
    /// The barriers come, and the facts go.
    pub first: Mods,
    /// The facts come, and the barriers go.
    pub second: Mods,
}
