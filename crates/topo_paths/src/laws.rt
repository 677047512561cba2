// What holds of next hops, whoever keeps them.
ghost use Rattle.topo_paths.specs.Laws.{NextHopIsShortest};

/// The law of next hops: what a clause that cites the function says of all walks.
#[tactic(auto, using(crate::proofs::Hopping::hop_law))]
pub fn hop_laws()
    ensures { NextHopIsShortest }
{}
