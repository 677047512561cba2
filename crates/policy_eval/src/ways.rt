// The way of a `route`.
ghost use Rattle.std.specs.Prelude.{◌≡◌, ◌+◌, ◌≤◌, length, IfOk, IsTrue};
ghost use Rattle.std.specs.List.{list_all};
ghost use Rattle.maple_base.specs.Paths.{is_hop};
ghost use Rattle.maple_base.specs.Ports.{is_port};
ghost use Rattle.maple_base.specs.declared.decision.Decision.TheVariants.{Drop as Dropped};
ghost use Rattle.maple_base.specs.declared.decision.Outcome.TheVariants.{Decided};
ghost use Rattle.policy_eval.specs.declared.asker.Stop.TheVariants.{Ended};
ghost use Rattle.policy_meaning.specs.Meaning.{way_to};
ghost use Rattle.policy_eval.specs.StatementParts.{GivesWay, GivesPath, way_from};

use crate::asker::{Asker, Stop};
use crate::expression_walk::{Walk, count};
use maple_base::{Cell, Decision, Outcome, Path, Place, Value, is_port};

// The most next hops of a way.
const MOST_HOPS: u32 = 63;

// The packet is dropped, since there is no way.
fn lost() -> Stop
    ensures { result ≡ Ended (Decided Dropped) }
{
    Stop::Ended(Outcome::Decided(Decision::Drop))
}

// The way from a switch to a place, of at most so many next hops; each takes a step.
#[tactic(auto, using(crate::proofs::Hops::there, crate::proofs::Hops::far, crate::proofs::Hops::spent, crate::proofs::Hops::hop_ends, crate::proofs::Hops::hop_goes))]
fn way<A: Asker>(more: u32, from: u64, to: Place, walk: &mut Walk<A>) -> Result<Vec<Place>, Stop>
    requires { IsTrue (is_port to.port) }
    ensures given { GivesWay A.said walk.old (way_from more to walk.old.steps from) result walk.new }
    ensures some { IfOk result (λ v. 1 ≤ length v.items) }
    ensures few { IfOk result (λ v. length v.items ≤ more + 1) }
    ensures ports { IfOk result (λ v. IsTrue (list_all is_hop v.items)) }
    ensures key { A.key walk.new.asker ≡ A.key walk.old.asker }
{
    if from == to.switch {
        let mut places = Vec::new(walk.alloc);
        places.push(to)?;
        return Ok(places);
    }
    if more == 0 {
        return Err(lost());
    }
    count(&mut walk.steps)?;
    let cell = Cell::Hop {
        from,
        to: to.switch,
    };
    let Value::At(hop) = walk.asker.cell(cell)? else {
        return Err(lost());
    };
    let mut places = way(more - 1, hop.switch, to, walk)?;
    let port = hop.port;
    places.insert(0, Place { switch: from, port })?;
    Ok(places)
}

/// The way from a switch to a place; the run ends with a drop where there is none.
pub fn way_to<A: Asker>(from: u64, to: Place, walk: &mut Walk<A>) -> Result<Path, Stop>
    ensures given { GivesPath A.said walk.old (way_to from to walk.old.steps) result walk.new }
    ensures key { A.key walk.new.asker ≡ A.key walk.old.asker }
{
    if !is_port(to.port) {
        return Err(lost());
    }
    Ok(Path::new(way(MOST_HOPS, from, to, walk)?))
}
