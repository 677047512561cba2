//! A worker: it takes items from the queue and works each. It is meant to sleep where there is none, and to end with the
//! lobby.
ghost use Rattle.std.specs.Prelude.{◌≡◌, IfNone, IfSome, Ok};
ghost use Rattle.history_lock.specs.Passes.{IsPassOf, known, leads, opening, parts};
ghost use Rattle.worker_crew.specs.Takers.{IsTakerOf, account, shares};
ghost use Rattle.worker_crew.specs.Tasks.{Toiled};

use crate::gave_up::GaveUp;
use crate::lobby::{Lobby, News};
use crate::queue::{JobPass, Jobs};
use crate::works::Works;
use history_lock::{Hall, Machine, Pass};
use std::sync::Wait;

// Takes an item, if there is one, and works it.
fn work_one<R: Wait, M: Machine, T, W: Works<M, T>>(
    rt: &R,
    hall: &Hall<M>,
    pass: &mut Pass<M>,
    jobs: &Jobs<T>,
    taker: &mut JobPass<T>,
    works: &W,
) -> Option<Result<(), GaveUp>>
    requires hall { IsPassOf hall.now pass.old }
    requires taker { IsTakerOf jobs.now taker.old }
    requires suits { IfSome (opening pass.old) (W.suits works.now) }
    ensures stays { IsPassOf hall.now pass.new × (opening pass.new ≡ opening pass.old) × (parts pass.new ≡ parts pass.old) }
    ensures leads { leads pass.new ≡ leads pass.old }
    ensures taker { IsTakerOf jobs.now taker.new × (shares taker.new ≡ shares taker.old) }
    ensures some { IfSome result (λ worked. Toiled (W.makes works.now) (known pass.old) (account taker.old) worked (known pass.new) (account taker.new)) }
    ensures none { IfNone result ((known pass.new ≡ known pass.old) × (account taker.new ≡ account taker.old)) }
{
    let item = jobs.take(rt, taker)?;
    Some(works.work(rt, hall, pass, item))
}

/// Works items by its passes. An `Err` is why it gave up at the last item that it took. `Ok`: no item that it took failed.
///
/// It is meant to sleep where there is no item, to end with `Ok` once the lobby is closed and the queue is empty, and to
/// tell the lobby of an `Err`. Of items that it worked it tells once it finds no further one: so the last one is told of, and
/// who waits for all isn't woken at each. The lobby's news are read where the queue was found empty, and then it looks again,
/// so that no offer is missed.
#[tactic(auto, using(crate::proofs::Toiling::toiled_none, crate::proofs::Toiling::toiled_then, crate::proofs::Toiling::toiled_still, crate::proofs::Crewing::suits_same))]
pub fn serve<R: Wait, M: Machine, T, W: Works<M, T>>(
    rt: &R,
    hall: &Hall<M>,
    pass: &mut Pass<M>,
    jobs: &Jobs<T>,
    taker: &mut JobPass<T>,
    lobby: &Lobby,
    works: &W,
) -> Result<(), GaveUp>
    requires hall { IsPassOf hall.now pass.old }
    requires taker { IsTakerOf jobs.now taker.old }
    requires suits { IfSome (opening pass.old) (W.suits works.now) }
    ensures stays { IsPassOf hall.now pass.new × (opening pass.new ≡ opening pass.old) × (parts pass.new ≡ parts pass.old) }
    ensures leads { leads pass.new ≡ leads pass.old }
    ensures taker { IsTakerOf jobs.now taker.new × (shares taker.new ≡ shares taker.old) }
    ensures toiled { Toiled (W.makes works.now) (known pass.old) (account taker.old) result (known pass.new) (account taker.new) }
{
    lobby.announce(rt);
    let mut untold = false;
    let mut news = None;
    for _ in rt.forever() {
        match work_one(rt, hall, pass, jobs, taker, works) {
            Some(Ok(())) => {
                untold = true;
                news = None;
            }
            Some(Err(cause)) => {
                lobby.give_up(rt, cause);
                return Err(cause);
            }
            None => {
                if untold {
                    untold = false;
                    lobby.tell(rt);
                }
                news = match news {
                    None => Some(lobby.news(rt)),
                    Some(News { closed: true, .. }) => return Ok(()),
                    Some(seen) => Some(lobby.wait_for_work(rt, seen.offers)),
                };
            }
        }
    }
    unreachable!()
}
