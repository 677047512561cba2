//! A crew of workers beside a driver. Each worker is meant to have a thread of its own, where one can be made.
//!
//! The crew is a recursion of `join`: each worker is the first closure of one, and the driver comes last, in the thread
//! of the caller. Where no thread can be made `join` calls its first closure behind its second. Such a worker is meant to
//! work what the driver left in the queue, to find the lobby closed and to end.
//!
//! Passes go by value: each closure gives its own back, and all are joined into the driver's on the way out, however
//! driver and workers ended. So the hall can be closed.
ghost use Rattle.std.specs.Prelude.{◌≡◌, ◌+◌, ◌-◌, ◌<◌, ◌≤◌, [], IfSome, IsFalse};
ghost use Rattle.std.specs.Thread.{IsSync};
ghost use Rattle.history_lock.specs.Passes.{IsPassOf, known, leads, opening, own, parts};
ghost use Rattle.worker_crew.specs.Crews.{CrewedFrom, IsReady, IsShareOf, TakesIn};
ghost use Rattle.worker_crew.specs.Takers.{IsTakerOf, account, both, shares};
ghost use Rattle.worker_crew.specs.Tasks.{Toiled};

use crate::drives::Drives;
use crate::gave_up::GaveUp;
use crate::lobby::Lobby;
use crate::queue::{JobPass, Jobs};
use crate::worker::serve;
use crate::works::Works;
use history_lock::{Hall, Machine, Pass};
use std::sync::Wait;
use std::thread::{Threads, join};

// Gives a part of a pass to a worker.
fn lend<M: Machine>(hall: &Hall<M>, pass: &mut Pass<M>) -> Pass<M>
    requires hall { IsPassOf hall.now pass.old }
    requires some { 1 < parts pass.old }
    ensures stays { IsPassOf hall.now pass.new × (parts pass.new + 1 ≡ parts pass.old) }
    ensures share { IsShareOf 1 (known pass.old) (known pass.new) }
    ensures made { IsPassOf hall.now result × (opening result ≡ opening pass.old) × (parts result ≡ 1) }
    ensures none { (own result ≡ []) × IsFalse (leads result) }
{
    hall.split(pass, 1)
}

// Takes a worker's pass in.
fn take_in<M: Machine>(hall: &Hall<M>, pass: &mut Pass<M>, other: Pass<M>)
    requires hall { IsPassOf hall.now pass.old × IsPassOf hall.now other }
    requires follows { IsFalse (leads other) }
    ensures stays { IsPassOf hall.now pass.new × (opening pass.new ≡ opening pass.old) × (parts pass.new ≡ parts pass.old + parts other) }
    ensures leads { leads pass.new ≡ leads pass.old }
    ensures takes { TakesIn M.allows (known pass.old) (known other) (known pass.new) }
{
    hall.join(pass, other);
}

/// Drives, beside `count` workers, fewer than each pass has parts: the driver has passes with so many parts fewer. Gives
/// back both passes, with those of all workers in them, how the workers ended, and the driver.
///
/// An `Err` is why a worker gave up. `Ok`: no item that a worker took failed. The lobby is meant to be closed behind the
/// driver, however it ended.
#[tactic(auto, using(crate::proofs::Crewing::crewed_alone, crate::proofs::Crewing::crewed_more, crate::proofs::Crewing::ready_share, crate::proofs::Crewing::suits_same))]
pub fn with_workers<
    R: Threads + Wait + Sync,
    M: Machine + Send,
    T: Send + Drop,
    W: Works<M, T> + Sync,
    D: Drives<M, T> + Drop,
>(
    rt: &R,
    hall: &Hall<M>,
    mut pass: Pass<M>,
    jobs: &Jobs<T>,
    mut taker: JobPass<T>,
    lobby: &Lobby,
    works: &W,
    mut driver: D,
    count: u32,
) -> (Pass<M>, JobPass<T>, Result<(), GaveUp>, D)
where
    M::Entry: Send + Drop,
    M::Reply: Send + Drop,
    requires hall { IsPassOf hall.now pass }
    requires taker { IsTakerOf jobs.now taker }
    requires few { (count < parts pass) × (count < shares taker) }
    requires suits { IfSome (opening pass) (W.suits works.now) }
    requires ready { IsReady count (D.ready driver) (known pass) (account taker) }
    ensures stays { IsPassOf hall.now result.0 × (opening result.0 ≡ opening pass) × (parts result.0 ≡ parts pass) }
    ensures leads { leads result.0 ≡ leads pass }
    ensures taker { IsTakerOf jobs.now result.1 × (shares result.1 ≡ shares taker) }
    ensures crewed { CrewedFrom (W.makes works.now) M.allows (D.drives driver result.3) count (both pass taker) result.2 (both result.0 result.1) }
{
    if count == 0 {
        driver.drive(rt, hall, &mut pass, jobs, &mut taker, lobby);
        lobby.close(rt);
        return (pass, taker, Ok(()), driver);
    }
    let less = count - 1;
    let mut theirs = lend(hall, &mut pass);
    let mut second = jobs.split(&mut taker);
    let ((theirs, second, last), (mut pass, mut taker, first, driver)) = join(
        rt,
        move || -> (Pass<M>, JobPass<T>, Result<(), GaveUp>)
            requires { IsPassOf hall.now theirs × IsTakerOf jobs.now second × IfSome (opening theirs) (W.suits works.now) }
            ensures stays { IsPassOf hall.entry.now result.0 × (parts result.0 ≡ parts theirs) × (leads result.0 ≡ leads theirs) }
            ensures taker { IsTakerOf jobs.entry.now result.1 × (shares result.1 ≡ shares second) }
            ensures toiled { Toiled (W.makes works.entry.now) (known theirs) (account second) result.2 (known result.0) (account result.1) }
        {
            let outcome = serve(rt, hall, &mut theirs, jobs, &mut second, lobby, works);
            (theirs, second, outcome)
        },
        move || -> (Pass<M>, JobPass<T>, Result<(), GaveUp>, D)
            requires passes { IsSync R.row × IsSync W.row × IsPassOf hall.now pass × IsTakerOf jobs.now taker × IfSome (opening pass) (W.suits works.now) }
            requires few { (less < parts pass) × (less < shares taker) }
            requires ready { IsReady less (D.ready driver) (known pass) (account taker) }
            ensures stays { IsPassOf hall.entry.now result.0 × (opening result.0 ≡ opening pass) × (parts result.0 ≡ parts pass) }
            ensures leads { leads result.0 ≡ leads pass }
            ensures taker { IsTakerOf jobs.entry.now result.1 × (shares result.1 ≡ shares taker) }
            ensures crewed { CrewedFrom (W.makes works.entry.now) M.allows (D.drives driver result.3) less (both pass taker) result.2 (both result.0 result.1) }
        { with_workers(rt, hall, pass, jobs, taker, lobby, works, driver, less) },
    );
    take_in(hall, &mut pass, theirs);
    jobs.join(&mut taker, second);
    (pass, taker, first.and(last), driver)
}
