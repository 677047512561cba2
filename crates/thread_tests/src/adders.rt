//! Workers that add items to a sum, and a driver that offers them.
ghost use Rattle.std.specs.Prelude.{◌≡◌, Ok};
ghost use Rattle.history_lock.specs.Passes.{IsPassOf, known, leads, opening, parts};
ghost use Rattle.thread_tests.specs.Adders.{IsAdded};
ghost use Rattle.worker_crew.specs.Takers.{IsTakerOf, account, shares};

use crate::sum::Sum;
use history_lock::{Hall, Pass};
use std::sync::Wait;
use worker_crew::{Drives, GaveUp, JobPass, Jobs, Lobby, Works};

/// Adds each item but one, at which it finds no memory.
#[derive(Clone, Copy)]
pub struct Adder {
    pub refused: u32,
}

impl Works<Sum, u32> for Adder {
    ghost suits = { λ w m. Unit {0} };

    ghost makes = { λ w item worked calls. IsAdded item worked calls };

    #[tactic(auto, using(crate::proofs::Added::added_none, crate::proofs::Added::added_one, crate::proofs::Added::added_worn))]
    fn work<R: Wait>(
        &self,
        rt: &R,
        hall: &Hall<Sum>,
        pass: &mut Pass<Sum>,
        item: u32,
    ) -> Result<(), GaveUp> {
        if item == self.refused {
            return Err(GaveUp::NoMemory);
        }
        match hall.call(rt, pass, item) {
            Ok(_) => Ok(()),
            Err(_) => Err(GaveUp::Worn),
        }
    }
}

/// Offers 1, 2 and so on, and adds by itself what a full queue gives back, and, if it drains, what workers left.
#[derive(Clone, Copy)]
pub struct Feeder {
    pub items: u32,
    pub drains: bool,
}

impl Drives<Sum, u32> for Feeder {
    ghost ready = { λ d k v. Unit {0} };

    ghost drives = { λ d e k v x w. e ≡ d };

    fn drive<R: Wait>(
        &mut self,
        rt: &R,
        hall: &Hall<Sum>,
        pass: &mut Pass<Sum>,
        jobs: &Jobs<u32>,
        taker: &mut JobPass<u32>,
        lobby: &Lobby,
    ) {
        for item in 0..self.items {
            feed(rt, hall, pass, jobs, taker, item + 1);
            lobby.offer(rt);
        }
        for _ in 0..self.items {
            if self.drains {
                drain(rt, hall, pass, jobs, taker);
            }
        }
    }
}

// Offers an item, and adds it where the queue is full.
fn feed<R: Wait>(
    rt: &R,
    hall: &Hall<Sum>,
    pass: &mut Pass<Sum>,
    jobs: &Jobs<u32>,
    taker: &mut JobPass<u32>,
    item: u32,
)
    requires { IsPassOf hall.now pass.old × IsTakerOf jobs.now taker.old }
    ensures stays { IsPassOf hall.now pass.new × (opening pass.new ≡ opening pass.old) × (parts pass.new ≡ parts pass.old) }
    ensures leads { leads pass.new ≡ leads pass.old }
    ensures taker { IsTakerOf jobs.now taker.new × (shares taker.new ≡ shares taker.old) }
{
    if let Err(back) = jobs.offer(rt, taker, item) {
        let _ = hall.call(rt, pass, back);
    }
}

// Adds an item that was left.
fn drain<R: Wait>(
    rt: &R,
    hall: &Hall<Sum>,
    pass: &mut Pass<Sum>,
    jobs: &Jobs<u32>,
    taker: &mut JobPass<u32>,
)
    requires { IsPassOf hall.now pass.old × IsTakerOf jobs.now taker.old }
    ensures stays { IsPassOf hall.now pass.new × (opening pass.new ≡ opening pass.old) × (parts pass.new ≡ parts pass.old) }
    ensures leads { leads pass.new ≡ leads pass.old }
    ensures taker { IsTakerOf jobs.now taker.new × (shares taker.new ≡ shares taker.old) }
{
    if let Some(item) = jobs.take(rt, taker) {
        let _ = hall.call(rt, pass, item);
    }
}
