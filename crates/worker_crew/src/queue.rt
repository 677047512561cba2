//! A queue of jobs for many threads: each has a position in one line of all offers, and is taken once.
ghost use Rattle.std.specs.Prelude.{◌≡◌, ◌<◌, ◌≤◌, List, IfErr, IfNone, IfOk, IfSome, OnErr, OnOk};
ghost use Rattle.crossbeam_queue.specs.Fifo.{Held};
ghost use Rattle.history_lock.specs.Histories.{StartsWith};
ghost use Rattle.worker_crew.specs.Accounts.{AreOnce, HasLeft, OffersOne, Stood, TakesOne, fresh, joined, less_one};
ghost use Rattle.worker_crew.specs.Takers.{IsTakerOf, account, places, shares};

use crate::rule::{Compares, Line, Offers, Shares, Takes, View};
use crossbeam_queue::{Pass, RuledArrayQueue};
use maple_base::NoMemory;
use std::alloc::Global;
use std::sync::Wait;

/// What a thread offers and takes with. It has no bytes.
pub type JobPass<T> = Pass<T, View<T>>;

/// A queue of jobs, of a fixed number of places.
#[derive(Drop)]
pub struct Jobs<T> {
    queue: RuledArrayQueue<T, View<T>, Line>,
}

impl<T> Jobs<T> {
    /// A queue of 1 to 4,096 places, with a pass of 1,024 parts that offered and took nothing.
    pub fn new(alloc: Global, count: u32) -> Result<(Jobs<T>, JobPass<T>), NoMemory>
        requires { (1 ≤ count) × (count ≤ 4096) }
        ensures pass { IfOk result (λ r. IsTakerOf r.0 r.1 × (account r.1 ≡ fresh 1024)) }
        ensures places { IfOk result (λ r. places r.0 ≡ count) }
    {
        let (queue, pass) = RuledArrayQueue::<T, View<T>, Line>::ruled(alloc, count as usize)?;
        Ok((Jobs { queue }, pass))
    }

    /// Gives a part of a pass to a new one, which offered and took nothing.
    pub fn split(&self, pass: &mut JobPass<T>) -> JobPass<T>
        requires pass { IsTakerOf self.now pass.old }
        requires more { 1 < shares pass.old }
        ensures kept { IsTakerOf self.now pass.new × (account pass.new ≡ less_one (account pass.old)) }
        ensures made { IsTakerOf self.now result × (account result ≡ fresh 1) }
    {
        self.queue.another::<Shares>(pass)
    }

    /// Puts another pass into this one: it has the offers, the takes and the parts of both, and no position was taken twice.
    pub fn join(&self, pass: &mut JobPass<T>, other: JobPass<T>)
        requires { IsTakerOf self.now pass.old × IsTakerOf self.now other }
        ensures stays { IsTakerOf self.now pass.new }
        ensures both { account pass.new ≡ joined (account pass.old) (account other) }
        ensures begins { StartsWith (account pass.new).seen (account pass.old).seen × StartsWith (account pass.new).seen (account other).seen }
        ensures once { AreOnce (account pass.new).taken }
    {
        self.queue.absorb::<Shares>(pass, other);
        self.queue.learn_as::<Compares>(pass);
    }

    /// Offers an item. An `Err` gives it back, and comes only where the rule allowed a full queue at a step of the call.
    pub fn offer<R: Wait>(&self, rt: &R, pass: &mut JobPass<T>, item: T) -> Result<(), T>
        requires { IsTakerOf self.now pass.old }
        ensures stays { IsTakerOf self.now pass.new }
        ensures ok { OnOk result (OffersOne (account pass.old) item (account pass.new)) }
        ensures back { IfErr result (λ back. (back ≡ item) × (account pass.new ≡ account pass.old)) }
        ensures full { OnErr result (Held (places self.now) (λ (items : List T). Stood (account pass.old) items)) }
        ensures left { OnErr result (shares pass.old ≡ 1024 → HasLeft (places self.now) (account pass.old)) }
    {
        self.queue.push_as::<Offers, R>(rt, pass, item)?;
        Ok(())
    }

    /// Takes an item. `None` comes only where the rule allowed an empty queue at a step of the call.
    pub fn take<R: Wait>(&self, rt: &R, pass: &mut JobPass<T>) -> Option<T>
        requires { IsTakerOf self.now pass.old }
        ensures stays { IsTakerOf self.now pass.new }
        ensures some { IfSome result (λ item. TakesOne (account pass.old) item (account pass.new)) }
        ensures none { IfNone result (account pass.new ≡ account pass.old) }
        ensures empty { IfNone result (Held 0 (λ (items : List T). Stood (account pass.old) items)) }
        ensures all { IfNone result (shares pass.old ≡ 1024 → HasLeft 0 (account pass.old)) }
    {
        let item = self.queue.pop_as::<Takes, R>(rt, pass)?;
        Some(item)
    }
}
