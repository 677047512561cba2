//! Where threads tell each other of moves, and wait for one.
//!
//! Who waits is meant to read a count before he tries, and then to wait for a move since that count: a move in between has
//! changed the count. Workers wait for offers, of which each is meant to wake one of them; all others wait for moves. Which
//! news leave him waiting, and how each move changes them, is said of the news under the lock. Of wake-ups, of time and of
//! progress nothing is said.
ghost use Rattle.std.specs.Prelude.{◌≡◌, ◌+◌, ◌-◌, ◌%◌, ◌^◌, false, min, true};
ghost use Rattle.worker_crew.specs.Lobbies.{CallsAll, CallsWorkers, first_cause};

use crate::gave_up::GaveUp;
use std::sync::{Condvar, Mutex, Wait};

/// What threads told each other so far.
#[derive(Clone, Copy, Debug, PartialEq, Eq)]
pub struct News {
    /// How many items were offered, modulo 2^64.
    pub offers: u64,
    /// How many other moves there were, modulo 2^64.
    pub moves: u64,
    /// How many workers announced themselves, up to 2^32 - 1.
    pub workers: u32,
    /// Whether nothing more is offered.
    pub closed: bool,
    /// Why the first worker that gave up did so.
    pub broken: Option<GaveUp>,
}

impl News {
    // An item was offered.
    fn offer(&mut self)
        ensures offered { self.new.offers ≡ (self.old.offers + 1) % 2 ^ 64 }
        ensures kept { self.new ≡ record self.old { offers = self.new.offers } }
    {
        self.offers = self.offers.wrapping_add(1);
    }

    // There was a move.
    fn tell(&mut self)
        ensures moved { self.new.moves ≡ (self.old.moves + 1) % 2 ^ 64 }
        ensures kept { self.new ≡ record self.old { moves = self.new.moves } }
    {
        self.moves = self.moves.wrapping_add(1);
    }

    // A worker is there.
    fn announce(&mut self)
        ensures moved { self.new.moves ≡ (self.old.moves + 1) % 2 ^ 64 }
        ensures one { self.new.workers ≡ min (self.old.workers + 1) (2 ^ 32 - 1) }
        ensures kept { self.new ≡ record self.old { moves = self.new.moves; workers = self.new.workers } }
    {
        self.workers = self.workers.saturating_add(1);
        self.tell();
    }

    // Nothing more is offered. This stays.
    fn close(&mut self)
        ensures moved { self.new.moves ≡ (self.old.moves + 1) % 2 ^ 64 }
        ensures closed { self.new ≡ record self.old { moves = self.new.moves; closed = true } }
    {
        self.closed = true;
        self.tell();
    }

    // A worker gave up. The first cause stays.
    fn give_up(&mut self, cause: GaveUp)
        ensures moved { self.new.moves ≡ (self.old.moves + 1) % 2 ^ 64 }
        ensures first { self.new.broken ≡ first_cause self.old.broken cause }
        ensures kept { self.new ≡ record self.old { moves = self.new.moves; broken = self.new.broken } }
    {
        if self.broken.is_none() {
            self.broken = Some(cause);
        }
        self.tell();
    }

    // Whether a worker has to wait on.
    fn leaves_workers(&self, seen: u64) -> bool
        ensures wakes { CallsWorkers seen self.now → result ≡ false }
        ensures called { result ≡ false → CallsWorkers seen self.now }
    {
        self.offers == seen && !self.closed
    }

    // Whether who isn't a worker has to wait on.
    fn leaves_all(&self, seen: u64) -> bool
        ensures wakes { CallsAll seen self.now → result ≡ false }
        ensures called { result ≡ false → CallsAll seen self.now }
    {
        self.moves == seen && !self.closed && self.broken.is_none()
    }
}

// What stands under the lock.
#[derive(Clone, Copy)]
struct Room {
    news: News,
    /// How many workers sleep, modulo 2^32: where nobody does, nobody is woken.
    idle: u32,
    /// How many others do.
    waiting: u32,
}

impl Room {
    // A worker goes to sleep.
    fn rest(&mut self)
        ensures { self.new ≡ record self.old { idle = self.new.idle } }
    {
        self.idle = self.idle.wrapping_add(1);
    }

    // It woke up.
    fn rise(&mut self)
        ensures { self.new ≡ record self.old { idle = self.new.idle } }
    {
        self.idle = self.idle.wrapping_sub(1);
    }

    // Another one waits.
    fn begin_wait(&mut self)
        ensures { self.new ≡ record self.old { waiting = self.new.waiting } }
    {
        self.waiting = self.waiting.wrapping_add(1);
    }

    // It doesn't any more.
    fn end_wait(&mut self)
        ensures { self.new ≡ record self.old { waiting = self.new.waiting } }
    {
        self.waiting = self.waiting.wrapping_sub(1);
    }

    // An item was offered. Tells whether a worker sleeps.
    fn offer(&mut self) -> bool {
        self.news.offer();
        self.idle > 0
    }

    // There was a move. Tells whether anybody waits for one.
    fn tell(&mut self) -> bool {
        self.news.tell();
        self.waiting > 0
    }

    // A worker is there.
    fn announce(&mut self) -> bool {
        self.news.announce();
        self.waiting > 0
    }

    // A worker gave up.
    fn give_up(&mut self, cause: GaveUp) -> bool {
        self.news.give_up(cause);
        self.waiting > 0
    }
}

/// The news under a lock, with a condition variable for workers and one for all others.
#[derive(Drop)]
pub struct Lobby {
    room: Mutex<Room>,
    offered: Condvar,
    moved: Condvar,
}

impl Lobby {
    /// No offer yet, no move, no worker, open.
    pub fn new() -> Lobby {
        Lobby {
            room: Mutex::new(Room {
                news: News {
                    offers: 0,
                    moves: 0,
                    workers: 0,
                    closed: false,
                    broken: None,
                },
                idle: 0,
                waiting: 0,
            }),
            offered: Condvar::new(),
            moved: Condvar::new(),
        }
    }

    /// Meant to give the news as they are, for who is to wait for what comes past these.
    pub fn news<R: Wait>(&self, rt: &R) -> News {
        self.room.lock(rt).news
    }

    /// Meant to tell of an item that was put into the queue, and to wake a worker that sleeps.
    pub fn offer<R: Wait>(&self, rt: &R) {
        let sleeps = self.room.lock(rt).offer();
        if sleeps {
            self.offered.notify_one();
        }
    }

    /// Meant to tell of a move, and to wake all that wait for one.
    pub fn tell<R: Wait>(&self, rt: &R) {
        let waits = self.room.lock(rt).tell();
        self.wake(waits);
    }

    /// Meant to count a worker more, which is a move.
    pub fn announce<R: Wait>(&self, rt: &R) {
        let waits = self.room.lock(rt).announce();
        self.wake(waits);
    }

    /// Meant to tell why a worker gave up, which is a move.
    pub fn give_up<R: Wait>(&self, rt: &R, cause: GaveUp) {
        let waits = self.room.lock(rt).give_up(cause);
        self.wake(waits);
    }

    /// Meant to tell that nothing more is offered, which is a move, and to wake workers, too.
    pub fn close<R: Wait>(&self, rt: &R) {
        self.room.lock(rt).news.close();
        self.offered.notify_all();
        self.moved.notify_all();
    }

    // Wakes all that wait for a move, if anybody does.
    fn wake(&self, waits: bool) {
        if waits {
            self.moved.notify_all();
        }
    }

    /// Waits for a move. It returns only news by which the count of moves isn't `seen`, or the lobby is closed or broken.
    pub fn wait_past<R: Wait>(&self, rt: &R, seen: u64) -> News
        ensures { CallsAll seen result }
    {
        let mut room = self.room.lock(rt);
        room.begin_wait();
        let mut room = self
            .moved
            .wait_while(rt, room, |room| room.news.leaves_all(seen));
        room.end_wait();
        room.news
    }

    /// Waits for an offer, as a worker does. It returns only news by which the count of offers isn't `seen`, or the lobby is
    /// closed.
    pub fn wait_for_work<R: Wait>(&self, rt: &R, seen: u64) -> News
        ensures { CallsWorkers seen result }
    {
        let mut room = self.room.lock(rt);
        room.rest();
        let mut room = self
            .offered
            .wait_while(rt, room, |room| room.news.leaves_workers(seen));
        room.rise();
        room.news
    }
}
