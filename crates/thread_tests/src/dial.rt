ghost use Rattle.std.specs.Prelude.{◌≡◌, ◌+◌, ◌≤◌, IfSome, IsTrue};
ghost use Rattle.thread_tests.specs.Dials.{IsAdd, IsCovered, total_after};
ghost use Rattle.history_lock.specs.Passes.{IsPassOf, leads, parts};

use history_lock::{Hall, Machine, Pass};
use std::sync::Wait;

/// What a dial is told.
#[derive(Drop)]
pub enum Order {
    Start(u32),
    Add(u32),
    Take(u32),
}

/// A total that each pass may raise, and only the one that leads may set and lower. It is lowered by no more than it is.
#[derive(Drop)]
pub struct Dial {
    pub total: u64,
}

impl Machine for Dial {
    type Entry = Order;

    type Reply = u64;

    ghost steps = { λ s e r t. (t.total ≡ total_after s.total e) × (r ≡ t.total) };

    ghost admits = { λ s e. IsCovered s.total e };

    ghost allows = { λ log e. IsAdd e };

    fn turn(&mut self, entry: Order) -> u64 {
        self.total = match entry {
            Order::Start(total) => u64::from(total),
            Order::Add(more) => self.total.saturating_add(u64::from(more)),
            Order::Take(less) => self.total - u64::from(less),
        };
        self.total
    }
}

/// Sets the dial, and then adds to it. Whatever other threads do in between, it is at least the sum.
pub fn set_and_add<R: Wait>(
    rt: &R,
    hall: &Hall<Dial>,
    pass: &mut Pass<Dial>,
    first: u32,
    second: u32,
) -> Option<u64>
    requires hall { IsPassOf hall.now pass.old }
    requires leads { IsTrue (leads pass.old) }
    ensures hall { IsPassOf hall.now pass.new × (parts pass.new ≡ parts pass.old) }
    ensures least { IfSome result (λ total. first + second ≤ total) }
{
    let Ok(_) = hall.call(rt, pass, Order::Start(first)) else {
        return None;
    };
    let Ok(total) = hall.call(rt, pass, Order::Add(second)) else {
        return None;
    };
    Some(total)
}

/// Sets the dial, and then takes as much from it. Whatever other threads do in between, there is as much.
pub fn set_and_take<R: Wait>(
    rt: &R,
    hall: &Hall<Dial>,
    pass: &mut Pass<Dial>,
    first: u32,
) -> Option<u64>
    requires hall { IsPassOf hall.now pass.old }
    requires leads { IsTrue (leads pass.old) }
    ensures stays { IsPassOf hall.now pass.new × (parts pass.new ≡ parts pass.old) × (leads pass.new ≡ leads pass.old) }
{
    let Ok(_) = hall.call(rt, pass, Order::Start(first)) else {
        return None;
    };
    let Ok(total) = hall.call(rt, pass, Order::Take(first)) else {
        return None;
    };
    Some(total)
}

/// Adds 1 so many times, by a pass that need not lead.
pub fn raise<R: Wait>(rt: &R, hall: &Hall<Dial>, mut pass: Pass<Dial>, times: u32) -> Pass<Dial>
    requires { IsPassOf hall.now pass }
    ensures { IsPassOf hall.now result × (parts result ≡ parts pass) }
{
    for _ in 0..times {
        let _ = hall.call(rt, &mut pass, Order::Add(1));
    }
    pass
}
