//! What comes between two steps of the pass that leads: nothing, another pass's calls ahead of its join, and the end.
ghost use Rattle.std.specs.Prelude.{◌≡◌, ◌+◌, ◌≤◌, IfSome, IsTrue};
ghost use Rattle.history_lock.specs.Passes.{IsPassOf, leads, parts};

use crate::dial::{Dial, Order};
use history_lock::{Hall, Pass};
use std::sync::Wait;

/// Sets the dial, and then adds to it, by the pass that has all parts. So nobody comes between.
pub fn set_and_add_alone<R: Wait>(
    rt: &R,
    hall: &Hall<Dial>,
    pass: &mut Pass<Dial>,
    first: u32,
    second: u32,
) -> Option<u64>
    requires hall { IsPassOf hall.now pass.old }
    requires leads { IsTrue (leads pass.old) }
    requires all { parts pass.old ≡ 1024 }
    ensures stays { IsPassOf hall.now pass.new × (parts pass.new ≡ parts pass.old) × (leads pass.new ≡ leads pass.old) }
    ensures both { IfSome result (λ total. total ≡ first + second) }
{
    let Ok(_) = hall.call(rt, pass, Order::Start(first)) else {
        return None;
    };
    let Ok(total) = hall.call(rt, pass, Order::Add(second)) else {
        return None;
    };
    Some(total)
}

/// Sets the dial, takes another pass in, and then adds. Whatever was done by the other in between, the dial is at least the sum.
pub fn set_join_and_add<R: Wait>(
    rt: &R,
    hall: &Hall<Dial>,
    pass: &mut Pass<Dial>,
    other: Pass<Dial>,
    first: u32,
    second: u32,
) -> Option<u64>
    requires hall { IsPassOf hall.now pass.old × IsPassOf hall.now other }
    requires leads { IsTrue (leads pass.old) }
    ensures sum { IsPassOf hall.now pass.new × (parts pass.new ≡ parts pass.old + parts other) }
    ensures least { IfSome result (λ total. first + second ≤ total) }
{
    let set = hall.call(rt, pass, Order::Start(first));
    hall.join(pass, other);
    let Ok(_) = set else {
        return None;
    };
    let Ok(total) = hall.call(rt, pass, Order::Add(second)) else {
        return None;
    };
    Some(total)
}

/// Sets the dial, takes the one other pass in, and ends the hall. Whatever was done by the other, the dial is no lower.
pub fn set_and_end<R: Wait>(
    rt: &R,
    hall: Hall<Dial>,
    mut pass: Pass<Dial>,
    other: Pass<Dial>,
    first: u32,
) -> Option<u64>
    requires hall { IsPassOf hall pass × IsPassOf hall other }
    requires leads { IsTrue (leads pass) }
    requires all { parts pass + parts other ≡ 1024 }
    ensures { IfSome result (λ total. first ≤ total) }
{
    let set = hall.call(rt, &mut pass, Order::Start(first));
    hall.join(&mut pass, other);
    let dial = hall.close(pass);
    match set {
        Ok(_) => Some(dial.total),
        Err(_) => None,
    }
}
