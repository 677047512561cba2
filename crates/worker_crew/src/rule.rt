//! The rule of the queue, and what each kind of call does under it.
use crossbeam_queue::protocol::{Join, Lesson, Outcome, Protocol, Split};
use std::collections::LinkedList;

/// What a pass knows: the first offers to the queue, the positions in them of its own offers, the positions of what it
/// took, and its parts of the right to know all. No value of it is made.
pub struct Account<T> {
    pub seen: LinkedList<T>,
    pub offered: LinkedList<u64>,
    pub taken: LinkedList<u64>,
    pub parts: u32,
}

/// What a pass carries: its account, and the shorter of the two beginnings of the line that it joined last.
pub struct View<T> {
    pub account: Account<T>,
    pub told: LinkedList<T>,
}

/// Each offer has a position in one line, and is taken once.
pub struct Line;

impl<T> Protocol<T, View<T>> for Line {
    ghost use Rattle.worker_crew.specs.Accounts.{Lined, blank};

    ghost holds = { Lined };

    ghost first = { blank 1024 };
}

/// An item goes to the end of the line.
pub struct Offers;

impl<T> Outcome<T, View<T>> for Offers {
    ghost use Rattle.worker_crew.specs.Accounts.{OffersOne};

    ghost then = { λ v x w. OffersOne v.account x w.account };
}

impl<T> Lesson<T, View<T>> for Offers {
    ghost use Rattle.worker_crew.specs.Accounts.{Stood};

    ghost fact = { λ v items. Stood v.account items };
}

/// The item that waits longest is taken.
pub struct Takes;

impl<T> Outcome<T, View<T>> for Takes {
    ghost use Rattle.worker_crew.specs.Accounts.{TakesOne};

    ghost then = { λ v x w. TakesOne v.account x w.account };
}

impl<T> Lesson<T, View<T>> for Takes {
    ghost use Rattle.worker_crew.specs.Accounts.{Stood};

    ghost fact = { λ v items. Stood v.account items };
}

/// A new pass beside one, and one put into another.
pub struct Shares;

impl<T> Split<View<T>> for Shares {
    ghost use Rattle.worker_crew.specs.Accounts.{blank, lent};

    ghost left = { lent };

    ghost right = { λ v. blank 1 };
}

impl<T> Join<View<T>> for Shares {
    ghost use Rattle.worker_crew.specs.Accounts.{blank, glued};

    ghost both = { glued };

    ghost spent = { blank 0 };
}

/// Compares the two beginnings of the line that were joined, and tells that no position was taken twice.
pub struct Compares;

impl<T> Lesson<T, View<T>> for Compares {
    ghost use Rattle.worker_crew.specs.Accounts.{IsLearned};

    ghost fact = { λ v items. IsLearned v };
}
