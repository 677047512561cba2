// A pile of things that are owned.
ghost use Rattle.std.specs.Prelude.{◌≡◌, ◌≤◌, [], ◌∷◌, OnOk, IfOk, length, reverse, take, drop};
ghost use Rattle.policy_grammar.specs.Stacks.{Popped};
ghost use Rattle.policy_tree.specs.Piles.{TwoPopped};

use maple_base::NoMemory;
use std::alloc::Global;
use std::marker::Model;

/// Things that were laid one on the other, and that need not be `Copy`. Contracts see the list of
/// them, the last first.
#[derive(Drop)]
pub struct Pile<T: Drop> {
    list: Vec<T>,
}

impl<T: Drop> Model for Pile<T> {
    ghost use Rattle.std.specs.Prelude.{List, reverse};

    ghost Value = { List T };

    ghost view = { λ a. reverse a.list.items };
}

impl<T: Drop> Pile<T> {
    /// An empty pile.
    pub fn new(alloc: Global) -> Pile<T>
        ensures { result ≡ [] }
    {
        Pile {
            list: Vec::new(alloc),
        }
    }

    /// Lays a thing on top.
    pub fn push(&mut self, thing: T) -> Result<(), NoMemory>
        ensures { OnOk result (self.new ≡ thing ∷ self.old) }
    {
        self.list.push(thing)?;
        Ok(())
    }

    /// Takes the thing on top away.
    pub fn pop(&mut self) -> Option<T>
        ensures { Popped result self.old self.new }
    {
        self.list.pop()
    }

    /// Takes the two things on top away, the upper one second. Where there are fewer, what is left
    /// is not told.
    pub fn pop_two(&mut self) -> Option<(T, T)>
        ensures { TwoPopped result self.old self.new }
    {
        let second = self.pop()?;
        let first = self.pop()?;
        Some((first, second))
    }

    /// How many things there are.
    pub fn len(&self) -> usize
        ensures { result ≡ length self.now }
    {
        self.list.len()
    }

    /// Takes so many things away from the top, and gives them in the order in which they were laid.
    pub fn take_last(&mut self, count: usize) -> Result<Vec<T>, NoMemory>
        requires { count ≤ length self.old }
        ensures rest { OnOk result (self.new ≡ drop count self.old) }
        ensures taken { IfOk result (λ list. list.items ≡ reverse (take count self.old)) }
    {
        let list = self.list.split_off(self.list.len() - count)?;
        Ok(list)
    }
}
