// A stack.
ghost use Rattle.std.specs.Prelude.{◌≡◌, ◌<◌, ◌^◌, [], ◌∷◌, length, drop, OnOk, OnErr};
ghost use Rattle.policy_grammar.specs.Stacks.{Popped, top_of};

use maple_base::NoMemory;
use std::alloc::Global;
use std::marker::Model;

/// Things that were laid one on the other. Contracts see the list of them, the last first.
#[derive(Drop)]
pub struct Stack<T: Copy> {
    list: Vec<T>,
}

impl<T: Copy> Model for Stack<T> {
    ghost use Rattle.std.specs.Prelude.{List, reverse};

    ghost Value = { List T };

    ghost view = { λ a. reverse a.list.items };
}

impl<T: Copy> Stack<T> {
    /// An empty stack.
    pub fn new(alloc: Global) -> Stack<T>
        ensures { result ≡ [] }
    {
        Stack {
            list: Vec::new(alloc),
        }
    }

    /// Lays a thing on top.
    pub fn push(&mut self, thing: T) -> Result<(), NoMemory>
        ensures pushed { OnOk result (self.new ≡ thing ∷ self.old) }
        ensures err { OnErr result (self.new ≡ self.old) }
    {
        self.list.push(thing)?;
        Ok(())
    }

    /// Takes the thing on top away.
    pub fn pop(&mut self) -> Option<T>
        ensures { Popped result self.old self.new }
    {
        self.list.pop()
    }

    /// Takes all away.
    pub fn clear(&mut self)
        ensures { self.new ≡ [] }
    {
        self.list.clear();
    }

    /// The thing on top.
    pub fn top(&self) -> Option<T>
        ensures { result ≡ top_of self.now }
    {
        self.list.last().copied()
    }
    /// The thing with so many above it.
    pub fn below(&self, depth: usize) -> Option<T>
        ensures thing { result ≡ top_of (drop depth self.now) }
        ensures few { length self.now < 2 ^ 64 }
    {
        let count = self.list.len();
        if depth < count {
            Some(self.list[count - 1 - depth])
        } else {
            None
        }
    }
}
