// The counts of one token.
ghost use Rattle.std.specs.Prelude.{◌≡◌, ◌≤◌};
ghost use Rattle.maple_base.specs.PolicyLimits.{most_bytes};
ghost use Rattle.policy_outline.specs.Bounds.{most_counted};
ghost use Rattle.policy_outline.specs.Counts.{of_none, one_begun, one_ended};
ghost use Rattle.policy_outline.specs.Counting.{one_less, with_name};

use std::marker::Model;

/// How many nodes begin and end with a token, how far behind it the name stands that the first of
/// them declares or binds, how many parentheses are open behind it where it opens one, and how many
/// tables are named where it names one.
#[derive(Clone, Copy)]
pub struct Count {
    begun: usize,
    ended: usize,
    name: usize,
    parentheses: usize,
    tables: usize,
}

impl Model for Count {
    ghost use Rattle.std.specs.Prelude.{◌≤◌};
    ghost use Rattle.maple_base.specs.PolicyLimits.{most_bytes};
    ghost use Rattle.policy_outline.specs.Counts.{Count as TokenCount};

    ghost Value = { TokenCount };

    ghost view = { λ a. record { begun = a.begun; ended = a.ended; name = a.name; parentheses = a.parentheses; tables = a.tables } };

    ghost invariant = { λ a. a.name ≤ most_bytes };

    ghost inverse = { λ c. record { begun = c.begun; ended = c.ended; name = c.name; parentheses = c.parentheses; tables = c.tables } };
}

impl Count {
    /// The count of a token with which nothing begins or ends.
    pub fn none() -> Count
        ensures { result ≡ of_none }
    {
        Count {
            begun: 0,
            ended: 0,
            name: 0,
            parentheses: 0,
            tables: 0,
        }
    }

    /// How many nodes begin.
    pub fn begun(self) -> usize
        ensures { result ≡ self.begun }
    {
        self.begun
    }

    /// How many nodes end.
    pub fn ended(self) -> usize
        ensures { result ≡ self.ended }
    {
        self.ended
    }

    /// How many tokens behind it the name stands.
    pub fn name(self) -> usize
        ensures name { result ≡ self.name }
        ensures near { self.name ≤ most_bytes }
    {
        self.name
    }

    /// How many parentheses are open behind the one that it opens.
    pub fn parentheses(self) -> usize
        ensures { result ≡ self.parentheses }
    {
        self.parentheses
    }

    /// How many tables are named, where it names one.
    pub fn tables(self) -> usize
        ensures { result ≡ self.tables }
    {
        self.tables
    }

    // One more node begins.
    pub fn begin(&mut self)
        requires { self.old.begun ≤ most_counted }
        ensures { self.new ≡ one_begun self.old }
    {
        self.begun += 1;
    }

    // One more node ends.
    pub fn end(&mut self)
        requires { self.old.ended ≤ most_counted }
        ensures { self.new ≡ one_ended self.old }
    {
        self.ended += 1;
    }

    // One node less ends.
    pub fn go_on(&mut self)
        ensures { self.new ≡ one_less self.old }
    {
        self.ended = self.ended.saturating_sub(1);
    }

    // The name stands so many tokens behind it.
    pub fn name_behind(&mut self, name: usize)
        requires { name ≤ most_bytes }
        ensures { self.new ≡ with_name name self.old }
    {
        self.name = name;
    }

    // It opens a parenthesis, behind which so many are open.
    pub fn open(&mut self, parentheses: usize)
        ensures { self.new ≡ record self.old { parentheses = parentheses } }
    {
        self.parentheses = parentheses;
    }

    // It names a table, the last of so many.
    pub fn name_table(&mut self, tables: usize)
        ensures { self.new ≡ record self.old { tables = tables } }
    {
        self.tables = tables;
    }
}
