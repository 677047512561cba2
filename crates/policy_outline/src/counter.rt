// Counts nodes, token by token.
ghost use Rattle.std.specs.Prelude.{◌≡◌, ◌≤◌, length, drop, OnOk, IfOk};
ghost use Rattle.maple_base.specs.PolicyLimits.{most_bytes};
ghost use Rattle.policy_outline.specs.Bounds.{begun_in, ended_in, most_counted, Within};
ghost use Rattle.policy_outline.specs.Counts.{end_last};
ghost use Rattle.policy_outline.specs.Counting.{nothing_counted, begin_at, go_on_last, name_at, begins, begins_statement, ends, ended_ahead, goes_on, begins_lookup, binds, opens, closes, rests, names_table, opens_parenthesis, closes_parenthesis, counts_single, begins_pair, counted, counted_all, passed};

use crate::count::Count;
use maple_base::NoMemory;
use policy_grammar::{Event, Stack};
use std::alloc::Global;
use std::marker::Model;

/// What is counted so far of a policy.
#[derive(Drop)]
pub struct Counter {
    counts: Vec<Count>,
    // Of the token that is being read.
    current: Count,
    // The number of the first token of the expression that was read last.
    operand: usize,
    // Those of the first tokens of what is open around it.
    firsts: Stack<usize>,
    // The number of the first token of the statement or head that was begun last.
    head: usize,
    parentheses: usize,
    tables: usize,
}

impl Model for Counter {
    ghost use Rattle.policy_outline.specs.Counting.{Counter as CounterState};

    ghost Value = { CounterState };

    ghost view = { λ a. record {
      counts = a.counts.items;
      current = a.current;
      operand = a.operand;
      firsts = a.firsts;
      head = a.head;
      parentheses = a.parentheses;
      tables = a.tables;
    } };
}

// One more node ends with the last token.
fn end_last(counts: &mut Vec<Count>)
    requires { ended_in counts.old.items ≤ most_counted }
    ensures { counts.new.items ≡ end_last counts.old.items }
{
    if let Some(last) = counts.last_mut() {
        last.end();
    }
}

// One node less ends with the last token.
fn go_on_last(counts: &mut Vec<Count>)
    ensures { counts.new.items ≡ go_on_last counts.old.items }
{
    if let Some(last) = counts.last_mut() {
        last.go_on();
    }
}

// One more node begins with a token.
fn begin_at(counts: &mut Vec<Count>, token: usize)
    requires { begun_in counts.old.items ≤ most_counted }
    ensures { counts.new.items ≡ begin_at token counts.old.items }
{
    if let Some(count) = counts.get_mut(token) {
        count.begin();
    }
}

// The name of what begins with a token stands so many tokens behind it.
fn name_at(counts: &mut Vec<Count>, token: usize, name: usize)
    requires { name ≤ most_bytes }
    ensures { counts.new.items ≡ name_at token name counts.old.items }
{
    if let Some(count) = counts.get_mut(token) {
        count.name_behind(name);
    }
}

impl Counter {
    /// Nothing is counted.
    pub fn new(alloc: Global) -> Counter
        ensures { result ≡ nothing_counted }
    {
        Counter {
            counts: Vec::new(alloc),
            current: Count::none(),
            operand: 0,
            firsts: Stack::new(alloc),
            head: 0,
            parentheses: 0,
            tables: 0,
        }
    }

    /// The counts, taken out.
    pub fn into_counts(self) -> Vec<Count>
        ensures { result.items ≡ self.counts }
    {
        let Counter { counts, .. } = self;
        counts
    }

    // A statement or a head begins with the token that is read.
    fn begins_statement(&mut self)
        requires { Within most_counted self.old }
        ensures { self.new ≡ begins_statement self.old }
    {
        self.current.begin();
        self.current.name_behind(1);
        self.head = self.counts.len();
    }

    // A node ended with the token ahead.
    fn ended_ahead(&mut self)
        requires { Within most_counted self.old }
        ensures { self.new ≡ ended_ahead self.old }
    {
        end_last(&mut self.counts);
    }

    // What begins with this token is open.
    fn opens(&mut self, token: usize) -> Result<(), NoMemory>
        ensures { OnOk result (self.new ≡ opens token self.old) }
    {
        self.firsts.push(token)
    }

    // A node begins with the token that is read, and is open.
    fn begins_open(&mut self) -> Result<(), NoMemory>
        requires { Within most_counted self.old }
        ensures { OnOk result (self.new ≡ opens (length self.old.counts) (begins self.old)) }
    {
        self.current.begin();
        let token = self.counts.len();
        self.opens(token)
    }

    // The innermost of what is open was read.
    fn closes(&mut self)
        ensures { self.new ≡ closes self.old }
    {
        self.operand = self.firsts.pop().unwrap_or(0);
    }

    // A statement ended, or its block opens.
    fn rests(&mut self)
        ensures { self.new ≡ rests self.old }
    {
        self.operand = 0;
        self.head = 0;
    }

    // A statement with a block ends with the token that is read.
    fn ended_block(&mut self)
        requires { Within most_counted self.old }
        ensures { self.new ≡ ends self.old }
    {
        self.current.end();
    }

    // A statement of one word was read.
    fn ended_word(&mut self)
        requires { Within most_counted self.old }
        ensures { self.new ≡ rests (ends self.old) }
    {
        self.current.end();
        self.rests();
    }

    // A statement without a block ended.
    fn ended_statement(&mut self)
        requires { Within most_counted self.old }
        ensures { self.new ≡ rests (ended_ahead self.old) }
    {
        self.ended_ahead();
        self.rests();
    }

    // A part of an expression ended.
    fn ended_part(&mut self)
        requires { Within most_counted self.old }
        ensures { self.new ≡ closes (ended_ahead self.old) }
    {
        self.ended_ahead();
        self.closes();
    }

    // A call ends with the token that is read.
    fn ended_call(&mut self)
        requires { Within most_counted self.old }
        ensures { self.new ≡ closes (ends self.old) }
    {
        self.current.end();
        self.closes();
    }

    fn names_table(&mut self)
        requires { Within most_counted self.old }
        ensures { self.new ≡ names_table self.old }
    {
        self.tables += 1;
        self.current.name_table(self.tables);
    }

    fn opens_parenthesis(&mut self) -> Result<(), NoMemory>
        requires { Within most_counted self.old }
        ensures { OnOk result (self.new ≡ opens_parenthesis self.old) }
    {
        self.parentheses += 1;
        self.current.open(self.parentheses);
        let token = self.counts.len();
        self.opens(token)
    }

    fn closes_parenthesis(&mut self)
        ensures { self.new ≡ closes_parenthesis self.old }
    {
        self.parentheses = self.parentheses.saturating_sub(1);
        self.closes();
    }

    fn counts_single(&mut self)
        requires { Within most_counted self.old }
        ensures { self.new ≡ counts_single self.old }
    {
        self.current.end();
        self.current.begin();
        self.operand = self.counts.len();
    }

    // An operator stands behind its left part.
    fn begins_pair(&mut self) -> Result<(), NoMemory>
        requires { Within most_counted self.old }
        ensures { OnOk result (self.new ≡ begins_pair self.old) }
    {
        begin_at(&mut self.counts, self.operand);
        self.opens(self.operand)
    }

    // The field ahead begins a test, whose value stands behind `is`.
    fn begins_test(&mut self) -> Result<(), NoMemory>
        ensures { OnOk result (self.new ≡ opens self.old.operand (goes_on self.old)) }
    {
        go_on_last(&mut self.counts);
        self.opens(self.operand)
    }

    // The name ahead is that of a table, and begins a head.
    fn begins_lookup(&mut self)
        ensures { self.new ≡ begins_lookup self.old }
    {
        go_on_last(&mut self.counts);
        self.head = self.operand;
    }

    // The token ahead is the name that a head binds, and the last of the head.
    fn binds(&mut self)
        requires within { Within most_counted self.old }
        requires few { length self.old.counts ≤ most_bytes }
        ensures { self.new ≡ binds self.old }
    {
        let last = self.counts.len().saturating_sub(1);
        let name = last.saturating_sub(self.head);
        name_at(&mut self.counts, self.head, name);
        end_last(&mut self.counts);
    }

    /// Counts what an event of the token that is being read tells.
    pub fn count(&mut self, event: Event) -> Result<(), NoMemory>
        requires within { Within most_counted self.old }
        requires few { length self.old.counts ≤ most_bytes }
        ensures { OnOk result (self.new ≡ counted event self.old) }
    {
        match event {
            Event::Group => return self.opens_parenthesis(),
            Event::Up | Event::At | Event::Not => return self.begins_open(),
            Event::Is => return self.begins_test(),
            Event::Operator(_) => return self.begins_pair(),
            Event::Table(_) => self.names_table(),
            Event::Begin => self.begins_statement(),
            Event::Single(_) => self.counts_single(),
            Event::GroupEnd => self.closes_parenthesis(),
            Event::Call => self.ended_call(),
            Event::Negation | Event::Test | Event::Pair(_) => self.ended_part(),
            Event::Index => self.begins_lookup(),
            Event::Bind => self.binds(),
            Event::If => self.ended_ahead(),
            Event::IfElse | Event::While => self.ended_block(),
            Event::Drop | Event::Flood => self.ended_word(),
            Event::Out(_) | Event::Route | Event::Let | Event::Assign => self.ended_statement(),
            Event::Open => self.rests(),
            Event::Learning
            | Event::Name(_)
            | Event::Host
            | Event::Hop
            | Event::Lookup
            | Event::Holds
            | Event::Close => {}
        }
        Ok(())
    }

    /// Counts what all events from this index on tell.
    pub fn count_all(&mut self, events: &[Event], from: usize) -> Result<(), NoMemory>
        requires from { from ≤ length events.now }
        requires within { Within from self.old }
        requires few { length self.old.counts ≤ most_bytes }
        ensures { OnOk result (self.new ≡ counted_all (drop from events.now) self.old) }
    {
        let added = &events[from..];
        for event in added {
            self.count(*event)?;
        }
        Ok(())
    }

    /// The token was read.
    pub fn pass(&mut self) -> Result<(), NoMemory>
        ensures { OnOk result (self.new ≡ passed self.old) }
    {
        self.counts.push(self.current)?;
        self.current = Count::none();
        Ok(())
    }
}
