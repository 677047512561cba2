// Makes a policy's parts of what was read.
ghost use Rattle.std.specs.Prelude.{◌≡◌, IfOk};
ghost use Rattle.policy_lang.specs.TreeOf.{acts_of, tree_of};
ghost use Rattle.policy_tree.specs.Building.{AreOfFile, IsMade};
ghost use Rattle.policy_tree.specs.Machine.{made};
ghost use Rattle.policy_tree.specs.Stands.{Makes};

use crate::state::{Asked, Builder, Callee};
use maple_base::{Name, NoMemory};
use policy_grammar::Event;
use policy_lang::Block;
use std::alloc::Global;

/// The parts of a policy: its tables, whether the controller learns hosts, and what is done with
/// each packet.
#[derive(Drop)]
pub struct PolicyParts {
    pub tables: Vec<Name>,
    pub learning: bool,
    pub body: Block,
}

/// The parts of the policy of which these events were read.
///
/// # Errors
///
/// The one error is want of memory.
pub fn build(alloc: Global, events: &[Event]) -> Result<PolicyParts, NoMemory>
    requires { AreOfFile events.now }
    ensures parts { IfOk result (IsMade events.now) }
{
    let mut builder = Builder::new(alloc);
    for event in events {
        // Each event of a file finds the parts that it takes.
        let fits = builder.take(alloc, *event)?;
        prove!(fits);
    }
    Ok(parts_of(builder))
}

impl Builder {
    // Goes on by what was read next. The answer is false where it does not fit.
    fn take(&mut self, alloc: Global, event: Event) -> Result<bool, NoMemory>
        ensures { IfOk result (Makes (made event) self.old self.new) }
    {
        match event {
            Event::Begin
            | Event::Group
            | Event::GroupEnd
            | Event::Not
            | Event::Is
            | Event::Operator(_)
            | Event::Index => Ok(true),
            Event::Table(name) => self.table(name),
            Event::Learning => Ok(self.learn()),
            Event::Name(name) => self.name(name),
            Event::Single(token) => self.single(token),
            Event::Up => self.callee(Callee::Up),
            Event::At => self.callee(Callee::At),
            Event::Call => self.call(alloc),
            Event::Negation => self.negation(alloc),
            Event::Test => self.test(alloc),
            Event::Pair(operator) => self.pair(alloc, operator),
            Event::Host => self.ask(Asked::Host),
            Event::Hop => self.ask(Asked::Hop),
            Event::Lookup => self.ask(Asked::Lookup),
            Event::Bind => self.bind(),
            Event::Holds => self.holds(),
            Event::Drop => self.drop_packet(),
            Event::Flood => self.flood(),
            Event::Out(count) => self.end_out(count),
            Event::Route => self.route(),
            Event::Let => self.declare(),
            Event::Assign => self.assign(),
            Event::Open => self.open(alloc),
            Event::Close => self.close(),
            Event::If => self.end_if(),
            Event::IfElse => self.end_if_else(),
            Event::While => self.end_while(),
        }
    }

    fn table(&mut self, name: Name) -> Result<bool, NoMemory>
        ensures { IfOk result (Makes (made (Event.Table name)) self.old self.new) }
    {
        self.tables.push(name)?;
        Ok(true)
    }

    fn learn(&mut self) -> bool
        ensures { Makes (made Event.Learning) self.old self.new result }
    {
        self.learning = true;
        true
    }

    fn name(&mut self, name: Name) -> Result<bool, NoMemory>
        ensures { IfOk result (Makes (made (Event.Name name)) self.old self.new) }
    {
        self.names.push(name)?;
        Ok(true)
    }
}

// The parts of what is whole.
fn parts_of(builder: Builder) -> PolicyParts
    ensures tables { result.tables ≡ builder.tables }
    ensures learning { result.learning ≡ builder.learning }
    ensures body { tree_of result.body ≡ acts_of builder.list.items }
{
    PolicyParts {
        tables: builder.tables,
        learning: builder.learning,
        body: Block::new(builder.list),
    }
}
