//! Policies: the syntax tree of the policy language, and which trees are well formed.
#![tactic(auto)]

ghost use Rattle.std.specs.Prelude.{◌≡◌, ◌≤◌, List, length};
ghost use Rattle.maple_base.specs.PolicyLimits.{most_tables};
ghost use Rattle.policy_lang.specs.Blocks.{IsOutList};
ghost use Rattle.policy_lang.specs.TreeOf.{acts_of, tree_of};
ghost use Rattle.policy_lang.specs.Faults.{IsWellFormed};
ghost use Rattle.policy_lang.specs.Sound.{IsSound};

pub mod build;
pub mod faults;
pub mod form;
pub mod laws;
pub mod name_fault;
mod names;
pub mod nodes;
mod types;

pub use build::BuildError;
pub use faults::{Fault, Site};
pub use form::{Atom, Callee, Form};
pub use maple_base::PolicyFault;
use maple_base::{Field, Name, Names};
pub use name_fault::first_name_fault;
pub use nodes::{Limit, Node, WalkStop};
use std::marker::Model;

/// An expression. It gives a number, a truth or a place.
#[derive(Drop)]
pub enum Expr {
    /// A number.
    Number(u64),
    /// What a name stands for.
    Var(Name),
    /// The switch of a place that a name stands for.
    SwitchOf(Name),
    /// The port of a place that a name stands for.
    PortOf(Name),
    /// The datapath id of the switch that the packet came to.
    PacketSwitch,
    /// A header field of the packet.
    Packet(Field),
    /// Whether a port of a switch is up: the switch, and the port.
    Up(Box<Expr>, Box<Expr>),
    /// The place of a switch and a port.
    At(Box<Expr>, Box<Expr>),
    /// Whether a field of the packet has the value of an expression.
    Is(Field, Box<Expr>),
    /// The contrary of a truth.
    Not(Box<Expr>),
    /// Whether both hold; the second is evaluated only where the first holds.
    And(Box<Expr>, Box<Expr>),
    /// Whether one holds; the second is evaluated only where the first does not hold.
    Or(Box<Expr>, Box<Expr>),
    /// The sum, at most 2^64 - 1.
    Add(Box<Expr>, Box<Expr>),
    /// The difference, at least 0.
    Sub(Box<Expr>, Box<Expr>),
    Equal(Box<Expr>, Box<Expr>),
    NotEqual(Box<Expr>, Box<Expr>),
    Less(Box<Expr>, Box<Expr>),
    LessEqual(Box<Expr>, Box<Expr>),
}

/// What an `if` asks. A name that it binds is in force in the first block.
#[derive(Drop)]
pub enum Head {
    /// Where the host of an Ethernet address is: binds the place. It fails where the host is not
    /// known.
    Host(Expr, Name),
    /// By which port a shortest way to a switch begins: binds the port. It fails where there is no
    /// way, and at that switch itself.
    Hop(Expr, Name),
    /// What a table has at a number: the table, the number, and the name that it binds. It fails
    /// where the table has nothing there.
    Lookup(Name, Expr, Name),
    /// Whether an expression is true.
    Test(Expr),
}

/// A statement.
#[cycle(policy)]
#[derive(Drop)]
pub enum Statement {
    /// Decides that the packet is sent nowhere.
    Drop,
    /// Decides that the packet is flooded.
    Flood,
    /// Decides that the packet is sent out of the ports that these expressions give, 1 to 16.
    Out(Exprs),
    /// Decides that the packet is sent along a shortest way to a place.
    Route(Expr),
    /// Declares a name for a value, in force up to the end of the block.
    Let(Name, Expr),
    /// Gives a name another value.
    Assign(Name, Expr),
    /// Runs the first block where the head holds, and else the second, if there is one.
    If(Head, Block, Option<Block>),
    /// Runs a block as long as an expression is true.
    While(Expr, Block),
}

/// Expressions, in order, 1 to 16.
#[derive(Drop)]
pub struct Exprs {
    list: Vec<Expr>,
}

/// Statements, in order.
#[cycle(policy)]
#[derive(Drop)]
pub struct Block {
    list: Vec<Statement>,
}

impl Model for Exprs {
    ghost use Rattle.std.specs.Prelude.{List};
    ghost use Rattle.policy_lang.specs.declared.Expr.{Expr};
    ghost use Rattle.policy_lang.specs.contracts.Expr as expr;
    ghost use Rattle.std.specs.Coded.{coded_list};

    ghost Value = { List Expr };

    ghost coded = { coded_list expr.the_row.coded };

    ghost view = { λ a. a.list.items };

    ghost use Rattle.maple_base.specs.PolicyLimits.{most_tables};
    ghost use Rattle.policy_lang.specs.Blocks.{IsOutList};

    ghost invariant = { λ a. IsOutList a.list.items };
}

impl Exprs {
    /// These expressions.
    pub fn new(list: Vec<Expr>) -> Exprs
        requires { IsOutList list.items }
        ensures { result ≡ list.items }
    {
        Exprs { list }
    }

    /// The expressions, in order.
    pub fn items(&self) -> &[Expr]
        ensures list { result.now ≡ self.now }
        ensures few { IsOutList self.now }
    {
        &self.list
    }
}

impl Block {
    /// These statements.
    pub fn new(list: Vec<Statement>) -> Block
        ensures { tree_of result ≡ acts_of list.items }
    {
        Block { list }
    }

    /// The statements, in order.
    pub fn items(&self) -> &[Statement]
        ensures { acts_of result.now ≡ tree_of self.now }
    {
        &self.list
    }
}

/// A policy: the tables that it names, whether the controller learns hosts from packets, and what
/// is done with each packet.
#[derive(Drop)]
pub struct Policy {
    tables: Names,
    learning: bool,
    body: Block,
    ghost few: { length tables ≤ most_tables },
    ghost formed: { IsWellFormed tables (tree_of body) },
    ghost sound: { IsSound tables (tree_of body) },
}

impl Policy {
    // A policy of at most 16 tables and of parts that are well formed and sound.
    pub(crate) fn new(tables: Names, learning: bool, body: Block) -> Policy
        requires few { length tables ≤ most_tables }
        requires formed { IsWellFormed tables (tree_of body) }
        requires sound { IsSound tables (tree_of body) }
        ensures tables { result.tables ≡ tables }
        ensures learning { result.learning ≡ learning }
        ensures body { result.body ≡ body }
    {
        Policy {
            tables,
            learning,
            body,
        }
    }

    /// The names of its tables, at most 16, in the order in which they are declared.
    pub fn tables(&self) -> &Names
        ensures tables { result.now ≡ self.now.tables }
        ensures few { length self.now.tables ≤ most_tables }
    {
        &self.tables
    }

    /// Whether the controller learns where hosts are from the packets that it sees.
    pub fn learning(&self) -> bool
        ensures { result ≡ self.now.learning }
    {
        self.learning
    }

    /// The statements that are run on a packet. They are well formed; their numbers are below 2^64,
    /// their names are names, and each `out` has 1 to 16 expressions.
    pub fn body(&self) -> &Block
        ensures body { result.now ≡ self.now.body }
        ensures formed { IsWellFormed self.now.tables (tree_of self.now.body) }
        ensures sound { IsSound self.now.tables (tree_of self.now.body) }
    {
        &self.body
    }
}
