// Names and types that are wrong.
ghost use Rattle.std.specs.Prelude.{◌≡◌, ◌+◌, ◌<◌, ◌≤◌, ◌++◌, ◌&&◌, true, [], ℕ, Some, IfOk, OnOk, map};
ghost use Rattle.std.specs.List.{list_any, list_all};
ghost use Rattle.std.specs.Str.{bytes_eq};
ghost use Rattle.std.specs.Option.{option_map};
ghost use Rattle.maple_base.specs.Names.{is_name};
ghost use Rattle.maple_base.specs.PolicyLimits.{most_nodes};
ghost use Rattle.policy_lang.specs.TreeOf.{term_of, terms_of, ask_of, act_of, acts_of, tree_of};
ghost use Rattle.policy_lang.specs.Forms.{atom_of, callee_of};
ghost use Rattle.policy_lang.specs.Sizes.{size_of, sizes_of, ask_size, act_size, acts_size, else_size};
ghost use Rattle.policy_lang.specs.Faults.{NumberType, TruthType, Variable, type_of, atom_type, call_type, pair_type, operand_type, meaning_of, unless_so, value_faults, place_faults, table_faults, atom_faults, type_faults, expr_faults, operand_faults, numbers_faults, declared_faults, ask_faults, names_behind, names_after, acts_faults, tables_faults, first_by, with_name, place_in};
ghost use Rattle.policy_lang.specs.Walks.{site_of, told, merged_by};
ghost use Rattle.policy_lang.specs.Found.{IsFirstAnywhere, IsFound, IsInner, AreTwoFound, IsBindingFound, IsLetFound, IsAssignFound, IsActFound, IfFound, IsOperandFound, IsWhileFound, IsElseFound, AreActsFound, sound_else, sound_if};
ghost use Rattle.policy_lang.specs.Sound.{sound_atom, sound_term, sound_ask, sound_act, sound_acts};
ghost use Rattle.policy_lang.specs.declared.faults.Site.TheVariants as sites;
ghost use Rattle.policy_lang.specs.Scopes.{type_of_value, type_known, meaning_known, names_of};

use crate::faults::{Fault, Site, earlier};
use crate::form::{Atom, Callee, Form};
use crate::names::{Meaning, Scope, ValueType, is_same, suits};
use crate::nodes::Node;
use crate::{Block, Expr, Head, Statement};
use maple_base::{Name, NoMemory, Operator, PolicyFault};

/// The first fault of some nodes, and the number behind them.
#[derive(Clone, Copy)]
pub struct Found {
    pub fault: Option<Fault>,
    pub next: u32,
}

impl Found {
    // What is found in these nodes and in those behind them.
    fn then(self, behind: Found, nodes: &[Node]) -> Found
        ensures fault { told result.fault ≡ merged_by (place_in nodes.now) (told self.fault) (told behind.fault) }
        ensures next { result.next ≡ behind.next }
    {
        Found {
            fault: earlier(self.fault, behind.fault, nodes),
            next: behind.next,
        }
    }

    // What is found in these nodes, and a fault ahead of them.
    fn behind(self, fault: Option<Fault>, nodes: &[Node]) -> Found
        ensures fault { told result.fault ≡ merged_by (place_in nodes.now) (told fault) (told self.fault) }
        ensures next { result.next ≡ self.next }
    {
        Found {
            fault: earlier(fault, self.fault, nodes),
            next: self.next,
        }
    }
}

fn fault_unless(holds: bool, kind: PolicyFault, site: Site) -> Option<Fault>
    ensures { IsFirstAnywhere result (unless_so holds kind (site_of site)) }
{
    if holds {
        None
    } else {
        Some(Fault { kind, site })
    }
}

// A fault at the first word of a node.
fn fault_at(kind: PolicyFault, node: u32) -> Option<Fault>
    ensures { result ≡ Some (record { kind = kind; site = sites.AtNode node }) }
{
    let site = Site::AtNode(node);
    Some(Fault { kind, site })
}

// A name that stands for a value.
fn value_fault(meaning: Option<Meaning>, node: u32) -> Option<Fault>
    ensures { IsFirstAnywhere result (value_faults (meaning_known meaning) node) }
{
    match meaning {
        None => fault_at(PolicyFault::UnknownName, node),
        Some(Meaning::Table) => fault_at(PolicyFault::TypeMismatch, node),
        Some(Meaning::Variable(_)) => None,
    }
}

// A name that stands for a place.
fn place_fault(meaning: Option<Meaning>, node: u32) -> Option<Fault>
    ensures { IsFirstAnywhere result (place_faults (meaning_known meaning) node) }
{
    match meaning {
        None => fault_at(PolicyFault::UnknownName, node),
        Some(Meaning::Table) => fault_at(PolicyFault::TypeMismatch, node),
        Some(Meaning::Variable(known)) => {
            fault_unless(
                suits(known, ValueType::Place),
                PolicyFault::TypeMismatch,
                Site::AtNode(node),
            )
        }
    }
}

// A name that stands for a table.
fn table_fault(meaning: Option<Meaning>, node: u32) -> Option<Fault>
    ensures { IsFirstAnywhere result (table_faults (meaning_known meaning) node) }
{
    match meaning {
        None => fault_at(PolicyFault::UnknownName, node),
        Some(Meaning::Table) => None,
        Some(Meaning::Variable(_)) => fault_at(PolicyFault::TypeMismatch, node),
    }
}

// The type of an expression without parts.
fn atom_type(atom: Atom<'_>, scope: &Scope) -> Option<ValueType>
    ensures { type_known result ≡ atom_type (atom_of atom.entry) (names_of scope.now) }
{
    match atom {
        Atom::Var(name) => match scope.meaning(name) {
            Some(Meaning::Variable(known)) => known,
            _ => None,
        },
        _ => Some(ValueType::Number),
    }
}

fn call_type(callee: Callee) -> ValueType
    ensures { type_of_value result ≡ call_type (callee_of callee) }
{
    match callee {
        Callee::Up => ValueType::Truth,
        Callee::At => ValueType::Place,
    }
}

// The type of what an operator makes.
fn pair_type(operator: Operator) -> ValueType
    ensures { type_of_value result ≡ pair_type operator }
{
    match operator {
        Operator::Add | Operator::Sub => ValueType::Number,
        _ => ValueType::Truth,
    }
}

// The type of its parts.
fn operand_type(operator: Operator) -> ValueType
    ensures { type_of_value result ≡ operand_type operator }
{
    match operator {
        Operator::And | Operator::Or => ValueType::Truth,
        _ => ValueType::Number,
    }
}

fn type_of(expr: &Expr, scope: &Scope) -> Option<ValueType>
    ensures { type_known result ≡ type_of (term_of expr.now) (names_of scope.now) }
{
    match expr.form() {
        Form::Single(atom) => atom_type(atom, scope),
        Form::Call(callee, _, _) => Some(call_type(callee)),
        Form::Is(_, _) | Form::Not(_) => Some(ValueType::Truth),
        Form::Pair(operator, _, _) => Some(pair_type(operator)),
    }
}

// An expression that has another type than is wanted.
fn type_fault(wanted: ValueType, expr: &Expr, scope: &Scope, node: u32) -> Option<Fault>
    ensures { IsFirstAnywhere result (type_faults (type_of_value wanted) (term_of expr.now) (names_of scope.now) node) }
{
    let holds = suits(type_of(expr, scope), wanted);
    fault_unless(holds, PolicyFault::TypeMismatch, Site::AtWhole(node))
}

// An expression without parts.
fn atom_fault(atom: Atom<'_>, scope: &Scope, node: u32) -> Option<Fault>
    ensures first { IsFirstAnywhere result (atom_faults (atom_of atom.entry) (names_of scope.now) node) }
    ensures sound { sound_atom (atom_of atom.entry) ≡ true }
{
    match atom {
        Atom::Number(_) | Atom::PacketSwitch | Atom::Packet(_) => None,
        Atom::Var(name) => value_fault(scope.meaning(name), node),
        Atom::SwitchOf(name) | Atom::PortOf(name) => place_fault(scope.meaning(name), node),
    }
}

#[cycle(types)]
fn check_expr(expr: &Expr, scope: &Scope, nodes: &[Node], node: u32) -> Found
    requires { node + size_of (term_of expr.now) ≤ most_nodes + 1 }
    ensures found { IsFound (place_in nodes.now) result (expr_faults (term_of expr.now) (names_of scope.now) node) (node + size_of (term_of expr.now)) }
    ensures sound { sound_term (term_of expr.now) ≡ true }
{
    match expr.form() {
        Form::Single(atom) => Found {
            fault: atom_fault(atom, scope, node),
            next: node + 1,
        },
        Form::Call(_, left, right) => {
            check_two(ValueType::Number, left, right, scope, nodes, node + 1)
        }
        Form::Is(_, part) => check_operand(ValueType::Number, part, scope, nodes, node + 1),
        Form::Not(part) => check_operand(ValueType::Truth, part, scope, nodes, node + 1),
        Form::Pair(operator, left, right) => {
            check_two(operand_type(operator), left, right, scope, nodes, node + 1)
        }
    }
}

// Two expressions that are to be of a type.
#[cycle(types)]
#[tactic(auto, using(crate::proofs::Order::first_parts))]
fn check_two(
    wanted: ValueType,
    left: &Expr,
    right: &Expr,
    scope: &Scope,
    nodes: &[Node],
    node: u32,
) -> Found
    requires { node + size_of (term_of left.now) + size_of (term_of right.now) ≤ most_nodes + 1 }
    ensures found { AreTwoFound (place_in nodes.now) result (type_of_value wanted) (term_of left.now) (term_of right.now) (names_of scope.now) node }
    ensures sound { (sound_term (term_of left.now) && sound_term (term_of right.now)) ≡ true }
{
    let found = check_operand(wanted, left, scope, nodes, node);
    found.then(
        check_operand(wanted, right, scope, nodes, found.next),
        nodes,
    )
}

// An expression that is to be of a type.
#[cycle(types)]
#[tactic(auto, using(crate::proofs::Order::first_both))]
fn check_operand(wanted: ValueType, expr: &Expr, scope: &Scope, nodes: &[Node], node: u32) -> Found
    requires { node + size_of (term_of expr.now) ≤ most_nodes + 1 }
    ensures found { IsOperandFound (place_in nodes.now) result (type_of_value wanted) (term_of expr.now) (names_of scope.now) node }
    ensures sound { sound_term (term_of expr.now) ≡ true }
{
    let fault = type_fault(wanted, expr, scope, node);
    check_expr(expr, scope, nodes, node).behind(fault, nodes)
}

#[tactic(auto, using(crate::proofs::Found::exprs_found, crate::proofs::Found::exprs_fit, crate::proofs::Found::exprs_more, crate::proofs::Found::exprs_last))]
fn check_numbers(exprs: &[Expr], scope: &Scope, nodes: &[Node], node: u32) -> Found
    requires { node + sizes_of (terms_of exprs.now) ≤ most_nodes + 1 }
    ensures found { IsFound (place_in nodes.now) result (numbers_faults (terms_of exprs.now) (names_of scope.now) node) (node + sizes_of (terms_of exprs.now)) }
    ensures sound { list_all sound_term (terms_of exprs.now) ≡ true }
{
    let mut found = Found {
        fault: None,
        next: node,
    };
    for expr in exprs {
        found = found.then(
            check_operand(ValueType::Number, expr, scope, nodes, found.next),
            nodes,
        );
    }
    found
}

// A name that is declared while it is in force.
fn declared_fault(name: &Name, scope: &Scope, node: u32) -> Option<Fault>
    ensures first { IsFirstAnywhere result (declared_faults name.now (names_of scope.now) node) }
    ensures name { is_name name.now ≡ true }
{
    fault_unless(
        scope.meaning(name).is_none(),
        PolicyFault::Twice,
        Site::AtName(node),
    )
}

// The expression of a head that binds a name, and the name.
#[tactic(auto, using(crate::proofs::Order::first_both, crate::proofs::Order::merged_assoc))]
fn check_binding(expr: &Expr, name: &Name, scope: &Scope, nodes: &[Node], node: u32) -> Found
    requires { node + (1 + size_of (term_of expr.now)) ≤ most_nodes + 1 }
    ensures found { IsBindingFound (place_in nodes.now) result (term_of expr.now) name.now (names_of scope.now) node }
    ensures sound { (sound_term (term_of expr.now) && is_name name.now) ≡ true }
{
    let found = check_operand(ValueType::Number, expr, scope, nodes, node + 1);
    Found {
        fault: earlier(found.fault, declared_fault(name, scope, node), nodes),
        next: found.next,
    }
}

#[tactic(auto, using(crate::proofs::Order::first_both, crate::proofs::Order::merged_assoc))]
fn check_head(head: &Head, scope: &Scope, nodes: &[Node], node: u32) -> Found
    requires { node + ask_size (ask_of head.now) ≤ most_nodes + 1 }
    ensures found { IsFound (place_in nodes.now) result (ask_faults (ask_of head.now) (names_of scope.now) node) (node + ask_size (ask_of head.now)) }
    ensures sound { sound_ask (ask_of head.now) ≡ true }
{
    match head {
        Head::Host(expr, name) | Head::Hop(expr, name) => check_binding(
            expr, name, scope, nodes, node,
        ),
        Head::Lookup(table, expr, name) => {
            let fault = table_fault(scope.meaning(table), node);
            check_binding(expr, name, scope, nodes, node).behind(fault, nodes)
        }
        Head::Test(expr) => check_operand(ValueType::Truth, expr, scope, nodes, node),
    }
}

// The name that a head binds is in force.
fn bind(head: &Head, scope: &mut Scope) -> Result<(), NoMemory>
    ensures { OnOk result (names_of scope.new ≡ names_behind (ask_of head.now) (names_of scope.old)) }
{
    match head {
        Head::Host(_, name) => scope.declare(name, Meaning::Variable(Some(ValueType::Place))),
        Head::Hop(_, name) | Head::Lookup(_, _, name) => {
            scope.declare(name, Meaning::Variable(Some(ValueType::Number)))
        }
        Head::Test(_) => Ok(()),
    }
}

#[tactic(auto, using(crate::proofs::Order::first_both, crate::proofs::Order::merged_assoc))]
fn check_let(
    name: &Name,
    expr: &Expr,
    scope: &mut Scope,
    nodes: &[Node],
    node: u32,
) -> Result<Found, NoMemory>
    requires { node + (1 + size_of (term_of expr.now)) ≤ most_nodes + 1 }
    ensures found { IfOk result (λ found. IsLetFound (place_in nodes.now) found name.now (term_of expr.now) (names_of scope.old) node) }
    ensures sound { (is_name name.now && sound_term (term_of expr.now)) ≡ true }
    ensures declared { OnOk result (names_of scope.new ≡ with_name name.now (Variable (type_of (term_of expr.now) (names_of scope.old))) (names_of scope.old)) }
{
    let fault = declared_fault(name, scope, node);
    let found = check_expr(expr, scope, nodes, node + 1).behind(fault, nodes);
    let known = type_of(expr, scope);
    scope.declare(name, Meaning::Variable(known))?;
    Ok(found)
}

#[tactic(auto, using(crate::proofs::Order::first_both, crate::proofs::Order::merged_assoc))]
fn check_assign(name: &Name, expr: &Expr, scope: &Scope, nodes: &[Node], node: u32) -> Found
    requires { node + (1 + size_of (term_of expr.now)) ≤ most_nodes + 1 }
    ensures found { IsAssignFound (place_in nodes.now) result name.now (term_of expr.now) (names_of scope.now) node }
    ensures sound { (is_name name.now && sound_term (term_of expr.now)) ≡ true }
{
    match scope.meaning(name) {
        None => {
            let fault = fault_at(PolicyFault::UnknownName, node);
            check_expr(expr, scope, nodes, node + 1).behind(fault, nodes)
        }
        Some(Meaning::Table) => {
            let fault = fault_at(PolicyFault::TypeMismatch, node);
            check_expr(expr, scope, nodes, node + 1).behind(fault, nodes)
        }
        Some(Meaning::Variable(None)) => check_expr(expr, scope, nodes, node + 1),
        Some(Meaning::Variable(Some(known))) => check_operand(known, expr, scope, nodes, node + 1),
    }
}

#[cycle(statements)]
#[tactic(auto, using(crate::proofs::Found::inner_none, crate::proofs::Found::inner_same, crate::proofs::Found::inner_named, crate::proofs::Order::first_both, crate::proofs::Found::if_act, crate::proofs::Found::if_size, crate::proofs::Found::if_names, crate::proofs::Rolls::if_tree, crate::proofs::Rolls::while_tree))]
fn check_statement(
    statement: &Statement,
    scope: &mut Scope,
    nodes: &[Node],
    node: u32,
) -> Result<Found, NoMemory>
    requires { node + act_size (act_of statement.now) ≤ most_nodes + 1 }
    ensures found { IfOk result (λ found. IsActFound (place_in nodes.now) found (act_of statement.now) (names_of scope.old) node) }
    ensures names { OnOk result (names_of scope.new ≡ names_after (act_of statement.now) (names_of scope.old)) }
    ensures inner { OnOk result (IsInner (names_of scope.new) (names_of scope.old)) }
    ensures sound { OnOk result (sound_act (act_of statement.now) ≡ true) }
{
    match statement {
        Statement::Drop | Statement::Flood => Ok(Found {
            fault: None,
            next: node + 1,
        }),
        Statement::Out(exprs) => Ok(check_numbers(exprs.items(), scope, nodes, node + 1)),
        Statement::Route(expr) => Ok(check_operand(ValueType::Place, expr, scope, nodes, node + 1)),
        Statement::Let(name, expr) => check_let(name, expr, scope, nodes, node),
        Statement::Assign(name, expr) => Ok(check_assign(name, expr, scope, nodes, node)),
        Statement::If(head, block, other) => check_if(head, block, other, scope, nodes, node + 1),
        Statement::While(expr, block) => check_while(expr, block, scope, nodes, node + 1),
    }
}

// What an `if` asks, its first block, and its second, if there is one.
#[cycle(statements)]
#[tactic(auto, using(crate::proofs::Found::left_behind, crate::proofs::Order::first_three))]
fn check_if(
    head: &Head,
    block: &Block,
    other: &Option<Block>,
    scope: &mut Scope,
    nodes: &[Node],
    node: u32,
) -> Result<Found, NoMemory>
    requires { node + ask_size (ask_of head.now) + acts_size (tree_of block.now) + else_size (option_map tree_of other.now) ≤ most_nodes + 1 }
    ensures found { IfOk result (λ found. IfFound (place_in nodes.now) found head.now block.now other.now (names_of scope.old) node) }
    ensures names { OnOk result (names_of scope.new ≡ names_of scope.old) }
    ensures sound { OnOk result (sound_if (ask_of head.now) (tree_of block.now) (option_map tree_of other.now) ≡ true) }
{
    let outer = scope.len();
    let asked = check_head(head, scope, nodes, node);
    bind(head, scope)?;
    let first = check_block(block.items(), scope, nodes, asked.next)?;
    scope.leave(outer);
    let second = check_other(other, scope, nodes, first.next)?;
    Ok(asked.then(first, nodes).then(second, nodes))
}

#[cycle(statements)]
#[tactic(auto, using(crate::proofs::Order::first_both))]
fn check_while(
    expr: &Expr,
    block: &Block,
    scope: &mut Scope,
    nodes: &[Node],
    node: u32,
) -> Result<Found, NoMemory>
    requires { node + size_of (term_of expr.now) + acts_size (tree_of block.now) ≤ most_nodes + 1 }
    ensures found { IfOk result (λ found. IsWhileFound (place_in nodes.now) found (term_of expr.now) (tree_of block.now) (names_of scope.old) node) }
    ensures names { OnOk result (names_of scope.new ≡ names_of scope.old) }
    ensures sound { OnOk result ((sound_term (term_of expr.now) && sound_acts (tree_of block.now)) ≡ true) }
{
    let asked = check_operand(ValueType::Truth, expr, scope, nodes, node);
    let found = check_block(block.items(), scope, nodes, asked.next)?;
    Ok(asked.then(found, nodes))
}

#[cycle(statements)]
fn check_other(
    other: &Option<Block>,
    scope: &mut Scope,
    nodes: &[Node],
    node: u32,
) -> Result<Found, NoMemory>
    requires { node + else_size (option_map tree_of other.now) ≤ most_nodes + 1 }
    ensures found { IfOk result (λ found. IsElseFound (place_in nodes.now) found (option_map tree_of other.now) (names_of scope.old) node) }
    ensures names { OnOk result (names_of scope.new ≡ names_of scope.old) }
    ensures sound { OnOk result (sound_else (option_map tree_of other.now) ≡ true) }
{
    match other {
        None => Ok(Found {
            fault: None,
            next: node,
        }),
        Some(block) => check_block(block.items(), scope, nodes, node),
    }
}

// A name that a block declares is in force up to the end of the block.
#[cycle(statements)]
#[tactic(auto, using(crate::proofs::Found::all_found, crate::proofs::Found::all_fit, crate::proofs::Found::all_more_found, crate::proofs::Found::all_all_found, crate::proofs::Rolls::act_within))]
fn check_block(
    statements: &[Statement],
    scope: &mut Scope,
    nodes: &[Node],
    node: u32,
) -> Result<Found, NoMemory>
    requires { node + acts_size (acts_of statements.now) ≤ most_nodes + 1 }
    ensures found { IfOk result (λ found. AreActsFound (place_in nodes.now) found (acts_of statements.now) (names_of scope.old) node) }
    ensures names { OnOk result (names_of scope.new ≡ names_of scope.old) }
    ensures sound { OnOk result (sound_acts (acts_of statements.now) ≡ true) }
{
    let outer = scope.len();
    let mut found = Found {
        fault: None,
        next: node,
    };
    for statement in statements {
        found = found.then(check_statement(statement, scope, nodes, found.next)?, nodes);
    }
    scope.leave(outer);
    Ok(found)
}

/// The first fault of a body's names and types, where these names are in force.
pub fn check_body(body: &Block, mut scope: Scope, nodes: &[Node]) -> Result<Option<Fault>, NoMemory>
    requires { 1 + acts_size (tree_of body.now) ≤ most_nodes + 1 }
    ensures fault { IfOk result (λ fault. told fault ≡ first_by (place_in nodes.now) (acts_faults (tree_of body.now) (names_of scope) 1)) }
    ensures sound { OnOk result (sound_acts (tree_of body.now) ≡ true) }
{
    Ok(check_block(body.items(), &mut scope, nodes, 1)?.fault)
}

fn is_among(tables: &[Name], name: &Name) -> bool
    ensures { result ≡ list_any (bytes_eq name.now) tables.now }
{
    tables.iter().any(|table| is_same(name, table))
}

/// A table that is named twice.
#[tactic(auto, using(crate::proofs::Tables::tables_more, crate::proofs::Order::merged_none))]
pub fn tables_fault(tables: &[Name], nodes: &[Node]) -> Option<Fault>
    ensures { told result ≡ first_by (place_in nodes.now) (tables_faults [] tables.now) }
{
    let mut fault = None;
    for (i, name) in tables.iter().enumerate() {
        let is_new = !is_among(&tables[..i], name);
        fault = earlier(
            fault,
            fault_unless(is_new, PolicyFault::Twice, Site::AtTable),
            nodes,
        );
    }
    fault
}
