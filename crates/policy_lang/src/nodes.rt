// The nodes of a policy, and the first limit that they pass.
ghost use Rattle.std.specs.Prelude.{◌≡◌, ◌+◌, ◌*◌, ◌≤◌, ◌<◌, ◌++◌, [], ◌∷◌, List, length, IfOk, IfErr, OnOk};
ghost use Rattle.maple_base.specs.PolicyLimits.{most_nodes, deepest};
ghost use Rattle.maple_base.specs.Operators.{left_level, right_level};
ghost use Rattle.policy_lang.specs.Tree.{Binds};
ghost use Rattle.policy_lang.specs.TreeOf.{term_of, terms_of, ask_of, act_of, acts_of, tree_of};
ghost use Rattle.policy_lang.specs.Nodes.{opens, length_of, node, term_nodes, nodes_from, lengths_of, terms_nodes, ask_length, ask_nodes, act_length, act_nodes, nodes_of, AreFree, IsStopOf};
ghost use Rattle.policy_lang.specs.NodeWalks.{Begun, TermBegun, Walked, PartWalked, CallWalked, PairWalked, IfWalked, WhileWalked, OtherWalked, ActsWalked, Spares, binding_nodes, deep_in};
ghost use Rattle.std.specs.Option.{option_map};
ghost use Rattle.maple_base.specs.declared.policy_fault.PolicyFault.TheVariants.{Nesting, Nodes};
ghost use Rattle.policy_lang.specs.declared.nodes.WalkStop.TheVariants as stop;

use crate::form::Form;
use crate::{Block, Expr, Head, Statement};
use maple_base::policy_limit::{DEEPEST, MOST_NODES};
use maple_base::{Operator, PolicyFault};
use std::alloc::{AllocFailed, Global};

/// Where a node lies in a text: its first token without the parentheses round it, its first token
/// with them, the token of the name that it declares or binds, and how deep it is.
#[derive(Clone, Copy)]
pub struct Node {
    pub first: u32,
    pub whole: u32,
    pub named: u32,
    pub depth: u32,
}

/// The first node that passes a limit, and the limit.
#[derive(Clone, Copy)]
pub struct Limit {
    pub kind: PolicyFault,
    pub node: u32,
}

/// Why a walk over nodes stops.
#[derive(Clone, Copy)]
pub enum WalkStop {
    Limit(Limit),
    NoMemory,
}

impl<T: Drop> From<AllocFailed<T>> for WalkStop {
    ghost from_gives = { λ _ error. error ≡ no_memory };

    ghost use Rattle.policy_lang.specs.declared.nodes.WalkStop.TheVariants.{NoMemory as no_memory};

    fn from(_error: AllocFailed<T>) -> WalkStop {
        WalkStop::NoMemory
    }
}

fn nesting(node: u32) -> WalkStop
    ensures { result ≡ stop.Limit (record { kind = Nesting; node = node }) }
{
    WalkStop::Limit(Limit {
        kind: PolicyFault::Nesting,
        node,
    })
}

fn too_many() -> WalkStop
    ensures { result ≡ stop.Limit (record { kind = Nodes; node = most_nodes + 1 }) }
{
    WalkStop::Limit(Limit {
        kind: PolicyFault::Nodes,
        node: MOST_NODES + 1,
    })
}

// How many parentheses open ahead of an expression at a place of a level.
fn opens(least: u8, expr: &Expr) -> u32
    ensures result { result ≡ opens least (term_of expr.now) }
    ensures few { result ≤ 1 }
{
    if expr.level() < least { 1 } else { 0 }
}

// Of the parts of an expression that begin with its first token, the first that is too deep.
fn deep_in(expr: &Expr, node: u32, depth: u32) -> Option<u32>
    requires numbered { node ≤ most_nodes + 1 + depth }
    requires nested { depth ≤ deepest + 1 }
    ensures { result ≡ deep_in (term_of expr.now) node depth }
{
    if depth > DEEPEST {
        return Some(node);
    }
    if let Form::Pair(operator, left, _) = expr.form() {
        if opens(operator.left_level(), left) == 0 {
            return deep_in(left, node + 1, depth + 1);
        }
    }
    None
}

// A node of an expression that passes no limit. At the 4,097th one that begins with the same word
// and is nested too deep decides.
#[tactic(auto, using(crate::proofs::NodeChains::deep_begun, crate::proofs::NodeChains::some_begun, crate::proofs::NodeChains::none_begun, crate::proofs::NodeChains::added_begun))]
fn begin_expr(
    expr: &Expr,
    whole: u32,
    first: u32,
    depth: u32,
    out: &mut Vec<Node>,
) -> Result<(), WalkStop>
    requires free { AreFree out.old.items }
    requires nested { depth ≤ deepest + 1 }
    ensures begun { TermBegun out.old.items (term_of expr.now) whole first depth out.new.items result }
    ensures within { OnOk result (depth ≤ deepest) }
    ensures more { OnOk result (length out.new.items ≡ length out.old.items + 1) }
{
    let node = out.len() as u32 + 1;
    if depth > DEEPEST {
        return Err(nesting(node));
    }
    if node > MOST_NODES {
        return match deep_in(expr, node, depth) {
            Some(node) => Err(nesting(node)),
            None => Err(too_many()),
        };
    }
    out.push(Node {
        first,
        whole,
        named: first,
        depth,
    })?;
    Ok(())
}

// The nodes of an expression; what is behind its last token comes back.
#[cycle(terms)]
#[tactic(auto, using(crate::proofs::NodeJoins::begun_stops, crate::proofs::NodeJoins::single_walked, crate::proofs::NodeJoins::call_walked, crate::proofs::NodeJoins::is_walked, crate::proofs::NodeJoins::not_walked, crate::proofs::NodeJoins::pair_walked))]
fn walk_expr(
    expr: &Expr,
    whole: u32,
    first: u32,
    depth: u32,
    out: &mut Vec<Node>,
) -> Result<u32, WalkStop>
    requires free { AreFree out.old.items }
    requires nested { depth ≤ deepest + 1 }
    requires small { first ≤ 8 * length out.old.items + 8 * depth + 1 }
    ensures walked { Walked out.old.items (term_nodes (term_of expr.now) whole first depth) (first + length_of (term_of expr.now)) out.new.items result }
    ensures spares { Spares 4 first out.old.items out.new.items result }
{
    begin_expr(expr, whole, first, depth, out)?;
    match expr.form() {
        Form::Single(_) => Ok(first + 1),
        Form::Call(_, left, right) => walk_call(left, right, first + 2, depth + 1, out),
        Form::Is(_, part) => walk_part(4, part, first + 2, depth + 1, out),
        Form::Not(part) => walk_part(2, part, first + 1, depth + 1, out),
        Form::Pair(operator, left, right) => {
            walk_pair(operator, left, right, first, depth + 1, out)
        }
    }
}

// An expression at a place of a level, with its parentheses.
#[cycle(terms)]
#[tactic(auto, using(crate::proofs::NodeJoins::part_walked, crate::proofs::NodeJoins::part_stops))]
fn walk_part(
    least: u8,
    expr: &Expr,
    first: u32,
    depth: u32,
    out: &mut Vec<Node>,
) -> Result<u32, WalkStop>
    requires free { AreFree out.old.items }
    requires nested { depth ≤ deepest + 1 }
    requires small { first ≤ 8 * length out.old.items + 8 * depth }
    ensures walked { PartWalked out.old.items least (term_of expr.now) first depth out.new.items result }
    ensures spares { Spares 2 first out.old.items out.new.items result }
{
    let open = opens(least, expr);
    let next = walk_expr(expr, first, first + open, depth, out)?;
    Ok(next + open)
}

// The two parts of a call, with the comma and the parenthesis behind them.
#[cycle(terms)]
#[tactic(auto, using(crate::proofs::NodeJoins::call_parts, crate::proofs::NodeJoins::call_left_stops, crate::proofs::NodeJoins::call_right_stops))]
fn walk_call(
    left: &Expr,
    right: &Expr,
    first: u32,
    depth: u32,
    out: &mut Vec<Node>,
) -> Result<u32, WalkStop>
    requires free { AreFree out.old.items }
    requires nested { depth ≤ deepest + 1 }
    requires small { first ≤ 8 * length out.old.items + 8 * depth }
    ensures walked { CallWalked out.old.items (term_of left.now) (term_of right.now) first depth out.new.items result }
    ensures spares { Spares 6 first out.old.items out.new.items result }
{
    let comma = walk_expr(left, first, first, depth, out)?;
    let next = walk_expr(right, comma + 1, comma + 1, depth, out)?;
    Ok(next + 1)
}

// The two parts of an operator.
#[cycle(terms)]
#[tactic(auto, using(crate::proofs::NodeJoins::pair_left_stops, crate::proofs::NodeJoins::pair_right_walked))]
fn walk_pair(
    operator: Operator,
    left: &Expr,
    right: &Expr,
    first: u32,
    depth: u32,
    out: &mut Vec<Node>,
) -> Result<u32, WalkStop>
    requires free { AreFree out.old.items }
    requires nested { depth ≤ deepest + 1 }
    requires small { first ≤ 8 * length out.old.items + 8 * depth }
    ensures walked { PairWalked out.old.items operator (term_of left.now) (term_of right.now) first depth out.new.items result }
    ensures spares { Spares 3 first out.old.items out.new.items result }
{
    let sign = walk_part(operator.left_level(), left, first, depth, out)?;
    walk_part(operator.right_level(), right, sign + 1, depth, out)
}

// A node whose first token is its own.
#[tactic(auto, using(crate::proofs::NodeChains::deep_alone, crate::proofs::NodeChains::last_begun, crate::proofs::NodeChains::added_begun))]
fn begin(first: u32, named: u32, depth: u32, out: &mut Vec<Node>) -> Result<(), WalkStop>
    requires free { AreFree out.old.items }
    requires nested { depth ≤ deepest + 1 }
    ensures begun { Begun out.old.items (node first first named depth) (node first first named depth ∷ []) (first + 1) out.new.items result }
    ensures within { OnOk result (depth ≤ deepest) }
    ensures more { OnOk result (length out.new.items ≡ length out.old.items + 1) }
{
    let node = out.len() as u32 + 1;
    if depth > DEEPEST {
        return Err(nesting(node));
    }
    if node > MOST_NODES {
        return Err(too_many());
    }
    out.push(Node {
        first,
        whole: first,
        named,
        depth,
    })?;
    Ok(())
}

// An expression and the token behind it.
#[tactic(auto, using(crate::proofs::NodeJoins::ended_walked, crate::proofs::NodeJoins::ended_stops))]
fn walk_ended(expr: &Expr, first: u32, depth: u32, out: &mut Vec<Node>) -> Result<u32, WalkStop>
    requires free { AreFree out.old.items }
    requires nested { depth ≤ deepest + 1 }
    requires small { first ≤ 8 * length out.old.items + 8 * depth }
    ensures walked { Walked out.old.items (nodes_from first (term_of expr.now) depth) (first + length_of (term_of expr.now) + 1) out.new.items result }
    ensures spares { Spares 3 first out.old.items out.new.items result }
{
    let next = walk_expr(expr, first, first, depth, out)?;
    Ok(next + 1)
}

// Expressions, each with the token behind it.
#[tactic(auto, using(crate::proofs::NodeLoops::left_begin))]
fn walk_exprs(exprs: &[Expr], first: u32, depth: u32, out: &mut Vec<Node>) -> Result<u32, WalkStop>
    requires free { AreFree out.old.items }
    requires nested { depth ≤ deepest + 1 }
    requires small { first ≤ 8 * length out.old.items + 8 * depth }
    ensures walked { Walked out.old.items (terms_nodes (terms_of exprs.now) first depth) (first + lengths_of (terms_of exprs.now)) out.new.items result }
    ensures spares { Spares 0 first out.old.items out.new.items result }
{
    let mut next = first;
    for expr in exprs {
        next = walk_ended(expr, next, depth, out)?;
    }
    Ok(next)
}

// A head that binds a name has as many tokens in each form. Where its name lies is known behind its
// expression.
#[tactic(auto, using(crate::proofs::NodeHeads::binding_full, crate::proofs::NodeHeads::binding_stops, crate::proofs::NodeHeads::binding_walked))]
fn walk_binding(expr: &Expr, first: u32, depth: u32, out: &mut Vec<Node>) -> Result<u32, WalkStop>
    requires free { AreFree out.old.items }
    requires nested { depth ≤ deepest + 1 }
    requires small { first ≤ 8 * length out.old.items + 8 * depth }
    ensures walked { Walked out.old.items (binding_nodes (term_of expr.now) first depth) (first + (5 + length_of (term_of expr.now))) out.new.items result }
    ensures spares { Spares 4 first out.old.items out.new.items result }
{
    let head = out.len();
    begin(first, first, depth, out)?;
    let next = walk_ended(expr, first + 2, depth + 1, out)?;
    out[head] = Node {
        first,
        whole: first,
        named: next + 1,
        depth,
    };
    Ok(next + 2)
}

fn walk_head(head: &Head, first: u32, depth: u32, out: &mut Vec<Node>) -> Result<u32, WalkStop>
    requires free { AreFree out.old.items }
    requires nested { depth ≤ deepest + 1 }
    requires small { first ≤ 8 * length out.old.items + 8 * depth }
    ensures walked { Walked out.old.items (ask_nodes (ask_of head.now) first depth) (first + ask_length (ask_of head.now)) out.new.items result }
    ensures spares { Spares 4 first out.old.items out.new.items result }
{
    match head {
        Head::Host(expr, _) | Head::Hop(expr, _) | Head::Lookup(_, expr, _) => {
            walk_binding(expr, first, depth, out)
        }
        Head::Test(expr) => walk_expr(expr, first, first, depth, out),
    }
}

#[cycle(acts)]
#[tactic(auto, using(crate::proofs::ActNodes::begun_stops, crate::proofs::ActNodes::drop_walked, crate::proofs::ActNodes::flood_walked, crate::proofs::ActNodes::out_walked, crate::proofs::ActNodes::route_walked, crate::proofs::ActNodes::let_walked, crate::proofs::ActNodes::assign_walked, crate::proofs::ActNodes::if_walked, crate::proofs::ActNodes::while_walked, crate::proofs::Rolls::if_tree, crate::proofs::Rolls::while_tree))]
fn walk_statement(
    statement: &Statement,
    first: u32,
    depth: u32,
    out: &mut Vec<Node>,
) -> Result<u32, WalkStop>
    requires free { AreFree out.old.items }
    requires nested { depth ≤ deepest + 1 }
    requires small { first ≤ 8 * length out.old.items + 8 * depth }
    ensures walked { Walked out.old.items (act_nodes (act_of statement.now) first depth) (first + act_length (act_of statement.now)) out.new.items result }
    ensures spares { Spares 0 first out.old.items out.new.items result }
{
    begin(first, first + 1, depth, out)?;
    match statement {
        Statement::Drop | Statement::Flood => Ok(first + 2),
        Statement::Out(exprs) => walk_exprs(exprs.items(), first + 1, depth + 1, out),
        Statement::Route(expr) => walk_ended(expr, first + 1, depth + 1, out),
        Statement::Let(_, expr) => walk_ended(expr, first + 3, depth + 1, out),
        Statement::Assign(_, expr) => walk_ended(expr, first + 2, depth + 1, out),
        Statement::If(head, block, other) => walk_if(head, block, other, first + 1, depth + 1, out),
        Statement::While(expr, block) => walk_while(expr, block, first + 1, depth + 1, out),
    }
}

// What is behind the word `if`.
#[cycle(acts)]
#[tactic(auto, using(crate::proofs::ActNodes::if_head_stops, crate::proofs::ActNodes::if_block_stops, crate::proofs::ActNodes::if_parts, crate::proofs::NodeJoins::spares_from))]
fn walk_if(
    head: &Head,
    block: &Block,
    other: &Option<Block>,
    first: u32,
    depth: u32,
    out: &mut Vec<Node>,
) -> Result<u32, WalkStop>
    requires free { AreFree out.old.items }
    requires nested { depth ≤ deepest + 1 }
    requires small { first ≤ 8 * length out.old.items + 8 * depth }
    ensures walked { IfWalked out.old.items (ask_of head.now) (tree_of block.now) (option_map tree_of other.now) first depth out.new.items result }
    ensures spares { Spares 0 (first + 1) out.old.items out.new.items result }
{
    let brace = walk_head(head, first, depth, out)?;
    let close = walk_block(block.items(), brace + 1, depth, out)?;
    walk_other(other, close, depth, out)
}

// What is behind the word `while`.
#[cycle(acts)]
#[tactic(auto, using(crate::proofs::ActNodes::while_head_stops, crate::proofs::ActNodes::while_block_stops, crate::proofs::ActNodes::while_parts))]
fn walk_while(
    expr: &Expr,
    block: &Block,
    first: u32,
    depth: u32,
    out: &mut Vec<Node>,
) -> Result<u32, WalkStop>
    requires free { AreFree out.old.items }
    requires nested { depth ≤ deepest + 1 }
    requires small { first ≤ 8 * length out.old.items + 8 * depth }
    ensures walked { WhileWalked out.old.items (term_of expr.now) (tree_of block.now) first depth out.new.items result }
    ensures spares { Spares 0 first out.old.items out.new.items result }
{
    let body = walk_ended(expr, first, depth, out)?;
    let close = walk_block(block.items(), body, depth, out)?;
    Ok(close + 1)
}

// The brace behind the first block of an `if`, and its `else`, if there is one.
#[cycle(acts)]
#[tactic(auto, using(crate::proofs::ActNodes::other_none, crate::proofs::ActNodes::other_some, crate::proofs::ActNodes::other_stops))]
fn walk_other(
    other: &Option<Block>,
    first: u32,
    depth: u32,
    out: &mut Vec<Node>,
) -> Result<u32, WalkStop>
    requires free { AreFree out.old.items }
    requires nested { depth ≤ deepest + 1 }
    requires small { first + 3 ≤ 8 * length out.old.items + 8 * depth }
    ensures walked { OtherWalked out.old.items (option_map tree_of other.now) first depth out.new.items result }
    ensures spares { Spares 0 (first + 4) out.old.items out.new.items result }
{
    match other {
        None => Ok(first + 1),
        Some(block) => {
            let close = walk_block(block.items(), first + 3, depth, out)?;
            Ok(close + 1)
        }
    }
}

#[cycle(acts)]
#[tactic(auto, using(crate::proofs::NodeLoops::left_begin, crate::proofs::Rolls::act_within))]
fn walk_block(
    statements: &[Statement],
    first: u32,
    depth: u32,
    out: &mut Vec<Node>,
) -> Result<u32, WalkStop>
    requires free { AreFree out.old.items }
    requires nested { depth ≤ deepest + 1 }
    requires small { first ≤ 8 * length out.old.items + 8 * depth }
    ensures walked { ActsWalked out.old.items (acts_of statements.now) first depth out.new.items result }
    ensures spares { Spares 0 first out.old.items out.new.items result }
{
    let mut next = first;
    for statement in statements {
        next = walk_statement(statement, next, depth, out)?;
    }
    Ok(next)
}

/// The nodes of a policy's statements, in the order of its printed form, or the first limit that they pass.
#[tactic(auto, using(crate::proofs::ActNodes::no_nodes, crate::proofs::ActNodes::body_stops))]
pub fn nodes(alloc: Global, body: &Block) -> Result<Vec<Node>, WalkStop>
    ensures nodes { IfOk result (λ nodes. nodes.items ≡ nodes_of (tree_of body.now)) }
    ensures free { IfOk result (λ nodes. AreFree nodes.items) }
    ensures limit { IfErr result (λ stop. IsStopOf stop (nodes_of (tree_of body.now))) }
{
    let mut out = Vec::new(alloc);
    match walk_block(body.items(), 1, 1, &mut out) {
        Ok(_) => Ok(out),
        Err(stop) => Err(stop),
    }
}
