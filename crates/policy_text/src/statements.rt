// The text of statements.
ghost use Rattle.std.specs.Prelude.{◌≡◌, ◌+◌, ◌≤◌, ◌++◌, suc, OnOk, codes};
ghost use Rattle.std.specs.Option.{option_map};
ghost use Rattle.maple_base.specs.PolicyLimits.{most_nodes};
ghost use Rattle.policy_lang.specs.TreeOf.{term_of, terms_of, ask_of, act_of, acts_of, tree_of};
ghost use Rattle.policy_lang.specs.Sizes.{act_size, acts_size, else_size};
ghost use Rattle.policy_text.specs.Printed.{◌&◌, expr_text, exprs_text, head_text, indent, line, else_text, if_text, while_text, act_text, acts_text};
ghost use Rattle.policy_text.specs.Blocks.{else_lines};

use crate::expressions::{push_expr, push_exprs};
use maple_base::Name;
use policy_lang::{Block, Expr, Head, Statement};
use std::alloc::AllocError;

/// Appends statements that stand in so many blocks.
#[cycle(statements)]
#[tactic(auto, using(policy_lang::proofs::Rolls::act_within, crate::proofs::Lines::rest_lines))]
pub fn push_statements(
    text: &mut Vec<u8>,
    blocks: u32,
    statements: &[Statement],
) -> Result<(), AllocError>
    requires { blocks + acts_size (acts_of statements.now) ≤ most_nodes + 1 }
    ensures { OnOk result (text.new.items ≡ text.old.items ++ acts_text (acts_of statements.now) blocks) }
{
    for statement in statements {
        push_statement(text, blocks, statement)?;
    }
    Ok(())
}

#[cycle(statements)]
#[tactic(auto, using(policy_lang::proofs::Rolls::if_tree, policy_lang::proofs::Rolls::while_tree, policy_lang::proofs::Found::if_size, crate::proofs::Lines::if_lines))]
fn push_statement(text: &mut Vec<u8>, blocks: u32, statement: &Statement) -> Result<(), AllocError>
    requires { blocks + act_size (act_of statement.now) ≤ most_nodes + 1 }
    ensures { OnOk result (text.new.items ≡ text.old.items ++ act_text (act_of statement.now) blocks) }
{
    match statement {
        Statement::Drop => push_line(text, blocks, b"drop;"),
        Statement::Flood => push_line(text, blocks, b"flood;"),
        Statement::Out(ports) => push_out(text, blocks, ports.items()),
        Statement::Route(place) => push_route(text, blocks, place),
        Statement::Let(name, value) => push_let(text, blocks, name, value),
        Statement::Assign(name, value) => push_assign(text, blocks, name, value),
        Statement::If(head, first, second) => push_if(text, blocks, head, first, second),
        Statement::While(test, body) => push_while(text, blocks, test, body),
    }
}

#[cycle(statements)]
fn push_if(
    text: &mut Vec<u8>,
    blocks: u32,
    head: &Head,
    first: &Block,
    second: &Option<Block>,
) -> Result<(), AllocError>
    requires { suc blocks + (acts_size (tree_of first.now) + else_size (option_map tree_of second.now)) ≤ most_nodes + 1 }
    ensures { OnOk result (text.new.items ≡ text.old.items ++ if_text (ask_of head.now) (acts_text (tree_of first.now)) (else_lines second.now) blocks) }
{
    push_if_line(text, blocks, head)?;
    push_statements(text, blocks + 1, first.items())?;
    push_else(text, blocks, second)
}

// Appends the block of an `else`, if there is one, and the closing brace.
#[cycle(statements)]
fn push_else(text: &mut Vec<u8>, blocks: u32, second: &Option<Block>) -> Result<(), AllocError>
    requires { suc blocks + else_size (option_map tree_of second.now) ≤ most_nodes + 1 }
    ensures { OnOk result (text.new.items ≡ text.old.items ++ else_text (else_lines second.now) blocks) }
{
    if let Some(second) = second {
        push_else_line(text, blocks)?;
        push_statements(text, blocks + 1, second.items())?;
    }
    push_line(text, blocks, b"}")
}

#[cycle(statements)]
fn push_while(text: &mut Vec<u8>, blocks: u32, test: &Expr, body: &Block) -> Result<(), AllocError>
    requires { suc blocks + acts_size (tree_of body.now) ≤ most_nodes + 1 }
    ensures { OnOk result (text.new.items ≡ text.old.items ++ while_text (term_of test.now) (acts_text (tree_of body.now)) blocks) }
{
    push_while_line(text, blocks, test)?;
    push_statements(text, blocks + 1, body.items())?;
    push_line(text, blocks, b"}")
}

fn push_out(text: &mut Vec<u8>, blocks: u32, ports: &[Expr]) -> Result<(), AllocError>
    ensures { OnOk result (text.new.items ≡ text.old.items ++ line blocks (codes "out " & exprs_text (terms_of ports.now) & codes ";")) }
{
    push_indent(text, blocks)?;
    text.extend_from_slice(b"out ")?;
    push_exprs(text, ports)?;
    text.extend_from_slice(b";\n")
}

fn push_route(text: &mut Vec<u8>, blocks: u32, place: &Expr) -> Result<(), AllocError>
    ensures { OnOk result (text.new.items ≡ text.old.items ++ line blocks (codes "route " & expr_text (term_of place.now) & codes ";")) }
{
    push_indent(text, blocks)?;
    text.extend_from_slice(b"route ")?;
    push_expr(text, place)?;
    text.extend_from_slice(b";\n")
}

fn push_let(text: &mut Vec<u8>, blocks: u32, name: &Name, value: &Expr) -> Result<(), AllocError>
    ensures { OnOk result (text.new.items ≡ text.old.items ++ line blocks (codes "let " & name.now & codes " = " & expr_text (term_of value.now) & codes ";")) }
{
    push_indent(text, blocks)?;
    text.extend_from_slice(b"let ")?;
    push_value(text, name, value)
}

fn push_assign(text: &mut Vec<u8>, blocks: u32, name: &Name, value: &Expr) -> Result<(), AllocError>
    ensures { OnOk result (text.new.items ≡ text.old.items ++ line blocks (name.now & codes " = " & expr_text (term_of value.now) & codes ";")) }
{
    push_indent(text, blocks)?;
    push_value(text, name, value)
}

// Appends a name and its value, up to the end of the line.
fn push_value(text: &mut Vec<u8>, name: &Name, value: &Expr) -> Result<(), AllocError>
    ensures { OnOk result (text.new.items ≡ text.old.items ++ (name.now & codes " = " & expr_text (term_of value.now) & codes ";" & codes "\n")) }
{
    text.extend_from_slice(name.text())?;
    text.extend_from_slice(b" = ")?;
    push_expr(text, value)?;
    text.extend_from_slice(b";\n")
}

fn push_if_line(text: &mut Vec<u8>, blocks: u32, head: &Head) -> Result<(), AllocError>
    ensures { OnOk result (text.new.items ≡ text.old.items ++ line blocks (codes "if " & head_text (ask_of head.now) & codes " {")) }
{
    push_indent(text, blocks)?;
    text.extend_from_slice(b"if ")?;
    push_head(text, head)?;
    text.extend_from_slice(b" {\n")
}

fn push_else_line(text: &mut Vec<u8>, blocks: u32) -> Result<(), AllocError>
    ensures { OnOk result (text.new.items ≡ text.old.items ++ line blocks (codes "} else {")) }
{
    push_line(text, blocks, b"} else {")
}

fn push_while_line(text: &mut Vec<u8>, blocks: u32, test: &Expr) -> Result<(), AllocError>
    ensures { OnOk result (text.new.items ≡ text.old.items ++ line blocks (codes "while " & expr_text (term_of test.now) & codes " {")) }
{
    push_indent(text, blocks)?;
    text.extend_from_slice(b"while ")?;
    push_expr(text, test)?;
    text.extend_from_slice(b" {\n")
}

fn push_head(text: &mut Vec<u8>, head: &Head) -> Result<(), AllocError>
    ensures { OnOk result (text.new.items ≡ text.old.items ++ head_text (ask_of head.now)) }
{
    match head {
        Head::Host(address, name) => push_bound(text, b"host(", address, b") as ", name),
        Head::Hop(switch, name) => push_bound(text, b"hop(", switch, b") as ", name),
        Head::Lookup(table, number, name) => {
            text.extend_from_slice(table.text())?;
            push_bound(text, b"[", number, b"] as ", name)
        }
        Head::Test(expr) => push_expr(text, expr),
    }
}

// Appends an expression between two words, and the name that is bound.
fn push_bound(
    text: &mut Vec<u8>,
    ahead: &[u8],
    expr: &Expr,
    behind: &[u8],
    name: &Name,
) -> Result<(), AllocError>
    ensures { OnOk result (text.new.items ≡ text.old.items ++ (ahead.now & expr_text (term_of expr.now) & behind.now & name.now)) }
{
    text.extend_from_slice(ahead)?;
    push_expr(text, expr)?;
    text.extend_from_slice(behind)?;
    text.extend_from_slice(name.text())
}

fn push_line(text: &mut Vec<u8>, blocks: u32, words: &[u8]) -> Result<(), AllocError>
    ensures { OnOk result (text.new.items ≡ text.old.items ++ line blocks words.now) }
{
    push_indent(text, blocks)?;
    text.extend_from_slice(words)?;
    text.extend_from_slice(b"\n")
}

// Appends two spaces for each block.
#[tactic(auto, using(crate::proofs::Indents::indent_step))]
fn push_indent(text: &mut Vec<u8>, blocks: u32) -> Result<(), AllocError>
    ensures { OnOk result (text.new.items ≡ text.old.items ++ indent blocks) }
{
    for _ in 0..blocks {
        text.extend_from_slice(b"  ")?;
    }
    Ok(())
}
