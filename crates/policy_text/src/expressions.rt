// The text of expressions.
ghost use Rattle.std.specs.Prelude.{◌≡◌, ◌++◌, nat_lt, decimal, OnOk, codes};
ghost use Rattle.policy_lang.specs.TreeOf.{term_of, terms_of};
ghost use Rattle.policy_lang.specs.Forms.{atom_of, callee_of};
ghost use Rattle.policy_text.specs.Printed.{◌&◌, sign_of, field_text, call_text, callee_text, atom_text, expr_text, more_text, exprs_text};
ghost use Rattle.policy_text.specs.Operators.{part_text, operation_text};

use maple_base::{Field, Operator};
use policy_lang::{Atom, Callee, Expr, Form};
use std::alloc::AllocError;

fn sign_of(operator: Operator) -> &'static [u8]
    ensures { result.now ≡ sign_of operator }
{
    match operator {
        Operator::Or => b"or",
        Operator::And => b"and",
        Operator::Equal => b"==",
        Operator::NotEqual => b"!=",
        Operator::Less => b"<",
        Operator::LessEqual => b"<=",
        Operator::Add => b"+",
        Operator::Sub => b"-",
    }
}

// Whether an expression of this level stands in parentheses, where one of the least level needs
// none.
fn needs_parentheses(least: u8, level: u8) -> bool
    ensures { result ≡ nat_lt level least }
{
    level < least
}

/// Appends an expression.
#[cycle(exprs)]
pub fn push_expr(text: &mut Vec<u8>, expr: &Expr) -> Result<(), AllocError>
    ensures { OnOk result (text.new.items ≡ text.old.items ++ expr_text (term_of expr.now)) }
{
    match expr.form() {
        Form::Single(atom) => push_atom(text, atom),
        Form::Call(callee, left, right) => push_call(text, callee_text(callee), left, right),
        Form::Is(field, value) => {
            push_test(text, field)?;
            push_part(text, 4, value)
        }
        Form::Not(part) => {
            text.extend_from_slice(b"not ")?;
            push_part(text, 2, part)
        }
        Form::Pair(operator, left, right) => push_operation(text, operator, left, right),
    }
}

fn callee_text(callee: Callee) -> &'static [u8]
    ensures { result.now ≡ callee_text (callee_of callee) }
{
    match callee {
        Callee::Up => b"up",
        Callee::At => b"at",
    }
}

// Appends an expression without parts.
fn push_atom(text: &mut Vec<u8>, atom: Atom<'_>) -> Result<(), AllocError>
    ensures { OnOk result (text.new.items ≡ text.old.items ++ atom_text (atom_of atom.entry)) }
{
    match atom {
        Atom::Number(number) => push_number(text, number),
        Atom::Var(name) => text.extend_from_slice(name.text()),
        Atom::SwitchOf(name) => push_part_of(text, name.text(), b".switch"),
        Atom::PortOf(name) => push_part_of(text, name.text(), b".port"),
        Atom::PacketSwitch => text.extend_from_slice(b"pkt.switch"),
        Atom::Packet(field) => push_field(text, field),
    }
}

// Appends two parts with their operator between.
#[cycle(exprs)]
fn push_operation(
    text: &mut Vec<u8>,
    operator: Operator,
    left: &Expr,
    right: &Expr,
) -> Result<(), AllocError>
    ensures { OnOk result (text.new.items ≡ text.old.items ++ operation_text operator (term_of left.now) (term_of right.now)) }
{
    push_part(text, operator.left_level(), left)?;
    push_operator(text, operator)?;
    push_part(text, operator.right_level(), right)
}

// Appends a call of two parts.
#[cycle(exprs)]
fn push_call(text: &mut Vec<u8>, name: &[u8], left: &Expr, right: &Expr) -> Result<(), AllocError>
    ensures { OnOk result (text.new.items ≡ text.old.items ++ call_text name.now (expr_text (term_of left.now)) (expr_text (term_of right.now))) }
{
    text.extend_from_slice(name)?;
    text.extend_from_slice(b"(")?;
    push_expr(text, left)?;
    text.extend_from_slice(b", ")?;
    push_expr(text, right)?;
    text.extend_from_slice(b")")
}

// Appends an expression where one of at least a level needs no parentheses.
#[cycle(exprs)]
fn push_part(text: &mut Vec<u8>, least: u8, part: &Expr) -> Result<(), AllocError>
    ensures { OnOk result (text.new.items ≡ text.old.items ++ part_text least (term_of part.now)) }
{
    if !needs_parentheses(least, part.level()) {
        return push_expr(text, part);
    }
    text.extend_from_slice(b"(")?;
    push_expr(text, part)?;
    text.extend_from_slice(b")")
}

fn push_number(text: &mut Vec<u8>, number: u64) -> Result<(), AllocError>
    ensures { OnOk result (text.new.items ≡ text.old.items ++ decimal number) }
{
    let digits = format!(in *text.allocator(); "{number}")?;
    text.extend_from_slice(digits.as_bytes())
}

// Appends a name and what is asked of the place that it stands for.
fn push_part_of(text: &mut Vec<u8>, name: &[u8], part: &[u8]) -> Result<(), AllocError>
    ensures { OnOk result (text.new.items ≡ text.old.items ++ (name.now & part.now)) }
{
    text.extend_from_slice(name)?;
    text.extend_from_slice(part)
}

fn push_field(text: &mut Vec<u8>, field: Field) -> Result<(), AllocError>
    ensures { OnOk result (text.new.items ≡ text.old.items ++ field_text field) }
{
    text.extend_from_slice(b"pkt.")?;
    text.extend_from_slice(field.name().as_bytes())
}

// Appends a test of a field, up to the value.
fn push_test(text: &mut Vec<u8>, field: Field) -> Result<(), AllocError>
    ensures { OnOk result (text.new.items ≡ text.old.items ++ (field_text field & codes " " & codes "is" & codes " ")) }
{
    push_field(text, field)?;
    text.extend_from_slice(b" is ")
}

fn push_operator(text: &mut Vec<u8>, operator: Operator) -> Result<(), AllocError>
    ensures { OnOk result (text.new.items ≡ text.old.items ++ (codes " " & sign_of operator & codes " ")) }
{
    text.extend_from_slice(b" ")?;
    text.extend_from_slice(sign_of(operator))?;
    text.extend_from_slice(b" ")
}

/// Appends expressions with commas between.
pub fn push_exprs(text: &mut Vec<u8>, exprs: &[Expr]) -> Result<(), AllocError>
    ensures { OnOk result (text.new.items ≡ text.old.items ++ exprs_text (terms_of exprs.now)) }
{
    match exprs {
        [] => Ok(()),
        [expr, further @ ..] => {
            push_expr(text, expr)?;
            push_further_exprs(text, further)
        }
    }
}

fn push_further_exprs(text: &mut Vec<u8>, exprs: &[Expr]) -> Result<(), AllocError>
    ensures { OnOk result (text.new.items ≡ text.old.items ++ more_text (terms_of exprs.now)) }
{
    for expr in exprs {
        text.extend_from_slice(b", ")?;
        push_expr(text, expr)?;
    }
    Ok(())
}
