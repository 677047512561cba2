// The form of an expression.
ghost use Rattle.std.specs.Prelude.{◌≡◌};
ghost use Rattle.policy_lang.specs.TreeOf.{term_of};
ghost use Rattle.policy_lang.specs.Forms.{form_term};
ghost use Rattle.policy_lang.specs.Nodes.{level_of};

use crate::Expr;
use maple_base::{Field, Name, Operator};

/// An expression without parts.
#[derive(Clone, Copy)]
pub enum Atom<'a> {
    Number(u64),
    Var(&'a Name),
    SwitchOf(&'a Name),
    PortOf(&'a Name),
    PacketSwitch,
    Packet(Field),
}

/// The calls with two parts.
#[derive(Clone, Copy)]
pub enum Callee {
    Up,
    At,
}

/// The form of an expression, with its parts.
#[derive(Clone, Copy)]
pub enum Form<'a> {
    Single(Atom<'a>),
    Call(Callee, &'a Expr, &'a Expr),
    Is(Field, &'a Expr),
    Not(&'a Expr),
    Pair(Operator, &'a Expr, &'a Expr),
}

impl Expr {
    /// Its form.
    pub fn form(&self) -> Form<'_>
        ensures { form_term result ≡ term_of self.now }
    {
        match self {
            Expr::Number(number) => Form::Single(Atom::Number(*number)),
            Expr::Var(name) => Form::Single(Atom::Var(name)),
            Expr::SwitchOf(name) => Form::Single(Atom::SwitchOf(name)),
            Expr::PortOf(name) => Form::Single(Atom::PortOf(name)),
            Expr::PacketSwitch => Form::Single(Atom::PacketSwitch),
            Expr::Packet(field) => Form::Single(Atom::Packet(*field)),
            Expr::Up(left, right) => Form::Call(Callee::Up, left, right),
            Expr::At(left, right) => Form::Call(Callee::At, left, right),
            Expr::Is(field, part) => Form::Is(*field, part),
            Expr::Not(part) => Form::Not(part),
            Expr::And(left, right) => Form::Pair(Operator::And, left, right),
            Expr::Or(left, right) => Form::Pair(Operator::Or, left, right),
            Expr::Add(left, right) => Form::Pair(Operator::Add, left, right),
            Expr::Sub(left, right) => Form::Pair(Operator::Sub, left, right),
            Expr::Equal(left, right) => Form::Pair(Operator::Equal, left, right),
            Expr::NotEqual(left, right) => Form::Pair(Operator::NotEqual, left, right),
            Expr::Less(left, right) => Form::Pair(Operator::Less, left, right),
            Expr::LessEqual(left, right) => Form::Pair(Operator::LessEqual, left, right),
        }
    }

    /// How closely its last operator binds: 5 where it has none.
    pub fn level(&self) -> u8
        ensures { result ≡ level_of (term_of self.now) }
    {
        match self.form() {
            Form::Single(_) | Form::Call(_, _, _) => 5,
            Form::Is(_, _) => 3,
            Form::Not(_) => 2,
            Form::Pair(operator, _, _) => operator.level(),
        }
    }
}
