// What each token adds to what was read.
ghost use Rattle.std.specs.Prelude.{◌≡◌, ◌++◌, [], ◌∷◌, drop, OnOk, OnErr, IfOk};
ghost use Rattle.policy_grammar.specs.Automaton.{settle, operator_in};
ghost use Rattle.policy_grammar.specs.declared.stage.Shape.{Shape};
ghost use Rattle.policy_grammar.specs.Events.{ended, endings, operator_event, closing, finished, opening, behind_events, ahead_events, closed_events, name_events, table_events, statement_events, question_first, events_at, events};
ghost use Rattle.policy_grammar.specs.Reading.{HasGrown};

use crate::operator::operator_in;
use crate::reader::pull;
use crate::tokens::{is_keyword, is_sign};
use crate::{Around, Base, Block, Event, Reader, Stage};
use maple_base::NoMemory;
use policy_tokens::{Keyword, Sign, Token};

// Adds one item at the end.
fn add<T: Copy>(out: &mut Vec<T>, item: T) -> Result<(), NoMemory>
    ensures added { OnOk result (out.new.items ≡ out.old.items ++ item ∷ []) }
    ensures kept { OnErr result (out.new.items ≡ out.old.items) }
{
    out.push(item)?;
    Ok(())
}

// Adds one item, and another behind it.
fn add_both<T: Copy>(out: &mut Vec<T>, first: T, second: T) -> Result<(), NoMemory>
    ensures added { OnOk result (out.new.items ≡ out.old.items ++ first ∷ second ∷ []) }
    ensures kept { OnErr result (out.new.items ≡ out.old.items) }
{
    out.reserve(2)?;
    out.push_reserved(first);
    out.push_reserved(second);
    Ok(())
}

// The end of an expression that has this around it.
fn ended(around: Around) -> Event
    ensures { result ≡ ended around }
{
    match around {
        Around::Left(operator) => Event::Pair(operator),
        Around::Not => Event::Negation,
        Around::Is => Event::Test,
        Around::Group => Event::GroupEnd,
        Around::First | Around::Second => Event::Call,
    }
}

fn table(token: &Token, out: &mut Vec<Event>) -> Result<(), NoMemory>
    ensures added { OnOk result (out.new.items ≡ out.old.items ++ table_events token.now) }
    ensures kept { OnErr result (out.new.items ≡ out.old.items) }
{
    match token {
        Token::Name(name) => add(out, Event::Table(*name)),
        _ => Ok(()),
    }
}

fn named(token: &Token, out: &mut Vec<Event>) -> Result<(), NoMemory>
    ensures added { OnOk result (out.new.items ≡ out.old.items ++ name_events token.now) }
    ensures kept { OnErr result (out.new.items ≡ out.old.items) }
{
    match token {
        Token::Name(name) => add(out, Event::Name(*name)),
        _ => Ok(()),
    }
}

// The beginning of a statement, with the name that is assigned.
fn beginning(token: &Token, out: &mut Vec<Event>) -> Result<(), NoMemory>
    ensures added { OnOk result (out.new.items ≡ out.old.items ++ Event.Begin ∷ name_events token.now) }
    ensures kept { OnErr result (out.new.items ≡ out.old.items) }
{
    match token {
        Token::Name(name) => add_both(out, Event::Begin, Event::Name(*name)),
        _ => add(out, Event::Begin),
    }
}

fn learning(token: &Token, out: &mut Vec<Event>) -> Result<(), NoMemory>
    ensures added { OnOk result (out.new.items ≡ out.old.items ++ events_at Stage.Policy [] [] token.now) }
    ensures kept { OnErr result (out.new.items ≡ out.old.items) }
{
    if is_keyword(token, Keyword::Learning) {
        return add(out, Event::Learning);
    }
    Ok(())
}

// The first token of an expression.
fn ahead(token: &Token, out: &mut Vec<Event>) -> Result<(), NoMemory>
    ensures added { OnOk result (out.new.items ≡ out.old.items ++ ahead_events token.now) }
    ensures kept { OnErr result (out.new.items ≡ out.old.items) }
{
    if is_sign(token, Sign::OpenParenthesis) {
        add(out, Event::Group)
    } else if is_keyword(token, Keyword::Not) {
        add(out, Event::Not)
    } else if is_keyword(token, Keyword::Up) {
        add(out, Event::Up)
    } else if is_keyword(token, Keyword::At) {
        add(out, Event::At)
    } else {
        add(out, Event::Single(*token))
    }
}

// The first token of what an `if` asks.
fn question(token: &Token, out: &mut Vec<Event>) -> Result<(), NoMemory>
    ensures added { OnOk result (out.new.items ≡ out.old.items ++ question_first token.now) }
    ensures kept { OnErr result (out.new.items ≡ out.old.items) }
{
    if is_keyword(token, Keyword::Host) || is_keyword(token, Keyword::Hop) {
        return add(out, Event::Begin);
    }
    ahead(token, out)
}

// The semicolon behind a statement's expressions.
fn finished(base: Base, out: &mut Vec<Event>) -> Result<(), NoMemory>
    ensures added { OnOk result (out.new.items ≡ out.old.items ++ finished base) }
    ensures kept { OnErr result (out.new.items ≡ out.old.items) }
{
    match base {
        Base::Out(count) => add(out, Event::Out(usize::from(count) + 1)),
        Base::Route => add(out, Event::Route),
        Base::Let => add(out, Event::Let),
        Base::Assign => add(out, Event::Assign),
        Base::If | Base::While | Base::Host | Base::Hop | Base::Lookup => Ok(()),
    }
}

// The opening brace behind an expression.
fn opening(base: Base, out: &mut Vec<Event>) -> Result<(), NoMemory>
    ensures added { OnOk result (out.new.items ≡ out.old.items ++ opening base) }
    ensures kept { OnErr result (out.new.items ≡ out.old.items) }
{
    match base {
        Base::If => add_both(out, Event::Holds, Event::Open),
        _ => add(out, Event::Open),
    }
}

fn operator(token: &Token, out: &mut Vec<Event>) -> Result<(), NoMemory>
    ensures added { OnOk result (out.new.items ≡ out.old.items ++ operator_event (operator_in token.now)) }
    ensures kept { OnErr result (out.new.items ≡ out.old.items) }
{
    match operator_in(token) {
        Some(operator) => add(out, Event::Operator(operator)),
        None => Ok(()),
    }
}

impl Reader {
    /// Adds to `out` what this token adds to what was read.
    ///
    /// A token with which no policy can go on may add something too, which means nothing.
    pub fn emit(&self, token: &Token, out: &mut Vec<Event>) -> Result<(), NoMemory>
        ensures emitted { OnOk result (out.new.items ≡ out.old.items ++ events self.now token.now) }
        ensures kept { OnErr result (out.new.items ≡ out.old.items) }
    {
        match self.stage {
            Stage::Table => table(token, out),
            Stage::Policy => learning(token, out),
            Stage::Statement => self.emit_statement(token, out),
            Stage::Else => self.emit_else(token, out),
            Stage::Let | Stage::As => named(token, out),
            Stage::If => question(token, out),
            Stage::Ahead(_) => ahead(token, out),
            Stage::Behind(base, _) => self.emit_behind(base, token, out),
            Stage::Bound => add_both(out, Event::Bind, Event::Open),
            Stage::ElseBlock => add(out, Event::Open),
            Stage::Start
            | Stage::TableName
            | Stage::Learning
            | Stage::Decided
            | Stage::LetName
            | Stage::Assigned
            | Stage::Asks(_)
            | Stage::Callee(_)
            | Stage::Asked
            | Stage::End => Ok(()),
        }
    }

    // A closing brace.
    fn emit_closed(&self, out: &mut Vec<Event>) -> Result<(), NoMemory>
        ensures added { OnOk result (out.new.items ≡ out.old.items ++ closed_events self.now.blocks) }
        ensures kept { OnErr result (out.new.items ≡ out.old.items) }
    {
        match self.blocks.top() {
            None => Ok(()),
            Some(Block::First) => add(out, Event::Close),
            Some(Block::Second) => add_both(out, Event::Close, Event::IfElse),
            Some(Block::Loop) => add_both(out, Event::Close, Event::While),
        }
    }

    // The first word of a statement, or the brace that closes its block.
    fn emit_statement(&self, token: &Token, out: &mut Vec<Event>) -> Result<(), NoMemory>
        ensures added { OnOk result (out.new.items ≡ out.old.items ++ statement_events self.now.blocks token.now) }
        ensures kept { OnErr result (out.new.items ≡ out.old.items) }
    {
        if is_sign(token, Sign::CloseBrace) {
            self.emit_closed(out)
        } else if is_keyword(token, Keyword::Drop) {
            add_both(out, Event::Begin, Event::Drop)
        } else if is_keyword(token, Keyword::Flood) {
            add_both(out, Event::Begin, Event::Flood)
        } else {
            beginning(token, out)
        }
    }

    // The same where an `else` may stand: any other token ends the `if`.
    fn emit_else(&self, token: &Token, out: &mut Vec<Event>) -> Result<(), NoMemory>
        ensures added { OnOk result (out.new.items ≡ out.old.items ++ events_at Stage.Else [] self.now.blocks token.now) }
        ensures kept { OnErr result (out.new.items ≡ out.old.items) }
    {
        if is_keyword(token, Keyword::Else) {
            return Ok(());
        }
        add(out, Event::If)?;
        if let Err(error) = self.emit_statement(token, out) {
            out.pop();
            return Err(error);
        }
        Ok(())
    }

    // Adds what ends ahead of a token, and counts it.
    fn emit_endings(&self, pull: u8, out: &mut Vec<Event>) -> Result<usize, NoMemory>
        ensures endings { OnOk result (out.new.items ≡ out.old.items ++ endings pull self.now.around) }
        ensures grown { HasGrown out.old.items out.new.items }
        ensures left { IfOk result (λ depth. (s : Shape) → (settle pull self.now.around s).around ≡ drop depth self.now.around) }
    {
        let mut depth = 0;
        while let Some(around) = self.around.below(depth) {
            if pull >= around.least() {
                break;
            }
            add(out, ended(around))?;
            depth += 1;
        }
        Ok(depth)
    }

    // Behind an expression, or behind what of it was read.
    fn emit_behind(&self, base: Base, token: &Token, out: &mut Vec<Event>) -> Result<(), NoMemory>
        ensures added { OnOk result ((s : Shape) → out.new.items ≡ out.old.items ++ events_at (Stage.Behind base s) self.now.around [] token.now) }
        ensures kept { OnErr result (out.new.items ≡ out.old.items) }
    {
        let count = out.len();
        if let Err(error) = self.emit_ended(base, token, out) {
            out.truncate(count);
            return Err(error);
        }
        Ok(())
    }

    // The same; where memory is wanting, a part may have been added.
    fn emit_ended(&self, base: Base, token: &Token, out: &mut Vec<Event>) -> Result<(), NoMemory>
        ensures added { OnOk result ((s : Shape) → out.new.items ≡ out.old.items ++ events_at (Stage.Behind base s) self.now.around [] token.now) }
        ensures grown { OnErr result (HasGrown out.old.items out.new.items) }
    {
        let depth = self.emit_endings(pull(token), out)?;
        self.emit_part(base, depth, token, out)
    }

    // Behind an expression, where so many of what stood around have ended.
    fn emit_part(
        &self,
        base: Base,
        depth: usize,
        token: &Token,
        out: &mut Vec<Event>,
    ) -> Result<(), NoMemory>
        ensures added { OnOk result (out.new.items ≡ out.old.items ++ behind_events base (drop depth self.now.around) token.now) }
        ensures kept { OnErr result (out.new.items ≡ out.old.items) }
    {
        if is_keyword(token, Keyword::Is) {
            add(out, Event::Is)
        } else if is_sign(token, Sign::OpenBracket) {
            add(out, Event::Index)
        } else if is_sign(token, Sign::CloseParenthesis) {
            self.emit_closing(base, depth, out)
        } else if is_sign(token, Sign::Comma) {
            Ok(())
        } else if is_sign(token, Sign::Semicolon) {
            finished(base, out)
        } else if is_sign(token, Sign::OpenBrace) {
            opening(base, out)
        } else if is_sign(token, Sign::CloseBracket) {
            add(out, Event::Lookup)
        } else {
            operator(token, out)
        }
    }

    // The closing parenthesis.
    fn emit_closing(&self, base: Base, depth: usize, out: &mut Vec<Event>) -> Result<(), NoMemory>
        ensures added { OnOk result (out.new.items ≡ out.old.items ++ closing base (drop depth self.now.around)) }
        ensures kept { OnErr result (out.new.items ≡ out.old.items) }
    {
        match self.around.below(depth) {
            Some(around) => add(out, ended(around)),
            None => match base {
                Base::Host => add(out, Event::Host),
                Base::Hop => add(out, Event::Hop),
                _ => Ok(()),
            },
        }
    }
}
