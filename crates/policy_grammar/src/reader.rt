// Reads tokens, one after the other.
ghost use Rattle.std.specs.Prelude.{◌≡◌, ◌↔◌, true, false, ◌&&◌, nat_le, [], ◌∷◌, IfOk};
ghost use Rattle.policy_grammar.specs.Automaton.{State, start, step, pull, least_in, settle, ahead, behind, behind_operator, behind_is, behind_bracket, behind_parenthesis, behind_comma, behind_semicolon, behind_brace, behind_index, closed, statement, step_at, is_sign, is_keyword, only, to};
ghost use Rattle.policy_grammar.specs.Reading.{Goes};

use crate::operator::operator_in;
use crate::tokens::{is_field, is_keyword, is_name, is_sign, is_value};
use crate::{Around, Base, Block, Operator, Shape, Stack, Stage};
use maple_base::NoMemory;
use policy_tokens::{Keyword, Sign, Token};
use std::alloc::Global;
use std::marker::Model;

/// The most expressions behind the first of an `out`, which has at most 16.
const MOST_BEHIND_FIRST: u8 = 15;

/// A reader of a policy's tokens: its stage, what stands around the expression that it reads, and
/// the blocks that are open.
#[derive(Drop)]
pub struct Reader {
    pub(crate) stage: Stage,
    pub(crate) around: Stack<Around>,
    pub(crate) blocks: Stack<Block>,
}

impl Model for Reader {
    ghost use Rattle.policy_grammar.specs.Automaton.{State};

    ghost Value = { State };

    ghost view = { λ a. record { stage = a.stage; around = a.around; blocks = a.blocks } };
}

// The level of tokens that end no part of an expression ahead of them.
pub(crate) fn pull(token: &Token) -> u8
    ensures { result ≡ pull token.now }
{
    if is_keyword(token, Keyword::Is) || is_sign(token, Sign::OpenBracket) {
        return 5;
    }
    match operator_in(token) {
        Some(operator) => operator.level(),
        None => 0,
    }
}

impl Reader {
    /// A reader ahead of the first token.
    pub fn new(alloc: Global) -> Reader
        ensures { result ≡ start }
    {
        Reader {
            stage: Stage::Start,
            around: Stack::new(alloc),
            blocks: Stack::new(alloc),
        }
    }

    /// Whether a whole policy was read.
    pub fn is_at_end(&self) -> bool
        ensures { (result ≡ true) ↔ (self.now.stage ≡ Stage.End) }
    {
        self.stage == Stage::End
    }

    // Goes to a stage at which nothing stands around.
    fn to(&mut self, stage: Stage) -> bool
        ensures { (result ≡ true) × (self.new ≡ record { stage = stage; around = []; blocks = self.old.blocks }) }
    {
        self.around.clear();
        self.stage = stage;
        true
    }

    // Goes to a stage in an expression.
    fn within(&mut self, stage: Stage) -> bool
        ensures { (result ≡ true) × (self.new ≡ record { stage = stage; around = self.old.around; blocks = self.old.blocks }) }
    {
        self.stage = stage;
        true
    }

    // Goes to an expression that has this around it.
    fn enter(&mut self, around: Around, stage: Stage) -> Result<bool, NoMemory>
        ensures { IfOk result (λ read. (read ≡ true) × (self.new ≡ record { stage = stage; around = around ∷ self.old.around; blocks = self.old.blocks })) }
    {
        self.around.push(around)?;
        Ok(self.within(stage))
    }

    // Opens a block.
    fn open(&mut self, block: Block) -> Result<bool, NoMemory>
        ensures { IfOk result (λ read. (read ≡ true) × (self.new ≡ record { stage = Stage.Statement; around = []; blocks = block ∷ self.old.blocks })) }
    {
        self.blocks.push(block)?;
        Ok(self.to(Stage::Statement))
    }

    // The least level of an expression that stands here.
    fn least(&self) -> u8
        ensures { result ≡ least_in self.now.around }
    {
        match self.around.top() {
            Some(around) => around.least(),
            None => 0,
        }
    }

    // Ends what ends ahead of a token, and gives the shape of what was read then.
    fn settle(&mut self, pull: u8, shape: Shape) -> Shape
        ensures settled { settle pull self.old.around shape ≡ record { around = self.new.around; shape = result } }
        ensures stage { self.new.stage ≡ self.old.stage }
        ensures blocks { self.new.blocks ≡ self.old.blocks }
    {
        let mut shape = shape;
        while let Some(top) = self.around.top() {
            if pull >= top.least() {
                break;
            }
            self.around.pop();
            shape = top.made();
        }
        shape
    }

    // A closing brace.
    fn closed(&mut self) -> bool
        ensures { Goes result self.new (closed self.old.blocks) }
    {
        match self.blocks.pop() {
            None => self.to(Stage::End),
            Some(Block::First) => self.to(Stage::Else),
            Some(Block::Second | Block::Loop) => self.to(Stage::Statement),
        }
    }

    /// The reader behind a token, or `None` where no text of a policy goes on with it.
    pub fn step(self, token: &Token) -> Result<Option<Reader>, NoMemory>
        ensures { IfOk result (λ next. next ≡ step self token.now) }
    {
        let mut reader = self;
        if reader.read(token)? {
            Ok(Some(reader))
        } else {
            Ok(None)
        }
    }

    // Reads a token, where one like it may stand here. Where none may, the reader is done with.
    fn read(&mut self, token: &Token) -> Result<bool, NoMemory>
        ensures { IfOk result (λ read. Goes read self.new (step self.old token.now)) }
    {
        let read = match self.stage {
            Stage::Start => self.start(token),
            Stage::Table => is_name(token) && self.to(Stage::TableName),
            Stage::TableName => is_sign(token, Sign::Semicolon) && self.to(Stage::Start),
            Stage::Policy => self.policy(token),
            Stage::Learning => is_sign(token, Sign::OpenBrace) && self.to(Stage::Statement),
            Stage::Statement => self.statement(token),
            Stage::Else => self.or_else(token),
            Stage::Decided => is_sign(token, Sign::Semicolon) && self.to(Stage::Statement),
            Stage::Let => is_name(token) && self.to(Stage::LetName),
            Stage::LetName => is_sign(token, Sign::Assign) && self.to(Stage::Ahead(Base::Let)),
            Stage::Assigned => is_sign(token, Sign::Assign) && self.to(Stage::Ahead(Base::Assign)),
            Stage::If => return self.question(token),
            Stage::Asks(base) => {
                is_sign(token, Sign::OpenParenthesis) && self.to(Stage::Ahead(base))
            }
            Stage::Ahead(base) => return self.ahead(base, token),
            Stage::Callee(base) => return self.callee(base, token),
            Stage::Behind(base, shape) => return self.behind(base, shape, token),
            Stage::Asked => is_keyword(token, Keyword::As) && self.to(Stage::As),
            Stage::As => is_name(token) && self.to(Stage::Bound),
            Stage::Bound => return self.block(Block::First, token),
            Stage::ElseBlock => return self.block(Block::Second, token),
            Stage::End => false,
        };
        Ok(read)
    }

    fn start(&mut self, token: &Token) -> bool
        ensures { Goes result self.new (step_at Stage.Start self.old.around self.old.blocks token.now) }
    {
        if is_keyword(token, Keyword::Table) {
            return self.to(Stage::Table);
        }
        is_keyword(token, Keyword::Policy) && self.to(Stage::Policy)
    }

    fn policy(&mut self, token: &Token) -> bool
        ensures { Goes result self.new (step_at Stage.Policy self.old.around self.old.blocks token.now) }
    {
        if is_keyword(token, Keyword::Learning) {
            return self.to(Stage::Learning);
        }
        is_sign(token, Sign::OpenBrace) && self.to(Stage::Statement)
    }

    fn or_else(&mut self, token: &Token) -> bool
        ensures { Goes result self.new (step_at Stage.Else self.old.around self.old.blocks token.now) }
    {
        if is_keyword(token, Keyword::Else) {
            return self.to(Stage::ElseBlock);
        }
        self.statement(token)
    }

    // The first word of a statement, or the brace that closes its block.
    fn statement(&mut self, token: &Token) -> bool
        ensures { Goes result self.new (statement self.old.blocks token.now) }
    {
        if is_keyword(token, Keyword::Drop) || is_keyword(token, Keyword::Flood) {
            self.to(Stage::Decided)
        } else if is_keyword(token, Keyword::Out) {
            self.to(Stage::Ahead(Base::Out(0)))
        } else if is_keyword(token, Keyword::Route) {
            self.to(Stage::Ahead(Base::Route))
        } else if is_keyword(token, Keyword::Let) {
            self.to(Stage::Let)
        } else if is_keyword(token, Keyword::If) {
            self.to(Stage::If)
        } else if is_keyword(token, Keyword::While) {
            self.to(Stage::Ahead(Base::While))
        } else if is_name(token) {
            self.to(Stage::Assigned)
        } else {
            is_sign(token, Sign::CloseBrace) && self.closed()
        }
    }

    // The opening brace of a block.
    fn block(&mut self, block: Block, token: &Token) -> Result<bool, NoMemory>
        ensures { IfOk result (λ read. Goes read self.new (only (is_sign Sign.OpenBrace token.now) (to Stage.Statement (block ∷ self.old.blocks)))) }
    {
        if is_sign(token, Sign::OpenBrace) {
            self.open(block)
        } else {
            Ok(false)
        }
    }

    // What an `if` asks.
    fn question(&mut self, token: &Token) -> Result<bool, NoMemory>
        ensures { IfOk result (λ read. Goes read self.new (step_at Stage.If self.old.around self.old.blocks token.now)) }
    {
        self.around.clear();
        if is_keyword(token, Keyword::Host) {
            return Ok(self.to(Stage::Asks(Base::Host)));
        }
        if is_keyword(token, Keyword::Hop) {
            return Ok(self.to(Stage::Asks(Base::Hop)));
        }
        self.ahead(Base::If, token)
    }

    // The first token of an expression.
    fn ahead(&mut self, base: Base, token: &Token) -> Result<bool, NoMemory>
        ensures { IfOk result (λ read. Goes read self.new (ahead base self.old.around self.old.blocks token.now)) }
    {
        if is_sign(token, Sign::OpenParenthesis) {
            self.enter(Around::Group, Stage::Ahead(base))
        } else if is_keyword(token, Keyword::Not) && self.least() <= 2 {
            self.enter(Around::Not, Stage::Ahead(base))
        } else {
            Ok(self.single(base, token))
        }
    }

    // An expression of one token, or the word of a call.
    fn single(&mut self, base: Base, token: &Token) -> bool
        requires sign { is_sign Sign.OpenParenthesis token.now ≡ false }
        requires negation { is_keyword Keyword.Not token.now && nat_le (least_in self.old.around) 2 ≡ false }
        ensures { Goes result self.new (ahead base self.old.around self.old.blocks token.now) }
    {
        if is_keyword(token, Keyword::Up) || is_keyword(token, Keyword::At) {
            self.within(Stage::Callee(base))
        } else if is_name(token) {
            self.within(Stage::Behind(base, Shape::Name))
        } else if is_field(token) {
            self.within(Stage::Behind(base, Shape::Field))
        } else {
            is_value(token) && self.within(Stage::Behind(base, Shape::Whole))
        }
    }

    // The parenthesis behind the word of a call.
    fn callee(&mut self, base: Base, token: &Token) -> Result<bool, NoMemory>
        ensures { IfOk result (λ read. Goes read self.new (step_at (Stage.Callee base) self.old.around self.old.blocks token.now)) }
    {
        if is_sign(token, Sign::OpenParenthesis) {
            self.enter(Around::First, Stage::Ahead(base))
        } else {
            Ok(false)
        }
    }

    // Behind an expression, or behind what of it was read.
    fn behind(&mut self, base: Base, shape: Shape, token: &Token) -> Result<bool, NoMemory>
        ensures { IfOk result (λ read. Goes read self.new (behind base (settle (pull token.now) self.old.around shape) self.old.blocks token.now)) }
    {
        let shape = self.settle(pull(token), shape);
        if is_keyword(token, Keyword::Is) {
            self.behind_is(base, shape)
        } else if is_sign(token, Sign::OpenBracket) {
            Ok(self.behind_bracket(base, shape))
        } else if is_sign(token, Sign::CloseParenthesis) {
            Ok(self.behind_parenthesis(base))
        } else if is_sign(token, Sign::Comma) {
            self.behind_comma(base)
        } else if is_sign(token, Sign::Semicolon) {
            Ok(self.behind_semicolon(base))
        } else if is_sign(token, Sign::OpenBrace) {
            self.behind_brace(base)
        } else if is_sign(token, Sign::CloseBracket) {
            Ok(self.behind_index(base))
        } else if let Some(operator) = operator_in(token) {
            self.behind_operator(base, shape, operator)
        } else {
            Ok(false)
        }
    }

    fn behind_operator(
        &mut self,
        base: Base,
        shape: Shape,
        operator: Operator,
    ) -> Result<bool, NoMemory>
        ensures { IfOk result (λ read. Goes read self.new (behind_operator base self.old.around shape self.old.blocks operator)) }
    {
        if operator.left_level() <= shape.level() {
            self.enter(Around::Left(operator), Stage::Ahead(base))
        } else {
            Ok(false)
        }
    }

    // The word `is` stands behind a field, where a test may begin.
    fn behind_is(&mut self, base: Base, shape: Shape) -> Result<bool, NoMemory>
        ensures { IfOk result (λ read. Goes read self.new (behind_is base self.old.around shape self.old.blocks)) }
    {
        match shape {
            Shape::Field if self.least() <= 3 => self.enter(Around::Is, Stage::Ahead(base)),
            _ => Ok(false),
        }
    }

    // The sign `[` stands behind the name of a table that an `if` asks.
    fn behind_bracket(&mut self, base: Base, shape: Shape) -> bool
        ensures { Goes result self.new (behind_bracket base self.old.around shape self.old.blocks) }
    {
        match (base, self.around.top(), shape) {
            (Base::If, None, Shape::Name) => self.to(Stage::Ahead(Base::Lookup)),
            _ => false,
        }
    }

    fn behind_parenthesis(&mut self, base: Base) -> bool
        ensures { Goes result self.new (behind_parenthesis base self.old.around self.old.blocks) }
    {
        match self.around.pop() {
            Some(Around::Group | Around::Second) => self.within(Stage::Behind(base, Shape::Whole)),
            Some(_) => false,
            None => match base {
                Base::Host | Base::Hop => self.to(Stage::Asked),
                _ => false,
            },
        }
    }

    fn behind_comma(&mut self, base: Base) -> Result<bool, NoMemory>
        ensures { IfOk result (λ read. Goes read self.new (behind_comma base self.old.around self.old.blocks)) }
    {
        match (self.around.pop(), base) {
            (Some(Around::First), _) => self.enter(Around::Second, Stage::Ahead(base)),
            (None, Base::Out(count)) if count < MOST_BEHIND_FIRST => {
                Ok(self.to(Stage::Ahead(Base::Out(count + 1))))
            }
            _ => Ok(false),
        }
    }

    fn behind_semicolon(&mut self, base: Base) -> bool
        ensures { Goes result self.new (behind_semicolon base self.old.around self.old.blocks) }
    {
        match (self.around.top(), base) {
            (None, Base::Out(_) | Base::Route | Base::Let | Base::Assign) => {
                self.to(Stage::Statement)
            }
            _ => false,
        }
    }

    fn behind_brace(&mut self, base: Base) -> Result<bool, NoMemory>
        ensures { IfOk result (λ read. Goes read self.new (behind_brace base self.old.around self.old.blocks)) }
    {
        match (self.around.top(), base) {
            (None, Base::If) => self.open(Block::First),
            (None, Base::While) => self.open(Block::Loop),
            _ => Ok(false),
        }
    }

    fn behind_index(&mut self, base: Base) -> bool
        ensures { Goes result self.new (behind_index base self.old.around self.old.blocks) }
    {
        match (self.around.top(), base) {
            (None, Base::Lookup) => self.to(Stage::Asked),
            _ => false,
        }
    }
}
