// What a policy's text is made of.
ghost use Rattle.std.specs.Prelude.{◌≡◌};
ghost use Rattle.policy_tokens.specs.Spellings.{keyword_text, sign_text};

use maple_base::{Field, Name};

/// A word of the policy language that is no name.
#[derive(Clone, Copy, Debug, PartialEq, Eq)]
pub enum Keyword {
    Table,
    Policy,
    Learning,
    Drop,
    Flood,
    Out,
    Route,
    Let,
    If,
    Else,
    While,
    Host,
    Hop,
    Up,
    At,
    As,
    Is,
    And,
    Or,
    Not,
    In,
    /// The word `pkt`.
    Packet,
}

/// A sign of the policy language.
#[derive(Clone, Copy, Debug, PartialEq, Eq)]
pub enum Sign {
    OpenBrace,
    CloseBrace,
    OpenParenthesis,
    CloseParenthesis,
    OpenBracket,
    CloseBracket,
    Semicolon,
    Comma,
    /// The sign `=`.
    Assign,
    /// The sign `==`.
    Equal,
    NotEqual,
    Less,
    LessEqual,
    Plus,
    Minus,
}

/// A word or a sign of a policy's text.
#[derive(Clone, Copy, Debug, PartialEq, Eq)]
pub enum Token {
    Keyword(Keyword),
    Name(Name),
    /// A field of the packet, as `pkt.tp_dst`.
    Field(Field),
    /// The switch that the packet came to, `pkt.switch`.
    PacketSwitch,
    /// The switch of a place that a name stands for, as `a.switch`.
    SwitchOf(Name),
    /// The port of a place that a name stands for, as `a.port`.
    PortOf(Name),
    Number(u64),
    Sign(Sign),
}

/// A line and a column of a text. Positions are ordered as they stand in the text.
#[derive(Clone, Copy, Debug, PartialEq, Eq, PartialOrd, Ord)]
pub struct Position {
    /// The line, from 1.
    pub line: u32,
    /// The column, from 1, counted in bytes.
    pub column: u32,
}

/// A token, and the position of its first byte.
#[derive(Clone, Copy, Debug, PartialEq, Eq)]
pub struct PlacedToken {
    pub token: Token,
    pub position: Position,
}

impl Keyword {
    /// The word, as policies write it.
    pub fn text(self) -> &'static [u8]
        ensures { result.now ≡ keyword_text self }
    {
        match self {
            Keyword::Table => b"table",
            Keyword::Policy => b"policy",
            Keyword::Learning => b"learning",
            Keyword::Drop => b"drop",
            Keyword::Flood => b"flood",
            Keyword::Out => b"out",
            Keyword::Route => b"route",
            Keyword::Let => b"let",
            Keyword::If => b"if",
            Keyword::Else => b"else",
            Keyword::While => b"while",
            Keyword::Host => b"host",
            Keyword::Hop => b"hop",
            Keyword::Up => b"up",
            Keyword::At => b"at",
            Keyword::As => b"as",
            Keyword::Is => b"is",
            Keyword::And => b"and",
            Keyword::Or => b"or",
            Keyword::Not => b"not",
            Keyword::In => b"in",
            Keyword::Packet => b"pkt",
        }
    }
}

impl Sign {
    /// The sign, as policies write it.
    pub fn text(self) -> &'static [u8]
        ensures { result.now ≡ sign_text self }
    {
        match self {
            Sign::OpenBrace => b"{",
            Sign::CloseBrace => b"}",
            Sign::OpenParenthesis => b"(",
            Sign::CloseParenthesis => b")",
            Sign::OpenBracket => b"[",
            Sign::CloseBracket => b"]",
            Sign::Semicolon => b";",
            Sign::Comma => b",",
            Sign::Assign => b"=",
            Sign::Equal => b"==",
            Sign::NotEqual => b"!=",
            Sign::Less => b"<",
            Sign::LessEqual => b"<=",
            Sign::Plus => b"+",
            Sign::Minus => b"-",
        }
    }
}
