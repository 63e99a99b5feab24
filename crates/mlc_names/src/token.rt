// Tokens.

ghost use Rattle.std.specs.Prelude.{◌≡◌};

use crate::names::Name;
use std::marker::Model;

/// A reserved word, alphanumeric, symbolic or a mark.
#[derive(Clone, Copy, PartialEq, Eq, Debug)]
pub enum Reserved {
    Abstype,
    And,
    Andalso,
    As,
    Case,
    Datatype,
    Do,
    Else,
    End,
    Eqtype,
    Exception,
    Fn,
    Fun,
    Functor,
    Handle,
    If,
    In,
    Include,
    Infix,
    Infixr,
    Let,
    Local,
    Nonfix,
    Of,
    Op,
    Open,
    Orelse,
    Raise,
    Rec,
    Sharing,
    Sig,
    Signature,
    Struct,
    Structure,
    Then,
    TypeWord,
    Val,
    Where,
    While,
    With,
    Withtype,
    LeftParen,
    RightParen,
    LeftBracket,
    RightBracket,
    LeftBrace,
    RightBrace,
    Comma,
    Semicolon,
    Dots,
    Underscore,
    Colon,
    ColonGreater,
    Bar,
    Equals,
    DoubleArrow,
    Arrow,
    Hash,
}

/// What a token is.
#[derive(Debug, Drop)]
pub enum TokenKind {
    Reserved(Reserved),
    /// An integer constant. It is plain where it's written in decimal digits alone with no zero in front,
    /// as a label or the precedence of an operator must be.
    Int { value: i32, plain: bool },
    Word(u32),
    Char(u8),
    Str(Vec<u8>),
    /// An alphanumeric identifier.
    Ident(Name),
    /// A symbolic identifier.
    Symbol(Name),
    /// Structure identifiers and the alphanumeric identifier that they qualify.
    LongIdent(Vec<Name>, Name),
    /// Structure identifiers and the symbolic identifier that they qualify.
    LongSymbol(Vec<Name>, Name),
    /// A type variable with one prime, by its whole text.
    TypeVar(Name),
    /// A type variable with two primes or more, by its whole text.
    EqTypeVar(Name),
}

/// The bytes of a file from `first` on that are before `end`.
#[derive(Clone, Copy, PartialEq, Eq, Debug)]
pub struct Span {
    pub first: u32,
    pub end: u32,
}

/// A token and where it stands in its file.
#[derive(Debug, Drop)]
pub struct Token {
    pub kind: TokenKind,
    pub span: Span,
}

/// The tokens of a file in their order.
#[derive(Debug, Drop)]
pub struct Tokens {
    tokens: Vec<Token>,
}

impl Model for Tokens {
    ghost use Rattle.std.specs.Prelude.{List};
    ghost use Rattle.mlc_names.specs.declared.token.Token.{Token};

    ghost Value = { List Token };

    ghost view = { λ t. t.tokens.items };
}

impl Tokens {
    /// These tokens.
    pub fn from_vec(tokens: Vec<Token>) -> Tokens
        ensures { result ≡ tokens.items }
    {
        Tokens { tokens }
    }

    pub fn as_slice(&self) -> &[Token]
        ensures { result.now ≡ self.now }
    {
        self.tokens.as_slice()
    }

    /// The tokens as a vector again.
    pub fn into_vec(self) -> Vec<Token>
        ensures { result.items ≡ self }
    {
        let Tokens { tokens } = self;
        tokens
    }
}
