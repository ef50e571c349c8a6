//! Tokens.

use scrib_types::spot::Spot;

/// A reserved word of Scribble, which is no name.
#[derive(Clone, Copy, Debug, PartialEq, Eq)]
pub enum Keyword {
    Module,
    Import,
    As,
    Type,
    From,
    To,
    Global,
    Protocol,
    Role,
    Choice,
    At,
    Or,
    Rec,
    Continue,
    Do,
}

/// The kind of a token.
#[derive(Clone, Copy, Debug, PartialEq, Eq)]
pub enum TokenKind {
    /// A name that is no reserved word.
    Name,
    /// A reserved word.
    Keyword(Keyword),
    /// UTF-8 between two double quotes on one line. A backslash has no meaning in it.
    StringLiteral,
    Semicolon,
    Comma,
    Dot,
    Colon,
    OpenParen,
    CloseParen,
    OpenBrace,
    CloseBrace,
    OpenAngle,
    CloseAngle,
}

/// The kind of an input element: white space, a comment or a token.
#[derive(Clone, Copy)]
pub enum Element {
    /// One byte of white space.
    Space,
    /// A comment from `//` to the line's end, without its line feed.
    LineComment,
    /// A comment from `/*` to the next `*/`.
    BlockComment,
    Token(TokenKind),
}

/// A token of a text: its kind, its bytes and the place of the first of them.
#[derive(Clone, Copy)]
pub struct Token<'a> {
    pub kind: TokenKind,
    pub bytes: &'a [u8],
    pub spot: Spot,
}
