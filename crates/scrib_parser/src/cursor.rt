//! The parser's cursor: the tokens that are left to read.

ghost use Rattle.std.specs.Prelude.{◌≡◌};
ghost use Rattle.scrib_lexer.specs.Lexeme.{lexemes_of};
ghost use Rattle.scrib_parser.specs.LeftOut as left_out;
ghost use Rattle.scrib_parser.specs.Reading.{left, Gives, begins, same_kind, begins_statement, begins_declaration, deep_fault, token_of, paren_behind, placed_name_of, read_name};

use crate::fault::{LeftOutWord, ParseFault};
use crate::messages::MessageInterner;
use crate::names::NameInterner;
use crate::sorts::SortInterner;
use crate::word::Word;
use scrib_lexer::token::{Keyword, Token, TokenKind};
use scrib_types::name::Name;
use scrib_types::spot::Spot;
use std::alloc::Global;

/// The tokens that are left to read, with the interners of the names, payload types and messages that were read.
#[derive(Drop)]
pub(crate) struct Cursor<'t, 'a> {
    pub(crate) rest: &'t [Token<'a>],
    pub(crate) names: NameInterner,
    pub(crate) sorts: SortInterner<'a>,
    pub(crate) messages: MessageInterner,
}

impl<'t, 'a> Cursor<'t, 'a> {
    /// Whether the next token is of this kind.
    pub(crate) fn next_is(&self, kind: TokenKind) -> bool
        ensures { result ≡ begins (same_kind kind) (left self.now) }
    {
        first_is(self.rest, kind)
    }

    /// Whether the next token begins a statement.
    pub(crate) fn next_begins_statement(&self) -> bool
        ensures { result ≡ begins begins_statement (left self.now) }
    {
        match self.rest {
            [] => false,
            [token, ..] => starts_statement(token.kind),
        }
    }

    /// Whether the next token begins a declaration.
    pub(crate) fn next_begins_declaration(&self) -> bool
        ensures { result ≡ begins begins_declaration (left self.now) }
    {
        match self.rest {
            [] => false,
            [token, ..] => starts_declaration(token.kind),
        }
    }

    /// Takes the next token, which must be of this kind, and returns its place.
    #[tactic(auto, unfolding(crate::specs::Reading::token_of))]
    pub(crate) fn take(&mut self, kind: TokenKind) -> Result<Spot, ParseFault>
        ensures { Gives result (left self.new) (token_of kind (left self.old)) }
    {
        match self.rest {
            [] => Err(ParseFault::EndOfText),
            [token, rest @ ..] => {
                if !is_kind(kind, token.kind) {
                    return Err(ParseFault::Unexpected { at: token.spot });
                }
                self.rest = rest;
                Ok(token.spot)
            }
        }
    }

    /// Takes the parenthesis after a name that begins a statement.
    #[tactic(auto, unfolding(crate::specs::Reading::paren_behind))]
    pub(crate) fn take_paren(&mut self, op: &Name, spot: Spot) -> Result<Spot, ParseFault>
        ensures { Gives result (left self.new) (paren_behind (op.now, spot) (left self.old)) }
    {
        match self.rest {
            [] => Err(ParseFault::EndOfText),
            [token, rest @ ..] => {
                if TokenKind::OpenParen == token.kind {
                    self.rest = rest;
                    return Ok(token.spot);
                }
                match statement_word(op.as_bytes()) {
                    Some(word) => Err(ParseFault::LeftOut { word, at: spot }),
                    None => Err(ParseFault::Unexpected { at: token.spot }),
                }
            }
        }
    }

    /// The fault where a block must begin and no more level may be opened.
    pub(crate) fn too_deep(&self) -> ParseFault
        ensures { result ≡ deep_fault (left self.now) }
    {
        match self.rest {
            [] => ParseFault::EndOfText,
            [token, ..] => {
                if TokenKind::OpenBrace == token.kind {
                    ParseFault::TooDeep { at: token.spot }
                } else {
                    ParseFault::Unexpected { at: token.spot }
                }
            }
        }
    }

    /// Takes the next token, which must be a name, and returns it with its place.
    #[tactic(auto, unfolding(crate::specs::Reading::placed_name_of))]
    pub(crate) fn placed_name(&mut self, alloc: Global) -> Result<(Name, Spot), ParseFault>
        ensures { Gives result (left self.new) (placed_name_of (left self.old)) }
    {
        match self.rest {
            [] => Err(ParseFault::EndOfText),
            [token, rest @ ..] => {
                if token.kind != TokenKind::Name {
                    return Err(ParseFault::Unexpected { at: token.spot });
                }
                let name = self.names.name(alloc, token.bytes)?;
                let name = name.ok_or(ParseFault::Unexpected { at: token.spot })?;
                self.rest = rest;
                Ok((name, token.spot))
            }
        }
    }

    /// Takes the next token, which must be a name, and returns its bytes in the text.
    #[tactic(auto, unfolding(crate::specs::Reading::read_name, crate::specs::Reading::placed_name_of))]
    pub(crate) fn word(&mut self) -> Result<Word<'a>, ParseFault>
        ensures { Gives result (left self.new) (read_name (left self.old)) }
    {
        match self.rest {
            [] => Err(ParseFault::EndOfText),
            [token, rest @ ..] => {
                if token.kind != TokenKind::Name {
                    return Err(ParseFault::Unexpected { at: token.spot });
                }
                let word = Word::from_bytes(token.bytes);
                let word = word.ok_or(ParseFault::Unexpected { at: token.spot })?;
                self.rest = rest;
                Ok(word)
            }
        }
    }

    /// Takes the next token, which must be a name, and returns it.
    #[tactic(auto, unfolding(crate::specs::Reading::read_name))]
    pub(crate) fn name(&mut self, alloc: Global) -> Result<Name, ParseFault>
        ensures { Gives result (left self.new) (read_name (left self.old)) }
    {
        let (name, _) = self.placed_name(alloc)?;
        Ok(name)
    }
}

// Whether the first of the tokens is of this kind.
fn first_is(tokens: &[Token], kind: TokenKind) -> bool
    ensures { result ≡ begins (same_kind kind) (lexemes_of tokens.now) }
{
    match tokens {
        [] => false,
        [token, ..] => is_kind(kind, token.kind),
    }
}

fn is_kind(a: TokenKind, b: TokenKind) -> bool
    ensures { result ≡ same_kind a b }
{
    a == b
}

// Whether a token of this kind begins a statement.
fn starts_statement(kind: TokenKind) -> bool
    ensures { result ≡ begins_statement kind }
{
    match kind {
        TokenKind::Name | TokenKind::OpenParen => true,
        TokenKind::Keyword(Keyword::Choice | Keyword::Rec | Keyword::Continue | Keyword::Do) =>
            true,
        _ => false,
    }
}

// Whether a token of this kind begins a declaration.
fn starts_declaration(kind: TokenKind) -> bool
    ensures { result ≡ begins_declaration kind }
{
    matches!(kind, TokenKind::Keyword(Keyword::Type | Keyword::Global))
}

/// The word of a left-out declaration that the token is.
pub(crate) fn left_out_declaration(token: &Token) -> Option<LeftOutWord>
    ensures { result ≡ left_out.declaration_word_of token.now.kind token.now.bytes.now }
{
    match token.kind {
        TokenKind::Keyword(Keyword::From) => Some(LeftOutWord::From),
        TokenKind::Name => declaration_word(token.bytes),
        _ => None,
    }
}

// The word of a left-out declaration that the name is.
fn declaration_word(name: &[u8]) -> Option<LeftOutWord>
    ensures { result ≡ left_out.declaration_word name.now }
{
    if name == b"local".as_slice() {
        Some(LeftOutWord::Local)
    } else if name == b"sig".as_slice() {
        Some(LeftOutWord::Sig)
    } else if name == b"aux".as_slice() {
        Some(LeftOutWord::Aux)
    } else if name == b"explicit".as_slice() {
        Some(LeftOutWord::Explicit)
    } else {
        None
    }
}

// The word of a left-out statement that the name is.
fn statement_word(name: &[u8]) -> Option<LeftOutWord>
    ensures { result ≡ left_out.statement_word name.now }
{
    if name == b"par".as_slice() {
        Some(LeftOutWord::Par)
    } else if name == b"interruptible".as_slice() {
        Some(LeftOutWord::Interruptible)
    } else if name == b"connect".as_slice() {
        Some(LeftOutWord::Connect)
    } else if name == b"disconnect".as_slice() {
        Some(LeftOutWord::Disconnect)
    } else {
        None
    }
}
