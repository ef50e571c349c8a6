//! The lexer: the tokens of a module's text.

ghost use Rattle.std.specs.Prelude.{◌≡◌, ◌≢◌, ◌+◌, ◌^◌, ◌<◌, ◌≤◌, IfOk, IfErr, IsTrue, List, false, true, length, slice_index, take, drop};
ghost use Rattle.std.specs.List.{prefix_len};
ghost use Rattle.scrib_types.specs.Names as names;
ghost use Rattle.scrib_lexer.specs.declared.fault.LexFault.{LexFault};
ghost use Rattle.scrib_lexer.specs.Lexeme.{Lexeme, lexemes_of};
ghost use Rattle.scrib_lexer.specs.Tokens.{IsTokens, LexGives, LexFails, LexFailsAt};
ghost use Rattle.scrib_lexer.specs.Words as words;
ghost use Rattle.scrib_lexer.specs.Pieces as pieces;
ghost use Rattle.scrib_lexer.specs.Pieces.{IsElement};
ghost use Rattle.scrib_lexer.specs.Steps.{IsFrontElement, IsFrontFault, punctuation_of, close_in, quote_in, spot_in, spot_past, spot_past_all};

use crate::fault::LexFault;
use crate::token::{Element, Keyword, Token, TokenKind};
use memchr::memchr;
use scrib_types::name::MAX_NAME_BYTES;
use scrib_types::spot::Spot;
use std::alloc::Global;
use std::str;

/// The most bytes that a module's text may have.
pub const MAX_TEXT_BYTES: usize = 1_048_576;

// The least number of bytes to a token in most texts.
const BYTES_PER_TOKEN: usize = 3;

/// The tokens of a module's text, in order. They borrow its bytes. White space and comments are dropped.
///
/// # Errors
/// `TextTooLong` for a text of more than `MAX_TEXT_BYTES`. Otherwise the leftmost of these faults:
/// - `BadByte` at a byte that is no white space and begins no comment and no token;
/// - `BadByte` at the first byte of an invalid UTF-8 sequence in a closed string;
/// - `OpenComment` at a `/*` that has no `*/`;
/// - `OpenString` at a double quote that has no other before the line's end;
/// - `LongName` at the first byte of a word of more than 128 bytes.
///
/// `OutOfMemory` where memory for the tokens is refused.
pub fn lex<'a>(alloc: Global, text: &'a [u8]) -> Result<Vec<Token<'a>>, LexFault>
    ensures found { IfOk result (λ tokens. IsTokens text.now (lexemes_of tokens.items)) }
    ensures only { (ts : List Lexeme) → IsTokens text.now ts → LexGives result ts }
    ensures fault { IfErr result (LexFailsAt text.now) }
    ensures refused { (fault : LexFault) → fault ≢ LexFault.OutOfMemory → LexFailsAt text.now fault
        → LexFails result fault }
{
    if text.len() > MAX_TEXT_BYTES {
        return Err(LexFault::TextTooLong);
    }
    let mut tokens = Vec::with_capacity(alloc, text.len() / BYTES_PER_TOKEN)?;
    let mut start = 0;
    let mut line = Line {
        number: 1,
        start: 0,
    };
    while start < text.len() {
        let first = text[start];
        if is_space(first) {
            line = line.past(start, first);
            start += 1;
            continue;
        }
        let spot = line.spot(start);
        let (element, len) = front_element(&text[start..], spot)?;
        let bytes = &text[start..start + len];
        line = line.past_element(element, start, bytes);
        if let Element::Token(kind) = element {
            tokens.push(Token { kind, bytes, spot })?;
        }
        start += len;
    }
    Ok(tokens)
}

// The current line: its number, and the index of its first byte. Columns are computed from it where they are needed,
// so most bytes advance nothing but the index.
#[derive(Clone, Copy)]
struct Line {
    number: u32,
    start: usize,
}

impl Line {
    // The place of the byte at this index of the line.
    fn spot(self, index: usize) -> Spot
        requires within { self.start ≤ index }
        requires column { index + 1 < 2 ^ 32 }
        ensures { result ≡ spot_in self index }
    {
        Spot {
            line: self.number,
            column: (index - self.start + 1) as u32,
        }
    }

    // The line after the byte at this index.
    fn past(self, index: usize, byte: u8) -> Line
        requires within { self.start ≤ index }
        requires number { self.number + 1 < 2 ^ 32 }
        requires column { index + 1 < 2 ^ 32 }
        ensures within { result.start ≤ index + 1 }
        ensures number { result.number ≤ self.number + 1 }
        ensures spot { spot_in result (index + 1) ≡ spot_past (spot_in self index) byte }
    {
        if byte == b'\n' {
            Line {
                number: self.number + 1,
                start: index + 1,
            }
        } else {
            self
        }
    }

    // The line after the bytes, of which the first is at this index.
    fn past_all(self, index: usize, bytes: &[u8]) -> Line
        requires within { self.start ≤ index }
        requires number { self.number + length bytes.now < 2 ^ 32 }
        requires column { index + length bytes.now < 2 ^ 32 }
        ensures within { result.start ≤ index + length bytes.now }
        ensures spot { spot_in result (index + length bytes.now) ≡ spot_past_all (spot_in self index) bytes.now }
    {
        let mut line = self;
        for (i, byte) in bytes.iter().enumerate() {
            line = line.past(index + i, *byte);
        }
        line
    }

    // The line after the element, whose first byte is at this index. Tokens and line comments hold no line feed, so
    // their bytes aren't read again.
    fn past_element(self, element: Element, index: usize, bytes: &[u8]) -> Line
        requires element { IsElement element bytes.now }
        requires within { self.start ≤ index }
        requires number { self.number + length bytes.now < 2 ^ 32 }
        requires column { index + length bytes.now < 2 ^ 32 }
        ensures within { result.start ≤ index + length bytes.now }
        ensures spot { spot_in result (index + length bytes.now) ≡ spot_past_all (spot_in self index) bytes.now }
    {
        match element {
            Element::Token(_) | Element::LineComment => self,
            _ => self.past_all(index, bytes),
        }
    }
}

// The element that the text begins with, and its length.
fn front_element(text: &[u8], at: Spot) -> Result<(Element, usize), LexFault>
    requires some { 0 < length text.now }
    requires column { at.column + length text.now < 2 ^ 32 }
    ensures found { IfOk result (λ found. IsFrontElement text.now found.0 found.1) }
    ensures fault { IfErr result (IsFrontFault text.now at) }
{
    let first = text[0];
    if is_space(first) {
        return Ok((Element::Space, 1));
    }
    if begins_word(first) {
        return front_word(text, at);
    }
    if let Some(mark) = mark_of(first) {
        return Ok((Element::Token(mark), 1));
    }
    match first {
        b'"' => front_string(text, at),
        b'/' => front_comment(text, at),
        _ => Err(LexFault::BadByte { at }),
    }
}

// The word that the text begins with, and its length.
fn front_word(text: &[u8], at: Spot) -> Result<(Element, usize), LexFault>
    requires some { 0 < length text.now }
    requires letter { names.is_letter (slice_index text.now 0) ≡ true }
    ensures found { IfOk result (λ found. IsFrontElement text.now found.0 found.1) }
    ensures fault { IfErr result (IsFrontFault text.now at) }
{
    let len = word_len(text);
    if len > MAX_NAME_BYTES {
        return Err(LexFault::LongName { at });
    }
    match keyword_of(&text[..len]) {
        Some(keyword) => Ok((Element::Token(TokenKind::Keyword(keyword)), len)),
        None => Ok((Element::Token(TokenKind::Name), len)),
    }
}

// The string literal that the text begins with, and its length.
fn front_string(text: &[u8], at: Spot) -> Result<(Element, usize), LexFault>
    requires some { 0 < length text.now }
    requires quote { slice_index text.now 0 ≡ 34 }
    requires column { at.column + length text.now < 2 ^ 32 }
    ensures found { IfOk result (λ found. IsFrontElement text.now found.0 found.1) }
    ensures fault { IfErr result (IsFrontFault text.now at) }
{
    let rest = &text[1..];
    let Some(len) = quote_in(rest) else {
        return Err(LexFault::OpenString { at });
    };
    match str::from_utf8(&rest[..len]) {
        Ok(_) => Ok((Element::Token(TokenKind::StringLiteral), len + 2)),
        Err(error) => Err(LexFault::BadByte {
            at: Spot {
                line: at.line,
                column: at.column + (error.valid_up_to() + 1) as u32,
            },
        }),
    }
}

// The comment that the text begins with, and its length.
fn front_comment(text: &[u8], at: Spot) -> Result<(Element, usize), LexFault>
    requires some { 0 < length text.now }
    requires slash { slice_index text.now 0 ≡ 47 }
    ensures found { IfOk result (λ found. IsFrontElement text.now found.0 found.1) }
    ensures fault { IfErr result (IsFrontFault text.now at) }
{
    if text.len() < 2 {
        return Err(LexFault::BadByte { at });
    }
    match text[1] {
        b'/' => Ok((Element::LineComment, line_len(text))),
        b'*' => match close_in(&text[2..]) {
            Some(len) => Ok((Element::BlockComment, len + 4)),
            None => Err(LexFault::OpenComment { at }),
        },
        _ => Err(LexFault::BadByte { at }),
    }
}

// The class of each byte: `a` is a letter or an underscore, `0` a digit, `.` white space, and `-` any other.
static CLASSES: [u8; 256] = *b"\
    ---------..--.------------------\
    .---------------0000000000------\
    -aaaaaaaaaaaaaaaaaaaaaaaaaa----a\
    -aaaaaaaaaaaaaaaaaaaaaaaaaa-----\
    --------------------------------\
    --------------------------------\
    --------------------------------\
    --------------------------------";

// Whether the byte is white space.
fn is_space(byte: u8) -> bool
    ensures { result ≡ words.is_space byte }
{
    CLASSES[byte as usize] == b'.'
}

// Whether a word may begin with the byte.
fn begins_word(byte: u8) -> bool
    ensures { result ≡ names.is_letter byte }
{
    CLASSES[byte as usize] == b'a'
}

// Whether a word may have the byte.
fn in_word(byte: u8) -> bool
    ensures { result ≡ names.is_word_byte byte }
{
    CLASSES[byte as usize] >= b'0'
}

// The length of the word that the text begins with.
fn word_len(text: &[u8]) -> usize
    ensures within { result ≤ length text.now }
    ensures word { IsTrue (names.all_word (take result text.now)) }
    ensures longest { words.begins_in_word (drop result text.now) ≡ false }
{
    for (i, byte) in text.iter().enumerate() {
        if !in_word(*byte) {
            return i;
        }
    }
    text.len()
}

// The number of bytes before the line's end.
fn line_len(text: &[u8]) -> usize
    ensures within { result ≤ length text.now }
    ensures line { IsTrue (words.in_line (take result text.now)) }
    ensures longest { IsTrue (words.ends_line (drop result text.now)) }
{
    memchr(b'\n', text).unwrap_or(text.len())
}

// The number of bytes before the first `*/`.
fn close_in(text: &[u8]) -> Option<usize>
    ensures { result ≡ close_in text.now }
{
    for i in 0..text.len() {
        if begins_close(&text[i..]) {
            return Some(i);
        }
    }
    None
}

// Whether the text begins with `*/`.
fn begins_close(text: &[u8]) -> bool
    ensures { result ≡ pieces.begins_close text.now }
{
    match text {
        [first, second, ..] => *first == b'*' && *second == b'/',
        _ => false,
    }
}

// The number of bytes before the first double quote of the line.
fn quote_in(text: &[u8]) -> Option<usize>
    ensures { result ≡ quote_in text.now }
{
    for i in 0..text.len() {
        match text[i] {
            b'"' => return Some(i),
            b'\n' => return None,
            _ => {}
        }
    }
    None
}

// The punctuation mark that the byte is.
fn mark_of(byte: u8) -> Option<TokenKind>
    ensures { result ≡ punctuation_of byte }
{
    match byte {
        b';' => Some(TokenKind::Semicolon),
        b',' => Some(TokenKind::Comma),
        b'.' => Some(TokenKind::Dot),
        b':' => Some(TokenKind::Colon),
        b'(' => Some(TokenKind::OpenParen),
        b')' => Some(TokenKind::CloseParen),
        b'{' => Some(TokenKind::OpenBrace),
        b'}' => Some(TokenKind::CloseBrace),
        b'<' => Some(TokenKind::OpenAngle),
        b'>' => Some(TokenKind::CloseAngle),
        _ => None,
    }
}

// The keyword that the word is.
fn keyword_of(word: &[u8]) -> Option<Keyword>
    ensures { result ≡ words.keyword_of word.now }
{
    match word {
        b"module" => Some(Keyword::Module),
        b"import" => Some(Keyword::Import),
        b"as" => Some(Keyword::As),
        b"type" => Some(Keyword::Type),
        b"from" => Some(Keyword::From),
        b"to" => Some(Keyword::To),
        b"global" => Some(Keyword::Global),
        b"protocol" => Some(Keyword::Protocol),
        b"role" => Some(Keyword::Role),
        b"choice" => Some(Keyword::Choice),
        b"at" => Some(Keyword::At),
        b"or" => Some(Keyword::Or),
        b"rec" => Some(Keyword::Rec),
        b"continue" => Some(Keyword::Continue),
        b"do" => Some(Keyword::Do),
        _ => None,
    }
}
