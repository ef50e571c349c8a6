//! The beginnings of lines that are spelled with single blanks: a word and an id.

ghost use Rattle.std.specs.Prelude.{◌≡◌, ◌<◌, ◌≤◌, ◌++◌, ◌∷◌, IfSome, length, take, slice_index, codes};
ghost use Rattle.std.specs.Str.Parse.{AllDigits, digits_value};
ghost use Rattle.scrib_script_reader.specs.Heads.{IsHead, IsIdBefore, direction_word};
ghost use Rattle.scrib_script_reader.specs.WordHeads.{IsWordBefore, IsWordHead};
ghost use Rattle.scrib_script_reader.specs.NamedHeads.{IsNamedHead, named_word};

use crate::direction::Direction;
use crate::line::MAX_LINE_BYTES;
use crate::text::MAX_DIGITS;

// A line of an exchange, parsed up to its id.
#[derive(Clone, Copy)]
pub(crate) struct Head<'a> {
    pub direction: Direction,
    pub id: u32,
    // The bytes after the id and a blank.
    pub text: &'a [u8],
}

/// A line of an exchange with any word in the place of its id, parsed up to that word.
#[derive(Clone, Copy)]
pub struct WordHead<'a> {
    pub(crate) direction: Direction,
    /// The word, up to the next blank.
    pub word: &'a [u8],
    // The bytes after the word and a blank.
    pub(crate) text: &'a [u8],
}

// The most bytes of a word in the place of an id that is looked for.
const MAX_WORD_BYTES: usize = 128;

// The most bytes after that word, so that the line with an id in its place is never too long.
const MAX_WORD_TEXT_BYTES: usize = 65_536;

// The word of a line that names a protocol or a role.
#[derive(Clone, Copy)]
pub(crate) enum NamedWord {
    Open,
    Join,
}

// A line that names a protocol or a role, parsed up to its id.
#[derive(Clone, Copy)]
pub(crate) struct NamedHead<'a> {
    pub id: u32,
    // The bytes after the id and a blank.
    pub text: &'a [u8],
}

// The direction and the id that a line begins with, where it is spelled with single blanks.
#[inline(always)]
pub(crate) fn head_of(bytes: &[u8]) -> Option<Head<'_>>
    ensures { IfSome result (λ head. IsHead bytes.now head.direction head.id head.text.now) }
{
    if bytes.len() > MAX_LINE_BYTES {
        return None;
    }
    let (direction, rest) = direction_of(bytes)?;
    let (id, text) = id_of(rest)?;
    Some(Head {
        direction,
        id,
        text,
    })
}

/// Returns the direction and the word in the place of an id that a line begins with, where it is spelled with single
/// blanks. None of other lines, and where the word has more than 128 bytes or the text after it more than 65,536.
#[inline(always)]
pub fn word_head_of(bytes: &[u8]) -> Option<WordHead<'_>>
    ensures { IfSome result (IsWordHead bytes.now) }
{
    let (direction, rest) = direction_of(bytes)?;
    let (word, text) = word_of(rest)?;
    if text.len() > MAX_WORD_TEXT_BYTES {
        return None;
    }
    Some(WordHead {
        direction,
        word,
        text,
    })
}

// The id of a line that begins with this word, where it is spelled with single blanks.
#[inline(always)]
pub(crate) fn named_head_of(bytes: &[u8], word: NamedWord) -> Option<NamedHead<'_>>
    ensures { IfSome result (λ head. IsNamedHead bytes.now word head.id head.text.now) }
{
    if bytes.len() > MAX_LINE_BYTES {
        return None;
    }
    let rest = after_named_word(bytes, word)?;
    let (id, text) = id_of(rest)?;
    Some(NamedHead { id, text })
}

// The direction that a line begins with, and the bytes after the blank.
fn direction_of(bytes: &[u8]) -> Option<(Direction, &[u8])>
    ensures { IfSome result (λ cut. bytes.now ≡ direction_word cut.0 ++ 32 ∷ cut.1.now) }
{
    match bytes {
        [b's', b'e', b'n', b'd', b' ', rest @ ..] => Some((Direction::Send, rest)),
        [b'r', b'e', b'c', b'v', b' ', rest @ ..] => Some((Direction::Receive, rest)),
        _ => None,
    }
}

// The bytes after the word and a blank, where a line begins with these.
#[inline(always)]
fn after_named_word(bytes: &[u8], word: NamedWord) -> Option<&[u8]>
    ensures { IfSome result (λ rest. bytes.now ≡ named_word word ++ 32 ∷ rest.now) }
{
    match word {
        NamedWord::Open => after_open(bytes),
        NamedWord::Join => after_join(bytes),
    }
}

fn after_open(bytes: &[u8]) -> Option<&[u8]>
    ensures { IfSome result (λ rest. bytes.now ≡ codes "open" ++ 32 ∷ rest.now) }
{
    match bytes {
        [b'o', b'p', b'e', b'n', b' ', rest @ ..] => Some(rest),
        _ => None,
    }
}

fn after_join(bytes: &[u8]) -> Option<&[u8]>
    ensures { IfSome result (λ rest. bytes.now ≡ codes "join" ++ 32 ∷ rest.now) }
{
    match bytes {
        [b'j', b'o', b'i', b'n', b' ', rest @ ..] => Some(rest),
        _ => None,
    }
}

// The id that the digits before the first blank are, and the bytes after that blank.
#[inline(always)]
fn id_of(bytes: &[u8]) -> Option<(u32, &[u8])>
    ensures { IfSome result (λ cut. IsIdBefore bytes.now cut.0 cut.1.now) }
{
    let mut value = 0u64;
    for at in 0..bytes.len().min(MAX_DIGITS + 1) {
        let byte = bytes[at];
        if byte == b' ' {
            return id_before(bytes, at, value);
        }
        if byte < b'0' || byte > b'9' {
            return None;
        }
        value = value * 10 + u64::from(byte - b'0');
    }
    None
}

// The id of this value, whose digits end at the blank at this offset, and the bytes after the blank.
#[inline(always)]
fn id_before(bytes: &[u8], at: usize, value: u64) -> Option<(u32, &[u8])>
    requires within { at < length bytes.now }
    requires blank { slice_index bytes.now at ≡ 32 }
    requires few { at ≤ 10 }
    requires digits { AllDigits 10 (take at bytes.now) }
    requires value { value ≡ digits_value 10 (take at bytes.now) }
    ensures { IfSome result (λ cut. IsIdBefore bytes.now cut.0 cut.1.now) }
{
    if at == 0 {
        return None;
    }
    let Ok(id) = u32::try_from(value) else {
        return None;
    };
    Some((id, &bytes[at + 1..]))
}

// The bytes before the first blank, and those after it.
#[inline(always)]
fn word_of(bytes: &[u8]) -> Option<(&[u8], &[u8])>
    ensures { IfSome result (λ cut. IsWordBefore bytes.now cut.0.now cut.1.now) }
{
    for at in 0..bytes.len().min(MAX_WORD_BYTES + 1) {
        if bytes[at] == b' ' {
            return Some((&bytes[..at], &bytes[at + 1..]));
        }
    }
    None
}
