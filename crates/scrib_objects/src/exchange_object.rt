//! Exchanges as objects that are spelled as the program prints its own: keys in the order of their bytes, no blanks, no
//! escapes and no other members. Most lines of a long log may be such, and they need no tree of members.

ghost use Rattle.std.specs.Prelude.{◌≡◌, ◌≤◌, ◌∷◌, true, take, length, IfSome, codes};
ghost use Rattle.scrib_objects.specs.ExchangeObjects as spec;

use crate::object_options::ObjectOptions;
use json::is_number;
use scrib_labels::tag::MAX_TAG_BYTES;
use scrib_types::bytes::same_bytes;
use simdutf8::basic::from_utf8;

/// The fields of an object that stands for a send or a reception, and its tag.
#[derive(Clone, Copy)]
pub struct ExchangeObject<'a> {
    /// `send` or `recv`.
    pub word: &'a [u8],
    pub id: &'a [u8],
    pub from: &'a [u8],
    pub to: &'a [u8],
    pub message: &'a [u8],
    pub tag: Option<&'a [u8]>,
}

/// Bytes up to a quote, and what is behind it.
#[derive(Clone, Copy)]
pub(crate) struct Quoted<'a> {
    pub(crate) text: &'a [u8],
    pub(crate) rest: &'a [u8],
}

/// A conversation's number, or where it is quoted its name, and what is behind it.
#[derive(Clone, Copy)]
pub(crate) struct IdValue<'a> {
    pub(crate) text: &'a [u8],
    pub(crate) quoted: bool,
    pub(crate) rest: &'a [u8],
}

/// A tag, if there is one, and what is behind it.
#[derive(Clone, Copy)]
pub(crate) struct TagValue<'a> {
    pub(crate) tag: Option<&'a [u8]>,
    pub(crate) rest: &'a [u8],
}

/// Returns what the line stands for, where it is spelled as `{"do":"send","from":"A","id":1,"message":"hello()","to":"B"}`,
/// or with `recv`, or with `"tag":"17",` in front of `"to"`. None of other lines, some of which are objects that stand for
/// an exchange.
pub fn exchange_object(options: ObjectOptions, line: &[u8]) -> Option<ExchangeObject<'_>>
    ensures { IfSome result (spec.IsExchangeObject options line.now) }
{
    let word = quoted_text(behind_do(line)?)?;
    if !is_exchange(word.text) {
        return None;
    }
    let from = quoted_text(behind_from(word.rest)?)?;
    let id = id_value(options.names, behind_id(from.rest)?)?;
    let message = quoted_text(behind_message(id.rest)?)?;
    let TagValue { tag, rest } = tag_value(options.tags, message.rest)?;
    let to = quoted_text(behind_to(rest)?)?;
    if !is_end(to.rest) {
        return None;
    }
    let Ok(_) = from_utf8(line) else {
        return None;
    };
    Some(ExchangeObject {
        word: word.text,
        id: id.text,
        from: from.text,
        to: to.text,
        message: message.text,
        tag,
    })
}

/// Returns whether the word is that of a send or a reception.
pub(crate) fn is_exchange(word: &[u8]) -> bool
    ensures { result ≡ spec.is_exchange word.now }
{
    same_bytes(word, b"send") || same_bytes(word, b"recv")
}

fn is_end(bytes: &[u8]) -> bool
    ensures { result ≡ true → bytes.now ≡ codes "}" }
{
    bytes == b"}".as_slice()
}

#[inline(always)]
fn behind_do(bytes: &[u8]) -> Option<&[u8]>
    ensures { IfSome result (λ rest. bytes.now ≡ 123 ∷ 34 ∷ 100 ∷ 111 ∷ 34 ∷ 58 ∷ 34 ∷ rest.now) }
{
    match bytes {
        [b'{', b'"', b'd', b'o', b'"', b':', b'"', rest @ ..] => Some(rest),
        _ => None,
    }
}

#[inline(always)]
fn behind_from(bytes: &[u8]) -> Option<&[u8]>
    ensures { IfSome result (λ rest. bytes.now
        ≡ 44 ∷ 34 ∷ 102 ∷ 114 ∷ 111 ∷ 109 ∷ 34 ∷ 58 ∷ 34 ∷ rest.now) }
{
    match bytes {
        [
            b',',
            b'"',
            b'f',
            b'r',
            b'o',
            b'm',
            b'"',
            b':',
            b'"',
            rest @ ..,
        ] => Some(rest),
        _ => None,
    }
}

#[inline(always)]
fn behind_id(bytes: &[u8]) -> Option<&[u8]>
    ensures { IfSome result (λ rest. bytes.now ≡ 44 ∷ 34 ∷ 105 ∷ 100 ∷ 34 ∷ 58 ∷ rest.now) }
{
    match bytes {
        [b',', b'"', b'i', b'd', b'"', b':', rest @ ..] => Some(rest),
        _ => None,
    }
}

#[inline(always)]
fn behind_message(bytes: &[u8]) -> Option<&[u8]>
    ensures { IfSome result (λ rest. bytes.now
        ≡ 44 ∷ 34 ∷ 109 ∷ 101 ∷ 115 ∷ 115 ∷ 97 ∷ 103 ∷ 101 ∷ 34 ∷ 58 ∷ 34 ∷ rest.now) }
{
    match bytes {
        [
            b',',
            b'"',
            b'm',
            b'e',
            b's',
            b's',
            b'a',
            b'g',
            b'e',
            b'"',
            b':',
            b'"',
            rest @ ..,
        ] => Some(rest),
        _ => None,
    }
}

#[inline(always)]
fn behind_tag(bytes: &[u8]) -> Option<&[u8]>
    ensures { IfSome result (λ rest. bytes.now ≡ 44 ∷ 34 ∷ 116 ∷ 97 ∷ 103 ∷ 34 ∷ 58 ∷ 34 ∷ rest.now) }
{
    match bytes {
        [b',', b'"', b't', b'a', b'g', b'"', b':', b'"', rest @ ..] => Some(rest),
        _ => None,
    }
}

#[inline(always)]
fn behind_to(bytes: &[u8]) -> Option<&[u8]>
    ensures { IfSome result (λ rest. bytes.now ≡ 44 ∷ 34 ∷ 116 ∷ 111 ∷ 34 ∷ 58 ∷ 34 ∷ rest.now) }
{
    match bytes {
        [b',', b'"', b't', b'o', b'"', b':', b'"', rest @ ..] => Some(rest),
        _ => None,
    }
}

// The plain bytes up to a quote, one at least, and what is behind it.
#[inline(always)]
fn quoted_text(bytes: &[u8]) -> Option<Quoted<'_>>
    ensures { IfSome result (spec.IsQuoted bytes.now) }
{
    let len = plain_len(bytes);
    if len == 0 || bytes.get(len).copied() != Some(b'"') {
        return None;
    }
    Some(Quoted {
        text: &bytes[..len],
        rest: &bytes[len + 1..],
    })
}

// The number of plain bytes that the bytes begin with.
fn plain_len(bytes: &[u8]) -> usize
    ensures plain { spec.all_plain (take result bytes.now) ≡ true }
    ensures within { result ≤ length bytes.now }
{
    for at in 0..bytes.len() {
        if !is_plain(bytes[at]) {
            return at;
        }
    }
    bytes.len()
}

// Whether the byte is visible, needs no escape and is no quote.
#[inline(always)]
fn is_plain(byte: u8) -> bool
    ensures { result ≡ spec.is_plain byte }
{
    b'!' <= byte && byte <= b'~' && byte != b'"' && byte != b'\\'
}

/// Returns the value of `id`: a number of digits, or where conversations have names also a string of plain bytes.
#[inline(always)]
pub(crate) fn id_value(names: bool, bytes: &[u8]) -> Option<IdValue<'_>>
    ensures { IfSome result (spec.IsIdValue names bytes.now) }
{
    match bytes {
        [b'"', rest @ ..] if names => {
            let Quoted { text, rest } = quoted_text(rest)?;
            Some(IdValue {
                text,
                quoted: true,
                rest,
            })
        }
        _ => number_value(bytes),
    }
}

// A number of digits alone.
#[inline(always)]
fn number_value(bytes: &[u8]) -> Option<IdValue<'_>>
    ensures { IfSome result (spec.IsNumberValue bytes.now) }
{
    let len = digits_len(bytes);
    let text = &bytes[..len];
    let Ok(digits) = str::from_utf8(text) else {
        return None;
    };
    if !is_number(digits) {
        return None;
    }
    Some(IdValue {
        text,
        quoted: false,
        rest: &bytes[len..],
    })
}

// The number of digits that the bytes begin with.
fn digits_len(bytes: &[u8]) -> usize
    ensures { result ≤ length bytes.now }
{
    for at in 0..bytes.len() {
        if !bytes[at].is_ascii_digit() {
            return at;
        }
    }
    bytes.len()
}

// The member `tag`, if it comes next, where lines may have tags. None where its text is too long for a tag.
#[inline(always)]
fn tag_value(tags: bool, bytes: &[u8]) -> Option<TagValue<'_>>
    ensures { IfSome result (spec.IsTagValue tags bytes.now) }
{
    let Some(behind) = behind_tag(bytes) else {
        return Some(TagValue {
            tag: None,
            rest: bytes,
        });
    };
    let Quoted { text, rest } = quoted_text(behind)?;
    if text.len() > MAX_TAG_BYTES {
        return None;
    }
    let tag = if tags { Some(text) } else { None };
    Some(TagValue { tag, rest })
}
