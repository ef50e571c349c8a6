//! Exchanges as objects whose members come in any order, with any blanks, but without escapes and other members. They
//! need no tree of members.

ghost use Rattle.std.specs.Prelude.{◌≡◌, ◌∷◌, ◌++◌, None, IfSome, OnSome, ℕ, List, not, ◌||◌, option_map, true};
ghost use Rattle.scrib_objects.specs.ExchangeMembers as spec;
ghost use Rattle.scrib_objects.specs.ExchangeObjects.{IsExchangeObject};

use crate::exchange_object::{ExchangeObject, IdValue, id_value, is_exchange};
use crate::members::is_blank;
use crate::object_options::ObjectOptions;
use scrib_labels::tag::MAX_TAG_BYTES;
use simdutf8::basic::from_utf8;

// The most members of an exchange.
const MAX_MEMBERS: usize = 6;

/// The members of an exchange that are read so far.
#[derive(Clone, Copy)]
pub(crate) struct ExchangeMembers<'a> {
    pub(crate) word: Option<&'a [u8]>,
    pub(crate) from: Option<&'a [u8]>,
    pub(crate) id: Option<IdValue<'a>>,
    pub(crate) message: Option<&'a [u8]>,
    pub(crate) tag: Option<&'a [u8]>,
    pub(crate) to: Option<&'a [u8]>,
}

/// The key of a member of an exchange.
#[derive(Clone, Copy)]
pub(crate) enum MemberKey {
    Do,
    From,
    Id,
    Message,
    Tag,
    To,
}

/// A key, and what is behind its quote.
#[derive(Clone, Copy)]
pub(crate) struct KeyText<'a> {
    pub(crate) key: MemberKey,
    pub(crate) rest: &'a [u8],
}

/// A member, and what is behind its value.
#[derive(Clone, Copy)]
pub(crate) struct Member<'a> {
    pub(crate) key: MemberKey,
    pub(crate) value: IdValue<'a>,
}

/// Returns the send or the reception that the object in the line stands for, where its members come in any order and
/// with any blanks and tabs around them. None of other lines, some of which stand for an exchange: of those with
/// escapes, and with members other than `do`, `from`, `id`, `message`, `tag` and `to`.
#[inline(never)]
pub fn exchange_in_any_order(options: ObjectOptions, line: &[u8]) -> Option<ExchangeObject<'_>>
    ensures { IfSome result (IsExchangeObject options line.now) }
{
    let members = read_members(line)?;
    let object = exchange_of(options, members)?;
    let Ok(_) = from_utf8(line) else {
        return None;
    };
    Some(object)
}

// The members of the object, each of which an exchange may have and comes once.
#[inline(always)]
fn read_members(line: &[u8]) -> Option<ExchangeMembers<'_>>
    ensures { IfSome result (spec.SpellsMembers line.now) }
{
    let mut members = no_members();
    let mut rest = behind_brace(after_blanks(line))?;
    for _ in 0..MAX_MEMBERS {
        let member = next_member(rest)?;
        members.add(member)?;
        let behind = after_blanks(member.value.rest);
        let Some(next) = behind_comma(behind) else {
            return if is_object_end(behind) {
                Some(members)
            } else {
                None
            };
        };
        rest = next;
    }
    None
}

// No member yet.
#[inline(always)]
fn no_members<'a>() -> ExchangeMembers<'a>
    ensures { (key : List ℕ) → spec.value_under result key ≡ None }
{
    ExchangeMembers {
        word: None,
        from: None,
        id: None,
        message: None,
        tag: None,
        to: None,
    }
}

// The member that comes next.
#[inline(always)]
fn next_member(bytes: &[u8]) -> Option<Member<'_>>
    ensures { IfSome result (spec.IsMember bytes.now) }
{
    let KeyText { key, rest } = member_key(after_blanks(bytes))?;
    let behind = behind_colon(after_blanks(rest))?;
    let value = id_value(true, after_blanks(behind))?;
    Some(Member { key, value })
}

impl<'a> ExchangeMembers<'a> {
    // Adds the member. None where its key comes again, or its value is of another kind.
    #[inline(always)]
    fn add(&mut self, member: Member<'a>) -> Option<()>
        ensures { OnSome result (spec.IsAdded self.old (spec.key_text member.entry.key)
            (spec.value_of member.entry.value) self.new) }
    {
        let Member { key, value } = member;
        match key {
            MemberKey::Do => fill_text(&mut self.word, value),
            MemberKey::From => fill_text(&mut self.from, value),
            MemberKey::Id => fill_id(&mut self.id, value),
            MemberKey::Message => fill_text(&mut self.message, value),
            MemberKey::Tag => fill_text(&mut self.tag, value),
            MemberKey::To => fill_text(&mut self.to, value),
        }
    }
}

// Fills an empty place with a string.
#[inline(always)]
fn fill_text<'a>(place: &mut Option<&'a [u8]>, value: IdValue<'a>) -> Option<()>
    ensures { OnSome result (spec.IsFilled (option_map spec.text_value place.old) (spec.value_of value.entry)
        (option_map spec.text_value place.new)) }
{
    if place.is_some() || !value.quoted {
        return None;
    }
    *place = Some(value.text);
    Some(())
}

// Fills an empty place with a number or a string.
#[inline(always)]
fn fill_id<'a>(id: &mut Option<IdValue<'a>>, value: IdValue<'a>) -> Option<()>
    ensures { OnSome result (spec.IsFilled (option_map spec.value_of id.old) (spec.value_of value.entry)
        (option_map spec.value_of id.new)) }
{
    if id.is_some() {
        return None;
    }
    *id = Some(value);
    Some(())
}

#[inline(always)]
fn behind_brace(bytes: &[u8]) -> Option<&[u8]>
    ensures { IfSome result (λ rest. bytes.now ≡ 123 ∷ rest.now) }
{
    match bytes {
        [b'{', rest @ ..] => Some(rest),
        _ => None,
    }
}

#[inline(always)]
fn behind_colon(bytes: &[u8]) -> Option<&[u8]>
    ensures { IfSome result (λ rest. bytes.now ≡ 58 ∷ rest.now) }
{
    match bytes {
        [b':', rest @ ..] => Some(rest),
        _ => None,
    }
}

#[inline(always)]
fn behind_comma(bytes: &[u8]) -> Option<&[u8]>
    ensures { IfSome result (λ rest. bytes.now ≡ 44 ∷ rest.now) }
{
    match bytes {
        [b',', rest @ ..] => Some(rest),
        _ => None,
    }
}

// Whether the object ends here, with blanks behind it alone.
#[inline(always)]
fn is_object_end(bytes: &[u8]) -> bool
    ensures { result ≡ true → spec.IsObjectEnd bytes.now }
{
    match bytes {
        [b'}', rest @ ..] => after_blanks(rest).is_empty(),
        _ => false,
    }
}

// What is behind blanks and tabs.
#[inline(always)]
fn after_blanks(bytes: &[u8]) -> &[u8]
    ensures { spec.SkipsBlanks bytes.now result.now }
{
    for at in 0..bytes.len() {
        if !is_blank(bytes[at]) {
            return &bytes[at..];
        }
    }
    &bytes[bytes.len()..]
}

// The key of an exchange that comes next, in quotes.
#[inline(always)]
fn member_key(bytes: &[u8]) -> Option<KeyText<'_>>
    ensures { IfSome result (λ k. bytes.now ≡ 34 ∷ (spec.key_text k.key ++ 34 ∷ k.rest.now)) }
{
    let (key, rest) = match bytes {
        [b'"', b'd', b'o', b'"', rest @ ..] => (MemberKey::Do, rest),
        [b'"', b'f', b'r', b'o', b'm', b'"', rest @ ..] => (MemberKey::From, rest),
        [b'"', b'i', b'd', b'"', rest @ ..] => (MemberKey::Id, rest),
        [
            b'"',
            b'm',
            b'e',
            b's',
            b's',
            b'a',
            b'g',
            b'e',
            b'"',
            rest @ ..,
        ] => { (MemberKey::Message, rest) }
        [b'"', b't', b'a', b'g', b'"', rest @ ..] => (MemberKey::Tag, rest),
        [b'"', b't', b'o', b'"', rest @ ..] => (MemberKey::To, rest),
        _ => return None,
    };
    Some(KeyText { key, rest })
}

// The exchange that an object with these members stands for.
#[inline(always)]
fn exchange_of<'a>(
    options: ObjectOptions,
    members: ExchangeMembers<'a>,
) -> Option<ExchangeObject<'a>>
    ensures { IfSome result (spec.StandsForExchange options members.entry) }
{
    let word = members.word?;
    if !is_exchange(word) {
        return None;
    }
    let id = members.id?;
    if !is_allowed(options.names, id) {
        return None;
    }
    let from = members.from?;
    let to = members.to?;
    let message = members.message?;
    let tag = shown_tag(options.tags, members.tag)?;
    Some(ExchangeObject {
        word,
        id: id.text,
        from,
        to,
        message,
        tag,
    })
}

// Whether the conversation may be so: a number, or where conversations have names also a string.
#[inline(always)]
fn is_allowed(names: bool, id: IdValue<'_>) -> bool
    ensures { result ≡ (not id.entry.quoted || names) }
{
    !id.quoted || names
}

// The tag of the line, where lines have tags. None at all where it is too long.
#[inline(always)]
fn shown_tag<'a>(tags: bool, text: Option<&'a [u8]>) -> Option<Option<&'a [u8]>>
    ensures { IfSome result (spec.IsShownTag tags text.entry) }
{
    if !tags {
        return Some(None);
    }
    let Some(tag) = text else {
        return Some(None);
    };
    if tag.len() > MAX_TAG_BYTES {
        return None;
    }
    Some(Some(tag))
}
