//! Parses the fields of a line into a step.

ghost use Rattle.std.specs.Prelude.{◌≡◌, IfOk, map, codes};
ghost use Rattle.scrib_types.specs.Texts.{profile_word};
ghost use Rattle.scrib_script_reader.specs.Fields.{Finds};
ghost use Rattle.scrib_script_reader.specs.Steps.{MakesWithId, Edits, MakesStep};

use crate::exchange::{Exchange, exchange_of};
use crate::text::{dotted_of, number_of};
use scrib_core::step::Step;
use scrib_types::event::Event;
use scrib_types::name::Name;
use scrib_types::profile::Profile;
use scrib_types::shared_event::SharedEvent;
use std::alloc::{AllocError, Global};

// The step that the fields spell, if they spell one.
pub(crate) fn step_of(alloc: Global, fields: &[&[u8]]) -> Result<Option<Step>, AllocError>
    ensures { IfOk result (Finds (MakesStep (map (λ field. field.now) fields.now))) }
{
    let [word, first, rest @ ..] = fields else {
        return Ok(None);
    };
    if *word == b"withdraw".as_slice() {
        return withdraw_of(alloc, first, rest);
    }
    if *word == b"profile".as_slice() {
        return Ok(profile_of(first, rest));
    }
    let Some(id) = number_of(first) else {
        return Ok(None);
    };
    step_with(alloc, word, id, rest)
}

// The step that the word, the id and the fields after them spell, if they spell one.
fn step_with(
    alloc: Global,
    word: &[u8],
    id: u32,
    fields: &[&[u8]],
) -> Result<Option<Step>, AllocError>
    ensures { IfOk result (Finds (MakesWithId word.now id (map (λ field. field.now) fields.now))) }
{
    if word == b"open".as_slice() {
        return open_of(alloc, id, fields);
    }
    if word == b"join".as_slice() {
        return join_of(alloc, id, fields);
    }
    if word == b"send".as_slice() {
        return send_of(alloc, id, fields);
    }
    if word == b"recv".as_slice() {
        return recv_of(alloc, id, fields);
    }
    if word == b"turn".as_slice() && fields.is_empty() {
        return Ok(Some(Step::Turn { id }));
    }
    if word == b"ask".as_slice() && fields.is_empty() {
        return Ok(Some(Step::Ask { id }));
    }
    if word == b"close".as_slice() && fields.is_empty() {
        return Ok(Some(Step::Close { id }));
    }
    Ok(None)
}

// The withdrawal of the module of this name, if there are no further fields.
fn withdraw_of(alloc: Global, text: &[u8], fields: &[&[u8]]) -> Result<Option<Step>, AllocError>
    ensures { IfOk result (Finds (Edits (codes "withdraw") text.now (map (λ field. field.now) fields.now))) }
{
    if !fields.is_empty() {
        return Ok(None);
    }
    let Some(name) = dotted_of(alloc, text)? else {
        return Ok(None);
    };
    Ok(Some(Step::Withdraw { name }))
}

// The change to the profile of this word, if there are no further fields.
fn profile_of(text: &[u8], fields: &[&[u8]]) -> Option<Step>
    ensures { Finds (Edits (codes "profile") text.now (map (λ field. field.now) fields.now)) result }
{
    if !fields.is_empty() {
        return None;
    }
    let profile = profile_named(text)?;
    Some(Step::Profile { profile })
}

// The profile that has this word, if one does.
fn profile_named(text: &[u8]) -> Option<Profile>
    ensures { Finds (λ profile. text.now ≡ profile_word profile) result }
{
    if text == Profile::Plain.word().as_bytes() {
        return Some(Profile::Plain);
    }
    if text == Profile::Reception.word().as_bytes() {
        return Some(Profile::Reception);
    }
    None
}

fn open_of(alloc: Global, id: u32, fields: &[&[u8]]) -> Result<Option<Step>, AllocError>
    ensures { IfOk result (Finds (MakesWithId (codes "open") id (map (λ field. field.now) fields.now))) }
{
    let [text] = fields else {
        return Ok(None);
    };
    let Some(name) = dotted_of(alloc, text)? else {
        return Ok(None);
    };
    Ok(Some(Step::Open { id, name }))
}

fn join_of(alloc: Global, id: u32, fields: &[&[u8]]) -> Result<Option<Step>, AllocError>
    ensures { IfOk result (Finds (MakesWithId (codes "join") id (map (λ field. field.now) fields.now))) }
{
    let [role] = fields else {
        return Ok(None);
    };
    let Some(role) = Name::from_bytes(alloc, role)? else {
        return Ok(None);
    };
    let event = SharedEvent::new(alloc, Event::Join { role })?;
    Ok(Some(Step::Note { id, event }))
}

fn send_of(alloc: Global, id: u32, fields: &[&[u8]]) -> Result<Option<Step>, AllocError>
    ensures { IfOk result (Finds (MakesWithId (codes "send") id (map (λ field. field.now) fields.now))) }
{
    let Some(exchange) = exchange_of(alloc, fields)? else {
        return Ok(None);
    };
    let Exchange { from, to, message } = exchange;
    let event = SharedEvent::new(alloc, Event::Sent { from, to, message })?;
    Ok(Some(Step::Note { id, event }))
}

fn recv_of(alloc: Global, id: u32, fields: &[&[u8]]) -> Result<Option<Step>, AllocError>
    ensures { IfOk result (Finds (MakesWithId (codes "recv") id (map (λ field. field.now) fields.now))) }
{
    let Some(exchange) = exchange_of(alloc, fields)? else {
        return Ok(None);
    };
    let Exchange { from, to, message } = exchange;
    let event = SharedEvent::new(alloc, Event::Received { from, to, message })?;
    Ok(Some(Step::Note { id, event }))
}
