//! Closes of a service's conversations by their passes.

ghost use Rattle.std.specs.Prelude.{◌≡◌, All, IfOk};

use crate::fault::{RowsFault, check};
use crate::making::{CHOICE, LOOP, event_of, name_of};
use scrib_core::reply::Refusal;
use scrib_locked_steps::close_calls::CloseRefusal;
use scrib_locked_steps::step_results::Closed;
use scrib_shards::gate::OpenGate;
use scrib_shards::pass::Pass;
use scrib_shards::service::Service;
use scrib_types::event::Verdict;
use std::alloc::{AllocError, Global};
use std::mem;
use std::sync::Wait;

// How often conversations are opened and closed, how many at a time, and how many events each has.
const ROUNDS: usize = 8;

const CONVERSATIONS: u32 = 32;

const EVENTS: usize = 600;

/// Closes the conversation with those of the passes that are of it, which are taken out of the list. If that is refused,
/// they are put back.
pub(crate) fn close(
    rt: &impl Wait,
    alloc: Global,
    service: &Service,
    id: u32,
    passes: &mut Vec<Pass>,
) -> Result<Result<Closed, CloseRefusal>, RowsFault> {
    let all = mem::replace(passes, Vec::new(alloc));
    let (own, others) = split(alloc, all, id)?;
    *passes = others;
    match service.close(rt, id, own, &OpenGate) {
        Ok(closed) => Ok(Ok(closed)),
        Err((refusal, mut own)) => {
            passes.append(&mut own)?;
            Ok(Err(refusal))
        }
    }
}

// The passes of the conversation, and all others.
fn split(alloc: Global, passes: Vec<Pass>, id: u32) -> Result<(Vec<Pass>, Vec<Pass>), AllocError>
    ensures { IfOk result (λ parts. All (λ p. p.conversation ≡ id) parts.0.items) }
{
    let mut own = Vec::new(alloc);
    let mut others = Vec::new(alloc);
    for pass in passes {
        if pass.conversation() == id {
            own.push(pass)?;
        } else {
            others.push(pass)?;
        }
    }
    Ok((own, others))
}

// Opens conversations of a protocol of one message, and notes as many events in each. Returns the passes.
fn opened(rt: &impl Wait, alloc: Global, service: &Service) -> Result<Vec<Pass>, RowsFault> {
    let name = name_of(alloc, "open 0 k.K")?;
    let mut passes = Vec::new(alloc);
    for id in 0..CONVERSATIONS {
        service.open(rt, id, &name)?;
        let mut pass = service.connect(rt, id)?;
        note_often(rt, alloc, service, &mut pass)?;
        passes.push(pass)?;
    }
    Ok(passes)
}

// Notes that A joins, and then that it sends.
fn note_often(
    rt: &impl Wait,
    alloc: Global,
    service: &Service,
    pass: &mut Pass,
) -> Result<(), RowsFault> {
    let sent = event_of(alloc, "send 0 A B a()")?;
    service.note(rt, pass, event_of(alloc, "join 0 A")?, &OpenGate)?;
    for _ in 1..EVENTS {
        service.note(rt, pass, sent.copy()?, &OpenGate)?;
    }
    Ok(())
}

/// Opens conversations, edits their protocol so that all are stale, and closes them, several times. How many were
/// closed.
pub(crate) fn close_in_rounds(
    rt: &impl Wait,
    alloc: Global,
    service: &Service,
) -> Result<usize, RowsFault> {
    let mut closed: usize = 0;
    for round in 0..ROUNDS {
        let passes = opened(rt, alloc, service)?;
        let text = if round % 2 == 0 { CHOICE } else { LOOP };
        service.put(rt, text.as_bytes()).map_err(Refusal::Edit)?;
        closed = closed.saturating_add(close_each(rt, alloc, service, passes)?);
    }
    Ok(closed)
}

// Closes the conversations of the passes. Each close is to return the verdict on the whole log. How many were closed.
fn close_each(
    rt: &impl Wait,
    alloc: Global,
    service: &Service,
    mut passes: Vec<Pass>,
) -> Result<usize, RowsFault> {
    let mut closed: usize = 0;
    for id in 0..CONVERSATIONS {
        let Ok(one) = close(rt, alloc, service, id, &mut passes)? else {
            return Err(RowsFault::Wrong);
        };
        check(one.events == EVENTS && matches!(one.verdict, Verdict::Permitted))?;
        closed = closed.saturating_add(1);
    }
    Ok(closed)
}
