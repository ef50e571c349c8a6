//! Rows of calls of a service.

use crate::fault::{RowsFault, check};
use crate::making::{event_of, is_close, step_of};
use crate::memory::rows::{PUT_CHOICE, PUT_LOOP};
use crate::memory::script_rows::PAGE_BYTES;
use crate::service::{close, push_settling_twice};
use scrib_client::passes::Passes;
use scrib_client::service_reply::{ServiceReply, is_change};
use scrib_client::steps::make_step;
use scrib_core::reply::{Refusal, Reply};
use scrib_library::fault::EditFault;
use scrib_locked_steps::close_calls::CloseRefusal;
use scrib_rejudge::alone::sweep_alone;
use scrib_shards::gate::OpenGate;
use scrib_shards::pass::Pass;
use scrib_shards::pass_calls::PassRefusal;
use scrib_shards::service::Service;
use scrib_types::shared_event::SharedEvent;
use std::alloc::Global;
use std::sync::Wait;

// How many events each pass notes, and after how many of them the protocol is edited.
const EVENTS: usize = 1_000;

const EVENTS_BETWEEN_EDITS: usize = 100;

// Puts of the module's two texts.
const TEXTS: [&str; 2] = [PUT_CHOICE, PUT_LOOP];

// What settling answers, first without the second pass.
const SETTLED: &str =
    "refused PassesMissing 1\n         0     1000 permitted k.K\n         1     1000 permitted k.K\ntotal 2 conversations, 2000 events\n";

// Makes the step of this text, which is to be an edit that changes a protocol, or to open a conversation; and once more
// where memory is refused.
fn make(rt: &impl Wait, alloc: Global, service: &Service, text: &str) -> Result<(), RowsFault> {
    for _ in 0..2 {
        let (_, step) = step_of(alloc, text)?;
        if is_close(&step) {
            return Err(RowsFault::BadRow);
        }
        match make_step(rt, service, &mut Passes::new(alloc), step) {
            ServiceReply::Reply(
                Reply::Refused(Refusal::OutOfMemory | Refusal::Edit(EditFault::OutOfMemory)),
            ) => {}
            ServiceReply::Reply(Reply::Opened { .. }) => return Ok(()),
            reply => return check(is_change(&reply)),
        }
    }
    Err(RowsFault::Again)
}

// Notes the event. Where memory is refused, the pass is to be as before, and the event is noted once more.
fn note(
    rt: &impl Wait,
    service: &Service,
    pass: &mut Pass,
    event: &SharedEvent,
) -> Result<(), RowsFault> {
    let receipts = pass.receipts().len();
    let noted = match service.note(rt, pass, event.copy()?, &OpenGate) {
        Err(PassRefusal::Step(Refusal::OutOfMemory)) => {
            check(pass.receipts().len() == receipts)?;
            service.ask(rt, pass).ok().ok_or(RowsFault::Again)?;
            let again = service.note(rt, pass, event.copy()?, &OpenGate);
            again.ok().ok_or(RowsFault::Again)?
        }
        noted => noted?,
    };
    check(noted.place == receipts + 1 && pass.receipts().len() == receipts + 1)
}

// Notes the events of both passes, while their protocol is edited ten times.
fn note_all(
    rt: &impl Wait,
    alloc: Global,
    service: &Service,
    passes: &mut [Pass],
) -> Result<(), RowsFault> {
    let joined = event_of(alloc, "join 0 A")?;
    let sent = event_of(alloc, "send 0 A B a()")?;
    for number in 0..EVENTS {
        let event = if number == 0 { &joined } else { &sent };
        for pass in passes.iter_mut() {
            note(rt, service, pass, event)?;
        }
        if (number + 1).is_multiple_of(EVENTS_BETWEEN_EDITS) {
            let edits = number / EVENTS_BETWEEN_EDITS;
            make(rt, alloc, service, TEXTS[edits % 2])?;
        }
    }
    Ok(())
}

// Opens two conversations, of which a pass each notes events while their protocol is edited. Gives the passes back.
fn noted(rt: &impl Wait, alloc: Global, service: &Service) -> Result<Vec<Pass>, RowsFault> {
    for text in [PUT_LOOP, "open 0 k.K", "open 1 k.K"] {
        make(rt, alloc, service, text)?;
    }
    let mut passes = Vec::with_capacity(alloc, 2)?;
    passes.push(service.connect(rt, 0)?)?;
    passes.push(service.connect(rt, 1)?)?;
    note_all(rt, alloc, service, &mut passes)?;
    Ok(passes)
}

// Opens a third conversation, of which a pass notes an event, edits its protocol, and closes it. Where memory is refused
// to the close, the conversation and its pass are to be as before, and it is closed once more.
fn close_third(rt: &impl Wait, alloc: Global, service: &Service) -> Result<(), RowsFault> {
    make(rt, alloc, service, "open 2 k.K")?;
    let mut pass = service.connect(rt, 2)?;
    note(rt, service, &mut pass, &event_of(alloc, "join 2 A")?)?;
    make(rt, alloc, service, PUT_CHOICE)?;
    let mut passes = Vec::with_capacity(alloc, 1)?;
    passes.push(pass)?;
    let closed = match close(rt, alloc, service, 2, &mut passes)? {
        Err(CloseRefusal::Step(Refusal::OutOfMemory)) => {
            let pass = passes.first().ok_or(RowsFault::Wrong)?;
            check(pass.receipts().len() == 1)?;
            service.ask(rt, pass).ok().ok_or(RowsFault::Again)?;
            close(rt, alloc, service, 2, &mut passes)?
        }
        closed => closed,
    };
    let closed = closed.ok().ok_or(RowsFault::Again)?;
    check(closed.events == 1 && passes.is_empty())
}

/// Two conversations are noted by a pass each, while their protocol is edited, and a third is closed; a sweep brings
/// verdicts up to date, and the service is settled, first without the second pass.
pub(crate) fn run_passes(rt: &impl Wait, alloc: Global) -> Result<(), RowsFault> {
    let mut service = Service::new(alloc, 2).ok().ok_or(RowsFault::Memory)?;
    let passes = noted(rt, alloc, &service)?;
    close_third(rt, alloc, &service)?;
    if sweep_alone(&mut service).is_err() && sweep_alone(&mut service).is_err() {
        return Err(RowsFault::Again);
    }
    let mut written = Vec::with_capacity(alloc, PAGE_BYTES)?;
    push_settling_twice(alloc, service, passes, &mut written)?;
    check(written.as_slice() == SETTLED.as_bytes())
}
