//! What examples are made of.

ghost use Rattle.std.specs.Prelude.{◌≡◌, None, false};
ghost use Rattle.scrib_client.specs.Steps.{is_close};

use crate::fault::RowsFault;
use scrib_cli::run_script::run_script;
use scrib_core::format::Format;
use scrib_core::step::Step;
use scrib_run_service::options::Options;
use scrib_run_service::progress::StandardError;
use scrib_run_service::run_service::run_service;
use scrib_run_service::shape::Shape;
use scrib_script_reader::item::Item;
use scrib_script_reader::line::{Line, line_of};
use scrib_script_reader::script::Script;
use scrib_types::containers::Items;
use scrib_types::name::Dotted;
use scrib_types::shared_event::SharedEvent;
use std::alloc::Global;
use std::io::Stderr;
use std::sync::Wait;
use std::thread::Threads;

/// A protocol of two messages.
pub(crate) const DEMO: &str =
    "module demo; global protocol Hello(role A, role B) { hello() from A to B; bye() from B to A; }";

/// A protocol of one message, over and over.
pub(crate) const LOOP: &str =
    "module k; global protocol K(role A, role B) { rec X { a() from A to B; continue X; } }";

/// The same protocol with a choice of two messages.
pub(crate) const CHOICE: &str =
    "module k; global protocol K(role A, role B) { rec X { choice at A { a() from A to B; continue X; } or { b() from A to B; continue X; } } }";

/// The step that a line of a script contains, or `put` and a module text, and the format of its reply.
pub(crate) fn step_of(alloc: Global, text: &str) -> Result<(Format, Step), RowsFault> {
    if let Some(text) = text.strip_prefix("put ") {
        let text = Items::from_slice(alloc, text.as_bytes())?;
        return Ok((Format::Line, Step::Put { text }));
    }
    match line_of(alloc, text.as_bytes())? {
        Line::Step(format, step) => Ok((format, step)),
        _ => Err(RowsFault::BadRow),
    }
}

/// The event that a line of a script notes.
pub(crate) fn event_of(alloc: Global, text: &str) -> Result<SharedEvent, RowsFault> {
    match step_of(alloc, text)? {
        (_, Step::Note { event, .. }) => Ok(event),
        _ => Err(RowsFault::BadRow),
    }
}

/// The name of the protocol of which a line of a script opens a conversation.
pub(crate) fn name_of(alloc: Global, text: &str) -> Result<Dotted, RowsFault> {
    match step_of(alloc, text)? {
        (_, Step::Open { name, .. }) => Ok(name),
        _ => Err(RowsFault::BadRow),
    }
}

/// The steps of a script. Lines that are no steps are left out.
pub(crate) fn steps_of(alloc: Global, script: &str) -> Result<Vec<Step>, RowsFault> {
    let mut steps = Vec::new(alloc);
    let mut reading = Script::new(alloc);
    let mut rest = script.as_bytes();
    while !rest.is_empty() {
        let Ok((item, after)) = reading.next_item(rest) else {
            return Err(RowsFault::Wrong);
        };
        if let Some(Item::Step(_, step)) = item {
            steps.push(step)?;
        }
        rest = after;
    }
    match reading.last_item() {
        Ok(Some(Item::Step(_, step))) => steps.push(step)?,
        Ok(_) => {}
        Err(_) => return Err(RowsFault::Wrong),
    }
    Ok(steps)
}

/// The id of the conversation that the step closes, if it closes one.
pub(crate) fn closed_id(step: &Step) -> Option<u32>
    ensures { result ≡ None → is_close step.now ≡ false }
{
    match step {
        Step::Close { id } => Some(*id),
        _ => None,
    }
}

/// Whether the step closes a conversation, which no connection does.
pub(crate) fn is_close(step: &Step) -> bool
    ensures { result ≡ is_close step.now }
{
    matches!(step, Step::Close { .. })
}

/// What one monitor prints for the script, in this format.
pub(crate) fn watched(alloc: Global, format: Format, script: &str) -> Result<String, RowsFault> {
    let mut printed = Vec::new(alloc);
    run_script(alloc, format, &mut script.as_bytes(), &mut printed)?;
    String::from_utf8(printed).ok().ok_or(RowsFault::Wrong)
}

/// Runs a setup and scripts of connections over a service of two shards and two workers, and adds what is printed.
pub(crate) fn run_connections<R: Threads + Wait + Sync>(
    rt: &R,
    alloc: Global,
    format: Format,
    (setup, scripts): (&str, &[String]),
    out: &mut Vec<u8>,
) -> Result<(), RowsFault> {
    let mut connections = Vec::new(alloc);
    for script in scripts {
        connections.push(script.as_bytes())?;
    }
    let options = Options {
        shape: Shape::new(2, 2).ok().ok_or(RowsFault::BadRow)?,
        format,
        progress: None::<StandardError<'_, Stderr>>,
    };
    run_service(rt, alloc, &options, &mut setup.as_bytes(), connections, out)?;
    Ok(())
}
