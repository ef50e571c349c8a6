//! The arrows of a diagram.

ghost use Rattle.std.specs.Prelude.{◌≡◌, ◌≤◌, ◌++◌, IfOk, OnOk, drop, length, false, true};
ghost use Rattle.scrib_global.specs.Explained.{flight};
ghost use Rattle.scrib_show.specs.ChartLines as chart;

use crate::participants::push_alias;
use scrib_global::explain::Flight;
use scrib_types::event::Event;
use scrib_types::name::Role;
use scrib_types::shared_event::SharedEvent;
use scrib_types::shared_message::SharedMessage;
use scrib_types::text::{push_bytes, push_message};
use std::alloc::AllocError;

// How many messages the log's receptions receive.
pub(crate) fn count_received(log: &[SharedEvent]) -> usize
    ensures is { result ≡ length (chart.received log.now) }
    ensures few { result ≤ length log.now }
{
    let mut count = 0;
    for event in log {
        if is_reception(event.get()) {
            count += 1;
        }
    }
    count
}

// Whether the event is a reception.
fn is_reception(event: &Event) -> bool
    ensures { result ≡ chart.is_reception event.now }
{
    matches!(event, Event::Received { .. })
}

// Adds an arrow for each message that was received, but for the first ones. It fails where memory for the longer text
// is refused, as do the functions below.
pub(crate) fn push_received(
    out: &mut Vec<u8>,
    roles: &[Role],
    log: &[SharedEvent],
    left_out: usize,
) -> Result<(), AllocError>
    ensures { OnOk result (out.new.items ≡ out.old.items
        ++ chart.arrow_lines roles.now false (drop left_out (chart.received log.now))) }
{
    let mut left = left_out;
    for event in log {
        left = push_reception(out, roles, event.get(), left)?;
    }
    Ok(())
}

// Adds the arrow of the event where it is a reception, and none is left to be left out. Returns how many are left then.
fn push_reception(
    out: &mut Vec<u8>,
    roles: &[Role],
    event: &Event,
    left: usize,
) -> Result<usize, AllocError>
    ensures { IfOk result (λ more.
        chart.AddsReception roles.now event.now left more out.old.items out.new.items) }
{
    match event {
        Event::Received { from, to, message } => {
            if left > 0 {
                return Ok(left - 1);
            }
            let arrow = Arrow {
                from,
                to,
                message,
                open_head: false,
            };
            push_arrow(out, roles, arrow)?;
            Ok(0)
        }
        _ => Ok(left),
    }
}

// Adds an open arrow for each message in flight, but for the first ones.
pub(crate) fn push_open(
    out: &mut Vec<u8>,
    roles: &[Role],
    flights: &[Flight],
    left_out: usize,
) -> Result<(), AllocError>
    requires { left_out ≤ length flights.now }
    ensures { OnOk result
        (out.new.items ≡ out.old.items ++ chart.arrow_lines roles.now true (drop left_out flights.now)) }
{
    for i in left_out..flights.len() {
        let arrow = Arrow {
            from: &flights[i].from,
            to: &flights[i].to,
            message: &flights[i].message,
            open_head: true,
        };
        push_arrow(out, roles, arrow)?;
    }
    Ok(())
}

// A message between two roles, and whether its arrow has an open head.
#[derive(Clone, Copy)]
struct Arrow<'a> {
    from: &'a Role,
    to: &'a Role,
    message: &'a SharedMessage,
    open_head: bool,
}

// Adds the line of the message.
#[tactic(auto, unfolding(crate::specs::ChartLines::arrow_line))]
fn push_arrow(out: &mut Vec<u8>, roles: &[Role], arrow: Arrow<'_>) -> Result<(), AllocError>
    ensures { OnOk result (out.new.items ≡ out.old.items ++ chart.arrow_line roles.now arrow.entry.open_head
        (flight arrow.entry.from.now arrow.entry.to.now arrow.entry.message.now)) }
{
    push_bytes(out, b"    ")?;
    push_alias(out, role_place(arrow.from, roles))?;
    push_bytes(out, arrow_text(arrow.open_head).as_bytes())?;
    push_alias(out, role_place(arrow.to, roles))?;
    push_bytes(out, b": ")?;
    push_message(out, arrow.message.get())?;
    push_bytes(out, b"\n")
}

// The arrow.
fn arrow_text(open_head: bool) -> &'static str
    ensures { result.now ≡ chart.arrow open_head }
{
    if open_head { "-)" } else { "->>" }
}

// The place of the role among these, from 1.
fn role_place(role: &Role, roles: &[Role]) -> usize
    ensures { result ≡ chart.role_place role.now roles.now }
{
    for i in 0..roles.len() {
        if role.equal(&roles[i]) {
            return i + 1;
        }
    }
    roles.len() + 1
}
