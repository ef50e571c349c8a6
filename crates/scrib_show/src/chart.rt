//! A conversation as a sequence diagram, which Mermaid draws.

ghost use Rattle.std.specs.Prelude.{◌≡◌, ◌≤◌, ◌++◌, OnOk, length};
ghost use Rattle.scrib_show.specs.ChartLines as chart;

use crate::arrows::{count_received, push_open, push_received};
use crate::notes::push_left_out;
use crate::participants::push_participants;
use scrib_global::explain::Flight;
use scrib_types::name::Role;
use scrib_types::shared_event::SharedEvent;
use scrib_types::text::push_bytes;
use std::alloc::AllocError;

// The most arrows of a diagram.
const MAX_ARROWS: usize = 500;

// Adds the diagram of a permitted log, after which these messages are in flight. It fails where memory for the longer
// text is refused.
pub(crate) fn push_chart(
    out: &mut Vec<u8>,
    roles: &[Role],
    log: &[SharedEvent],
    flights: &[Flight],
) -> Result<(), AllocError>
    ensures { OnOk result (out.new.items ≡ out.old.items ++ chart.chart_text roles.now log.now flights.now) }
{
    let left_out = left_out(log, flights);
    push_bytes(out, b"sequenceDiagram\n")?;
    push_participants(out, roles)?;
    push_left_out(out, roles.len(), left_out)?;
    push_received(out, roles, log, left_out)?;
    push_open(out, roles, flights, left_in_flight(log, flights))
}

// How many messages are left out.
#[tactic(auto, unfolding(crate::specs::ChartLines::left_out))]
fn left_out(log: &[SharedEvent], flights: &[Flight]) -> usize
    ensures { result ≡ chart.left_out log.now flights.now }
{
    (count_received(log) + flights.len()).saturating_sub(MAX_ARROWS)
}

// How many messages in flight are among them.
#[tactic(auto, unfolding(crate::specs::ChartLines::left_in_flight, crate::specs::ChartLines::left_out))]
fn left_in_flight(log: &[SharedEvent], flights: &[Flight]) -> usize
    ensures is { result ≡ chart.left_in_flight log.now flights.now }
    ensures within { result ≤ length flights.now }
{
    left_out(log, flights).saturating_sub(count_received(log))
}
