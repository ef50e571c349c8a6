//! Many events noted by a core, on one thread, without locks and passes.

use crate::fault::RowsFault;
use crate::making::{LOOP, name_of, steps_of};
use crate::service::events::{EVENTS, PER_LOG, event_at};
use scrib_core::monitor::Core;
use scrib_core::reply::Reply;
use scrib_core::step::Step;
use scrib_types::containers::Items;
use scrib_types::name::Dotted;
use std::alloc::Global;

// Notes the event of this place by the core, in a further conversation for each full log. Whether it was noted.
fn is_noted(
    core: &mut Core,
    name: &Dotted,
    events: &[Step],
    place: usize,
) -> Result<bool, RowsFault> {
    let id = u32::try_from(place / PER_LOG)
        .ok()
        .ok_or(RowsFault::BadRow)?;
    if place % PER_LOG == 0 {
        let name = name.copy()?;
        core.apply(Step::Open { id, name });
    }
    let event = event_at(events, place % PER_LOG)?;
    let reply = core.apply(Step::Note { id, event });
    Ok(matches!(reply, Reply::Noted { .. }))
}

/// Notes so many events by a core; how many were noted.
pub(crate) fn apply(alloc: Global, count: usize) -> Result<usize, RowsFault> {
    let events = steps_of(alloc, EVENTS)?;
    let name = name_of(alloc, "open 0 k.K")?;
    let text = Items::from_slice(alloc, LOOP.as_bytes())?;
    let mut core = Core::new(alloc);
    core.apply(Step::Put { text });
    let mut noted: usize = 0;
    for place in 0..count {
        if is_noted(&mut core, &name, &events, place)? {
            noted = noted.saturating_add(1);
        }
    }
    Ok(noted)
}
