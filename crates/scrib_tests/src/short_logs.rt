//! A monitor after a short log of one conversation.

use scrib_core::monitor::Core;
use scrib_core::step::Step;
use scrib_script_reader::line::{Line, line_of};
use scrib_types::containers::Items;
use std::alloc::{AllocError, Global};

const MODULE: &[u8] = b"module k;
global protocol K(role A, role B, role C, role D) {
  choice at A { l(Int) from A to B; } or { r() from A to B; }
  z() from C to B;
}";

// Makes the step of the line. A line that is no step is left out.
fn make(core: &mut Core, alloc: Global, line: &str) -> Result<(), AllocError> {
    if let Line::Step(_, step) = line_of(alloc, line.as_bytes())? {
        let _reply = core.apply(step);
    }
    Ok(())
}

// The monitor after these lines of a conversation of the protocol.
pub(crate) fn monitor_after(alloc: Global, lines: &[&str]) -> Result<Core, AllocError> {
    let mut core = Core::new(alloc);
    let mut text = Vec::new(alloc);
    text.extend_from_slice(MODULE)?;
    let _reply = core.apply(Step::Put {
        text: Items::from_vec(text),
    });
    make(&mut core, alloc, "open 1 k.K")?;
    for line in lines {
        make(&mut core, alloc, line)?;
    }
    Ok(core)
}
