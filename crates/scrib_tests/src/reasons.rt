//! Why an event may not follow a short log, for each kind of event.

use crate::short_logs::monitor_after;
use scrib_core::step::Step;
use scrib_reasons::find::reason_of;
use scrib_reasons::reason::Reason;
use scrib_script_reader::line::{Line, line_of};
use scrib_types::shared_event::SharedEvent;
use std::alloc::{AllocError, Global};
use std::test::Fail;

// The lines of a log, the line of an event behind it, and the reason why that may not follow, if it may not.
const ROWS: [(&[&str], &str, Option<Reason>); 16] = [
    (&["join 1 A"], "join 1 B", None),
    (&["join 1 A"], "join 1 E", Some(Reason::NotDeclared)),
    (&["join 1 A"], "join 1 A", Some(Reason::JoinedTwice)),
    (&["join 1 A"], "send 1 A B r()", None),
    (&["join 1 A"], "send 1 A E r()", Some(Reason::NotDeclared)),
    (&["join 1 B"], "send 1 A B r()", Some(Reason::NotJoined)),
    (
        &["join 1 A", "send 1 A B r()"],
        "send 1 A B r()",
        Some(Reason::Done),
    ),
    (&["join 1 A"], "send 1 A B z()", Some(Reason::NotAllowed)),
    (&["join 1 A"], "send 1 A A r()", Some(Reason::NotAllowed)),
    (
        &["join 1 A", "join 1 B", "send 1 A B l(Int)"],
        "recv 1 A B l(Int)",
        None,
    ),
    (&["join 1 B"], "recv 1 E B r()", Some(Reason::NotDeclared)),
    (
        &["join 1 A", "send 1 A B r()"],
        "recv 1 A B r()",
        Some(Reason::NotJoined),
    ),
    (
        &["join 1 A", "send 1 A B r()"],
        "recv 1 B A r()",
        Some(Reason::Done),
    ),
    (&["join 1 B"], "recv 1 C B z()", Some(Reason::NotAllowed)),
    (&["join 1 B"], "recv 1 A B r()", Some(Reason::NotSent)),
    (
        &["join 1 A", "join 1 B", "send 1 A B l(Int)"],
        "recv 1 A B r()",
        Some(Reason::OtherFirst),
    ),
];

// The event of the line. None where the line has none.
fn event_of(alloc: Global, line: &str) -> Result<Option<SharedEvent>, AllocError> {
    match line_of(alloc, line.as_bytes())? {
        Line::Step(_, Step::Note { event, .. }) => Ok(Some(event)),
        _ => Ok(None),
    }
}

#[test]
fn each_kind_of_event_has_its_reasons(rt: HostRuntime) -> Result<(), Fail> {
    let alloc = rt.alloc();
    for (lines, line, expected) in ROWS {
        let core = monitor_after(alloc, lines)?;
        let event = event_of(alloc, line)?;
        let (Some(event), Some((Some(protocol), log))) = (event, core.view(1)) else {
            assert!(rt; false, "{line}: no event, or no protocol");
            return Ok(());
        };
        assert_eq!(rt; log.len(), lines.len());
        assert_eq!(rt;
            reason_of(alloc, protocol, log, &event)?,
            expected,
            "{line}"
        );
    }
    Ok(())
}
