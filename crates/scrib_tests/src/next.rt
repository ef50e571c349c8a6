//! What each role may do next after short logs, as text.

use crate::short_logs::monitor_after;
use scrib_core::monitor::Core;
use scrib_global::fault::ExplainFault;
use scrib_global::next::{RoleNext, RoleStatus, next_of_roles};
use scrib_types::event::Action;
use scrib_types::text::{push_action, push_number};
use std::alloc::{AllocError, Global};
use std::test::Fail;

// The lines of a log, and what each role may do then.
const ROWS: [(&[&str], &str); 6] = [
    (
        &[],
        "A: may join. B: may join. C: may join. D: may join, done. ",
    ),
    (
        &["join 1 A", "join 1 B", "join 1 C"],
        "A: may B!l(Int), B!r(). B: waits for A?l(Int), A?r(). C: may B!z(). D: may join, done. ",
    ),
    (
        &["join 1 C", "join 1 B", "send 1 C B z()"],
        "A: may join. B: waits for A?l(Int), A?r(). C: done. D: may join, done. ",
    ),
    (
        &[
            "join 1 A",
            "join 1 B",
            "join 1 C",
            "send 1 C B z()",
            "send 1 A B r()",
        ],
        "A: done. B: may A?r(). C: done. D: may join, done. ",
    ),
    (
        &[
            "join 1 A",
            "join 1 D",
            "join 1 B",
            "join 1 C",
            "send 1 A B l(Int)",
            "send 1 C B z()",
            "recv 1 A B l(Int)",
        ],
        "A: done. B: may C?z(). C: done. D: done. ",
    ),
    (
        &["join 1 A", "join 1 B", "recv 1 A B r()"],
        "not permitted at 3",
    ),
];

fn push_actions(out: &mut Vec<u8>, word: &[u8], actions: &[Action]) -> Result<(), AllocError> {
    out.extend_from_slice(word)?;
    let mut first = true;
    for action in actions {
        if !first {
            out.extend_from_slice(b", ")?;
        }
        first = false;
        push_action(out, action)?;
    }
    out.extend_from_slice(b". ")
}

fn push_next(out: &mut Vec<u8>, next: &RoleNext) -> Result<(), AllocError> {
    match next {
        RoleNext::MayJoin { acts: true } => out.extend_from_slice(b"may join. "),
        RoleNext::MayJoin { acts: false } => out.extend_from_slice(b"may join, done. "),
        RoleNext::Done => out.extend_from_slice(b"done. "),
        RoleNext::May(actions) => push_actions(out, b"may ", actions.as_slice()),
        RoleNext::WaitsFor(actions) => push_actions(out, b"waits for ", actions.as_slice()),
    }
}

fn push_status(out: &mut Vec<u8>, status: &RoleStatus) -> Result<(), AllocError> {
    out.extend_from_slice(status.role.as_bytes())?;
    out.extend_from_slice(b": ")?;
    push_next(out, &status.next)
}

fn push_all(out: &mut Vec<u8>, list: &[RoleStatus]) -> Result<(), AllocError> {
    for status in list {
        push_status(out, status)?;
    }
    Ok(())
}

fn next_text(alloc: Global, core: &Core) -> Result<Vec<u8>, AllocError> {
    let mut out = Vec::new(alloc);
    let Some((Some(protocol), log)) = core.view(1) else {
        return Ok(out);
    };
    match next_of_roles(alloc, protocol, log) {
        Ok(list) => push_all(&mut out, list.as_slice())?,
        Err(ExplainFault::NotPermitted { place }) => {
            out.extend_from_slice(b"not permitted at ")?;
            push_number(&mut out, place as u64)?;
        }
        Err(ExplainFault::OutOfMemory) => return Err(AllocError),
    }
    Ok(out)
}

#[test]
fn each_role_has_one_next_step(rt: HostRuntime) -> Result<(), Fail> {
    let alloc = rt.alloc();
    for (lines, expected) in ROWS {
        let core = monitor_after(alloc, lines)?;
        let text = next_text(alloc, &core)?;
        assert_eq!(rt; text.as_slice(), expected.as_bytes());
    }
    Ok(())
}
