//! Worked examples as calls of which one is to be refused memory. At a call that works on a core, the core is compared
//! with what it was before, and the call is made once more on the same; one on a service or queues is made once more;
//! at a call that makes a value from others, the row is run once more. The answers are those of the example.

mod core_rows;
mod front_rows;
mod making;
mod rows;
mod run_rows;
mod script_rows;
mod service_rows;

use crate::fault::{RowsFault, second};
use crate::memory::core_rows::{run_at_once, run_calls};
use crate::memory::front_rows::{run_copies, run_front_end, run_queues};
use crate::memory::rows::Call;
use crate::memory::run_rows::run_over_service;
use crate::memory::script_rows::{run_as_script, run_explained};
use crate::memory::service_rows::run_passes;
use std::alloc::Global;
use std::io::Write;
use std::sync::Wait;
use std::thread::Threads;

const NAMES: &[&str] = &[
    "conversation",
    "called-protocol",
    "changed-back",
    "withdrawn",
    "closed",
    "unmergeable",
    "turns",
    "json",
    "in-flight",
    "passes",
    "run",
    "front-end",
    "queues",
    "copies",
];

// How the calls of a row are made.
#[derive(Clone, Copy)]
enum Way {
    OneByOne,
    AtOnce,
    AsScript,
    // As a script whose messages in flight are these at last.
    Explained(&'static str),
}

const EACH_WAY: &[Way] = &[Way::OneByOne, Way::AtOnce, Way::AsScript];

// The rows of calls of a core: the name, the calls, and how they are made.
const ROWS: &[(&str, &[Call], &[Way])] = &[
    ("conversation", rows::CONVERSATION, EACH_WAY),
    ("called-protocol", rows::CALLED_PROTOCOL, EACH_WAY),
    ("changed-back", rows::CHANGED_BACK, EACH_WAY),
    ("withdrawn", rows::WITHDRAWN, EACH_WAY),
    ("closed", rows::CLOSED, EACH_WAY),
    ("unmergeable", rows::UNMERGEABLE, EACH_WAY),
    (
        "json",
        rows::OFFENCE_IN_JSON,
        &[Way::OneByOne, Way::AsScript],
    ),
    (
        "in-flight",
        rows::IN_FLIGHT,
        &[
            Way::OneByOne,
            Way::AtOnce,
            Way::AsScript,
            Way::Explained(rows::FLIGHTS),
        ],
    ),
];

// Makes the calls in each of these ways.
fn run_each_way(alloc: Global, calls: &[Call], ways: &[Way]) -> Result<(), RowsFault> {
    for way in ways {
        match way {
            Way::OneByOne => run_calls(alloc, calls)?,
            Way::AtOnce => run_at_once(alloc, calls)?,
            Way::AsScript => run_as_script(alloc, calls)?,
            Way::Explained(flights) => run_explained(alloc, calls, flights)?,
        }
    }
    Ok(())
}

fn run_row<R: Threads + Wait + Sync>(rt: &R, alloc: Global, name: &str) -> Result<(), RowsFault> {
    for (row, calls, ways) in ROWS {
        if *row == name {
            return run_each_way(alloc, calls, ways);
        }
    }
    match name {
        "turns" => {
            let mut calls = Vec::from_slice(alloc, rows::JOINED)?;
            calls.extend_from_slice(&[rows::SENT; 511])?;
            calls.extend_from_slice(rows::JUDGED)?;
            run_calls(alloc, &calls)
        }
        "passes" => run_passes(rt, alloc),
        "run" => run_over_service(rt, alloc),
        "front-end" => run_front_end(alloc),
        "queues" => run_queues(alloc),
        "copies" => run_copies(alloc),
        _ => Err(RowsFault::BadRow),
    }
}

/// Runs the row of this name, or each row where it is `all`, and writes the name of each that was run. A row is run
/// once more where memory is refused to a call that makes a value. A name that no row has is refused.
pub(crate) fn run_refused<R: Threads + Wait + Sync, W: Write>(
    rt: &R,
    alloc: Global,
    wanted: &str,
    writer: &mut W,
) -> Result<(), RowsFault> {
    let mut is_known = false;
    for name in NAMES {
        if wanted == "all" || *name == wanted {
            is_known = true;
            match run_row(rt, alloc, name) {
                Err(RowsFault::Memory) => second(run_row(rt, alloc, name))?,
                answer => answer?,
            }
            writer.write_all(name.as_bytes())?;
            writer.write_all(b"\n")?;
        }
    }
    if is_known {
        Ok(())
    } else {
        Err(RowsFault::BadRow)
    }
}
