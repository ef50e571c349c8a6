//! What is released of short logs, and what waits.

use scrib_core::step::Step;
use scrib_hold_stage::noted::Noted;
use scrib_hold_stage::stage::{Counts, HoldStage};
use scrib_holdback::holdback::{Holdback, hold_back};
use scrib_script_reader::line::{Line, line_of};
use scrib_types::shared_event::SharedEvent;
use std::alloc::{AllocError, Global};
use std::test::Fail;

// An event, and the number of its line from 1.
type Numbered = (SharedEvent, u8);

// Appends the event of the line with this number. A line that is no event is left out.
fn push_event(events: &mut Vec<Numbered>, line: &str, number: u8) -> Result<(), AllocError> {
    match line_of(*events.allocator(), line.as_bytes())? {
        Line::Step(_, Step::Note { id: _id, event }) => {
            events.push((event, number))?;
            Ok(())
        }
        _other => Ok(()),
    }
}

fn events_of(alloc: Global, lines: &[&str]) -> Result<Vec<Numbered>, AllocError> {
    let mut events = Vec::new(alloc);
    let mut number = 0u8;
    for line in lines {
        number = number.wrapping_add(1);
        push_event(&mut events, line, number)?;
    }
    Ok(events)
}

fn numbers_of(alloc: Global, events: &[Numbered]) -> Result<Vec<u8>, AllocError> {
    let mut numbers = Vec::new(alloc);
    for event in events {
        numbers.push(event.1)?;
    }
    Ok(numbers)
}

// The lines of a log, the numbers of those that are released, in order, and of those that wait at the end.
const ROWS: [(&[&str], &[u8], &[u8]); 8] = [
    (
        &["join 1 A", "join 1 B", "send 1 A B a()", "recv 1 A B a()"],
        &[1, 2, 3, 4],
        &[],
    ),
    // A reception waits for its send.
    (&["recv 1 A B a()", "send 1 A B a()"], &[2, 1], &[]),
    // What is behind it of its role waits too.
    (
        &[
            "recv 1 A B a()",
            "join 1 B",
            "send 1 B A b()",
            "send 1 A B a()",
        ],
        &[4, 1, 2, 3],
        &[],
    ),
    // A message of another sender doesn't release it.
    (&["recv 1 A B a()", "send 1 C B a()"], &[2], &[1]),
    // One message releases one reception.
    (
        &["send 1 A B a()", "recv 1 A B a()", "recv 1 A B a()"],
        &[1, 2],
        &[3],
    ),
    // What the message contains plays no part.
    (&["recv 1 A B a()", "send 1 A B b()"], &[2, 1], &[]),
    // A release releases others: C waits for B, and B for A.
    (
        &[
            "recv 1 B C c()",
            "recv 1 A B b()",
            "send 1 B C c()",
            "send 1 A B b()",
        ],
        &[4, 2, 3, 1],
        &[],
    ),
    (&[], &[], &[]),
];

#[test]
fn receptions_wait_for_their_sends(rt: HostRuntime) -> Result<(), Fail> {
    let alloc = rt.alloc();
    for (lines, released, waiting) in ROWS {
        let held = hold_back(alloc, events_of(alloc, lines)?)?;
        assert_eq!(rt;
            numbers_of(alloc, held.released.as_slice())?.as_slice(),
            released
        );
        assert_eq!(rt;
            numbers_of(alloc, held.waiting.as_slice())?.as_slice(),
            waiting
        );
    }
    Ok(())
}

// The reception 1 is released as it is, and what waits behind it with it. Its send, 3, comes later and releases nothing,
// so the next reception of the pair, 4, waits.
#[test]
fn the_oldest_is_released_as_it_is(rt: HostRuntime) -> Result<(), Fail> {
    let alloc = rt.alloc();
    let lines = [
        "recv 1 A B a()",
        "send 1 B C b()",
        "send 1 A B a()",
        "recv 1 A B a()",
    ];
    let mut holdback = Holdback::new(alloc);
    let mut released = Vec::new(alloc);
    for event in events_of(alloc, &lines[..2])? {
        holdback.push(event, &mut released)?;
    }
    assert_eq!(rt; released.len(), 0usize);
    assert_eq!(rt; holdback.release_oldest(&mut released)?, true);
    assert_eq!(rt; holdback.release_oldest(&mut released)?, false);
    for event in events_of(alloc, &lines[2..])? {
        holdback.push(event, &mut released)?;
    }
    let oldest = holdback.oldest().map(|event| event.1);
    assert_eq!(rt; oldest, Some(2u8));
    assert_eq!(rt;
        numbers_of(alloc, released.as_slice())?.as_slice(),
        [1u8, 2, 1].as_slice()
    );
    let waiting = holdback.finish()?;
    assert_eq!(rt;
        numbers_of(alloc, waiting.as_slice())?.as_slice(),
        [2u8].as_slice()
    );
    Ok(())
}

// Reads the line of this number as an entry of a script.
fn read_line(
    stage: &mut HoldStage<Numbered>,
    line: &str,
    number: u8,
    released: &mut Vec<Noted<Numbered>>,
) -> Result<(), AllocError> {
    match line_of(*released.allocator(), line.as_bytes())? {
        Line::Step(_, Step::Note { id, event }) => stage.push(id, (event, number), released),
        Line::Step(_, Step::Open { id, .. }) => stage.open(id, released),
        _ => stage.skip(released),
    }
}

// The numbers of the lines that a stage of this bound releases, in order, and what it counted before the end.
fn staged(alloc: Global, bound: u64, lines: &[&str]) -> Result<(Vec<u8>, Counts), AllocError> {
    let mut stage = HoldStage::new(alloc, bound);
    let mut released = Vec::new(alloc);
    let mut number = 0u8;
    for line in lines {
        number = number.wrapping_add(1);
        read_line(&mut stage, line, number, &mut released)?;
    }
    let counts = stage.finish(&mut released)?;
    let mut numbers = Vec::new(alloc);
    for noted in &released {
        numbers.push(noted.arrival.1)?;
    }
    Ok((numbers, counts))
}

// A bound, the lines of a script, the numbers of the events that are released, and the counts: events, those that had to
// wait, the most that waited at once, and those that expired before the end.
const SCRIPTS: [(u64, &[&str], &[u8], [u64; 4]); 6] = [
    // An event waits for the opening of its conversation.
    (
        9,
        &["send 1 A B a()", "open 1 m.P", "recv 1 A B a()"],
        &[1, 3],
        [2, 1, 1, 0],
    ),
    // It is held back from then on.
    (
        9,
        &["recv 1 A B a()", "open 1 m.P", "send 1 A B a()"],
        &[3, 1],
        [2, 1, 1, 0],
    ),
    // Conversations don't wait for one another.
    (
        9,
        &[
            "open 1 m.P",
            "open 2 m.P",
            "recv 2 A B a()",
            "send 1 A B a()",
            "send 2 A B a()",
        ],
        &[4, 5, 3],
        [3, 1, 1, 0],
    ),
    // The reception expires when two more lines were read, before the send of the last line.
    (
        2,
        &["open 1 m.P", "recv 1 A B a()", "#", "#", "send 1 A B a()"],
        &[2, 5],
        [2, 1, 1, 1],
    ),
    // An event expires before its opening too.
    (
        2,
        &["send 1 A B a()", "#", "#", "open 1 m.P"],
        &[1],
        [1, 1, 1, 1],
    ),
    // At the end what waits is released, the oldest first.
    (
        9,
        &[
            "open 1 m.P",
            "open 2 m.P",
            "recv 2 A B a()",
            "recv 1 A B a()",
        ],
        &[3, 4],
        [2, 2, 2, 0],
    ),
];

#[test]
fn events_of_scripts_wait_within_the_bound(rt: HostRuntime) -> Result<(), Fail> {
    for (bound, lines, released, counts) in SCRIPTS {
        let (numbers, counted) = staged(rt.alloc(), bound, lines)?;
        assert_eq!(rt; numbers.as_slice(), released);
        let counted = [
            counted.events,
            counted.waited,
            counted.at_once,
            counted.expired,
        ];
        assert_eq!(rt; counted, counts);
    }
    Ok(())
}
