//! Which conversations are stale, what sweeps judge of them, and how many open conversations have which verdict.

use scrib_core::monitor::Core;
use scrib_core::step::Step;
use scrib_script_reader::line::{Line, line_of};
use scrib_summary::open_verdicts::count_open;
use scrib_summary::verdict_counts::VerdictCounts;
use scrib_sweep::stale::stale_conversations;
use scrib_sweep::sweep::{Progress, sweep, sweep_some};
use scrib_types::containers::Items;
use std::alloc::{AllocError, Global};
use std::test::Fail;

// A protocol without an end, and an edit of it that permits the same logs.
const LOOP: &[u8] =
    b"module s; global protocol Loop(role A, role B) { rec X { hello() from A to B; continue X; } }";

const LOOP_WITH_END: &[u8] =
    b"module s; global protocol Loop(role A, role B) { rec X { choice at A { hello() from A to B; continue X; } or { bye() from A to B; } } }";

// A protocol of one message, and an edit of it.
const ONCE: &[u8] = b"module o; global protocol Once(role A, role B) { hello() from A to B; }";

const OTHER_ONCE: &[u8] =
    b"module o; global protocol Once(role A, role B) { hello(Int) from A to B; }";

fn put(core: &mut Core, alloc: Global, module: &[u8]) -> Result<(), AllocError> {
    let mut text = Vec::new(alloc);
    text.extend_from_slice(module)?;
    let _reply = core.apply(Step::Put {
        text: Items::from_vec(text),
    });
    Ok(())
}

// Makes the steps of these lines, which are all steps.
fn make_all(core: &mut Core, alloc: Global, lines: &[&str]) -> Result<(), AllocError> {
    for line in lines {
        if let Line::Step(_, step) = line_of(alloc, line.as_bytes())? {
            let _reply = core.apply(step);
        }
    }
    Ok(())
}

// A monitor with stale conversations 1, of two joins and so many exchanges, and 2, of no event.
fn stale_after(alloc: Global, exchanges: u32) -> Result<Core, AllocError> {
    let mut core = Core::new(alloc);
    put(&mut core, alloc, LOOP)?;
    let opening = ["open 2 s.Loop", "open 1 s.Loop", "join 1 A", "join 1 B"];
    make_all(&mut core, alloc, &opening)?;
    for _ in 0..exchanges {
        make_all(
            &mut core,
            alloc,
            &["send 1 A B hello()", "recv 1 A B hello()"],
        )?;
    }
    put(&mut core, alloc, LOOP_WITH_END)?;
    Ok(core)
}

#[test]
fn a_sweep_judges_each_stale_conversation(rt: HostRuntime) -> Result<(), Fail> {
    let alloc = rt.alloc();
    let mut core = stale_after(alloc, 256)?;
    let lines = ["open 9 s.Loop", "open 5 s.Loop"];
    make_all(&mut core, alloc, &lines)?;
    let stale = stale_conversations(alloc, &core)?;
    assert_eq!(rt; stale.as_slice(), [1u32, 2].as_slice());
    put(&mut core, alloc, LOOP)?;
    let stale = stale_conversations(alloc, &core)?;
    assert_eq!(rt; stale.as_slice(), [1u32, 2, 5, 9].as_slice());
    assert_eq!(rt; sweep(alloc, &mut core)?, 4);
    assert_eq!(rt; stale_conversations(alloc, &core)?.len(), 0);
    assert_eq!(rt; sweep(alloc, &mut core)?, 0);
    Ok(())
}

// The first conversation has a log of 65 turns. A part of a sweep makes 64, so it judges none of the two.
#[test]
fn a_part_of_a_sweep_makes_64_turns(rt: HostRuntime) -> Result<(), Fail> {
    let alloc = rt.alloc();
    let mut core = stale_after(alloc, 8_200)?;
    let stale = stale_conversations(alloc, &core)?;
    let Progress {
        judged,
        left,
        refused,
    } = sweep_some(&mut core, stale.as_slice());
    assert_eq!(rt; (judged, refused), (0, false));
    assert_eq!(rt; left, [1u32, 2].as_slice());
    let Progress {
        judged,
        left,
        refused,
    } = sweep_some(&mut core, left);
    assert_eq!(rt; (judged, refused), (2, false));
    assert_eq!(rt; left.len(), 0);
    Ok(())
}

#[test]
fn each_open_conversation_is_counted_once(rt: HostRuntime) -> Result<(), Fail> {
    let alloc = rt.alloc();
    let mut core = stale_after(alloc, 0)?;
    put(&mut core, alloc, ONCE)?;
    let lines = [
        "open 3 o.Once",
        "join 3 A",
        "join 3 B",
        "send 3 A B hello()",
        "recv 3 A B hello()",
        "open 4 o.Once",
        "send 4 B A hello()",
        "open 5 o.Once",
        "turn 2",
    ];
    make_all(&mut core, alloc, &lines)?;
    let mut counts = VerdictCounts::none();
    count_open(&core, &mut counts)?;
    let expected = VerdictCounts {
        permitted: 3,
        complete: 1,
        offences: 1,
        stale: 1,
        withdrawn: 0,
    };
    assert_eq!(rt; counts, expected);
    put(&mut core, alloc, OTHER_ONCE)?;
    assert_eq!(rt; sweep(alloc, &mut core)?, 4);
    make_all(&mut core, alloc, &["withdraw s", "turn 1"])?;
    let mut counts = VerdictCounts::none();
    count_open(&core, &mut counts)?;
    let expected = VerdictCounts {
        permitted: 1,
        complete: 0,
        offences: 2,
        stale: 1,
        withdrawn: 1,
    };
    assert_eq!(rt; counts, expected);
    Ok(())
}
