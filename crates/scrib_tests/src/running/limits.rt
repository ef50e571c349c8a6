//! Scripts that are longer than they may be, by small limits.

use scrib_cli::run_script::ScriptFault;
use scrib_script_reader::fault::SpellFault;
use scrib_script_reader::limits::Limits;
use scrib_script_reader::script::Script;
use std::alloc::Global;
use std::test::Fail;

// Takes the piece in, of at most 64 bytes, and counts its items.
fn take_piece(script: &mut Script, piece: &[u8], items: &mut u32) -> Result<(), SpellFault> {
    let mut rest = piece;
    for _ in 0..64 {
        if rest.is_empty() {
            break;
        }
        let (item, after) = script.next_item(rest)?;
        if item.is_some() {
            *items = items.wrapping_add(1);
        }
        rest = after;
    }
    Ok(())
}

// Takes the text in by pieces of this size, and counts its items.
fn take_text(
    script: &mut Script,
    text: &[u8],
    size: usize,
    items: &mut u32,
) -> Result<(), SpellFault> {
    let mut left = text;
    for _ in 0..64 {
        let (now, later) = left.split_at(size.min(left.len()));
        take_piece(script, now, items)?;
        left = later;
    }
    if script.last_item()?.is_some() {
        *items = items.wrapping_add(1);
    }
    Ok(())
}

// How many items a script of at most so many lines and bytes gives by its end or its fault, and whether it is too long.
fn outcome(
    alloc: Global,
    (lines, bytes): (u16, u64),
    text: &[u8],
    size: usize,
) -> Result<(u32, bool), ScriptFault> {
    let limits = Limits {
        lines: u64::from(lines),
        bytes,
    };
    let mut script = Script::with_limits(alloc, limits);
    let mut items = 0u32;
    match take_text(&mut script, text, size, &mut items) {
        Ok(()) => Ok((items, false)),
        Err(SpellFault::TooLong) => Ok((items, true)),
        Err(fault) => Err(ScriptFault::from(fault)),
    }
}

const ENDED: &[u8] = b"ask 1\nask 2\nask 3\n";

const UNENDED: &[u8] = b"ask 1\nask 2\nask 3";

// The most lines and bytes, and how many items the script gives, and whether it is too long.
const ROWS: [((u16, u64), &[u8], (u32, bool)); 9] = [
    ((3, 18), ENDED, (3, false)),
    ((2, 18), ENDED, (2, true)),
    ((0, 18), ENDED, (0, true)),
    ((3, 17), ENDED, (2, true)),
    ((3, 12), ENDED, (2, true)),
    ((3, 11), ENDED, (1, true)),
    ((3, 17), UNENDED, (3, false)),
    ((2, 17), UNENDED, (2, true)),
    ((3, 16), UNENDED, (2, true)),
];

#[test]
fn stops_in_the_line_that_passes_a_limit(rt: HostRuntime) -> Result<(), Fail> {
    for size in [1usize, 4, 6, 64] {
        for (limits, text, want) in ROWS {
            let (items, is_too_long) = outcome(rt.alloc(), limits, text, size)?;
            assert_eq!(rt; items, want.0);
            assert_eq!(rt; is_too_long, want.1);
        }
    }
    Ok(())
}
