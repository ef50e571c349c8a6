//! Edits by one connection beside the notes of four others.

use crate::fault::RowsFault;
use crate::making::{run_connections, watched};
use scrib_core::format::Format;
use std::alloc::Global;
use std::io::Write;
use std::sync::Wait;
use std::thread::Threads;

const RUNS: u32 = 50;

const CONVERSATIONS: usize = 4;

const EVENTS: usize = 100;

const EDITS: usize = 12;

// A script that puts the first text and opens the conversations.
const SETUP: &str =
    "put\nmodule k; global protocol K(role A, role B) { rec X { a() from A to B; continue X; } }\n%%\nopen 0 k.K\nopen 1 k.K\nopen 2 k.K\nopen 3 k.K\n";

// Puts of what the protocol is in turn.
const PUTS: [&str; 3] = [
    "put\nmodule k; global protocol K(role A, role B) { rec X { a() from A to B; continue X; } }\n%%\n",
    "put\nmodule k; global protocol K(role A, role B) { a() from A to B; b() from B to A; }\n%%\n",
    "put\nmodule k; global protocol K(role A, role B) { rec X { choice at A { a() from A to B; continue X; } or { b() from A to B; } } }\n%%\n",
];

// A question about each conversation.
const ASKS: &str = "ask 0\nask 1\nask 2\nask 3\n";

// Numbers without a pattern that matters: x = 1664525 x + 1013904223 modulo 2^32, of which the upper half counts.
#[derive(Drop)]
struct Numbers {
    last: u32,
}

impl Numbers {
    fn below(&mut self, count: usize) -> usize {
        self.last = self
            .last
            .wrapping_mul(1_664_525)
            .wrapping_add(1_013_904_223);
        ((self.last >> 16) as usize).checked_rem(count).unwrap_or(0)
    }
}

// A script that puts each of the texts, and then some of them again.
fn edits_of(alloc: Global, numbers: &mut Numbers) -> Result<String, RowsFault> {
    let mut script = String::new(alloc);
    for made in 0..EDITS {
        let at = if made < PUTS.len() {
            made
        } else {
            numbers.below(PUTS.len())
        };
        script.push_str(PUTS.get(at).copied().unwrap_or(""))?;
    }
    Ok(script)
}

// A script whose lines are all events of this conversation: sends and receives in order, but for one in sixty.
fn notes_of(alloc: Global, numbers: &mut Numbers, id: usize) -> Result<String, RowsFault> {
    let mut script = format!(in alloc; "join {id} A\njoin {id} B\n")?;
    let mut flying = 0u64;
    for _ in 0..EVENTS {
        let (word, label) = if numbers.below(60) == 0 {
            ("send", "b")
        } else if flying == 0 || numbers.below(2) == 0 {
            flying = flying.saturating_add(1);
            ("send", "a")
        } else {
            flying = flying.saturating_sub(1);
            ("recv", "a")
        };
        writeln!(script, "{word} {id} A B {label}()")?;
    }
    Ok(script)
}

// The scripts of a run: one of notes for each conversation, and one of edits.
fn scripts_of(alloc: Global, seed: u32) -> Result<Vec<String>, RowsFault> {
    let mut numbers = Numbers { last: seed };
    let mut scripts = Vec::new(alloc);
    for id in 0..CONVERSATIONS {
        scripts.push(notes_of(alloc, &mut numbers, id)?)?;
    }
    scripts.push(edits_of(alloc, &mut numbers)?)?;
    Ok(scripts)
}

// What one monitor answers to the notes, on the library that each text makes.
fn judged_on_each(alloc: Global, id: usize, notes: &str) -> Result<Vec<String>, RowsFault> {
    let mut outputs = Vec::new(alloc);
    for put in PUTS {
        let script = format!(in alloc; "{put}open {id} k.K\n{notes}")?;
        outputs.push(watched(alloc, Format::Json, script.as_str())?)?;
    }
    Ok(outputs)
}

// Whether each line of a connection with these notes has at its place, from 1, what one monitor prints there on one of
// the libraries, behind two lines of edits, or is the line of a verdict that is out of date.
fn are_judged(alloc: Global, id: usize, notes: &str, lines: &str) -> Result<bool, RowsFault> {
    let outputs = judged_on_each(alloc, id, notes)?;
    let [first, second, third] = outputs.as_slice() else {
        return Err(RowsFault::BadRow);
    };
    let (mut first, mut second) = (first.lines().skip(2), second.lines().skip(2));
    let mut third = third.lines().skip(2);
    let mut place = 0usize;
    for line in lines.lines() {
        place = place.saturating_add(1);
        let stale = format!(in alloc;
            "{{\"conversation\":{id},\"place\":{place},\"verdict\":\"stale\"}}"
        )?;
        let found = [
            Some(stale.as_str()),
            first.next(),
            second.next(),
            third.next(),
        ];
        if !found.contains(&Some(line)) {
            return Ok(false);
        }
    }
    Ok(place == EVENTS + 2)
}

// The table of one monitor that makes the edits first and then all notes, with a turn of each conversation: its answers
// to questions, which follow the answers to the steps, and the line of the totals.
fn table_after(alloc: Global, notes: &[String], edits: &str) -> Result<String, RowsFault> {
    let mut script = format!(in alloc; "{SETUP}{edits}")?;
    for (id, notes) in notes.iter().enumerate() {
        writeln!(script, "{notes}turn {id}")?;
    }
    let before = watched(alloc, Format::Json, script.as_str())?;
    script.push_str(ASKS)?;
    let after = watched(alloc, Format::Json, script.as_str())?;
    let rows = after
        .strip_prefix(before.as_str())
        .ok_or(RowsFault::BadRow)?;
    let events = CONVERSATIONS * (EVENTS + 2);
    Ok(format!(in alloc; "{rows}{{\"conversations\":{CONVERSATIONS},\"events\":{events}}}\n")?)
}

// Runs the scripts of this seed over a service. Answers whether what each connection that notes is answered is judged
// on one of the libraries, or out of date; and whether the table is as it must be.
fn judge_run<R: Threads + Wait + Sync>(
    rt: &R,
    alloc: Global,
    seed: u32,
) -> Result<(bool, bool), RowsFault> {
    let scripts = scripts_of(alloc, seed)?;
    let [notes @ .., edits] = scripts.as_slice() else {
        return Err(RowsFault::BadRow);
    };
    let mut out = Vec::new(alloc);
    run_connections(rt, alloc, Format::Json, (SETUP, &scripts), &mut out)?;
    let output = std::str::from_utf8(&out).ok().ok_or(RowsFault::Wrong)?;
    let table = table_after(alloc, notes, edits)?;
    let mut is_judged = true;
    let mut parts = output.split("{\"connection\":").skip(1);
    for (id, notes) in notes.iter().enumerate() {
        let part = parts.next().ok_or(RowsFault::BadRow)?;
        let (_, lines) = part.split_once('\n').ok_or(RowsFault::BadRow)?;
        is_judged &= are_judged(alloc, id, notes, lines)?;
    }
    Ok((is_judged, output.ends_with(table.as_str())))
}

/// Runs scripts with so many seeds over a service. Returns a line for each run where what the connections were answered
/// or the table isn't as it must be; and how many runs there were.
pub(crate) fn printed_beside<R: Threads + Wait + Sync>(
    rt: &R,
    alloc: Global,
) -> Result<Vec<u8>, RowsFault> {
    let mut out = Vec::new(alloc);
    for seed in 0..RUNS {
        let (judged, settled) = judge_run(rt, alloc, seed)?;
        if !judged || !settled {
            writeln!(out, "run {seed}: judged {judged}, settled {settled}")?;
        }
    }
    writeln!(out, "{RUNS} runs")?;
    Ok(out)
}
