//! Worked examples of the service and of its sweeps, with threads and beside a core.

mod alone;
mod closing;
mod crew;
mod crossing;
mod events;
mod parts;
mod settling;
mod stage;
mod sweeping;
mod table;

use crate::fault::RowsFault;
use crate::service::alone::apply;
pub(crate) use crate::service::closing::close;
use crate::service::crew::{Editing, Plan};
use crate::service::parts::printed_parts;
pub(crate) use crate::service::settling::push_settling_twice;
use crate::service::stage::{Act, Ending, play};
use crate::service::sweeping::Sweep;
use crate::service::table::{BESIDE_EDITS, EXAMPLES, PUT_LOOP};
use std::alloc::Global;
use std::io::Write;
use std::sync::Wait;
use std::thread::Threads;

// What is printed where so many threads note so many events in all on a service of so many shards:
//
// - `settle`: each notes in conversations of its own, and the service is settled; the table.
// - `notes`: the same without settling; how many events were noted.
// - `edited`: as `notes`, beside a further thread that puts a module without pause.
fn printed_by_threads<R: Threads + Wait + Sync>(
    rt: &R,
    alloc: Global,
    word: &str,
    (threads, shards, notes): (usize, usize, usize),
) -> Result<Vec<u8>, RowsFault> {
    let (editing, ending) = match word {
        "settle" => (Editing::Nothing, Ending::Settle),
        "notes" => (Editing::Nothing, Ending::Count),
        "edited" => (Editing::AnotherModule, Ending::Count),
        _ => return Err(RowsFault::BadRow),
    };
    let plan = Plan::Note {
        threads,
        notes,
        editing,
    };
    play(
        rt,
        alloc,
        shards,
        &[Act::Make(PUT_LOOP), Act::Run(plan)],
        ending,
    )
}

// What is printed by the example of this word and number, over what follows its line. `script` is run on a service of
// so many shards, on one thread, beside a core, and so is `agree`, which prints how many replies differ. `apply` notes so
// many events by a core; how many were noted.
fn printed_by_number<R: Threads + Wait + Sync>(
    rt: &R,
    alloc: Global,
    word: &str,
    number: usize,
    body: &str,
) -> Result<Vec<u8>, RowsFault> {
    for (name, acts, ending) in EXAMPLES {
        if *name == word {
            return play(rt, alloc, number, acts, *ending);
        }
    }
    match word {
        "parts" => printed_parts(alloc, number),
        "apply" => {
            let mut out = Vec::new(alloc);
            writeln!(out, "{}", apply(alloc, number)?)?;
            Ok(out)
        }
        "script" => play(rt, alloc, number, &[Act::Compare(body)], Ending::Settle),
        "agree" => play(rt, alloc, number, &[Act::Agree(body)], Ending::Nothing),
        "many-threads" => printed_by_threads(rt, alloc, "settle", (number, 64, 8_000)),
        "numbers-of-workers" => {
            let acts = [Act::Sweep(Sweep::UpTo(number))];
            play(rt, alloc, 1, &acts, Ending::Nothing)
        }
        "threads-swept" => {
            let sweep = Act::Sweep(Sweep::Workers(number));
            let acts = [Act::Make(PUT_LOOP), Act::Run(BESIDE_EDITS), sweep];
            play(rt, alloc, 2, &acts, Ending::Settle)
        }
        _ => Err(RowsFault::BadRow),
    }
}

/// What is printed by the command, a word and a number, or a word and three, over what follows its line.
pub(crate) fn printed_service<R: Threads + Wait + Sync>(
    rt: &R,
    alloc: Global,
    command: &str,
    body: &str,
) -> Result<Vec<u8>, RowsFault> {
    let mut words = command.split(' ');
    let word = words.next().ok_or(RowsFault::BadRow)?;
    let mut numbers: Vec<usize> = Vec::new(alloc);
    for number in words {
        numbers.push(number.parse().ok().ok_or(RowsFault::BadRow)?)?;
    }
    match numbers.as_slice() {
        [number] => printed_by_number(rt, alloc, word, *number, body),
        [threads, shards, notes] => {
            printed_by_threads(rt, alloc, word, (*threads, *shards, *notes))
        }
        _ => Err(RowsFault::BadRow),
    }
}
