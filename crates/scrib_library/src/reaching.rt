//! The protocols that an edit of a module can change: its own, and those that reach one of these by calls.

ghost use Rattle.std.specs.Prelude.{◌≡◌, ◌<◌, ◌⊎◌, [], false, length, IfOk, MatchOption, Contains};
ghost use Rattle.scrib_library.specs.declared.declared.Entry as listed;
ghost use Rattle.scrib_library.specs.Calls.{DoesNotCall, IsWorklist, AreGathered, AreReaching};

use crate::calls::{calls_in, may_call};
use crate::declared::{Entry, place_of};
use scrib_types::name::Dotted;
use std::alloc::{AllocError, Global};

// The protocols that the edit is known to reach, and the others, which are still to be checked.
#[derive(Drop)]
struct Worklist<'a> {
    reached: Vec<Entry<'a>>,
    waiting: Vec<Entry<'a>>,
}

/// Returns the entries of the module `edited` and those that reach one of these by calls, in the order of names.
///
/// # Errors
/// `AllocError` if memory was refused.
pub fn reaching<'a>(
    alloc: Global,
    edited: &Dotted,
    entries: Vec<Entry<'a>>,
) -> Result<Vec<Entry<'a>>, AllocError>
    ensures { IfOk result (λ rs. AreReaching edited.now entries.entry.items rs.items) }
{
    let Worklist {
        mut reached,
        mut waiting,
    } = start_worklist(alloc, edited, entries)?;
    let mut at = 0;
    while at < reached.len() {
        match place_of_caller(&waiting, &reached[at]) {
            Some(place) => {
                let caller = waiting.remove(place);
                reached.push(caller)?;
            }
            None => at += 1,
        }
    }
    in_order(alloc, reached)
}

// Splits the entries into those of the edited module and the others.
fn start_worklist<'a>(
    alloc: Global,
    edited: &Dotted,
    entries: Vec<Entry<'a>>,
) -> Result<Worklist<'a>, AllocError>
    ensures { IfOk result (λ s. IsWorklist edited.now entries.entry.items s.reached.items s.waiting.items []) }
{
    let mut reached = Vec::new(alloc);
    let mut waiting = Vec::new(alloc);
    for entry in entries {
        if edited.equal(&entry.home.name) {
            reached.push(entry)?;
        } else {
            waiting.push(entry)?;
        }
    }
    Ok(Worklist { reached, waiting })
}

// Returns the index of the first entry that calls `called`.
fn place_of_caller(waiting: &[Entry], called: &Entry) -> Option<usize>
    ensures { MatchOption result
        ((e : listed.Entry) → Contains waiting.now e → DoesNotCall e called.now)
        (λ at. at < length waiting.now) }
{
    for (at, entry) in waiting.iter().enumerate() {
        if is_caller(entry, called) {
            return Some(at);
        }
    }
    None
}

// Whether the first entry's protocol calls the second's.
fn is_caller(entry: &Entry, called: &Entry) -> bool
    ensures { result ≡ false → DoesNotCall entry.now called.now }
{
    let home = &called.home.name;
    let body = entry.protocol.body.as_slice();
    may_call(entry.home, home) && calls_in(entry.home, body, home, &called.protocol.name)
}

// Sorts the entries by name and keeps one of each name. Errors: `AllocError` if memory was refused.
fn in_order<'a>(alloc: Global, entries: Vec<Entry<'a>>) -> Result<Vec<Entry<'a>>, AllocError>
    ensures { IfOk result (λ rs. AreGathered entries.entry.items rs.items) }
{
    let mut sorted = Vec::with_capacity(alloc, entries.len())?;
    for entry in entries {
        if let Err(place) = place_of(&sorted, &entry.name) {
            sorted.insert(place, entry)?;
        }
    }
    Ok(sorted)
}
