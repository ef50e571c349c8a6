//! Sweeps: turns of the stale conversations, by rising ids.

ghost use Rattle.std.specs.Prelude.{ℕ, OnErr};
ghost use Rattle.std.specs.Result.{result_ok};
ghost use Rattle.scrib_core.specs.Marks.{IsStale};
ghost use Rattle.scrib_core.specs.Held.{state_of};
ghost use Rattle.scrib_sweep.specs.Sweeps.{AreStale, Covers, IsSwept, IsSweptSome};

use crate::conversation_turns::{End, enough_turns, turn_until_judged};
use crate::stale::{is_stale, stale_conversations};
use scrib_core::monitor::Core;
use std::alloc::{AllocError, Global};

/// The most turns that [`sweep_some`] makes.
pub const MAX_TURNS: usize = 64;

/// What a part of a sweep did: how many conversations are not stale any more, and the ids that are left. `refused` is
/// whether a turn was refused memory.
pub struct Progress<'a> {
    pub judged: usize,
    pub left: &'a [u32],
    pub refused: bool,
}

/// Makes turns of the stale conversations, by rising ids, until none is stale. Returns how many were stale.
///
/// # Errors
/// `AllocError` if memory was refused. The turns made so far remain, and some conversation is still stale.
pub fn sweep(alloc: Global, core: &mut Core) -> Result<usize, AllocError>
    ensures swept { IsSwept (state_of core.old) (result_ok result) (state_of core.new) }
    ensures some { OnErr result ((id : ℕ) × IsStale ((state_of core.new).marks id)) }
{
    let stale = stale_conversations(alloc, core)?;
    sweep_all(core, stale.as_slice())
}

// Makes turns of these conversations, which are those that are stale.
fn sweep_all(core: &mut Core, stale: &[u32]) -> Result<usize, AllocError>
    requires { AreStale (state_of core.old) stale.now }
    ensures swept { IsSwept (state_of core.old) (result_ok result) (state_of core.new) }
    ensures some { OnErr result ((id : ℕ) × IsStale ((state_of core.new).marks id)) }
{
    for id in stale {
        let limit = enough_turns(core, *id);
        match turn_until_judged(core, *id, limit).end {
            End::Judged => {}
            End::Limited => unreachable!(),
            End::Refused => return Err(AllocError),
        }
    }
    Ok(stale.len())
}

/// Makes at most [`MAX_TURNS`] turns of the listed conversations that are stale, in the order of the list. The list
/// rises, and has each stale conversation. A conversation whose turns are not done is the first one left.
pub fn sweep_some<'a>(core: &mut Core, listed: &'a [u32]) -> Progress<'a>
    requires { Covers (state_of core.old) listed.now }
    ensures { IsSweptSome (state_of core.old) listed.now result (state_of core.new) }
{
    let mut limit = MAX_TURNS;
    let mut judged = 0;
    for (index, id) in listed.iter().enumerate() {
        if is_stale(core, *id) {
            let made = turn_until_judged(core, *id, limit);
            limit -= made.turns;
            match made.end {
                End::Judged => judged += 1,
                end => {
                    let (_, left) = listed.split_at(index);
                    return Progress {
                        judged,
                        left,
                        refused: matches!(end, End::Refused),
                    };
                }
            }
        }
    }
    Progress {
        judged,
        left: &[],
        refused: false,
    }
}
