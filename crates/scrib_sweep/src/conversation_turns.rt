//! Turns of one conversation.

ghost use Rattle.scrib_core.specs.Held.{state_of};
ghost use Rattle.scrib_sweep.specs.ConversationTurns.{AreEnough, IsConversationSwept, IsTurnOf};
ghost use Rattle.scrib_sweep.specs.Sweeps.{IsFirstStale};

use scrib_core::monitor::Core;
use scrib_core::reply::Reply;
use scrib_core::step::Step;
use scrib_types::event::Told;

/// How the turns of a conversation ended.
#[derive(Clone, Copy)]
pub(crate) enum End {
    /// Its verdict is not stale any more.
    Judged,
    /// The limit of turns was reached, and its verdict is still stale.
    Limited,
    /// A turn was refused memory, and its verdict is still stale.
    Refused,
}

/// The number of turns that were made of a conversation, and how they ended.
#[derive(Clone, Copy)]
pub(crate) struct ConversationTurns {
    pub turns: usize,
    pub end: End,
}

/// Makes turns of the first stale conversation until its verdict is not stale, at most so many.
pub(crate) fn turn_until_judged(core: &mut Core, id: u32, limit: usize) -> ConversationTurns
    requires { IsFirstStale (state_of core.old) id }
    ensures { IsConversationSwept (state_of core.old) id limit result (state_of core.new) }
{
    for turns in 0..limit {
        match turn(core, id) {
            Some(Told::Stale) => {}
            Some(Told::Judged(_)) => {
                return ConversationTurns {
                    turns: turns + 1,
                    end: End::Judged,
                };
            }
            None => {
                return ConversationTurns {
                    turns,
                    end: End::Refused,
                };
            }
        }
    }
    ConversationTurns {
        turns: limit,
        end: End::Limited,
    }
}

/// Returns a number of turns that cover the log of the conversation. A turn judges 256 events.
pub(crate) fn enough_turns(core: &Core, id: u32) -> usize
    ensures { AreEnough (state_of core.now) id result }
{
    match core.view(id) {
        Some((_, log)) => log.len() / 256 + 1,
        None => 1,
    }
}

// Makes a turn of the conversation, and returns its verdict, or `None` where the turn is refused.
fn turn(core: &mut Core, id: u32) -> Option<Told>
    ensures { IsTurnOf (state_of core.old) id result (state_of core.new) }
{
    match core.apply(Step::Turn { id }) {
        Reply::Judged { told, .. } => Some(told),
        _ => None,
    }
}
