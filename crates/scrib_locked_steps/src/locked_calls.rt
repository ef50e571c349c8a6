//! The steps of a service's calls under its locks. Each takes the library and the value of a shard. Each is one step of
//! the core on the conversation of its id, and leaves every other conversation unchanged. A service notes by
//! `note_by_pass` and `note_all_by_pass`, which compare a receipt first.

ghost use Rattle.std.specs.Prelude.{◌≡◌, [], ℕ, IfOk, IfErr};
ghost use Rattle.scrib_locked_steps.specs.Locked.{AnswersOpen, AnswersNote, AnswersTurn, AnswersAsk, AnswersClose, ConnectFails, IsConnected};
ghost use Rattle.scrib_locked_steps.specs.Receipts.{IsFirstMismatch};
ghost use Rattle.scrib_locked_steps.specs.Shards.{log_at};

use crate::pass::{Pass, Receipt};
use crate::receipt_check::first_mismatch;
use crate::shard::Shard;
use crate::step_results::{ask_step, close_step, note_step, open_step, turn_step};
use scrib_core::reply::{Refusal, Reply, close_reply, note_reply, open_reply, verdict_reply};
use scrib_library::library::Library;
use scrib_types::name::Dotted;
use scrib_types::shared_event::SharedEvent;

/// Opens a conversation of the protocol, within the shard's own limit, and returns `Opened`. Otherwise it returns the
/// first refusal that applies and changes nothing: `AlreadyOpen`, `UnknownProtocol`, `TooManyConversations` or
/// `OutOfMemory`.
pub fn open_locked(library: &Library, shard: &mut Shard, id: u32, name: &Dotted) -> Reply
    ensures answered { AnswersOpen shard.old.capacity library.now shard.old.records id name.now result
        shard.new.records }
    ensures limit { shard.new.capacity ≡ shard.old.capacity }
{
    open_reply(id, open_step(library, shard, id, name))
}

/// Appends the event to the conversation's log and returns `Noted`. Otherwise it returns the first refusal that applies
/// and changes nothing: `NoConversation`, `LogFull` or `OutOfMemory`.
pub fn note_locked(library: &Library, shard: &mut Shard, id: u32, event: SharedEvent) -> Reply
    ensures answered { AnswersNote library.now shard.old.records id event result shard.new.records }
    ensures limit { shard.new.capacity ≡ shard.old.capacity }
{
    note_reply(id, note_step(library, shard, id, event))
}

/// Judges up to 256 further events of a conversation with a stale verdict, and returns `Judged`. Otherwise it returns
/// `NoConversation` or `OutOfMemory` and changes nothing.
pub fn turn_locked(library: &Library, shard: &mut Shard, id: u32) -> Reply
    ensures answered { AnswersTurn library.now shard.old.records id result shard.new.records }
    ensures limit { shard.new.capacity ≡ shard.old.capacity }
{
    verdict_reply(id, turn_step(library, shard, id))
}

/// Returns `Judged` with the verdict on a conversation, or with `Stale`. Otherwise it returns `NoConversation` or
/// `OutOfMemory`.
pub fn ask_locked(library: &Library, shard: &Shard, id: u32) -> Reply
    ensures { AnswersAsk library.now shard.now.records id result }
{
    verdict_reply(id, ask_step(library, shard, id))
}

/// Takes the conversation out of the shard, and returns `Closed` with the verdict on its whole log. Otherwise it returns
/// `NoConversation` or `OutOfMemory` and changes nothing. A service closes by `close_by_passes`, which compares the
/// receipts of the passes first.
pub fn close_locked(library: &Library, shard: &mut Shard, id: u32) -> Reply
    ensures answered { AnswersClose library.now shard.old.records id result shard.new.records }
    ensures limit { shard.new.capacity ≡ shard.old.capacity }
{
    close_reply(id, close_step(library, shard, id))
}

/// Returns a pass to a conversation, for its present opening, without receipts.
///
/// # Errors
/// `NoConversation` if no conversation of the id is open.
pub fn connect_locked(shard: &Shard, id: u32) -> Result<Pass, Refusal>
    ensures ok { IfOk result (IsConnected shard.now id) }
    ensures fault { IfErr result (ConnectFails shard.now.records id) }
{
    if shard.records.contains_key(&id) {
        Ok(Pass::new(shard.alloc, id, shard.directory.opening(id)))
    } else {
        Err(Refusal::NoConversation)
    }
}

/// Returns the least place of a receipt that differs from the conversation's log: its event is not the entry there. If
/// no conversation of the id is open, every receipt differs.
pub fn stands_locked(shard: &Shard, id: u32, receipts: &[Receipt]) -> Option<usize>
    ensures { IsFirstMismatch (log_at shard.now.records id) receipts.now result }
{
    match shard.records.get(&id) {
        Some(record) => first_mismatch(record.log(), receipts),
        None => first_mismatch(&[], receipts),
    }
}
