//! The steps on a shard's conversations. Each is one step of the core on the conversation of its id, and leaves every
//! other conversation unchanged.

ghost use Rattle.std.specs.Prelude.{◌≡◌, IfOk, IfErr, OnOk, OnErr};
ghost use Rattle.scrib_core.specs.ConversationSteps.{IsOpened, OpenFails, IsNotedAt, NoteFails, IsTurnedAt, IsAskedAt, VerdictFails, IsClosedAt, CloseFails};
ghost use Rattle.scrib_locked_steps.specs.Openings.{IsNumbered, IsUnnumbered, HasSameOpenings};

use crate::shard::Shard;
pub use scrib_core::conversation_steps::{Closed, Judged, Noted};
use scrib_core::conversation_steps::{Opening, ask, close, note, open, turn};
use scrib_core::places::{RecordKey, usual_place};
use scrib_core::reply::Refusal;
use scrib_library::library::Library;
use scrib_record::comparison::Comparison;
use scrib_types::name::Dotted;
use scrib_types::shared_event::SharedEvent;

/// Opens a conversation of the protocol, within the shard's own limit. Returns the protocol's name.
///
/// # Errors
/// `AlreadyOpen`, `UnknownProtocol`, `TooManyConversations` or `OutOfMemory`, whichever applies first. Nothing changes
/// then.
pub fn open_step(
    library: &Library,
    shard: &mut Shard,
    id: u32,
    name: &Dotted,
) -> Result<Dotted, Refusal>
    ensures name { IfOk result (λ n. n ≡ name.now) }
    ensures ok { OnOk result (IsOpened shard.old.capacity library.now shard.old.records id name.now shard.new.records) }
    ensures fault { IfErr result (OpenFails shard.old.capacity library.now shard.old.records id name.now) }
    ensures err { OnErr result (shard.new.records ≡ shard.old.records) }
    ensures limit { shard.new.capacity ≡ shard.old.capacity }
    ensures number { OnOk result (IsNumbered shard.old.openings shard.old.opened id shard.new.openings shard.new.opened) }
    ensures kept { OnErr result (HasSameOpenings shard.old shard.new) }
{
    library.means_protocols();
    let opening = Opening {
        limit: shard.capacity,
        id,
        name,
    };
    let opened = open(library, &mut shard.records, opening)?;
    if shard.directory.list(shard.alloc, name, id).is_err() {
        // A conversation that the directory does not list is not opened.
        shard.records.pop();
        return Err(Refusal::OutOfMemory);
    }
    Ok(opened)
}

/// Appends the event to the conversation's log.
///
/// # Errors
/// `NoConversation`, `LogFull` or `OutOfMemory`, whichever applies first. Nothing changes then.
pub fn note_step(
    library: &Library,
    shard: &mut Shard,
    id: u32,
    event: SharedEvent,
) -> Result<Noted, Refusal>
    ensures ok { IfOk result (λ n. IsNotedAt library.now shard.old.records id event n.place n.told shard.new.records) }
    ensures fault { IfErr result (NoteFails shard.old.records id) }
    ensures err { OnErr result (shard.new.records ≡ shard.old.records) }
    ensures limit { shard.new.capacity ≡ shard.old.capacity }
    ensures kept { HasSameOpenings shard.old shard.new }
{
    let hint = usual_place(&shard.records, id);
    let key = RecordKey { id, hint };
    let noted = note(library, &mut shard.records, Comparison::Whole, key, event)?;
    shard.book += 1;
    Ok(noted)
}

/// Judges up to 256 further events of a conversation with a stale verdict.
///
/// # Errors
/// `NoConversation` or `OutOfMemory`. Nothing changes then.
pub fn turn_step(library: &Library, shard: &mut Shard, id: u32) -> Result<Judged, Refusal>
    ensures ok { IfOk result (λ j.
        IsTurnedAt library.now shard.old.records id j.name j.events j.told shard.new.records) }
    ensures fault { IfErr result (VerdictFails shard.old.records id) }
    ensures err { OnErr result (shard.new.records ≡ shard.old.records) }
    ensures limit { shard.new.capacity ≡ shard.old.capacity }
    ensures kept { HasSameOpenings shard.old shard.new }
{
    let hint = usual_place(&shard.records, id);
    let key = RecordKey { id, hint };
    turn(library, &mut shard.records, Comparison::Whole, key)
}

/// Returns the verdict on a conversation, or `Stale`.
///
/// # Errors
/// `NoConversation` or `OutOfMemory`.
pub fn ask_step(library: &Library, shard: &Shard, id: u32) -> Result<Judged, Refusal>
    ensures ok { IfOk result (λ j. IsAskedAt library.now shard.now.records id j.name j.events j.told) }
    ensures fault { IfErr result (VerdictFails shard.now.records id) }
{
    let hint = usual_place(&shard.records, id);
    let key = RecordKey { id, hint };
    ask(library, &shard.records, Comparison::Whole, key)
}

/// Takes the conversation out of the shard. Returns the protocol's name, the number of events in the log, the verdict
/// on all of them, and whether the log is complete. The others stay, in any order.
///
/// # Errors
/// `NoConversation` or `OutOfMemory`. Nothing changes then.
pub fn close_step(library: &Library, shard: &mut Shard, id: u32) -> Result<Closed, Refusal>
    ensures ok { IfOk result (λ c. IsClosedAt library.now shard.old.records id c shard.new.records) }
    ensures fault { IfErr result (CloseFails shard.old.records id) }
    ensures err { OnErr result (shard.new ≡ shard.old) }
    ensures limit { shard.new.capacity ≡ shard.old.capacity }
    ensures opened { shard.new.opened ≡ shard.old.opened }
    ensures openings { OnOk result (IsUnnumbered shard.old.openings id shard.new.openings) }
{
    let hint = usual_place(&shard.records, id);
    let key = RecordKey { id, hint };
    let Closed {
        name,
        events,
        verdict,
        complete,
    } = close(library, &mut shard.records, Comparison::Whole, key)?;
    shard.book -= events as u64;
    let name = shard.directory.unlist(name, id);
    Ok(Closed {
        name,
        events,
        verdict,
        complete,
    })
}
