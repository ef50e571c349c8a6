//! Conversations with stale verdicts, and sweeps, which leave none.

ghost use Rattle.std.specs.Prelude.{◌≡◌, ◌≤◌, ◌*◌, ◌++◌, IfOk, OnOk, OnErr};
ghost use Rattle.std.specs.Option.{option_copied};
ghost use Rattle.scrib_locked_steps.specs.Sweeping.{is_stale_of, stale_ids_of, IsStaleAt, IsFreshAt, AreStaleIds, IsStaleCount, AreSame, AreSameBut, AreTurns, AreSomeTurns, AreSwept, IsServedAt, IsTurnedUnder};

use crate::shard::Shard;
use indexmap::IndexMap;
use scrib_library::library::Library;
use scrib_record::answer::Answer;
use scrib_record::comparison::Comparison;
use scrib_record::numbering::Numbering;
use scrib_record::record::Record;
use scrib_record::version::Version;
use scrib_types::event::Told;
use std::alloc::AllocError;

/// The maximal number of turns of a conversation in one sweep. Each judges 256 events, so they suffice for the longest
/// log.
pub const MAX_TURNS: u64 = 4_096;

/// The number of turns that a sweep made, and of conversations whose stale verdict it renewed.
#[derive(Clone, Copy, Debug, PartialEq, Eq)]
pub struct Swept {
    pub turns: u64,
    pub judged: u64,
}

/// Returns the ids of the conversations with stale verdicts, rising.
///
/// # Errors
/// `AllocError` if memory was refused.
pub fn touched_locked(library: &Library, shard: &Shard) -> Result<Vec<u32>, AllocError>
    ensures { IfOk result (λ ids. AreStaleIds library.now shard.now.records ids.items) }
{
    let _conversations = shard.len();
    let mut ids = Vec::new(shard.alloc);
    for place in 0..shard.directory.index.len() {
        if let Some((key, listed)) = shard.directory.index.get_index(place) {
            push_stale(library.present(&key.name), shard, listed, &mut ids)?;
        }
    }
    ids.sort_unstable();
    Ok(ids)
}

// Appends those of the listed conversations whose verdict is stale. `present` is the present version of their protocol,
// if it has one.
fn push_stale(
    present: Option<&Version>,
    shard: &Shard,
    listed: &[u32],
    ids: &mut Vec<u32>,
) -> Result<(), AllocError>
    ensures { OnOk result (ids.new.items ≡ ids.old.items ++ stale_ids_of (option_copied present.entry)
        shard.now.records listed.now) }
{
    for id in listed {
        if is_stale_record(present, shard.record(*id)) {
            ids.push(*id)?;
        }
    }
    Ok(())
}

/// Renews every stale verdict of the shard, with at most 4,096 turns for each conversation.
///
/// # Errors
/// `AllocError` if memory was refused. The turns made so far remain.
pub fn sweep_shard(library: &Library, shard: &mut Shard) -> Result<Swept, AllocError>
    ensures swept { OnOk result (AreSwept library.now shard.old.records shard.new.records) }
    ensures turned { IfOk result (λ s. AreTurns library.now s.turns shard.old.records shard.new.records) }
    ensures judged { IfOk result (λ s. IsStaleCount library.now shard.old.records s.judged) }
    ensures err { OnErr result (AreSomeTurns library.now shard.old.records shard.new.records) }
    ensures same { AreSame shard.old.records shard.new.records }
    ensures limit { shard.new.capacity ≡ shard.old.capacity }
    ensures turns { IfOk result (λ s. s.judged ≤ s.turns) }
    ensures few { IfOk result (λ s. s.turns ≤ 4096 * s.judged) }
{
    // The contract of `len` bounds the number of conversations, and so of turns.
    let _conversations = shard.len();
    let touched = touched_locked(library, shard)?;
    let mut swept = Swept {
        turns: 0,
        judged: 0,
    };
    for id in &touched {
        let turns = sweep_conversation(library, shard, *id)?;
        swept.turns = swept.turns.saturating_add(turns);
        swept.judged = swept.judged.saturating_add(1);
    }
    Ok(swept)
}

// Gives the conversation, whose verdict is stale, turns until it is fresh. Returns their number.
fn sweep_conversation(library: &Library, shard: &mut Shard, id: u32) -> Result<u64, AllocError>
    requires { IsStaleAt library.now shard.old.records id }
    ensures fresh { OnOk result (IsFreshAt library.now shard.new.records id) }
    ensures turned { IfOk result (λ n. AreTurns library.now n shard.old.records shard.new.records) }
    ensures err { OnErr result (AreSomeTurns library.now shard.old.records shard.new.records) }
    ensures same { AreSameBut id shard.old.records shard.new.records }
    ensures limit { shard.new.capacity ≡ shard.old.capacity }
    ensures some { IfOk result (λ n. 1 ≤ n) }
    ensures few { IfOk result (λ n. n ≤ 4096) }
{
    library.are_numbered();
    let _conversations = shard.len();
    let Some(conversation) = shard.record(id) else {
        // Not reached, since the conversation exists.
        return Err(AllocError);
    };
    let present = library.present(conversation.name());
    let mut known = library.numbering(conversation.name());
    let mut comparison = Comparison::Whole;
    let mut turns = 0;
    loop {
        let verdict = turn_under(present, comparison, shard, id, known)?;
        turns += 1;
        // The record holds the present version now.
        comparison = Comparison::Numbers;
        known = None;
        match verdict {
            Told::Stale => {}
            Told::Judged(_) => return Ok(turns),
        }
    }
}

// Judges up to 256 further events of the conversation. `present` is the present version of its protocol, if it has one.
// `known` is its numbering, or another one, or none.
fn turn_under(
    present: Option<&Version>,
    comparison: Comparison,
    shard: &mut Shard,
    id: u32,
    known: Option<Numbering>,
) -> Result<Told, AllocError>
    requires { IsServedAt comparison (option_copied present) shard.old.records id }
    ensures ok { IfOk result (λ verdict.
        IsTurnedUnder (option_copied present.entry) shard.old.records id verdict shard.new.records) }
    ensures err { OnErr result (shard.new.records ≡ shard.old.records) }
    ensures limit { shard.new.capacity ≡ shard.old.capacity }
{
    turn_in_records(present, comparison, &mut shard.records, id, known)
}

// As `turn_under`, in the records of a shard.
fn turn_in_records(
    present: Option<&Version>,
    comparison: Comparison,
    records: &mut IndexMap<u32, Record>,
    id: u32,
    known: Option<Numbering>,
) -> Result<Told, AllocError>
    requires { IsServedAt comparison (option_copied present) records.old.entries id }
    ensures ok { IfOk result (λ verdict.
        IsTurnedUnder (option_copied present.entry) records.old.entries id verdict records.new.entries) }
    ensures err { OnErr result (records.new.entries ≡ records.old.entries) }
{
    let Some(conversation) = records.get_mut(&id) else {
        return Err(AllocError);
    };
    let verdict = conversation.turn(present, comparison, known)?;
    // The contract of `log` says that the record is lawful.
    let _events = conversation.log();
    Ok(verdict)
}

// Whether the record exists and its verdict is stale. `present` is the present version of its protocol, if it has one.
fn is_stale_record(present: Option<&Version>, conversation: Option<&Record>) -> bool
    ensures { result ≡ is_stale_of (option_copied present.entry) (option_copied conversation.entry) }
{
    let Some(record) = conversation else {
        return false;
    };
    matches!(record.ask(present, Comparison::Whole), Answer::Stale)
}
