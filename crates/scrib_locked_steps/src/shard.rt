//! Shards: conversations that share one lock.

ghost use Rattle.std.specs.Prelude.{◌≡◌, ◌<◌, ◌≤◌, ◌^◌, [], ℕ, IfSome, Some, length, slice_get};
ghost use Rattle.std.specs.Option.{option_copied};
ghost use Rattle.scrib_record.specs.Stale.{Recorded};
ghost use Rattle.scrib_core.specs.Held.{record_at};
ghost use Rattle.scrib_locked_steps.specs.Shards.{IsLawfulShard, book_of};

use crate::directory::Directory;
use indexmap::IndexMap;
use scrib_record::record::Record;
use std::alloc::Global;
use std::marker::Model;

/// The records of some conversations, up to a limit of the shard's own. They are in the order of opening, until one is
/// closed. A directory lists their ids by protocol and numbers the openings, and a book counts the events of all logs.
/// Contracts see the limit, the records and the numbers.
#[derive(Drop)]
pub struct Shard {
    pub(crate) alloc: Global,
    pub(crate) capacity: usize,
    pub(crate) records: IndexMap<u32, Record>,
    pub(crate) directory: Directory,
    pub(crate) book: u64,
}

impl Model for Shard {
    ghost use Rattle.scrib_record.specs.contracts.version.Edition as version;
    ghost use Rattle.std.specs.Coded.{codes};
    ghost use Rattle.scrib_locked_steps.specs.Shards.{ShardHeld, IsShardStored};

    ghost Value = { ShardHeld };

    ghost coded = { Prim.hlevel (codes, version.the_row.coded) };

    ghost view = { λ s. record { capacity = s.capacity; records = s.records.entries; openings = s.directory.openings.entries; opened = s.directory.opened } };

    ghost invariant = { λ s. IsShardStored s.capacity s.records.entries s.directory.index.entries s.book };
}

impl Shard {
    /// Returns a shard without conversations, for at most `capacity` of them. `capacity` is at most 65,536.
    pub fn new(alloc: Global, capacity: usize) -> Shard
        requires { capacity ≤ 65536 }
        ensures { result ≡ record { capacity = capacity; records = []; openings = []; opened = 0 } }
    {
        Shard {
            alloc,
            capacity,
            records: IndexMap::new(alloc),
            directory: Directory::new(alloc),
            book: 0,
        }
    }

    /// Returns the book: the number of events in all logs.
    pub fn book(&self) -> u64
        ensures is { result ≡ book_of self.now.records }
        ensures small { result < 2 ^ 63 }
    {
        self.book
    }

    /// Returns the number of conversations.
    pub fn len(&self) -> usize
        ensures len { result ≡ length self.now.records }
        ensures kept { IsLawfulShard self.now }
    {
        self.records.len()
    }

    /// Returns the id and the record of a conversation, by its index, from 0.
    pub fn at(&self, index: usize) -> (u32, &Record)
        requires { index < length self.now.records }
        ensures { slice_get self.now.records index ≡ Some (result.0, result.1.now) }
    {
        (self.records.keys()[index], &self.records[index])
    }

    /// Returns the index of a conversation, from 0.
    pub fn index_of(&self, id: u32) -> Option<usize>
        ensures within { IfSome result (λ i. i < length self.now.records) }
        ensures found { IfSome result (λ i. (r : Recorded) × (slice_get self.now.records i ≡ Some (id, r))) }
        ensures only { (i : ℕ) (r : Recorded) → slice_get self.now.records i ≡ Some (id, r) → result ≡ Some i }
    {
        self.records.get_index_of(&id)
    }

    /// Returns the record of a conversation.
    pub fn record(&self, id: u32) -> Option<&Record>
        ensures { option_copied result ≡ record_at self.now.records id }
    {
        self.records.get(&id)
    }
}
