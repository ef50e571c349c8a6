//! The service.

ghost use Rattle.std.specs.Prelude.{◌≡◌, ◌⊎◌, ◌↔◌, ◌<◌, ◌≤◌, ℕ, [], IfOk, IfErr, OnOk, OnErr, IsErrOf, All, vec_len, vec_capacity};
ghost use Rattle.scrib_locked_steps.specs.Passes.{IsReceipted, IsAnsweredOn};
ghost use Rattle.scrib_shards.specs.Called.{IsPutSome, PutFailsSome, IsWithdrawnSome, WithdrawFailsSome, IsProfiledSome, ProfileFailsSome, IsOpenedSome, OpenFailsSome, IsConnectedSome, ConnectFailsSome, IsNotedSome, NoteFailsSome, AreAnsweredSome, IsTurnedSome, TurnFailsSome, IsAskedSome, AskFailsSome, IsClosedSome, CloseFailsSome};

use crate::gate::Gate;
use crossbeam_utils::CachePadded;
use crossbeam_utils::sync::ShardedLock;
use scrib_core::monitor::MAX_CONVERSATIONS;
use scrib_core::reply::Refusal;
use scrib_library::changes::Changes;
use scrib_library::fault::EditFault;
use scrib_library::library::Library;
use scrib_locked_steps::batch_notes::{Batch, note_all_by_pass};
use scrib_locked_steps::close_calls::{CloseRefusal, close_by_passes};
use scrib_locked_steps::locked_calls::connect_locked;
use scrib_locked_steps::pass::Pass;
use scrib_locked_steps::pass_calls::{PassRefusal, PassReply, ask_by_pass, note_by_pass};
use scrib_locked_steps::shard::Shard;
use scrib_locked_steps::step_results::{Closed, Noted, open_step, turn_step};
use scrib_settlement::shares::MAX_SHARDS;
use scrib_types::event::Told;
use scrib_types::name::Dotted;
use scrib_types::profile::Profile;
use scrib_types::shared_event::SharedEvent;
use std::alloc::Global;
use std::sync::{Mutex, Wait};

/// Why a service was not created.
#[derive(Drop)]
pub enum ServiceFault {
    /// The number of shards is 0 or greater than 64.
    BadShards,
    /// Memory was refused.
    OutOfMemory,
}

/// The lock of a shard, alone on its cache lines.
pub(crate) type ShardLock = CachePadded<Mutex<Shard>>;

/// A library behind a lock for reading and writing, and 1 to 64 shards, each behind a lock of its own. An edit takes
/// the library's lock for writing. Other calls take it for reading, if they need the library, and then the lock of
/// their conversation's shard. The number of that shard is the id modulo the number of shards. The library's lock has
/// parts. A reader takes the part of its shard's number, so that threads on different shards write different words.
#[derive(Drop)]
pub struct Service {
    pub(crate) alloc: Global,
    pub(crate) library: ShardedLock<Library>,
    pub(crate) shards: Vec<ShardLock>,
    // Room for the values of all shards, so that settling needs no memory for them.
    pub(crate) spare: Vec<Shard>,
    pub ghost some: { 0 < vec_len shards },
    pub ghost few: { vec_len shards ≤ 64 },
    pub ghost empty: { vec_len spare ≡ 0 },
    pub ghost room: { vec_len shards ≤ vec_capacity spare },
}

impl Service {
    /// Returns a service with this number of shards, without modules and conversations. All shards together hold at
    /// most 65,536 conversations, each the same number.
    ///
    /// # Errors
    /// `BadShards` exactly if the number is 0 or greater than 64; `OutOfMemory` if memory was refused.
    pub fn new(alloc: Global, shards: usize) -> Result<Service, ServiceFault>
        ensures made { IfOk result (λ s. vec_len s.shards ≡ shards) }
        ensures bad { IsErrOf result ServiceFault.BadShards ↔ ((shards ≡ 0) ⊎ (64 < shards)) }
    {
        if shards == 0 || shards > MAX_SHARDS {
            return Err(ServiceFault::BadShards);
        }
        let capacity = MAX_CONVERSATIONS / shards;
        let (Ok(mut locks), Ok(spare)) = (
            Vec::with_capacity(alloc, shards),
            Vec::with_capacity(alloc, shards),
        ) else {
            return Err(ServiceFault::OutOfMemory);
        };
        for _ in 0..shards {
            locks.push_reserved(shard_lock(Shard::new(alloc, capacity)));
        }
        match ShardedLock::new(alloc, Library::new(alloc)) {
            Ok(library) => Ok(service_of(alloc, library, locks, spare)),
            Err(_) => Err(ServiceFault::OutOfMemory),
        }
    }

    /// Returns the number of shards.
    pub fn shards(&self) -> usize
        ensures is { result ≡ vec_len self.now.shards }
        ensures some { 0 < result }
        ensures few { result ≤ 64 }
    {
        self.shards.len()
    }

    // Returns the shard of a conversation.
    #[inline(always)]
    fn shard_of(&self, id: u32) -> usize
        ensures { result < vec_len self.now.shards }
    {
        id as usize % self.shards.len()
    }

    /// Parses the text and puts its module into the library, replacing a module of the same name. Returns the changes.
    ///
    /// # Errors
    /// The first fault of the list of `EditFault` that applies; `OutOfMemory` if memory was refused. Nothing changes
    /// then.
    pub fn put(&self, rt: &impl Wait, text: &[u8]) -> Result<Changes, EditFault>
        ensures ok { IfOk result (IsPutSome text.now) }
        ensures fault { IfErr result (PutFailsSome text.now) }
    {
        let mut guard = self.library.write(rt);
        let library = &mut *guard;
        library.is_accepting();
        let changes = library.put(text)?;
        library.is_accepting();
        Ok(changes)
    }

    /// Withdraws the module of this name and returns the changes.
    ///
    /// # Errors
    /// `UnknownModule` if no module has the name, else `StillImported` if another module imports it; `OutOfMemory` if
    /// memory was refused. Nothing changes then.
    pub fn withdraw(&self, rt: &impl Wait, name: &Dotted) -> Result<Changes, EditFault>
        ensures ok { IfOk result (IsWithdrawnSome name.now) }
        ensures fault { IfErr result (WithdrawFailsSome name.now) }
    {
        let mut guard = self.library.write(rt);
        let library = &mut *guard;
        library.is_accepting();
        let changes = library.withdraw(name)?;
        library.is_accepting();
        Ok(changes)
    }

    /// Accepts protocols under this profile from now on.
    ///
    /// # Errors
    /// `NeedsReception` with the first name, in byte order, that the plain profile does not project, if that profile is
    /// wanted. `OutOfMemory` if memory was refused, which can happen only if the plain profile replaces the reception
    /// profile. Nothing changes then.
    pub fn profile(&self, rt: &impl Wait, profile: Profile) -> Result<(), EditFault>
        ensures ok { OnOk result (IsProfiledSome profile) }
        ensures fault { IfErr result (ProfileFailsSome profile) }
    {
        let mut guard = self.library.write(rt);
        let library = &mut *guard;
        library.is_accepting();
        library.set_profile(profile)?;
        library.is_accepting();
        Ok(())
    }

    /// Opens a conversation of the protocol.
    ///
    /// # Errors
    /// `AlreadyOpen`, `UnknownProtocol`, `TooManyConversations` if its shard is full, or `OutOfMemory`, whichever
    /// applies first. Nothing changes then.
    pub fn open(&self, rt: &impl Wait, id: u32, name: &Dotted) -> Result<(), Refusal>
        ensures ok { OnOk result (IsOpenedSome id name.now) }
        ensures fault { IfErr result (OpenFailsSome id name.now) }
    {
        let at = self.shard_of(id);
        let guard = self.library.read(rt, at);
        let library = &*guard;
        let mut shard = self.shards[at].lock(rt);
        library.is_accepting();
        let _conversations = shard.len();
        open_step(library, &mut shard, id, name)?;
        Ok(())
    }

    /// Returns a pass to a conversation, without receipts.
    ///
    /// # Errors
    /// `NoConversation` if no conversation of the id is open.
    pub fn connect(&self, rt: &impl Wait, id: u32) -> Result<Pass, Refusal>
        ensures ok { IfOk result (IsConnectedSome id) }
        ensures new { IfOk result (λ p. (opening : ℕ) × (p ≡ record { conversation = id; opening = opening; receipts = [] })) }
        ensures fault { IfErr result (ConnectFailsSome id) }
    {
        let shard = self.shards[self.shard_of(id)].lock(rt);
        connect_locked(&shard, id)
    }

    /// Appends the event to the log of the pass's conversation. The pass receives its receipt. A verdict other than
    /// `Stale` is that on a log with as many events as the place says. This log ends with the event and has the
    /// previous receipt at its place.
    ///
    /// # Errors
    /// `Mismatch` if the newest receipt differs from the log, else `NoConversation`, `LogFull` or `OutOfMemory`,
    /// whichever applies first. Nothing changes then, and the pass is unchanged.
    #[inline(always)]
    pub fn note<G: Gate>(
        &self,
        rt: &impl Wait,
        pass: &mut Pass,
        event: SharedEvent,
        gate: &G,
    ) -> Result<Noted, PassRefusal>
        ensures ok { IfOk result (IsNotedSome pass.old event) }
        ensures receipted { IfOk result (λ n. IsReceipted pass.old event n pass.new) }
        ensures fault { IfErr result (NoteFailsSome pass.old) }
        ensures err { OnErr result (pass.new ≡ pass.old) }
    {
        let at = self.shard_of(pass.conversation());
        let guard = self.library.read(rt, at);
        let library = &*guard;
        let mut shard = self.shards[at].lock(rt);
        library.is_accepting();
        let _conversations = shard.len();
        let noted = note_by_pass(library, &mut shard, pass, event);
        gate.hold(at);
        noted
    }

    /// Appends the events one after another to the log of the pass's conversation, as calls of `note` would without
    /// other calls between them. The locks are taken once, so a caller with many events should pass a few at a time.
    /// Returns the reply to each, in order, in the list of the batch. A refused event changes neither the service nor
    /// the pass.
    pub fn note_all<G: Gate>(
        &self,
        rt: &impl Wait,
        pass: &mut Pass,
        batch: Batch,
        gate: &G,
    ) -> Vec<PassReply>
        ensures { AreAnsweredSome pass.old batch.events.items result.items pass.new }
    {
        let at = self.shard_of(pass.conversation());
        let guard = self.library.read(rt, at);
        let library = &*guard;
        let mut shard = self.shards[at].lock(rt);
        library.is_accepting();
        let answers = note_all_by_pass(library, &mut shard, pass, batch);
        gate.hold(at);
        answers
    }

    /// Judges up to 256 further events of a conversation with a stale verdict, and returns the verdict, or `Stale`.
    ///
    /// # Errors
    /// `NoConversation` or `OutOfMemory`. Nothing changes then.
    pub fn turn<G: Gate>(&self, rt: &impl Wait, id: u32, gate: &G) -> Result<Told, Refusal>
        ensures ok { IfOk result (IsTurnedSome id) }
        ensures fault { IfErr result (TurnFailsSome id) }
    {
        let at = self.shard_of(id);
        let guard = self.library.read(rt, at);
        let library = &*guard;
        let mut shard = self.shards[at].lock(rt);
        library.is_accepting();
        let turned = turn_step(library, &mut shard, id);
        gate.hold(at);
        Ok(turned?.told)
    }

    /// Returns the verdict on the pass's conversation, whose log has all its receipts, or `Stale`.
    ///
    /// # Errors
    /// `Mismatch` with the least place where a receipt differs from the log, else `NoConversation` or `OutOfMemory`.
    pub fn ask(&self, rt: &impl Wait, pass: &Pass) -> Result<Told, PassRefusal>
        ensures ok { IfOk result (IsAskedSome pass.now) }
        ensures answered { IfOk result (IsAnsweredOn pass.now.receipts) }
        ensures fault { IfErr result (AskFailsSome pass.now) }
    {
        let at = self.shard_of(pass.conversation());
        let guard = self.library.read(rt, at);
        let library = &*guard;
        let shard = self.shards[at].lock(rt);
        library.is_accepting();
        ask_by_pass(library, &shard, pass)
    }

    /// Closes the conversation, and takes in its passes. They must be all that have receipts: together they have as many
    /// as the log has events, and each agrees with the log. Returns the protocol's name, the number of events, the
    /// verdict on all of them, and whether the log is complete. The verdict is never stale: the locks are held until
    /// all events are judged. The id may be opened again, as a new conversation with an empty log.
    ///
    /// # Errors
    /// `NoConversation`, `PassesMissing`, `Mismatch` with the least place where a receipt differs from the log, or
    /// `OutOfMemory`, whichever applies first in this order. Nothing changes then, and the passes are returned.
    pub fn close<G: Gate>(
        &self,
        rt: &impl Wait,
        id: u32,
        passes: Vec<Pass>,
        gate: &G,
    ) -> Result<Closed, (CloseRefusal, Vec<Pass>)>
        requires { All (λ p. p.conversation ≡ id) passes.items }
        ensures ok { IfOk result (IsClosedSome id passes.items) }
        ensures fault { IfErr result (λ e. CloseFailsSome id passes.items e.0) }
        ensures passes { IfErr result (λ e. e.1 ≡ passes) }
    {
        let at = self.shard_of(id);
        let guard = self.library.read(rt, at);
        let library = &*guard;
        let mut shard = self.shards[at].lock(rt);
        library.is_accepting();
        let _conversations = shard.len();
        let closed = close_by_passes(library, &mut shard, id, &passes);
        gate.hold(at);
        match closed {
            Ok(closed) => Ok(closed),
            Err(refusal) => Err((refusal, passes)),
        }
    }
}

// Puts the shard behind a lock.
pub(crate) fn shard_lock(shard: Shard) -> ShardLock {
    CachePadded::new(Mutex::new(shard))
}

// Returns a service of these parts, with room for the values of its shards.
pub(crate) fn service_of(
    alloc: Global,
    library: ShardedLock<Library>,
    shards: Vec<ShardLock>,
    spare: Vec<Shard>,
) -> Service
    requires some { 0 < vec_len shards }
    requires few { vec_len shards ≤ 64 }
    requires empty { vec_len spare ≡ 0 }
    requires room { vec_len shards ≤ vec_capacity spare }
    ensures { vec_len result.shards ≡ vec_len shards }
{
    Service {
        alloc,
        library,
        shards,
        spare,
    }
}
