//! The passes of a connection.

ghost use Rattle.scrib_client.specs.ConnectionPasses.{AreOwn};

use crate::pass_hints::PassHints;
use indexmap::IndexMap;
use scrib_core::reply::Refusal;
use scrib_shards::batch_notes::Batch;
use scrib_shards::gate::OpenGate;
use scrib_shards::pass::Pass;
use scrib_shards::pass_calls::{PassRefusal, PassReply};
use scrib_shards::service::Service;
use scrib_types::event::Told;
use scrib_types::shared_event::SharedEvent;
use std::alloc::{AllocError, Global};
use std::sync::Wait;

/// The passes of a connection, one for each conversation that it used. Each is stored under its own conversation's id.
#[derive(Drop)]
pub struct Passes {
    by_id: IndexMap<u32, Pass>,
    // Where the pass to a conversation is looked up first.
    hints: PassHints,
    pub ghost own: { AreOwn by_id.entries },
}

impl Passes {
    ghost use Rattle.std.specs.Prelude.{◌≡◌, ◌<◌, ◌≤◌, [], IfOk, IfErr, IfSome, OnErr, OnOk, IsSome, None, Some, nat_eq, slice_get, vec_len};
    ghost use Rattle.std.specs.Map.{lookup};
    ghost use Rattle.indexmap.specs.IndexMap.{index_map_len, keys, values};
    ghost use Rattle.scrib_locked_steps.specs.Passes.{PassHeld, IsReceipted, IsAnsweredOn};
    ghost use Rattle.scrib_shards.specs.Called.{IsNotedSome, AreAnsweredSome, IsAskedSome};
    ghost use Rattle.scrib_client.specs.ConnectionPasses.{pass_after, pass_before, IsUnconnected, IsNoteRefused, IsAskRefused};

    /// Returns no passes. Does not allocate.
    pub fn new(alloc: Global) -> Passes
        ensures none { result.by_id.entries ≡ [] }
    {
        Passes {
            by_id: IndexMap::new(alloc),
            hints: PassHints::new(),
        }
    }

    /// Returns all passes, in the order in which they were made.
    ///
    /// # Errors
    /// `AllocError` where memory is refused. The passes are then lost.
    pub fn into_vec(self, alloc: Global) -> Result<Vec<Pass>, AllocError>
        ensures { IfOk result (λ all. all.items ≡ values self.by_id) }
    {
        self.by_id.into_values().collect(alloc)
    }

    /// Notes the event by the pass of the conversation. Connects first where there is no pass.
    ///
    /// The pass then holds the receipt.
    ///
    /// # Errors
    /// After an error, nothing is noted and the pass has the same receipts.
    /// - `Step` with `NoConversation` where the conversation isn't open, and with `OutOfMemory` where memory for a pass
    ///   is refused.
    /// - Else the errors of `Service::note`.
    #[inline(always)]
    pub fn note(
        &mut self,
        rt: &impl Wait,
        service: &Service,
        id: u32,
        event: SharedEvent,
    ) -> PassReply
        ensures own { (pass_before self.old.by_id self.new.by_id id).conversation ≡ id }
        ensures noted { IfOk result (IsNotedSome (pass_before self.old.by_id self.new.by_id id) event) }
        ensures receipted { IfOk result (λ n.
            IsReceipted (pass_before self.old.by_id self.new.by_id id) event n (pass_after self.new.by_id id)) }
        ensures fault { IfErr result (IsNoteRefused id (pass_before self.old.by_id self.new.by_id id)) }
        ensures kept { OnErr result (pass_after self.new.by_id id ≡ pass_before self.old.by_id self.new.by_id id) }
    {
        let at = match self.find_or_connect(rt, service, id) {
            Ok(at) => at,
            Err(refusal) => return Err(PassRefusal::Step(refusal)),
        };
        let (_, pass) = self.by_id.pair_mut(at);
        service.note(rt, pass, event, &OpenGate)
    }

    /// Notes the events one after another by the pass of the conversation. Connects first where there is no pass.
    ///
    /// Returns the service's reply to each, in the list of the batch.
    ///
    /// # Errors
    /// Returns the batch where the conversation isn't open, and where memory for a pass is refused.
    pub fn note_all(
        &mut self,
        rt: &impl Wait,
        service: &Service,
        id: u32,
        batch: Batch,
    ) -> Result<Vec<PassReply>, Batch>
        ensures own { (pass_before self.old.by_id self.new.by_id id).conversation ≡ id }
        ensures answered { IfOk result (λ answers.
            AreAnsweredSome (pass_before self.old.by_id self.new.by_id id) batch.events.items answers.items
            (pass_after self.new.by_id id)) }
        ensures each { IfOk result (λ answers. vec_len answers ≡ vec_len batch.events) }
        ensures back { IfErr result (λ back. back ≡ batch) }
    {
        let Ok(at) = self.find_or_connect(rt, service, id) else {
            return Err(batch);
        };
        let (_, pass) = self.by_id.pair_mut(at);
        Ok(service.note_all(rt, pass, batch, &OpenGate))
    }

    /// Asks for the verdict on the conversation by its pass. Connects first where there is no pass.
    ///
    /// The verdict is on a log that has each receipt of the pass.
    ///
    /// # Errors
    /// - `Step` with `NoConversation` where the conversation isn't open, and with `OutOfMemory` where memory for a pass
    ///   is refused.
    /// - Else the errors of `Service::ask`.
    pub fn ask(&mut self, rt: &impl Wait, service: &Service, id: u32) -> Result<Told, PassRefusal>
        ensures own { (pass_before self.old.by_id self.new.by_id id).conversation ≡ id }
        ensures asked { IfOk result (IsAskedSome (pass_before self.old.by_id self.new.by_id id)) }
        ensures answered { IfOk result (IsAnsweredOn (pass_before self.old.by_id self.new.by_id id).receipts) }
        ensures fault { IfErr result (IsAskRefused id (pass_before self.old.by_id self.new.by_id id)) }
        ensures kept { pass_after self.new.by_id id ≡ pass_before self.old.by_id self.new.by_id id }
    {
        let at = match self.find_or_connect(rt, service, id) {
            Ok(at) => at,
            Err(refusal) => return Err(PassRefusal::Step(refusal)),
        };
        let (_, pass) = self.by_id.pair_mut(at);
        service.ask(rt, pass)
    }

    // The index of the pass of the conversation. Connects where there is no pass, and makes no second one.
    #[inline(always)]
    fn find_or_connect(
        &mut self,
        rt: &impl Wait,
        service: &Service,
        id: u32,
    ) -> Result<usize, Refusal>
        ensures once { IsSome (lookup (nat_eq id) self.old.by_id.entries) → self.new.by_id ≡ self.old.by_id }
        ensures within { IfOk result (λ at. at < index_map_len self.new.by_id) }
        ensures found { IfOk result (λ at. slice_get (keys self.new.by_id) at ≡ Some id) }
        ensures kept { pass_after self.new.by_id id ≡ pass_before self.old.by_id self.new.by_id id }
        ensures fault { OnErr result (self.new.by_id.entries ≡ self.old.by_id.entries) }
        ensures refused { IfErr result (IsUnconnected id) }
    {
        let at = match self.index_at_hint(id) {
            Some(at) => at,
            None => self.connect(rt, service, id)?,
        };
        self.hints.set(id, at);
        Ok(at)
    }

    // The index of the pass of the conversation, if there is one. The hinted index is tried first.
    #[inline(always)]
    fn index_at_hint(&self, id: u32) -> Option<usize>
        ensures found { IfSome result (λ at. slice_get (keys self.now.by_id) at ≡ Some id) }
        ensures absent { result ≡ None → lookup (nat_eq id) self.now.by_id.entries ≡ None }
    {
        let hint = self.hints.index(id);
        match self.by_id.get_index(hint) {
            Some((key, _)) if *key == id => Some(hint),
            _ => self.by_id.get_index_of(&id),
        }
    }

    // Connects to a conversation that has no pass yet. Returns the index of the new pass.
    fn connect(&mut self, rt: &impl Wait, service: &Service, id: u32) -> Result<usize, Refusal>
        requires absent { lookup (nat_eq id) self.old.by_id.entries ≡ None }
        ensures found { IfOk result (λ at. slice_get (keys self.new.by_id) at ≡ Some id) }
        ensures kept { OnOk result (
            pass_after self.new.by_id id ≡ pass_before self.old.by_id self.new.by_id id) }
        ensures fault { OnErr result (self.new.by_id.entries ≡ self.old.by_id.entries) }
        ensures refused { IfErr result (IsUnconnected id) }
    {
        let pass = service.connect(rt, id)?;
        match self.by_id.insert_full(id, pass) {
            Ok((at, _)) => Ok(at),
            Err(_) => Err(Refusal::OutOfMemory),
        }
    }
}
