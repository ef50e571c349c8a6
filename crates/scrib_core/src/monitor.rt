//! The core: the monitor on one thread.

ghost use Rattle.std.specs.Prelude.{◌≡◌, ◌↔◌, IfOk, IsTrue, OnErr, length, slice_get};
ghost use Rattle.std.specs.Map.{keys_of};
ghost use Rattle.std.specs.Option.{option_map};
ghost use Rattle.scrib_types.specs.Meaning.{agreement_of};
ghost use Rattle.scrib_library.specs.Modules.{IsMeaning};
ghost use Rattle.scrib_core.specs.declared.step.Step.TheVariants.{Put, Withdraw, Open, Note, Turn, Ask, Close};
ghost use Rattle.scrib_core.specs.declared.step.Step.TheVariants as steps;
ghost use Rattle.scrib_core.specs.Answers.{initial, initial_under, IsCompleteIn, IsAnswered, IsDue, AnswersAsDue};
ghost use Rattle.scrib_core.specs.Held.{state_of, LeavesRefused, AnswersHeld, IsViewed};
ghost use Rattle.scrib_core.specs.FreshRecords.{FindsFreshRecord};
ghost use Rattle.scrib_core.specs.Permitted.{IsReplyTest};
ghost use Rattle.scrib_core.specs.ReplyValues.{close_reply_of, note_reply_of, open_reply_of, tested_reply_of, verdict_reply_of};
ghost use Rattle.scrib_core.specs.Runs.{PermitsRuns};

use crate::conversation_steps::{
    Closed, Judged, Noted, Opening, Tested, ask, close, fresh_record, is_complete, is_permitted,
    note, note_and_test, open, turn,
};
use crate::places::{PlaceHints, RecordKey};
use crate::reply::{
    Edit, Refusal, Reply, close_reply, edit_reply, note_reply, open_reply, profile_reply,
    verdict_reply,
};
use crate::step::Step;
use indexmap::IndexMap;
use scrib_library::library::Library;
use scrib_record::comparison::Comparison;
use scrib_record::record::{MAX_EVENTS, Record};
use scrib_types::name::Dotted;
use scrib_types::profile::Profile;
use scrib_types::protocol::Protocol;
use scrib_types::shared_event::SharedEvent;
use std::alloc::{AllocError, Global};
use std::marker::Model;

/// The maximal number of open conversations.
pub const MAX_CONVERSATIONS: usize = 65_536;

/// The library and the records of the open conversations. They are in the order of opening, except that the last one
/// takes the place of each that is closed. Contracts see the library's holdings and the records, which determine a world
/// and its marks.
#[derive(Drop)]
pub struct Core {
    alloc: Global,
    library: Library,
    records: IndexMap<u32, Record>,
    places: PlaceHints,
}

impl Model for Core {
    ghost use Rattle.std.specs.Coded.{codes};
    ghost use Rattle.scrib_tree.specs.contracts.tree.Statement as statement;
    ghost use Rattle.scrib_record.specs.contracts.version.Edition as version;
    ghost use Rattle.scrib_core.specs.Held.{Held, AreKnown};

    ghost Value = { Held };

    ghost coded = { Prim.hlevel (codes, statement.the_row.coded, version.the_row.coded) };

    ghost view = { λ c. record { library = c.library; records = c.records.entries } };

    ghost invariant = { λ c. AreKnown c.library c.records.entries };
}

impl Core {
    /// Returns a core without modules and conversations. It accepts protocols under the plain profile.
    pub fn new(alloc: Global) -> Core
        ensures { state_of result ≡ initial }
    {
        Core::with_profile(alloc, Profile::Plain)
    }

    /// Returns a core without modules and conversations, which accepts protocols under this profile.
    pub fn with_profile(alloc: Global, profile: Profile) -> Core
        ensures { state_of result ≡ initial_under profile }
    {
        Core {
            alloc,
            library: Library::with_profile(alloc, profile),
            records: IndexMap::new(alloc),
            places: PlaceHints::new(alloc),
        }
    }

    /// Makes one step and returns its reply. A refused step changes neither the library nor any record. The verdict on
    /// a conversation that is not marked stale is that of its whole log under its protocol's present meaning. A
    /// conversation is marked only if that meaning changed since it was judged.
    #[inline(always)]
    #[tactic(auto, using(crate::proofs::Runs::permits_runs))]
    pub fn apply(&mut self, step: Step) -> Reply
        ensures answered { IsAnswered (state_of self.old) step result (state_of self.new) }
        ensures memory { IsDue (state_of self.old).world step result }
        ensures refused { LeavesRefused result self.old self.new }
        ensures runs { PermitsRuns (state_of self.new).world }
    {
        let reply = match step {
            Step::Put { text } => self.put(text.as_slice()),
            Step::Withdraw { name } => self.withdraw(&name),
            Step::Profile { profile } => self.set_profile(profile),
            Step::Open { id, name } => self.open(id, &name),
            Step::Note { id, event } => self.note(id, event),
            Step::Turn { id } => self.turn(id),
            Step::Ask { id } => self.ask(id),
            Step::Close { id } => self.close(id),
        };
        self.library.means_protocols();
        reply
    }

    /// Makes the steps one after another and returns their replies, each as `apply` does. A refused step changes
    /// neither the library nor any record. A fresh verdict after them is `Permitted` exactly if each acting role joined
    /// first and the sends and receptions are a run. A run is one of the protocol's global type over first-in-first-out
    /// queues.
    ///
    /// # Errors
    /// `AllocError` if the replies do not fit into memory. Then no step was made and nothing changed.
    #[tactic(auto, using(crate::proofs::Runs::permits_runs))]
    pub fn run(&mut self, steps: &[Step]) -> Result<Vec<Reply>, AllocError>
        ensures answered { IfOk result (λ replies. AnswersAsDue (state_of self.old) steps.now replies.items
            (state_of self.new)) }
        ensures held { IfOk result (λ replies. AnswersHeld self.old steps.now replies.items self.new) }
        ensures err { OnErr result (self.new ≡ self.old) }
        ensures runs { PermitsRuns (state_of self.new).world }
    {
        self.library.means_protocols();
        let mut replies = Vec::with_capacity(self.alloc, steps.len())?;
        for step in steps {
            let reply = self.apply_ref(step);
            replies.push_reserved(reply);
        }
        self.library.means_protocols();
        Ok(replies)
    }

    /// Makes the step `Note` with this id and event. Returns the event's place in the log and the verdict, or `Stale`.
    /// What `apply` ensures of a reply holds for the reply that `note_reply` makes of the result.
    ///
    /// # Errors
    /// `NoConversation`, `LogFull` or `OutOfMemory`, whichever applies first. Nothing changes then.
    #[inline(always)]
    pub fn note_event(&mut self, id: u32, event: SharedEvent) -> Result<Noted, Refusal>
        ensures answered { IsAnswered (state_of self.old) (Note id event) (note_reply_of id result)
            (state_of self.new) }
        ensures memory { IsDue (state_of self.old).world (Note id event) (note_reply_of id result) }
        ensures refused { LeavesRefused (note_reply_of id result) self.old self.new }
        ensures runs { PermitsRuns (state_of self.new).world }
    {
        self.library.are_numbered();
        self.library.means_protocols();
        let hint = self.places.find(&self.records, id);
        note(
            &self.library,
            &mut self.records,
            Comparison::Numbers,
            RecordKey { id, hint },
            event,
        )
    }

    /// Makes the step `Note` as [`Core::note_event`] does. Returns what that returns, and whether the conversation is
    /// complete then, as [`Core::is_complete`] does. The record of the conversation is looked up once.
    ///
    /// # Errors
    /// `NoConversation`, `LogFull` or `OutOfMemory`, whichever applies first. Nothing changes then.
    #[inline(always)]
    pub fn note_and_test(&mut self, id: u32, event: SharedEvent) -> Result<Tested, Refusal>
        ensures answered { IsAnswered (state_of self.old) (Note id event) (tested_reply_of id result)
            (state_of self.new) }
        ensures memory { IsDue (state_of self.old).world (Note id event) (tested_reply_of id result) }
        ensures refused { LeavesRefused (tested_reply_of id result) self.old self.new }
        ensures runs { PermitsRuns (state_of self.new).world }
        ensures complete { IfOk result (λ t. IsTrue t.complete ↔ IsCompleteIn (state_of self.new) id) }
    {
        self.library.are_numbered();
        self.library.means_protocols();
        let hint = self.places.find(&self.records, id);
        note_and_test(
            &self.library,
            &mut self.records,
            Comparison::Numbers,
            RecordKey { id, hint },
            event,
        )
    }

    /// Makes the step `Ask` with this id. Returns the protocol's name, the number of events in the log, and the verdict,
    /// or `Stale`. What `apply` ensures of a reply holds for the reply that `verdict_reply` makes of the result.
    ///
    /// # Errors
    /// `NoConversation` or `OutOfMemory`.
    #[inline(always)]
    pub fn verdict_on(&self, id: u32) -> Result<Judged, Refusal>
        ensures answered { IsAnswered (state_of self.now) (Ask id) (verdict_reply_of id result) (state_of self.now) }
        ensures memory { IsDue (state_of self.now).world (Ask id) (verdict_reply_of id result) }
        ensures refused { LeavesRefused (verdict_reply_of id result) self.now self.now }
    {
        self.library.are_numbered();
        let hint = self.places.hint(&self.records, id);
        let key = RecordKey { id, hint };
        ask(&self.library, &self.records, Comparison::Numbers, key)
    }

    /// Returns whether the verdict that `verdict_on` returns is `Permitted`. It allocates nothing.
    #[inline(always)]
    pub fn is_permitted(&self, id: u32) -> bool
        ensures { IsReplyTest (state_of self.now) id result }
    {
        self.library.are_numbered();
        let hint = self.places.hint(&self.records, id);
        let key = RecordKey { id, hint };
        is_permitted(&self.library, &self.records, Comparison::Numbers, key)
    }

    /// Returns whether the conversation is open, its verdict is not stale, and its log is complete: permitted, no role
    /// has a further action, and no message is in flight. It allocates nothing.
    #[inline(always)]
    pub fn is_complete(&self, id: u32) -> bool
        ensures { IsTrue result ↔ IsCompleteIn (state_of self.now) id }
    {
        self.library.are_numbered();
        let hint = self.places.hint(&self.records, id);
        let key = RecordKey { id, hint };
        is_complete(&self.library, &self.records, Comparison::Numbers, key)
    }

    /// Returns the record of the conversation, if it is open and its verdict is not stale. It allocates nothing.
    pub fn fresh_record(&self, id: u32) -> Option<&Record>
        ensures { FindsFreshRecord self.now id result }
    {
        self.library.are_numbered();
        let hint = self.places.hint(&self.records, id);
        let key = RecordKey { id, hint };
        fresh_record(&self.library, &self.records, Comparison::Numbers, key)
    }

    /// Makes the step `Open` with this id and name. Returns the protocol's name. What `apply` ensures of a reply holds
    /// for the reply that `open_reply` makes of the result.
    ///
    /// # Errors
    /// `AlreadyOpen`, `UnknownProtocol`, `TooManyConversations` or `OutOfMemory`, whichever applies first. Nothing
    /// changes then.
    pub fn open_conversation(&mut self, id: u32, name: &Dotted) -> Result<Dotted, Refusal>
        ensures answered { IsAnswered (state_of self.old) (Open id name.now) (open_reply_of id result)
            (state_of self.new) }
        ensures memory { IsDue (state_of self.old).world (Open id name.now) (open_reply_of id result) }
        ensures refused { LeavesRefused (open_reply_of id result) self.old self.new }
    {
        self.library.are_numbered();
        let opening = Opening {
            limit: MAX_CONVERSATIONS,
            id,
            name,
        };
        let opened = open(&self.library, &mut self.records, opening);
        self.places.opened(&self.records, id);
        opened
    }

    /// Makes the step `Close` with this id. Returns the protocol's name, the number of events in the log, the verdict on
    /// all of them, and whether the log is complete. The verdict is never stale. What `apply` ensures of a reply holds for
    /// the reply that `close_reply` makes of the result.
    ///
    /// # Errors
    /// `NoConversation` or `OutOfMemory`. Nothing changes then.
    pub fn close_conversation(&mut self, id: u32) -> Result<Closed, Refusal>
        ensures answered { IsAnswered (state_of self.old) (Close id) (close_reply_of id result) (state_of self.new) }
        ensures memory { IsDue (state_of self.old).world (Close id) (close_reply_of id result) }
        ensures refused { LeavesRefused (close_reply_of id result) self.old self.new }
    {
        self.library.are_numbered();
        let hint = self.places.find(&self.records, id);
        let key = RecordKey { id, hint };
        let closed = close(&self.library, &mut self.records, Comparison::Numbers, key);
        self.places.closed(&self.records, hint);
        closed
    }

    /// Returns the protocol of a conversation, if the library has it, and the log.
    pub fn view(&self, id: u32) -> Option<(Option<&Protocol>, &[SharedEvent])>
        ensures { IsViewed (state_of self.now).world id result }
    {
        let record = self.records.get(&id)?;
        let protocol = protocol_of(&self.library, record.name());
        Some((protocol, record.log()))
    }

    /// Returns how many conversations are open.
    pub fn open_count(&self) -> usize
        ensures { result ≡ length (state_of self.now).world.conversations }
    {
        self.records.len()
    }

    /// Returns the number of the open conversation at this index, from 0, in the order of the world's list. That order
    /// stays until a conversation is opened or closed.
    pub fn conversation_at(&self, index: usize) -> Option<u32>
        ensures { result ≡ slice_get (keys_of (state_of self.now).world.conversations) index }
    {
        let (id, _) = self.records.get_index(index)?;
        Some(*id)
    }

    // Makes a step given by reference, copying what is kept.
    fn apply_ref(&mut self, step: &Step) -> Reply
        ensures answered { IsAnswered (state_of self.old) step.now result (state_of self.new) }
        ensures memory { IsDue (state_of self.old).world step.now result }
        ensures refused { LeavesRefused result self.old self.new }
    {
        match step {
            Step::Put { text } => self.put(text.as_slice()),
            Step::Withdraw { name } => self.withdraw(name),
            Step::Profile { profile } => self.set_profile(*profile),
            Step::Open { id, name } => self.open(*id, name),
            Step::Note { id, event } => self.note_ref(*id, event),
            Step::Turn { id } => self.turn(*id),
            Step::Ask { id } => self.ask(*id),
            Step::Close { id } => self.close(*id),
        }
    }

    fn note_ref(&mut self, id: u32, event: &SharedEvent) -> Reply
        ensures answered { IsAnswered (state_of self.old) (Note id event.now) result (state_of self.new) }
        ensures memory { IsDue (state_of self.old).world (Note id event.now) result }
        ensures refused { LeavesRefused result self.old self.new }
    {
        let Some(record) = self.records.get(&id) else {
            return Reply::Refused(Refusal::NoConversation);
        };
        if record.log().len() >= MAX_EVENTS {
            return Reply::Refused(Refusal::LogFull);
        }
        match event.copy() {
            Ok(event) => self.note(id, event),
            Err(_) => Reply::Refused(Refusal::OutOfMemory),
        }
    }

    fn put(&mut self, text: &[u8]) -> Reply
        ensures answered { IsAnswered (state_of self.old) (Put text.now) result (state_of self.new) }
        ensures memory { IsDue (state_of self.old).world (Put text.now) result }
        ensures refused { LeavesRefused result self.old self.new }
    {
        self.library.are_numbered();
        let edited = self.library.put(text);
        self.library.are_numbered();
        edit_reply(Edit::Put, edited)
    }

    fn withdraw(&mut self, name: &Dotted) -> Reply
        ensures answered { IsAnswered (state_of self.old) (Withdraw name.now) result (state_of self.new) }
        ensures memory { IsDue (state_of self.old).world (Withdraw name.now) result }
        ensures refused { LeavesRefused result self.old self.new }
    {
        self.library.are_numbered();
        let edited = self.library.withdraw(name);
        self.library.are_numbered();
        edit_reply(Edit::Withdraw, edited)
    }

    fn set_profile(&mut self, profile: Profile) -> Reply
        ensures answered { IsAnswered (state_of self.old) (steps.Profile profile) result (state_of self.new) }
        ensures memory { IsDue (state_of self.old).world (steps.Profile profile) result }
        ensures refused { LeavesRefused result self.old self.new }
    {
        self.library.are_numbered();
        let changed = self.library.set_profile(profile);
        profile_reply(profile, changed)
    }

    fn open(&mut self, id: u32, name: &Dotted) -> Reply
        ensures answered { IsAnswered (state_of self.old) (Open id name.now) result (state_of self.new) }
        ensures memory { IsDue (state_of self.old).world (Open id name.now) result }
        ensures refused { LeavesRefused result self.old self.new }
    {
        let opened = self.open_conversation(id, name);
        open_reply(id, opened)
    }

    #[inline(always)]
    fn note(&mut self, id: u32, event: SharedEvent) -> Reply
        ensures answered { IsAnswered (state_of self.old) (Note id event) result (state_of self.new) }
        ensures memory { IsDue (state_of self.old).world (Note id event) result }
        ensures refused { LeavesRefused result self.old self.new }
    {
        let noted = self.note_event(id, event);
        note_reply(id, noted)
    }

    fn turn(&mut self, id: u32) -> Reply
        ensures answered { IsAnswered (state_of self.old) (Turn id) result (state_of self.new) }
        ensures memory { IsDue (state_of self.old).world (Turn id) result }
        ensures refused { LeavesRefused result self.old self.new }
    {
        self.library.are_numbered();
        let hint = self.places.find(&self.records, id);
        let key = RecordKey { id, hint };
        let turned = turn(&self.library, &mut self.records, Comparison::Numbers, key);
        verdict_reply(id, turned)
    }

    fn ask(&self, id: u32) -> Reply
        ensures answered { IsAnswered (state_of self.now) (Ask id) result (state_of self.now) }
        ensures memory { IsDue (state_of self.now).world (Ask id) result }
        ensures refused { LeavesRefused result self.now self.now }
    {
        let asked = self.verdict_on(id);
        verdict_reply(id, asked)
    }

    fn close(&mut self, id: u32) -> Reply
        ensures answered { IsAnswered (state_of self.old) (Close id) result (state_of self.new) }
        ensures memory { IsDue (state_of self.old).world (Close id) result }
        ensures refused { LeavesRefused result self.old self.new }
    {
        let closed = self.close_conversation(id);
        close_reply(id, closed)
    }
}

// Returns the library's protocol of this name, if there is one.
fn protocol_of<'a>(library: &'a Library, name: &Dotted) -> Option<&'a Protocol>
    ensures { IsMeaning library.now.modules name.now (option_map (λ p. agreement_of p.now) result) }
{
    match library.present(name) {
        None => None,
        Some(version) => Some(version.protocol()),
    }
}
