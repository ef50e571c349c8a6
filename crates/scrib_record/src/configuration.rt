//! The configuration that a conversation's log leads to.

ghost use Rattle.std.specs.Prelude.{◌≡◌, ◌↔◌, [], ℕ, List, Some, true, IfOk, IsTrue, OnOk, OnErr};
ghost use Rattle.scrib_types.specs.declared.event.Event.{Event};
ghost use Rattle.scrib_types.specs.declared.event.Event.TheVariants.{Join, Sent, Received};
ghost use Rattle.scrib_types.specs.Permitted.{IsPermitted};
ghost use Rattle.scrib_types.specs.WellFormed.{is_protocol};
ghost use Rattle.scrib_types.specs.Complete.{HasEnded, IsComplete};
ghost use Rattle.scrib_record.specs.CompleteRecords.{HaveEnded};
ghost use Rattle.scrib_record.specs.Configurations as conf;
ghost use Rattle.scrib_record.specs.Places.{place_in};
ghost use Rattle.scrib_record.specs.Versions.{meaning_of};

use crate::numbered_edge::{after_reception, after_send};
use crate::numbering::Numbering;
use crate::role_state::RoleState;
use crate::version::Version;
use scrib_queues::queues::Queues;
use scrib_types::event::Event;
use scrib_types::name::Role;
use scrib_types::shared_event::SharedEvent;
use std::alloc::{AllocError, Global};

/// A configuration of communicating machines (Brand and Zafiropulo, JACM 1983). It has the state of each role, in the
/// order in which the roles are declared, and the messages in flight, as numbers of exchanges.
#[derive(Drop)]
pub struct Configuration {
    pub role_states: Vec<RoleState>,
    pub queues: Queues<usize>,
    pub numbering: Option<Numbering>,
}

impl Configuration {
    /// Returns the initial configuration, which is permitted: no role has joined, and no message is in flight.
    ///
    /// # Errors
    /// `AllocError` where memory was refused.
    pub fn start(alloc: Global, numbering: Numbering) -> Result<Configuration, AllocError>
        ensures led_to { IfOk result (conf.LeadsTo (meaning_of numbering.version) numbering.version.machines []) }
        ensures permitted { OnOk result (IsPermitted (meaning_of numbering.version) []) }
    {
        let machines = numbering.version().machines();
        let mut role_states = Vec::with_capacity(alloc, machines.len())?;
        for machine in machines {
            let state = machine.start();
            role_states.push(RoleState {
                joined: false,
                state,
            })?;
        }
        let queues = Queues::new(alloc, machines.len());
        Ok(Configuration {
            role_states,
            queues,
            numbering: Some(numbering),
        })
    }

    /// Returns a configuration without roles, for a log that is judged withdrawn.
    pub fn none(alloc: Global) -> Configuration {
        Configuration {
            role_states: Vec::new(alloc),
            queues: Queues::new(alloc, 0),
            numbering: None,
        }
    }

    /// Performs the event and returns `true` if it may follow. Otherwise it returns `false` and changes nothing.
    ///
    /// # Errors
    /// `AllocError` where memory was refused. The configuration is unchanged then.
    #[inline(always)]
    pub fn advance(&mut self, version: &Version, event: &SharedEvent) -> Result<bool, AllocError>
        requires { conf.IsReached (meaning_of version.now) version.now.machines self.old }
        ensures ok { IfOk result (conf.Advances (meaning_of version.now) version.now.machines event.now self.old
            self.new) }
        ensures err { OnErr result (conf.IsSameConfiguration self.old self.new) }
    {
        match event.get() {
            Event::Join { role } => Ok(self.join(version, role)),
            Event::Sent { .. } => self.send(version, event),
            Event::Received { .. } => Ok(self.receive(version, event)),
        }
    }

    /// Returns whether the permitted log that leads here is complete: each role is at its end, and no message is in
    /// flight. It allocates nothing.
    #[inline(always)]
    pub fn is_complete(&self, version: &Version) -> bool
        requires { conf.IsReached (meaning_of version.now) version.now.machines self.now }
        ensures { (log : List Event) → conf.LeadsTo (meaning_of version.now) version.now.machines log self.now
            → IsPermitted (meaning_of version.now) log → IsTrue result ↔ IsComplete (meaning_of version.now) log }
    {
        if !self.have_ended(version) {
            return false;
        }
        self.queues.are_empty()
    }

    // Returns whether each role is at its end.
    #[inline(always)]
    fn have_ended(&self, version: &Version) -> bool
        requires { conf.IsReached (meaning_of version.now) version.now.machines self.now }
        ensures ended { (log : List Event) → conf.LeadsTo (meaning_of version.now) version.now.machines log self.now
            → IsTrue result ↔ HaveEnded (meaning_of version.now) log }
        ensures valid { IsTrue (is_protocol (meaning_of version.now).roles (meaning_of version.now).global) }
    {
        let roles = version.protocol().roles();
        for place in 0..roles.len() {
            if !self.has_ended(version, place) {
                return false;
            }
        }
        true
    }

    // Returns whether the machine of the role with this place is in a state without edges.
    #[inline(always)]
    fn has_ended(&self, version: &Version, place: usize) -> bool
        requires reached { conf.IsReached (meaning_of version.now) version.now.machines self.now }
        requires declared { (role : List ℕ) × place_in (meaning_of version.now).roles role ≡ Some place }
        ensures { (log : List Event) → conf.LeadsTo (meaning_of version.now) version.now.machines log self.now
            → (role : List ℕ) → place_in (meaning_of version.now).roles role ≡ Some place
            → IsTrue result ↔ HasEnded (meaning_of version.now) log role }
    {
        let role_state = &self.role_states[place];
        let edges = version.machines()[place].edges(role_state.state);
        edges.is_empty()
    }

    fn join(&mut self, version: &Version, role: &Role) -> bool
        requires { conf.IsReached (meaning_of version.now) version.now.machines self.old }
        ensures { conf.Advances (meaning_of version.now) version.now.machines (Join role.now) self.old self.new result }
    {
        let Some(at) = version.place_of(role) else {
            return false;
        };
        let role_state = self.role_states[at];
        if role_state.joined {
            return false;
        }
        self.role_states[at] = RoleState {
            joined: true,
            state: role_state.state,
        };
        true
    }

    #[inline(always)]
    fn send(&mut self, _version: &Version, event: &SharedEvent) -> Result<bool, AllocError>
        requires reached { conf.IsReached (meaning_of _version.now) _version.now.machines self.old }
        requires sent { conf.IsSend event.now }
        ensures ok { IfOk result (conf.Advances (meaning_of _version.now) _version.now.machines event.now self.old
            self.new) }
        ensures err { OnErr result (conf.IsSameConfiguration self.old self.new) }
    {
        let Some(numbering) = &self.numbering else {
            return Ok(false);
        };
        let Some(exchange) = numbering.find(event) else {
            return Ok(false);
        };
        let sender = self.role_states[exchange.from];
        if !sender.joined {
            return Ok(false);
        }
        let row = numbering.row(exchange.from, sender.state);
        let Some(state) = after_send(row, exchange.number) else {
            return Ok(false);
        };
        self.queues
            .send(exchange.from, exchange.to, exchange.number)?;
        self.role_states[exchange.from].state = state;
        Ok(true)
    }

    #[inline(always)]
    fn receive(&mut self, _version: &Version, event: &SharedEvent) -> bool
        requires reached { conf.IsReached (meaning_of _version.now) _version.now.machines self.old }
        requires received { conf.IsReception event.now }
        ensures { conf.Advances (meaning_of _version.now) _version.now.machines event.now self.old self.new result }
    {
        let Some(numbering) = &self.numbering else {
            return false;
        };
        let Some(exchange) = numbering.find(event) else {
            return false;
        };
        let receiver = self.role_states[exchange.to];
        if !receiver.joined {
            return false;
        }
        let row = numbering.row(exchange.to, receiver.state);
        let Some(state) = after_reception(row, exchange.number) else {
            return false;
        };
        if !self
            .queues
            .receive(exchange.from, exchange.to, &exchange.number)
        {
            return false;
        }
        self.role_states[exchange.to].state = state;
        true
    }
}
