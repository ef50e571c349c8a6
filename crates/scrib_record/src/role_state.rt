//! The states of roles in a conversation.

ghost use Rattle.std.specs.Prelude.{◌≡◌, ◌↔◌, ◌<◌, ℕ, Some, true, length, position, slice_get};
ghost use Rattle.std.specs.Str.{bytes_eq};
ghost use Rattle.scrib_types.specs.declared.event.Action.TheVariants.{Sends, Receives};
ghost use Rattle.scrib_machine.specs.Machines.{Steps};

use scrib_machine::machine::{Machine, State};
use scrib_types::name::Role;
use scrib_types::shared_message::SharedMessage;

/// A role in a conversation: whether it joined, and the state of its machine.
#[derive(Clone, Copy)]
pub struct RoleState {
    pub joined: bool,
    pub state: State,
}

impl RoleState {
    /// Returns the state after a send of the message to the role, or `None` if this role has not joined or may not send
    /// it.
    pub fn step_send(&self, machine: &Machine, to: &Role, message: &SharedMessage) -> Option<State>
        requires { self.now.state < length machine.now }
        ensures { (n : ℕ) → (result ≡ Some n) ↔ ((self.now.joined ≡ true)
            × Steps machine.now self.now.state (Sends to.now message.now) n) }
    {
        if !self.joined {
            return None;
        }
        machine.step_send(self.state, to, message)
    }

    /// Returns the state after a reception of the message from the role, or `None` if this role has not joined or may
    /// not receive it.
    pub fn step_receive(
        &self,
        machine: &Machine,
        from: &Role,
        message: &SharedMessage,
    ) -> Option<State>
        requires { self.now.state < length machine.now }
        ensures { (n : ℕ) → (result ≡ Some n) ↔ ((self.now.joined ≡ true)
            × Steps machine.now self.now.state (Receives from.now message.now) n) }
    {
        if !self.joined {
            return None;
        }
        machine.step_receive(self.state, from, message)
    }
}

/// Returns the place of the role among the roles.
pub fn place_of(roles: &[Role], role: &Role) -> Option<usize>
    ensures { result ≡ position (bytes_eq role.now) roles.now }
{
    roles.iter().position(|other| role.equal(other))
}
