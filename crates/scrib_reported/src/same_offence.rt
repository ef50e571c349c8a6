//! Whether two offences are the same.

ghost use Rattle.std.specs.Prelude.{◌≡◌, ◌↔◌, IsTrue};
ghost use Rattle.scrib_types.specs.declared.event.Action.TheVariants.{Receives, Sends};
ghost use Rattle.scrib_reported.specs.FoundOffences.{IsSame};

use scrib_findings::finding::ReportedOffence;
use scrib_global::next::RoleNext;
use scrib_offences::explained_offence::Situation;
use scrib_types::event::Action;
use scrib_types::name::Role;
use scrib_types::shared_message::SharedMessage;

/// Returns whether the places, the reasons, the situations and the allowed actions of the two are the same.
pub(crate) fn is_same_offence(a: &ReportedOffence, b: &ReportedOffence) -> bool
    ensures { IsTrue result ↔ IsSame a.now b.now }
{
    a.explained.place == b.explained.place
        && a.explained.reason == b.explained.reason
        && is_same_situation(&a.explained.situation, &b.explained.situation)
        && are_same_actions(a.allowed.as_slice(), b.allowed.as_slice())
}

// Returns whether the two are equal, as do the functions below.
fn is_same_situation(a: &Situation, b: &Situation) -> bool
    ensures { IsTrue result ↔ (a.now ≡ b.now) }
{
    match (a, b) {
        (Situation::Undeclared(role), Situation::Undeclared(other)) => role.equal(other),
        (Situation::Next(next), Situation::Next(other)) => is_same_next(next, other),
        _ => false,
    }
}

fn is_same_next(a: &RoleNext, b: &RoleNext) -> bool
    ensures { IsTrue result ↔ (a.now ≡ b.now) }
{
    match (a, b) {
        (RoleNext::MayJoin { acts }, RoleNext::MayJoin { acts: other }) => *acts == *other,
        (RoleNext::Done, RoleNext::Done) => true,
        (RoleNext::May(actions), RoleNext::May(others)) => {
            are_same_actions(actions.as_slice(), others.as_slice())
        }
        (RoleNext::WaitsFor(actions), RoleNext::WaitsFor(others)) => {
            are_same_actions(actions.as_slice(), others.as_slice())
        }
        _ => false,
    }
}

fn are_same_actions(a: &[Action], b: &[Action]) -> bool
    ensures { IsTrue result ↔ (a.now ≡ b.now) }
{
    match (a, b) {
        ([], []) => true,
        ([first, rest @ ..], [other, others @ ..]) => {
            is_same_action(first, other) && are_same_actions(rest, others)
        }
        _ => false,
    }
}

fn is_same_action(a: &Action, b: &Action) -> bool
    ensures { IsTrue result ↔ (a.now ≡ b.now) }
{
    match (a, b) {
        (Action::Join, Action::Join) => true,
        (
            Action::Sends { to, message },
            Action::Sends {
                to: role,
                message: other,
            },
        ) => { is_same_exchange(to, message, role, other) }
        (
            Action::Receives { from, message },
            Action::Receives {
                from: role,
                message: other,
            },
        ) => is_same_exchange(from, message, role, other),
        _ => false,
    }
}

fn is_same_exchange(
    role: &Role,
    message: &SharedMessage,
    other_role: &Role,
    other: &SharedMessage,
) -> bool
    ensures { IsTrue result ↔ ((role.now ≡ other_role.now) × (message.now ≡ other.now)) }
{
    role.equal(other_role) && message.equal(other)
}
