//! Laws of every protocol.

ghost use Rattle.std.specs.Prelude.{◌≡◌, Some};
ghost use Rattle.scrib_types.specs.declared.profile.Profile.TheVariants.{Plain};
ghost use Rattle.scrib_types.specs.Trees.{LocalTree};
ghost use Rattle.scrib_types.specs.GlobalView.{global_of};
ghost use Rattle.scrib_types.specs.Projection.{projection, widest};
ghost use Rattle.scrib_types.specs.Meaning.{agreement_of};
ghost use Rattle.scrib_global.specs.Simulation.{Simulates};
ghost use Rattle.scrib_global.specs.Progress.{Progresses, Completes, CanBeReceived};

use scrib_types::global::GlobalType;
use scrib_types::name::Role;
use scrib_types::protocol::Protocol;

/// A law: a protocol permits exactly its runs. A log is permitted exactly where its joins are lawful and its sends and
/// receptions are a run of the global type over first-in-first-out queues. The state that the run reaches has the log's
/// messages in flight on every path. A role that awaits a message from another with messages to it in flight may
/// receive the oldest of them.
pub fn permits_its_runs(protocol: &Protocol)
    ensures { Simulates (agreement_of protocol.now) }
{}

/// A law: an accepted protocol cannot get stuck. A permitted log is complete, or some join, send or reception may come
/// next. Where each role that acts has joined, a send or a reception may.
pub fn progresses(protocol: &Protocol)
    ensures { Progresses (agreement_of protocol.now) }
{}

/// A law: a log is complete exactly where its joins are lawful and its sends and receptions take the global type to its
/// end. Then each role that acts has joined. Only the joins of roles that never act may follow, and leave the log
/// complete.
pub fn completes(protocol: &Protocol)
    ensures { Completes (agreement_of protocol.now) }
{}

/// A law: after each permitted log there are further events after which all that is in flight now is received.
pub fn can_be_received(protocol: &Protocol)
    ensures { CanBeReceived (agreement_of protocol.now) }
{}

/// A law: where the plain profile has a projection, the reception profile has the same one.
pub fn keeps_plain_projections(global: &GlobalType, role: &Role)
    ensures { (l : LocalTree) → projection Plain role.now (global_of global.now) ≡ Some l
        → projection widest role.now (global_of global.now) ≡ Some l }
{}
