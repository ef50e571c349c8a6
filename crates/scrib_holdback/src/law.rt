//! The law of held arrivals.

ghost use Rattle.std.specs.Prelude.{map};
ghost use Rattle.scrib_types.specs.Meaning.{agreement_of};
ghost use Rattle.scrib_holdback.specs.HoldBack.{IsHeldBack};
ghost use Rattle.scrib_holdback.specs.FalseAlarms.{RaisesNoFalseAlarm};
ghost use Rattle.scrib_holdback.specs.HeldRuns.{IsExactOverRuns};

use crate::arrival::Arrival;
use scrib_types::protocol::Protocol;

/// A law: what is held raises no false alarm. What was released, and then what waits, is permitted exactly where some
/// reordering of the arrivals is, and then nothing waits.
pub fn raises_no_false_alarm<A: Arrival>(arrivals: &[A], released: &[A], waiting: &[A])
    requires { IsHeldBack A.event arrivals.now released.now waiting.now }
    ensures { RaisesNoFalseAlarm A.event arrivals.now released.now waiting.now }
{}

/// A law: what is held is a run of the protocol exactly where some reordering of the arrivals is. Then nothing waits.
pub fn holds_back_runs<A: Arrival>(
    protocol: &Protocol,
    arrivals: &[A],
    released: &[A],
    waiting: &[A],
)
    requires { IsHeldBack A.event arrivals.now released.now waiting.now }
    ensures { IsExactOverRuns (agreement_of protocol.now) (map A.event arrivals.now) (map A.event released.now)
        (map A.event waiting.now) }
{}
