//! The law of a stage, at any time.

ghost use Rattle.std.specs.Prelude.{◌≡◌, ℕ, List, [], Some};
ghost use Rattle.scrib_holdback.specs.FalseAlarms.{RaisesNoFalseAlarm};
ghost use Rattle.scrib_hold_stage.specs.Changes.{conversation_at};
ghost use Rattle.scrib_hold_stage.specs.Conversations.{noted_event, waiting_at};
ghost use Rattle.scrib_hold_stage.specs.Entries.{Entry, Closings, noted_since, noted_in, opening_since};
ghost use Rattle.scrib_hold_stage.specs.Stages.{HasStaged, stage_state};

use crate::noted::Noted;
use crate::stage::HoldStage;
use scrib_holdback::arrival::Arrival;

/// A law, of each conversation that was opened since it was last closed, where none of its events since then expired.
/// What was released of it since then, and then what waits, raises no false alarm. It is permitted exactly where some
/// reordering of its events since then is. Then nothing waits.
pub fn raises_no_false_alarm<A: Arrival>(stage: &HoldStage<A>)
    ensures { (bound : ℕ) (entries : List (Entry A)) (closed : Closings) (released expired : List (Noted A))
        → HasStaged A.event bound entries closed released expired (stage_state stage.now)
        → (id n : ℕ) → opening_since (closed id) id entries ≡ Some n → noted_since (closed id) id expired ≡ []
        → RaisesNoFalseAlarm (noted_event A.event) (noted_since (closed id) id (noted_in entries))
        (noted_since (closed id) id released)
        (waiting_at (conversation_at (stage_state stage.now).conversations id)) }
{}
