//! Laws of every monitor.

ghost use Rattle.scrib_core.specs.Turns.{StaysFresh, TurnsSuffice};

/// A law of turns and marks, over any sequence of accepted steps, with any refused steps between them. A fresh verdict
/// becomes stale only when the meaning of the conversation's protocol changes. Let the turns of the sequence be one or
/// more, and let 256 events for each cover the whole log. Then the verdict is fresh, until that meaning changes.
pub fn turns_suffice()
    ensures stays { StaysFresh }
    ensures enough { TurnsSuffice }
{}
