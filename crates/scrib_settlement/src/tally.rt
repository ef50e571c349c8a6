//! The receipts for the places of one log.

ghost use Rattle.std.specs.Prelude.{◌≡◌, ◌++◌, ◌∷◌, ◌<◌, [], IfOk, IsTrue, List, length};
ghost use Rattle.scrib_types.specs.declared.event.Event.{Event};
ghost use Rattle.scrib_locked_steps.specs.declared.pass.Receipt.{Receipt};
ghost use Rattle.scrib_settlement.specs.Tallies.{IsTallyOf, IsFirstDifference, IsFirstDue, is_due};

use scrib_locked_steps::pass::Receipt;
use scrib_locked_steps::receipt_check::{is_entry, min_place};
use scrib_types::shared_event::SharedEvent;
use std::alloc::{AllocError, Global};

/// The places of a log that still need a receipt, and the least place with a superfluous or wrong receipt.
#[derive(Drop)]
pub struct Tally {
    // Indexed by place; place 0 is never due.
    due: Vec<bool>,
    wrong: Option<usize>,
}

impl Tally {
    /// Returns a tally without receipts.
    ///
    /// # Errors
    /// `AllocError` if memory was refused.
    pub fn new(alloc: Global, log: &[SharedEvent]) -> Result<Tally, AllocError>
        ensures { IfOk result (λ t. IsTallyOf log.now [] t.due.items t.wrong) }
    {
        let mut due = vec![in alloc; true; log.len() + 1]?;
        due[0] = false;
        Ok(Tally { due, wrong: None })
    }

    /// Counts one more receipt.
    pub fn count(&mut self, log: &[SharedEvent], receipt: &Receipt)
        ensures { (seen : List Receipt) → IsTallyOf log.now seen self.old.due.items self.old.wrong
            → IsTallyOf log.now (seen ++ receipt.now ∷ []) self.new.due.items self.new.wrong }
    {
        let place = receipt.place;
        if self.is_due(place) && is_entry(log, place, &receipt.event) {
            self.due[place] = false;
        } else {
            self.wrong = Some(min_place(place, self.wrong));
        }
    }

    /// Counts several more receipts.
    pub fn count_all(&mut self, log: &[SharedEvent], receipts: &[Receipt])
        ensures { (seen : List Receipt) → IsTallyOf log.now seen self.old.due.items self.old.wrong
            → IsTallyOf log.now (seen ++ receipts.now) self.new.due.items self.new.wrong }
    {
        for receipt in receipts {
            self.count(log, receipt);
        }
    }

    /// Returns the least place at which the receipts differ from the log.
    pub fn first(&self) -> Option<usize>
        ensures { (log : List Event) (seen : List Receipt) → IsTallyOf log seen self.now.due.items self.now.wrong
            → IsFirstDifference log seen result }
    {
        match (self.wrong, self.first_due()) {
            (None, unmatched) => unmatched,
            (Some(wrong), unmatched) => Some(min_place(wrong, unmatched)),
        }
    }

    fn is_due(&self, place: usize) -> bool
        ensures due { result ≡ is_due place self.now.due.items }
        ensures within { IsTrue result → place < length self.now.due.items }
    {
        place < self.due.len() && self.due[place]
    }

    fn first_due(&self) -> Option<usize>
        ensures { IsFirstDue self.now.due.items result }
    {
        for (place, due) in self.due.iter().enumerate() {
            if *due {
                return Some(place);
            }
        }
        None
    }
}
