//! The places at which receipts and a log differ.

ghost use Rattle.std.specs.Prelude.{◌≡◌};
ghost use Rattle.scrib_settlement.specs.Mismatches.{is_before, earlier_of};

/// A place of a conversation's log, from 1, at which the receipts differ from it.
#[derive(Clone, Copy)]
pub struct MismatchPlace {
    pub conversation: u32,
    pub place: usize,
}

impl MismatchPlace {
    // Whether the place is of a lesser conversation, or a lesser place of the same one.
    fn is_before(&self, other: &MismatchPlace) -> bool
        ensures { result ≡ is_before self.now other.now }
    {
        self.conversation < other.conversation
            || (self.conversation == other.conversation && self.place < other.place)
    }
}

/// Returns the lesser of two places, or the one that is given.
pub fn earlier(a: Option<MismatchPlace>, b: Option<MismatchPlace>) -> Option<MismatchPlace>
    ensures { result ≡ earlier_of a b }
{
    match (a, b) {
        (None, b) => b,
        (a, None) => a,
        (Some(a), Some(b)) => Some(if b.is_before(&a) { b } else { a }),
    }
}
