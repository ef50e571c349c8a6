//! Which conversation an entry opens.

ghost use Rattle.std.specs.Prelude.{◌≡◌, ℕ, true, false, None, IfSome};
ghost use Rattle.scrib_hold.specs.HeldScripts.{opens_conversation};

use scrib_core::step::Step;
use scrib_script_reader::entry::Entry;
use scrib_script_reader::item::Item;

/// Returns the conversation that the entry opens, if it opens one.
#[inline(always)]
pub fn opened_by(entry: &Entry) -> Option<u32>
    ensures opens { IfSome result (λ id. opens_conversation id entry.now ≡ true) }
    ensures only { IfSome result (λ id. (k : ℕ) → opens_conversation k entry.now ≡ true → k ≡ id) }
    ensures none { result ≡ None → (k : ℕ) → opens_conversation k entry.now ≡ false }
{
    match entry {
        Entry::Item(Item::Step(_, Step::Open { id, .. })) => Some(*id),
        _ => None,
    }
}
