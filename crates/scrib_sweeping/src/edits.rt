//! Which items may make conversations stale.

ghost use Rattle.std.specs.Prelude.{◌≡◌};
ghost use Rattle.scrib_sweeping.specs.Edits.{is_edit};

use scrib_core::step::Step;
use scrib_script_reader::item::Item;

/// Returns whether the item edits the library.
pub(crate) fn is_edit(item: &Item) -> bool
    ensures { result ≡ is_edit item.now }
{
    matches!(
        item,
        Item::Step(_, Step::Put { .. } | Step::Withdraw { .. })
    )
}
