//! The entries of a script.

use crate::item::Item;

/// What a line outside module texts gives, or the line that ends a module text. The first line of a put gives none.
#[derive(Drop)]
pub enum Entry {
    /// A comment, or a line without fields.
    Skipped,
    /// An item.
    Item(Item),
}

impl Entry {
    ghost use Rattle.std.specs.Prelude.{◌≡◌};
    ghost use Rattle.scrib_script_reader.specs.Entries.{entry_items, entry_list};
    ghost use Rattle.scrib_script_reader.specs.Scripts.{item_list};

    // The item of the entry, if it has one.
    pub(crate) fn into_item(entry: Option<Entry>) -> Option<Item>
        ensures { item_list result ≡ entry_items (entry_list entry) }
    {
        match entry {
            Some(Entry::Item(item)) => Some(item),
            _ => None,
        }
    }
}
