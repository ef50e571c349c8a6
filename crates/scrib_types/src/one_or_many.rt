//! Lists that mostly hold one item.

ghost use Rattle.std.specs.Prelude.{◌≡◌, [], ◌∷◌, length};
ghost use Rattle.std.specs.Mem.{FitsInMemory};

use sqlite_items::Items;
use std::alloc::Global;
use std::marker::Model;
use std::slice;

// Where the items are stored: one in place, or any number in a vector.
#[derive(Drop)]
enum Storage<T> {
    One(T),
    Listed(Items<T>),
}

/// A list that allocates nothing where it is made of one item. The items are of a type of less than 2^63 bytes.
/// Contracts see the list of the items.
#[derive(Drop)]
pub struct OneOrMany<T> {
    storage: Storage<T>,
}

impl<T> Model for OneOrMany<T> {
    ghost use Rattle.std.specs.Prelude.{List};
    ghost use Rattle.std.specs.Coded.{coded_list};
    ghost use Rattle.scrib_types.specs.OneOrMany.{items_in};

    ghost Value = { List T };

    ghost coded = { coded_list T.code };

    ghost view = { λ list. items_in list.storage };
}

impl<T> OneOrMany<T> {
    /// The empty list.
    pub fn none(alloc: Global) -> OneOrMany<T>
        ensures { result ≡ [] }
    {
        OneOrMany {
            storage: Storage::Listed(Items::new(alloc)),
        }
    }

    /// The list of this item alone. It allocates nothing.
    pub fn one(item: T) -> OneOrMany<T>
        ensures { result ≡ item ∷ [] }
    {
        OneOrMany {
            storage: Storage::One(item),
        }
    }

    /// The list of these items. It takes over their memory.
    pub fn from_vec(items: Vec<T>) -> OneOrMany<T>
        ensures { result ≡ items.items }
    {
        OneOrMany {
            storage: Storage::Listed(Items::from_vec(items)),
        }
    }

    /// The items, in order.
    pub fn as_slice(&self) -> &[T]
        requires { FitsInMemory T.row }
        ensures { result.now ≡ self.now }
    {
        match &self.storage {
            Storage::One(item) => slice::from_ref(item),
            Storage::Listed(items) => items.as_slice(),
        }
    }

    /// How many items it has.
    pub fn len(&self) -> usize
        requires { FitsInMemory T.row }
        ensures { result ≡ length self.now }
    {
        self.as_slice().len()
    }
}
