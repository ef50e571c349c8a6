//! The exchanges of a protocol while they are numbered.

ghost use Rattle.std.specs.Prelude.{◌≡◌, IfOk, OnOk};
ghost use Rattle.scrib_record.specs.Exchanges as spec;

use crate::exchanges::{Exchange, Exchanges};
use indexmap::IndexSet;
use std::alloc::{AllocError, Global};
use std::marker::Model;

/// The exchanges to which numbers were given. The number of each is its index. A hash table finds it among many as fast
/// as among few. Contracts see the list.
#[derive(Drop)]
pub struct Numberer {
    numbered: IndexSet<Exchange>,
}

impl Model for Numberer {
    ghost use Rattle.std.specs.Prelude.{List};
    ghost use Rattle.scrib_record.specs.declared.exchanges.Exchange.{Exchange};

    ghost Value = { List Exchange };

    ghost view = { λ n. n.numbered.keys };
}

impl Numberer {
    /// Returns a numberer without exchanges.
    pub fn new(alloc: Global) -> Numberer
        ensures { result ≡ spec.no_exchanges }
    {
        Numberer {
            numbered: IndexSet::new(alloc),
        }
    }

    /// Returns the allocator.
    pub fn alloc(&self) -> Global {
        *self.numbered.allocator()
    }

    /// Returns the number of this exchange. A new one is appended.
    ///
    /// # Errors
    /// `AllocError` if memory was refused.
    pub fn number_of(&mut self, exchange: Exchange) -> Result<usize, AllocError>
        ensures numbered { IfOk result (spec.IsNumbered self.new exchange) }
        ensures more { OnOk result (spec.AreMore self.old exchange self.new) }
    {
        let (number, _) = self.numbered.insert_full(exchange)?;
        Ok(number)
    }

    /// Returns the exchanges, to be looked up by events.
    ///
    /// # Errors
    /// `AllocError` if memory was refused.
    pub fn into_exchanges(self) -> Result<Exchanges, AllocError>
        ensures { IfOk result (λ exchanges. exchanges ≡ self) }
    {
        let alloc = self.alloc();
        let list = self.numbered.into_iter().collect(alloc)?;
        Exchanges::from_vec(alloc, list)
    }
}
