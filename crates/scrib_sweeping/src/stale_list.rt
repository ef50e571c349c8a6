//! The conversations that may be stale.

ghost use Rattle.std.specs.Prelude.{◌≡◌, ◌≤◌, length};

use std::alloc::Global;

/// Conversations that may be stale, of which some first ones are done.
#[derive(Drop)]
pub(crate) struct StaleList {
    ids: Vec<u32>,
    done: usize,
    ghost within: { done ≤ length ids.items },
}

impl StaleList {
    ghost use Rattle.std.specs.Prelude.{◌≡◌, ◌≤◌, [], IfNone, IfSome, IsTrue};
    ghost use Rattle.scrib_sweeping.specs.StaleLists.{IsRestFrom, left_in};

    /// Returns a list of no conversation.
    pub(crate) fn none(alloc: Global) -> StaleList
        ensures { left_in result ≡ [] }
    {
        StaleList::of(Vec::new(alloc))
    }

    /// Returns the list of these conversations.
    pub(crate) fn of(ids: Vec<u32>) -> StaleList
        ensures { left_in result ≡ ids.items }
    {
        StaleList { ids, done: 0 }
    }

    /// Returns whether none is left.
    #[inline(always)]
    pub(crate) fn is_done(&self) -> bool
        ensures { IsTrue result → left_in self.now ≡ [] }
    {
        self.done == self.ids.len()
    }

    /// Returns the conversations that are left.
    pub(crate) fn left(&self) -> &[u32]
        ensures { result.now ≡ left_in self.now }
    {
        &self.ids.as_slice()[self.done..]
    }

    /// Leaves the conversations from the first one on that is not below this one, or none without it.
    pub(crate) fn leave_from(&mut self, first: Option<u32>)
        ensures none { IfNone first (left_in self.new ≡ []) }
        ensures some { IfSome first (λ id. IsRestFrom id (left_in self.old) (left_in self.new)) }
    {
        let Some(first) = first else {
            self.done = self.ids.len();
            return;
        };
        while let Some(id) = self.ids.get(self.done)
            && *id < first
        {
            self.done += 1;
        }
    }
}
