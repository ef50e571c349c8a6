//! Where two threads meet that hold the locks of different shards.

use scrib_shards::gate::Gate;
use std::sync::atomic::{AtomicU64, Ordering};
use std::thread;

// How often a thread looks for another before it goes on alone.
const LOOKS: u64 = 10_000_000;

/// A gate of the shards 0 and 1: who is in it stays until the other was there too.
#[derive(Drop)]
pub(crate) struct Crossing {
    /// 1 once somebody was in the gate of shard 0.
    pub(crate) first: AtomicU64,
    /// The same of shard 1.
    pub(crate) second: AtomicU64,
    /// How many found the other.
    pub(crate) met: AtomicU64,
}

impl Crossing {
    /// Nobody was there yet.
    pub(crate) fn new() -> Crossing {
        Crossing {
            first: AtomicU64::new(0),
            second: AtomicU64::new(0),
            met: AtomicU64::new(0),
        }
    }

    /// Looks until the flag is set, and counts that.
    pub(crate) fn look_for(&self, flag: &AtomicU64) {
        for _ in 0..LOOKS {
            if flag.load(Ordering::SeqCst) == 1 {
                self.met.fetch_add(1, Ordering::SeqCst);
                return;
            }
            thread::yield_now();
        }
    }
}

impl Gate for Crossing {
    fn hold(&self, shard: usize) {
        match shard {
            0 => {
                self.first.store(1, Ordering::SeqCst);
                self.look_for(&self.second);
            }
            1 => {
                self.second.store(1, Ordering::SeqCst);
                self.look_for(&self.first);
            }
            _ => {}
        }
    }
}
