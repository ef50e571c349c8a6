//! Why a service was not settled.

/// Why a service was not settled.
#[derive(Drop)]
pub enum SettleFault {
    /// The number of receipts for this shard's conversations differs from the number of events in its logs. It is the
    /// least such shard, from 0.
    PassesMissing { shard: usize },
    /// The place, from 1, does not have exactly one receipt, equal to the entry. It is the least such place of the
    /// least such conversation. A conversation that is missing, or in another shard than its own, differs at place 1.
    Mismatch { conversation: u32, place: usize },
    /// Memory was refused. No pass is missing.
    OutOfMemory,
}
