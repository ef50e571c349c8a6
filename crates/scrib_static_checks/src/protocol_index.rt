//! The slots of an index of declared protocols by name.

ghost use Rattle.std.specs.Prelude.{◌≡◌, ◌<◌};
ghost use Rattle.scrib_static_checks.specs.ProtocolIndex as spec;

use scrib_types::hashing::{hash_bytes, hash_names, slot_of};
use scrib_types::name::{Dotted, Name};

/// A hash table from the names of protocols to their indices among the declared ones, with linear probing (Knuth, The
/// Art of Computer Programming 3, section 6.4). A protocol is in the first slot that was free, from the slot of its hash
/// on. The table has no slots, or it contains `indexed` protocols.
#[derive(Drop)]
pub struct ProtocolIndex {
    pub slots: Vec<Option<u32>>,
    pub indexed: usize,
}

/// Returns the slot, out of `size`, of the protocol of this name in the module of this name.
pub fn protocol_slot(size: usize, home: &Dotted, name: &Name) -> usize
    requires { 0 < size }
    ensures slot { result ≡ spec.protocol_slot size home.now name.now }
    ensures within { result < size }
{
    let hash = hash_names(hash_bytes(0, name.as_bytes()), home.as_slice());
    slot_of(hash, size)
}

/// Returns the slot after this one, out of `size`. The first one comes after the last.
pub fn next_slot(size: usize, slot: usize) -> usize
    requires { slot < size }
    ensures slot { result ≡ spec.next_slot size slot }
    ensures within { result < size }
{
    if slot + 1 < size { slot + 1 } else { 0 }
}
