//! The queues of all ordered pairs of roles.

ghost use Rattle.std.specs.Prelude.{◌≡◌, ◌↔◌, ◌<◌, ℕ, [], ◌∷◌, ◌++◌, false, IsTrue, IfOk, OnOk, OnErr, OnSome, MatchOption, drop, if◌then◌else◌, is_ok, length, position};
ghost use Rattle.scrib_queues.specs.Channels.{AllEmpty, IsTaken, KeepsRoom, SameElsewhere, SameQueues, has_room, is_pair, queue_of};
ghost use Rattle.scrib_queues.specs.Layout.{IsWaitingAt, items_of, pair_of};

use crate::queue::Queue;
use crate::queued::Queued;
use std::alloc::{AllocError, Global};
use std::marker::Model;

// The positions of a sender and of a receiver. With 16 bits for each, up to sixteen pairs fit on one cache line. A
// conversation's pairs are read at each of its events.
#[derive(Clone, Copy)]
struct Pair {
    from: u16,
    to: u16,
}

/// A first-in-first-out queue of items for each ordered pair of roles. A role is given by its position.
///
/// It stores the pairs that were ever sent on or reserved for, and beside them their queues. A pair that isn't used
/// takes no memory; a table of all pairs would grow with the square of the number of roles in each conversation.
/// Finding a queue is a linear search of the pairs, which are contiguous and few. Only `clear` and `copy`, and a
/// `reserve` or `send` that grows a queue, take time by the number of items in flight.
///
/// Contracts see the number of roles and, of each pair, the items and whether there is room for one more.
#[derive(Drop)]
pub struct Queues<T> {
    roles: usize,
    pairs: Vec<Pair>,
    queues: Vec<Queue<T>>,
}

impl<T> Model for Queues<T> {
    ghost use Rattle.std.specs.Prelude.{◌≡◌, length, zip};
    ghost use Rattle.scrib_queues.specs.Channels.{Channels};
    ghost use Rattle.scrib_queues.specs.Codes.{channels_code};

    ghost Value = { Channels T };

    ghost coded = { channels_code T.code };

    ghost view = { λ queues. record { roles = queues.roles; used = zip queues.pairs.items queues.queues.items } };

    ghost invariant = { λ queues. length queues.pairs.items ≡ length queues.queues.items };
}

impl<T: Drop> Queues<T> {
    /// Empty queues between this number of roles. Positions above 65,535 get no queue: `reserve` and `send` fail there.
    pub fn new(alloc: Global, roles: usize) -> Queues<T>
        ensures roles { result.roles ≡ roles }
        ensures empty { AllEmpty result }
    {
        Queues {
            roles,
            pairs: Vec::new(alloc),
            queues: Vec::new(alloc),
        }
    }

    /// The number of roles.
    pub fn roles(&self) -> usize
        ensures { result ≡ self.now.roles }
    {
        self.roles
    }

    /// Makes room for one `push` from `p` to `q`, and takes none away.
    ///
    /// # Errors
    /// `AllocError` where memory is refused, or where a position is above 65,535. All items stay.
    pub fn reserve(&mut self, p: usize, q: usize) -> Result<(), AllocError>
        requires sender { p < self.old.roles }
        requires receiver { q < self.old.roles }
        ensures roles { self.new.roles ≡ self.old.roles }
        ensures items { SameQueues self.old self.new }
        ensures room { OnOk result (IsTrue (has_room self.new p q)) }
        ensures kept { KeepsRoom self.old self.new }
    {
        match place_of(&self.pairs, p, q) {
            Some(place) => {
                let alloc = *self.queues.allocator();
                let queue = &mut self.queues[place];
                queue.reserve(alloc)
            }
            None => add_queue(&mut self.pairs, &mut self.queues, p, q, Queue::new()),
        }
    }

    /// Puts the item behind those from `p` to `q`, in the room that `reserve` made or `pop` left.
    pub fn push(&mut self, p: usize, q: usize, item: T)
        requires sender { p < self.old.roles }
        requires receiver { q < self.old.roles }
        requires room { IsTrue (has_room self.old p q) }
        ensures roles { self.new.roles ≡ self.old.roles }
        ensures pushed { queue_of self.new p q ≡ queue_of self.old p q ++ item ∷ [] }
        ensures others { SameElsewhere p q self.old self.new }
    {
        let Some(place) = place_of(&self.pairs, p, q) else {
            unreachable!()
        };
        let queue = &mut self.queues[place];
        queue.push(item);
    }

    /// The oldest item from `p` to `q`, or `None` where none waits.
    pub fn front(&self, p: usize, q: usize) -> Option<&T>
        requires sender { p < self.now.roles }
        requires receiver { q < self.now.roles }
        ensures { MatchOption result (queue_of self.now p q ≡ [])
            (λ item. queue_of self.now p q ≡ item.now ∷ drop 1 (queue_of self.now p q)) }
    {
        let place = place_of(&self.pairs, p, q)?;
        let queue = &self.queues[place];
        queue.front()
    }

    /// Returns whether no item waits between any two roles. It takes time by the number of pairs that were used.
    pub fn are_empty(&self) -> bool
        ensures { IsTrue result ↔ AllEmpty self.now }
    {
        none_waits(&self.pairs, &self.queues)
    }

    /// Takes the oldest item from `p` to `q` out and leaves its room, or returns `None` where none waits.
    pub fn pop(&mut self, p: usize, q: usize) -> Option<T>
        requires sender { p < self.old.roles }
        requires receiver { q < self.old.roles }
        ensures roles { self.new.roles ≡ self.old.roles }
        ensures popped { MatchOption result ((queue_of self.old p q ≡ []) × (queue_of self.new p q ≡ []))
            (λ item. queue_of self.old p q ≡ item ∷ queue_of self.new p q) }
        ensures others { SameElsewhere p q self.old self.new }
        ensures room { OnSome result (IsTrue (has_room self.new p q)) }
        ensures kept { KeepsRoom self.old self.new }
    {
        let place = place_of(&self.pairs, p, q)?;
        let queue = &mut self.queues[place];
        queue.pop()
    }

    /// Puts the item behind those from `p` to `q`, as `reserve` and then `push` do, but finds the queue once.
    ///
    /// # Errors
    /// `AllocError` where `reserve` returns it. All items stay.
    pub fn send(&mut self, p: usize, q: usize, item: T) -> Result<(), AllocError>
        requires sender { p < self.old.roles }
        requires receiver { q < self.old.roles }
        ensures roles { self.new.roles ≡ self.old.roles }
        ensures sent { OnOk result (queue_of self.new p q ≡ queue_of self.old p q ++ item ∷ []) }
        ensures others { OnOk result (SameElsewhere p q self.old self.new) }
        ensures err { OnErr result (SameQueues self.old self.new) }
    {
        match place_of(&self.pairs, p, q) {
            Some(place) => {
                let alloc = *self.queues.allocator();
                let queue = &mut self.queues[place];
                queue.send(alloc, item)
            }
            None => {
                let queue = Queue::of(item);
                add_queue(&mut self.pairs, &mut self.queues, p, q, queue)
            }
        }
    }

    /// Removes all items and all room.
    pub fn clear(&mut self)
        ensures roles { self.new.roles ≡ self.old.roles }
        ensures empty { AllEmpty self.new }
    {
        self.pairs.clear();
        self.queues.clear();
    }
}

impl<T: Queued> Queues<T> {
    /// Takes the oldest item from `p` to `q` out where it is this one, and returns whether it was. It does what
    /// `front` and then `pop` do, but finds the queue once.
    pub fn receive(&mut self, p: usize, q: usize, item: &T) -> bool
        requires sender { p < self.old.roles }
        requires receiver { q < self.old.roles }
        ensures roles { self.new.roles ≡ self.old.roles }
        ensures taken { IsTaken item.now result (queue_of self.old p q) (queue_of self.new p q) }
        ensures others { SameElsewhere p q self.old self.new }
        ensures same { result ≡ false → self.new ≡ self.old }
    {
        let Some(place) = place_of(&self.pairs, p, q) else {
            return false;
        };
        let queue = &mut self.queues[place];
        queue.receive(item)
    }

    /// A copy with the same items. The contract leaves open which of its queues have room.
    ///
    /// # Errors
    /// `AllocError` where memory is refused.
    pub fn copy(&self, alloc: Global) -> Result<Queues<T>, AllocError>
        ensures roles { IfOk result (λ queues. queues.roles ≡ self.now.roles) }
        ensures items { IfOk result (λ queues. SameQueues self.now queues) }
    {
        let pairs = Vec::from_slice(alloc, &self.pairs)?;
        let queues = copy_queues(alloc, &self.queues)?;
        Ok(Queues {
            roles: self.roles,
            pairs,
            queues,
        })
    }
}

// The index of the pair.
fn place_of(pairs: &[Pair], p: usize, q: usize) -> Option<usize>
    ensures { result ≡ position (is_pair p q) pairs.now }
{
    pairs.iter().position(|pair| usize::from(pair.from) == p && usize::from(pair.to) == q)
}

// Puts the pair and its queue behind the others.
fn add_queue<T: Drop>(
    pairs: &mut Vec<Pair>,
    queues: &mut Vec<Queue<T>>,
    p: usize,
    q: usize,
    queue: Queue<T>,
) -> Result<(), AllocError>
    ensures pairs { pairs.new.items ≡ (if is_ok result then pairs.old.items ++ pair_of p q ∷ [] else pairs.old.items) }
    ensures queues { queues.new.items ≡ (if is_ok result then queues.old.items ++ queue ∷ [] else queues.old.items) }
{
    let pair = pair_of(p, q)?;
    pairs.reserve(1)?;
    queues.push(queue)?;
    pairs.push(pair)?;
    Ok(())
}

// Returns whether no item waits in any of the queues.
fn none_waits<T: Drop>(pairs: &[Pair], queues: &[Queue<T>]) -> bool
    requires { length pairs.now ≡ length queues.now }
    ensures { IsTrue result ↔ ((place : ℕ) → IsWaitingAt pairs.now queues.now place → ⊥) }
{
    for place in 0..pairs.len() {
        if waits(pairs, queues, place) {
            return false;
        }
    }
    true
}

// Returns whether an item waits in the queue at this place. The queue of a pair is the first one that has the pair.
fn waits<T: Drop>(pairs: &[Pair], queues: &[Queue<T>], place: usize) -> bool
    requires pair { place < length pairs.now }
    requires queue { place < length queues.now }
    ensures { IsTrue result ↔ IsWaitingAt pairs.now queues.now place }
{
    let queue = &queues[place];
    if queue.front().is_none() {
        return false;
    }
    let pair = pairs[place];
    match place_of(pairs, usize::from(pair.from), usize::from(pair.to)) {
        Some(first) => first == place,
        None => false,
    }
}

// The pair of these positions. A position above 65,535 doesn't fit.
fn pair_of(p: usize, q: usize) -> Result<Pair, AllocError>
    ensures { IfOk result (λ pair. pair ≡ pair_of p q) }
{
    match (u16::try_from(p), u16::try_from(q)) {
        (Ok(from), Ok(to)) => Ok(Pair { from, to }),
        _ => Err(AllocError),
    }
}

// A copy of each queue, in order.
fn copy_queues<T: Queued>(alloc: Global, queues: &[Queue<T>]) -> Result<Vec<Queue<T>>, AllocError>
    ensures { IfOk result (λ copies. items_of copies.items ≡ items_of queues.now) }
{
    let mut copies = Vec::with_capacity(alloc, queues.len())?;
    for queue in queues {
        copies.push(queue.copy(alloc)?)?;
    }
    Ok(copies)
}
