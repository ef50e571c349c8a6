//! Where the arrivals of each role wait.

ghost use Rattle.std.specs.Prelude.{◌≡◌, ◌<◌, ◌++◌, ◌∷◌, [], ℕ, List, IfNone, IsTrue, MatchOption, Some, length, option_to_list, position, slice_get, OnErr, OnOk};
ghost use Rattle.std.specs.Str.{bytes_eq};
ghost use Rattle.scrib_holdback.specs.Lanes.{HasPositions, IsPlaceOfLane, lane_roles, positions_at};

use scrib_types::name::Role;
use std::alloc::AllocError;
use std::collections::VecDeque;

/// The positions at which a role's arrivals wait, the oldest first.
#[derive(Drop)]
pub(crate) struct Lane {
    pub(crate) role: Role,
    pub(crate) positions: VecDeque<usize>,
}

/// The place of the role's lane. The hint may be any index. The lane is looked for there first.
#[inline(always)]
pub(crate) fn find_lane(lanes: &[Lane], hint: usize, role: &Role) -> Option<usize>
    ensures { IsPlaceOfLane role.now lanes.now result }
{
    if is_lane_of(lanes, hint, role) {
        return Some(hint);
    }
    first_lane(lanes, role)
}

/// Whether the lane at this index is the role's.
#[inline(always)]
pub(crate) fn is_lane_of(lanes: &[Lane], index: usize, role: &Role) -> bool
    ensures { IsTrue result → slice_get (lane_roles lanes.now) index ≡ Some role.now }
{
    match lanes.get(index) {
        Some(lane) => role.equal(&lane.role),
        None => false,
    }
}

// The place of the first lane of the role.
#[inline(never)]
fn first_lane(lanes: &[Lane], role: &Role) -> Option<usize>
    ensures { result ≡ position (λ lane. bytes_eq role.now lane.role) lanes.now }
{
    lanes.iter().position(|lane| role.equal(&lane.role))
}

/// The first position in the lane at this place.
pub(crate) fn first_position(lanes: &[Lane], place: usize) -> Option<usize>
    ensures { MatchOption result (positions_at lanes.now place ≡ [])
        (λ p. (rest : List ℕ) × (positions_at lanes.now place ≡ p ∷ rest)) }
{
    if place >= lanes.len() {
        return None;
    }
    lanes[place].positions.front().copied()
}

/// Takes the first position in the lane at this place out.
pub(crate) fn pop_position(lanes: &mut Vec<Lane>, place: usize) -> Option<usize>
    ensures left { (rest : List ℕ) × (positions_at lanes.old.items place ≡ option_to_list result ++ rest)
        × HasPositions place rest lanes.old.items lanes.new.items }
    ensures empty { IfNone result (positions_at lanes.old.items place ≡ []) }
{
    if place >= lanes.len() {
        return None;
    }
    let lane = &mut lanes[place];
    lane.positions.pop_front()
}

/// Puts the position behind those in the lane at this place.
///
/// # Errors
/// `AllocError` where memory is refused. Nothing changes.
pub(crate) fn push_position(
    lanes: &mut Vec<Lane>,
    place: usize,
    position: usize,
) -> Result<(), AllocError>
    requires { place < length lanes.old.items }
    ensures ok { OnOk result
        (HasPositions place (positions_at lanes.old.items place ++ position ∷ []) lanes.old.items lanes.new.items) }
    ensures err { OnErr result
        (HasPositions place (positions_at lanes.old.items place) lanes.old.items lanes.new.items) }
{
    let lane = &mut lanes[place];
    lane.positions.push_back(position)?;
    Ok(())
}
