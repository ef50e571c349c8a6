//! Parts of lists of steps.

ghost use Rattle.std.specs.Prelude.{◌≡◌};
ghost use Rattle.scrib_partition.specs.Partition.{among, is_of, part_of_steps};

use scrib_core::step::Step;

/// Returns the part of the list for these conversations: the list without the steps on others. Each edit stays, and so
/// does the order. It allocates nothing.
pub fn part_of(steps: Vec<Step>, ids: &[u32]) -> Vec<Step>
    ensures { result.items ≡ part_of_steps (among ids.now) steps.items }
{
    let mut part = steps;
    part.retain(|step| is_in_part(step, ids));
    part
}

/// Returns whether the step is an edit, or is on one of these conversations.
pub fn is_in_part(step: &Step, ids: &[u32]) -> bool
    ensures { result ≡ is_of (among ids.now) step.now }
{
    match step {
        Step::Put { .. } => true,
        Step::Withdraw { .. } => true,
        Step::Profile { .. } => true,
        Step::Open { id, .. } => ids.contains(id),
        Step::Note { id, .. } => ids.contains(id),
        Step::Turn { id } => ids.contains(id),
        Step::Ask { id } => ids.contains(id),
        Step::Close { id } => ids.contains(id),
    }
}
