//! The facts that the pass of a projection collects beside it.

ghost use Rattle.std.specs.Prelude.{◌≡◌, ◌-◌, ◌&&◌, ◌||◌, ◌+◌, ◌==◌, false, not, max, Some, None, option_map, if◌then◌else◌};
ghost use Rattle.std.specs.Option.{option_or};
ghost use Rattle.scrib_projection.specs.Surveys.{capped};

/// The survey of a type, or of the branches of a communication, for a role.
#[derive(Clone, Copy, Drop)]
pub struct Survey {
    /// The number of enclosing recursions that would bind all its variables.
    pub depth: u64,
    /// Whether the role sends or receives somewhere in it.
    pub occurs: bool,
    /// The number of its communications with several branches, at most the greatest `usize`.
    pub choice_count: usize,
    /// The number of the first of those, from 0 in post-order, whose branches don't merge for the role.
    pub first: Option<usize>,
}

impl Survey {
    /// The survey of a type without communications.
    pub(crate) fn leaf(depth: u64) -> Survey
        ensures depth { result.depth ≡ depth }
        ensures occurs { result.occurs ≡ false }
        ensures choice_count { result.choice_count ≡ 0 }
        ensures first { result.first ≡ None }
    {
        Survey {
            depth,
            occurs: false,
            choice_count: 0,
            first: None,
        }
    }

    /// The survey of these branches and one more, after them.
    pub(crate) fn with_branch(self, branch: Survey) -> Survey
        ensures depth { result.depth ≡ max self.depth branch.depth }
        ensures occurs { result.occurs ≡ (self.occurs || branch.occurs) }
        ensures choice_count { result.choice_count ≡ capped (self.choice_count + branch.choice_count) }
        ensures first { result.first ≡ option_or self.first
            (option_map (λ k. capped (self.choice_count + k)) branch.first) }
    {
        let later = match branch.first {
            Some(k) => Some(self.choice_count.saturating_add(k)),
            None => None,
        };
        Survey {
            depth: self.depth.max(branch.depth),
            occurs: self.occurs || branch.occurs,
            choice_count: self.choice_count.saturating_add(branch.choice_count),
            first: self.first.or(later),
        }
    }

    /// The survey of the recursion of a type with this survey. A closed recursion in which the role doesn't occur isn't
    /// visited.
    pub(crate) fn recursion(self) -> Survey
        ensures depth { result.depth ≡ self.depth - 1 }
        ensures occurs { result.occurs ≡ self.occurs }
        ensures choice_count { result.choice_count ≡ self.choice_count }
        ensures first { result.first ≡ (if (self.depth - 1 == 0) && not self.occurs then None else self.first) }
    {
        let depth = self.depth.saturating_sub(1);
        let first = if depth == 0 && !self.occurs {
            None
        } else {
            self.first
        };
        Survey {
            depth,
            occurs: self.occurs,
            choice_count: self.choice_count,
            first,
        }
    }

    /// The survey of a communication whose branches have this survey. `is_part`: the role is its sender or receiver.
    /// `several`: it has more than one branch. `differ`: the branches don't merge for the role.
    pub(crate) fn communication(self, is_part: bool, several: bool, differ: bool) -> Survey
        ensures depth { result.depth ≡ self.depth }
        ensures occurs { result.occurs ≡ (is_part || self.occurs) }
        ensures choice_count { result.choice_count ≡ capped (self.choice_count + (if several then 1 else 0)) }
        ensures first { result.first ≡ option_or self.first (if differ then Some self.choice_count else None) }
    {
        let here = if differ {
            Some(self.choice_count)
        } else {
            None
        };
        Survey {
            depth: self.depth,
            occurs: is_part || self.occurs,
            choice_count: self.choice_count.saturating_add(usize::from(several)),
            first: self.first.or(here),
        }
    }
}
