//! The size of a block's type, as a function of the size of the type of what follows the block.

ghost use Rattle.std.specs.Prelude.{◌≤◌};
ghost use Rattle.std.specs.Option.{ForSome};
ghost use Rattle.scrib_static_checks.specs.declared.size_bound.TheConstants.{MAX_NODES, MAX_HEIGHT};

/// The largest number of nodes of a global type.
pub const MAX_NODES: usize = 65_536;

/// The largest number of nodes on a path from a global type's root to an end or a variable, both counted.
pub const MAX_HEIGHT: usize = 4_096;

/// A number of nodes less one. It is `base` plus `times` the number less one of what follows. Both are capped at
/// 65,536, since greater numbers are all over the limit.
#[derive(Clone, Copy, Drop)]
pub struct NodeCount {
    pub base: usize,
    pub times: usize,
    pub ghost base_small: { base ≤ MAX_NODES },
    pub ghost times_small: { times ≤ MAX_NODES },
}

impl NodeCount {
    ghost use Rattle.std.specs.Prelude.{◌≡◌, ◌+◌, min};
    ghost use Rattle.scrib_static_checks.specs.SizeFunctions.{nodes_at, IsComposed, IsCombined};

    /// Returns this count with each number capped at 65,536.
    pub fn new(base: usize, times: usize) -> NodeCount
        ensures base { result.base ≡ min MAX_NODES base }
        ensures times { result.times ≡ min MAX_NODES times }
    {
        NodeCount {
            base: base.min(MAX_NODES),
            times: times.min(MAX_NODES),
        }
    }

    /// Returns the count of `self` followed by something of the count `inner`.
    pub fn compose(self, inner: NodeCount) -> NodeCount
        ensures { IsComposed MAX_NODES (nodes_at self) (nodes_at inner) (nodes_at result) }
    {
        NodeCount::new(
            self.base + self.times * inner.base,
            self.times * inner.times,
        )
    }

    /// Returns the sum of the counts of two blocks.
    pub fn sum(self, other: NodeCount) -> NodeCount
        ensures { IsCombined MAX_NODES ◌+◌ (nodes_at self) (nodes_at other) (nodes_at result) }
    {
        NodeCount::new(self.base + other.base, self.times + other.times)
    }
}

/// A height less one. It is the greater of `deepest` and, where a path leads to what follows, `through` plus the height
/// less one of what follows. Both are capped at 4,096.
#[derive(Clone, Copy, Drop)]
pub struct Height {
    pub deepest: usize,
    pub through: Option<usize>,
    pub ghost deepest_small: { deepest ≤ MAX_HEIGHT },
    pub ghost through_small: { ForSome through (λ t. t ≤ MAX_HEIGHT) },
}

impl Height {
    ghost use Rattle.std.specs.Prelude.{◌≡◌, ℕ, min, max};
    ghost use Rattle.std.specs.Option.{option_map};
    ghost use Rattle.scrib_static_checks.specs.SizeFunctions.{passed, height_at, IsComposed, IsCombined};

    /// Returns this height with each number capped at 4,096.
    pub fn new(deepest: usize, through: Option<usize>) -> Height
        ensures deepest { result.deepest ≡ min MAX_HEIGHT deepest }
        ensures through { result.through ≡ option_map (min MAX_HEIGHT) through }
    {
        Height {
            deepest: deepest.min(MAX_HEIGHT),
            through: through.map(|nodes| nodes.min(MAX_HEIGHT)),
        }
    }

    /// Returns the height of `self` followed by something of the height `inner`.
    pub fn compose(self, inner: Height) -> Height
        ensures { IsComposed MAX_HEIGHT (height_at self) (height_at inner) (height_at result) }
    {
        let Some(through) = self.through else {
            return self;
        };
        let deepest = self.deepest.max(through + inner.deepest);
        match inner.through {
            Some(more) => Height::new(deepest, Some(through + more)),
            None => Height::new(deepest, None),
        }
    }

    /// Returns the greater of the two.
    pub fn greater(self, other: Height) -> Height
        ensures { IsCombined MAX_HEIGHT max (height_at self) (height_at other) (height_at result) }
    {
        Height::new(
            self.deepest.max(other.deepest),
            Height::longer(self.through, other.through),
        )
    }

    /// Returns the height less one where nothing follows.
    pub fn alone(self) -> usize
        ensures { result ≡ height_at self 0 }
    {
        match self.through {
            Some(through) => self.deepest.max(through),
            None => self.deepest,
        }
    }

    // Returns the longer of two paths to what follows.
    fn longer(one: Option<usize>, other: Option<usize>) -> Option<usize>
        ensures { (k : ℕ) → passed result k ≡ max (passed one k) (passed other k) }
    {
        match (one, other) {
            (Some(a), Some(b)) => Some(a.max(b)),
            (Some(a), None) => Some(a),
            (None, _) => other,
        }
    }
}

/// The number of nodes and the height, as functions of those of what follows.
#[derive(Clone, Copy, Drop)]
pub struct SizeBound {
    pub nodes: NodeCount,
    pub height: Height,
}

impl SizeBound {
    ghost use Rattle.std.specs.Prelude.{◌⊎◌, ◌<◌, ◌≤◌, MatchBool};
    ghost use Rattle.scrib_static_checks.specs.SizeFunctions.{height_at, IsRow, IsEnd, AreComposed, AreJoined};

    /// Returns the bound of `count` nodes one under another, and then what follows.
    pub fn row(count: usize) -> SizeBound
        ensures { IsRow count result }
    {
        SizeBound {
            nodes: NodeCount::new(count, 1),
            height: Height::new(0, Some(count)),
        }
    }

    /// Returns the bound of one node that nothing follows.
    pub fn end() -> SizeBound
        ensures { IsEnd result }
    {
        SizeBound {
            nodes: NodeCount::new(0, 0),
            height: Height::new(0, None),
        }
    }

    /// Returns the bound of `self` followed by something of the bound `inner`.
    pub fn compose(self, inner: SizeBound) -> SizeBound
        ensures { AreComposed self inner result }
    {
        SizeBound {
            nodes: self.nodes.compose(inner.nodes),
            height: self.height.compose(inner.height),
        }
    }

    /// Returns the bound of two blocks of a choice: the sum of their nodes, and the greater of their heights.
    pub fn or(self, other: SizeBound) -> SizeBound
        ensures { AreJoined self other result }
    {
        SizeBound {
            nodes: self.nodes.sum(other.nodes),
            height: self.height.greater(other.height),
        }
    }

    /// Returns whether the type is within the limits of a global type where nothing follows.
    pub fn fits(self) -> bool
        ensures { MatchBool result
            ((self.nodes.base < 65536) × (height_at self.height 0 < 4096))
            ((65536 ≤ self.nodes.base) ⊎ (4096 ≤ height_at self.height 0)) }
    {
        self.nodes.base < MAX_NODES && self.height.alone() < MAX_HEIGHT
    }
}
