//! What a block adds to the type of what follows it.

ghost use Rattle.std.specs.Prelude.{◌≡◌, ◌↔◌, IsTrue};
ghost use Rattle.scrib_types.specs.GlobalView.{global_of};
ghost use Rattle.scrib_static_checks.specs.Names.{role_names};
ghost use Rattle.scrib_static_checks.specs.CallEffect.{both, place_of, joining_at, IsGiven, names_of, Passes};

use scrib_tree::tree::RoleDeclaration;
use scrib_types::global::GlobalType;
use scrib_types::name::Role;
use scrib_types::spot::Spot;

/// What a block, with the protocols that it calls, adds to the type of what follows it.
#[derive(Clone, Copy, Drop)]
pub enum CallEffect {
    /// Nothing: it contains no message, choice or `continue`.
    Nothing,
    /// Nothing, if what follows is a communication by the role declared at `chooser`. The block contains no message or
    /// `continue`, and each of its choices is by that role and has one branch. The first choice is at `spot` in the
    /// protocol at `at` among all declared ones.
    Joining {
        chooser: usize,
        at: usize,
        spot: Spot,
    },
    /// Anything else.
    Other,
}

impl CallEffect {
    /// Returns the effect of a block with this effect, followed by one with the effect `later`.
    pub fn before(self, later: CallEffect) -> CallEffect
        ensures { result ≡ both self later }
    {
        match self {
            CallEffect::Nothing => later,
            CallEffect::Joining { chooser, .. } => match later {
                CallEffect::Nothing => self,
                CallEffect::Joining { chooser: other, .. } => {
                    if chooser == other {
                        self
                    } else {
                        CallEffect::Other
                    }
                }
                CallEffect::Other => CallEffect::Other,
            },
            CallEffect::Other => CallEffect::Other,
        }
    }

    /// Returns the effect of a call, from the effect of the called protocol: `given` are the roles it passes,
    /// `declared` those of the caller.
    pub fn given(self, given: &[Role], declared: &[RoleDeclaration]) -> CallEffect
        ensures { IsGiven (role_names declared.now) given.now self result }
    {
        match self {
            CallEffect::Nothing => CallEffect::Nothing,
            CallEffect::Joining { chooser, at, spot } => {
                if chooser < given.len() {
                    joining(declared, &given[chooser], at, spot)
                } else {
                    CallEffect::Other
                }
            }
            CallEffect::Other => CallEffect::Other,
        }
    }

    /// Returns whether a call of a protocol with this effect leaves the type of what follows it unchanged. `given` are
    /// the roles of the requested protocol that are passed for those of the called one.
    #[tactic(auto, using(scrib_types::specs::GlobalView::global_views))]
    pub fn passes(self, given: &[&Role], follows: &GlobalType) -> bool
        ensures { IsTrue result ↔ Passes self (names_of given.now) (global_of follows.now) }
    {
        match self {
            CallEffect::Nothing => true,
            CallEffect::Joining { chooser, .. } => match follows {
                GlobalType::Comm { from, .. } => {
                    chooser < given.len() && given[chooser].equal(from)
                }
                GlobalType::End => false,
                GlobalType::Var(_) => false,
                GlobalType::Rec(_) => false,
            },
            CallEffect::Other => false,
        }
    }
}

/// Returns the effect of a choice by this role with one branch, if the role is declared. The first choice is at `spot`
/// in the protocol at `at` among all declared ones.
pub fn joining(declared: &[RoleDeclaration], role: &Role, at: usize, spot: Spot) -> CallEffect
    ensures { result ≡ joining_at (place_of role.now (role_names declared.now)) at spot }
{
    match place_of(declared, role) {
        Some(chooser) => CallEffect::Joining { chooser, at, spot },
        None => CallEffect::Other,
    }
}

// Returns the place of the role of this name.
fn place_of(declared: &[RoleDeclaration], role: &Role) -> Option<usize>
    ensures { result ≡ place_of role.now (role_names declared.now) }
{
    for (k, other) in declared.iter().enumerate() {
        if role.equal(&other.name) {
            return Some(k);
        }
    }
    None
}
