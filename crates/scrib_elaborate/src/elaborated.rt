//! Elaborated protocols.

ghost use Rattle.std.specs.Prelude.{◌≡◌, ◌≤◌, IsTrue};
ghost use Rattle.scrib_types.specs.GlobalView.{global_of};
ghost use Rattle.scrib_static_checks.specs.Elaboration.{nodes, height};
ghost use Rattle.scrib_elaborate.specs.Sound.{is_sound};

use scrib_types::containers::Items;
use scrib_types::global::GlobalType;
use scrib_types::name::{Dotted, Role};
use scrib_types::spot::Spot;

/// The choice that a communication with several branches comes from: its module, and the position of its word `choice`.
/// Where several choices form one communication, it is the outermost.
#[derive(Drop)]
pub struct ChoiceSite {
    pub module: Dotted,
    pub spot: Spot,
}

/// The meaning of a protocol: its roles in the order in which they are declared, and its global type, which is closed
/// and well-formed.
#[derive(Drop)]
pub struct Elaborated {
    roles: Items<Role>,
    global: GlobalType,
    count: usize,
    sites: Items<ChoiceSite>,
    pub ghost counted: { count ≡ nodes (global_of global) },
    pub ghost small: { count ≤ 65536 },
    pub ghost short: { height (global_of global) ≤ 4096 },
    pub ghost sound: { IsTrue (is_sound roles (global_of global)) },
}

impl Elaborated {
    ghost use Rattle.std.specs.Prelude.{◌≡◌, ◌≤◌, IsTrue};
    ghost use Rattle.scrib_types.specs.GlobalView.{global_of};
    ghost use Rattle.scrib_static_checks.specs.Elaboration.{nodes, height};
    ghost use Rattle.scrib_elaborate.specs.Sound.{is_sound};
    ghost use Rattle.scrib_elaborate.specs.Meaning.{elaborated_meaning, sites_of};

    /// Returns the protocol of these roles and this type, which has `nodes` nodes, at most 65,536, and at most 4,096 of
    /// them on a path. `sites` are those of the type's communications with several branches, in post-order.
    pub fn new(
        roles: Items<Role>,
        global: GlobalType,
        count: usize,
        sites: Items<ChoiceSite>,
    ) -> Elaborated
        requires counted { count ≡ nodes (global_of global) }
        requires small { count ≤ 65536 }
        requires short { height (global_of global) ≤ 4096 }
        requires sound { IsTrue (is_sound roles (global_of global)) }
        ensures meaning { elaborated_meaning result ≡ record { roles = roles; global = global_of global } }
        ensures sites { sites_of result ≡ sites }
    {
        Elaborated {
            roles,
            global,
            count,
            sites,
        }
    }

    /// Returns the roles, in the order in which they are declared.
    pub fn roles(&self) -> &[Role]
        ensures roles { result.now ≡ (elaborated_meaning self.now).roles }
        ensures sound { IsTrue (is_sound (elaborated_meaning self.now).roles (elaborated_meaning self.now).global) }
    {
        self.roles.as_slice()
    }

    /// Returns the global type.
    pub fn global(&self) -> &GlobalType
        ensures global { global_of result.now ≡ (elaborated_meaning self.now).global }
        ensures sound { IsTrue (is_sound (elaborated_meaning self.now).roles (elaborated_meaning self.now).global) }
    {
        &self.global
    }

    /// Returns the number of ends, variables, recursions and communications of the global type.
    pub fn nodes(&self) -> usize
        ensures { result ≡ nodes (elaborated_meaning self.now).global }
    {
        self.count
    }

    /// Returns the choices that the communications with several branches come from, in post-order. Those in a
    /// communication's branches precede its own, from the first branch on.
    pub fn sites(&self) -> &[ChoiceSite]
        ensures { result.now ≡ sites_of self.now }
    {
        self.sites.as_slice()
    }

    /// Returns the roles and the global type.
    pub fn into_parts(self) -> (Items<Role>, GlobalType)
        ensures parts { record { roles = result.0; global = global_of result.1 } ≡ elaborated_meaning self }
        ensures small { nodes (global_of result.1) ≤ 65536 }
        ensures short { height (global_of result.1) ≤ 4096 }
    {
        let Elaborated { roles, global, .. } = self;
        (roles, global)
    }
}
