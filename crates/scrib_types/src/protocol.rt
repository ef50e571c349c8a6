//! Protocols: global types with their roles.

ghost use Rattle.std.specs.Prelude.{◌≡◌, ◌↔◌, IsTrue};
ghost use Rattle.scrib_types.specs.GlobalView.{global_of};
ghost use Rattle.scrib_types.specs.WellFormed.{is_protocol};

use crate::global::GlobalType;
use crate::name::{Role, names_equal};
use sqlite_items::Items;

/// A well-formed global type with its roles, in declared order. Each role has a projection.
#[derive(Drop)]
pub struct Protocol {
    roles: Items<Role>,
    global: GlobalType,
    pub ghost valid: { IsTrue (is_protocol roles (global_of global)) },
}

impl Protocol {
    ghost use Rattle.std.specs.Prelude.{◌≡◌, ◌↔◌, IsTrue};
    ghost use Rattle.scrib_types.specs.GlobalView.{global_of};
    ghost use Rattle.scrib_types.specs.WellFormed.{is_protocol};
    ghost use Rattle.scrib_types.specs.Meaning.{agreement_of};

    /// The protocol of these roles and this type.
    pub fn new(roles: Items<Role>, global: GlobalType) -> Protocol
        requires { IsTrue (is_protocol roles (global_of global)) }
        ensures { agreement_of result ≡ record { roles = roles; global = global_of global } }
    {
        Protocol { roles, global }
    }

    /// The roles, in declared order.
    pub fn roles(&self) -> &[Role]
        ensures roles { result.now ≡ (agreement_of self.now).roles }
        ensures valid { IsTrue (is_protocol (agreement_of self.now).roles (agreement_of self.now).global) }
    {
        self.roles.as_slice()
    }

    /// The global type.
    pub fn global(&self) -> &GlobalType
        ensures global { global_of result.now ≡ (agreement_of self.now).global }
        ensures valid { IsTrue (is_protocol (agreement_of self.now).roles (agreement_of self.now).global) }
    {
        &self.global
    }

    /// Whether the two have the same roles, in order, and the same global type.
    pub fn same_meaning(a: &Protocol, b: &Protocol) -> bool
        ensures { IsTrue result ↔ (agreement_of a.now ≡ agreement_of b.now) }
    {
        names_equal(a.roles.as_slice(), b.roles.as_slice())
            && GlobalType::equal(&a.global, &b.global)
    }
}
