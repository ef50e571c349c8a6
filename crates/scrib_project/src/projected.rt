//! Protocols with their projections.

ghost use Rattle.std.specs.Prelude.{◌≤◌, IsTrue};
ghost use Rattle.scrib_types.specs.Meaning.{agreement_of};
ghost use Rattle.scrib_types.specs.Nodes.{global_nodes};
ghost use Rattle.scrib_projection.specs.Projections.{are_projections};

use scrib_types::containers::Items;
use scrib_types::local::Local;
use scrib_types::protocol::Protocol;

/// A protocol of at most 65,536 nodes with its projection on each role, in the order in which the roles are declared.
#[derive(Drop)]
pub struct ProjectedProtocol {
    pub protocol: Protocol,
    pub locals: Items<Local>,
    pub ghost projected: { IsTrue (are_projections (agreement_of protocol).global (agreement_of protocol).roles locals) },
    pub ghost small: { global_nodes (agreement_of protocol).global ≤ 65536 },
}
