//! The machines of a protocol with numbers in place of actions.

ghost use Rattle.std.specs.Prelude.{◌≡◌, ◌<◌, IfOk, OnOk, IfSome, None, Some, Contains, length, slice_get};
ghost use Rattle.std.specs.List.{AllZip};
ghost use Rattle.scrib_types.specs.declared.event.Action.TheVariants as actions;
ghost use Rattle.scrib_record.specs.Exchanges as spec;
ghost use Rattle.scrib_record.specs.Versions.{meaning_of, HaveSameStamp};

use crate::exchanges::{Exchange, Exchanges, Located};
use crate::numbered_edge::NumberedEdge;
use crate::numberer::Numberer;
use crate::role_state::place_of;
use crate::version::Version;
use scrib_machine::machine::{Edge, Machine};
use scrib_types::containers::Items;
use scrib_types::event::{Action, Event};
use scrib_types::name::Role;
use scrib_types::one_or_many::OneOrMany;
use scrib_types::shared_event::SharedEvent;
use scrib_types::shared_message::SharedMessage;
use std::alloc::{AllocError, Global};
use std::marker::Model;
use std::sync::Arc;

// The rows of a machine: for each state its edges.
type Rows = Items<OneOrMany<NumberedEdge>>;

// A version, its exchanges, and the rows of each role's machine, in the order of the roles.
#[derive(Drop)]
struct Parts {
    version: Version,
    exchanges: Exchanges,
    machines: Items<Rows>,
}

/// A version with its exchanges by number, and its machines, whose edges have these numbers. An event is found among the
/// exchanges once, and from then on numbers are compared. It is made when a conversation first needs it. Copies share it
/// by a reference count. Contracts see the version, the exchanges and the rows of the machines.
#[derive(Drop)]
pub struct Numbering {
    shared: Arc<Parts>,
}

impl Model for Numbering {
    ghost use Rattle.std.specs.Coded.{codes};
    ghost use Rattle.scrib_record.specs.contracts.version.Edition as edition;
    ghost use Rattle.scrib_record.specs.Exchanges.{Numbered, IsNumberingOf};
    ghost use Rattle.scrib_record.specs.Versions.{meaning_of};

    ghost Value = { Numbered };

    ghost coded = { Prim.hlevel (codes, edition.the_row.coded) };

    ghost view = { λ n. record {
      version = n.shared.value.version;
      exchanges = n.shared.value.exchanges;
      machines = n.shared.value.machines;
    } };

    ghost invariant = { λ n. IsNumberingOf (meaning_of n.shared.value.version).roles
        n.shared.value.version.machines n.shared.value.exchanges n.shared.value.machines };
}

impl Numbering {
    /// Returns the numbering of the version.
    ///
    /// # Errors
    /// `AllocError` if memory was refused.
    pub fn new(alloc: Global, version: &Version) -> Result<Numbering, AllocError>
        ensures { IfOk result (λ numbering. numbering.version ≡ version.now) }
    {
        let mut numberer = Numberer::new(alloc);
        let machines = number_machines(alloc, &mut numberer, version)?;
        let exchanges = numberer.into_exchanges()?;
        let version = version.share()?;
        let parts = Parts {
            version,
            exchanges,
            machines,
        };
        let shared = Arc::new(alloc, parts)?;
        Ok(Numbering { shared })
    }

    /// Returns `known` if its version has the stamp of this one, and otherwise the numbering of this one.
    ///
    /// # Errors
    /// `AllocError` if memory was refused.
    pub fn of(
        alloc: Global,
        version: &Version,
        known: Option<Numbering>,
    ) -> Result<Numbering, AllocError>
        ensures { IfOk result (λ numbering. HaveSameStamp version.now numbering.version) }
    {
        match known {
            Some(known) if version.same_stamp(known.version()) => Ok(known),
            _ => Numbering::new(alloc, version),
        }
    }

    /// Returns a copy that shares the numbering.
    ///
    /// # Errors
    /// `AllocError` if the reference count cannot rise.
    pub fn share(&self) -> Result<Numbering, AllocError>
        ensures { IfOk result (λ numbering. numbering ≡ self.now) }
    {
        let shared = self.shared.clone()?;
        Ok(Numbering { shared })
    }

    /// Returns the version.
    pub fn version(&self) -> &Version
        ensures version { result.now ≡ self.now.version }
        ensures numbered { spec.IsNumberingOf (meaning_of self.now.version).roles self.now.version.machines
            self.now.exchanges self.now.machines }
    {
        &self.shared.version
    }

    /// Returns the exchanges, in the order of their numbers.
    #[inline(always)]
    pub fn exchanges(&self) -> &[Exchange]
        ensures { result.now ≡ self.now.exchanges }
    {
        self.shared.exchanges.as_slice()
    }

    /// Returns the exchange of which the event is the send or the reception, if there is one.
    #[inline(always)]
    pub fn find(&self, event: &SharedEvent) -> Option<Located>
        ensures found { IfSome result (spec.IsLocated self.now.exchanges event.now) }
        ensures absent { result ≡ None → spec.IsAbsent self.now.exchanges event.now }
    {
        self.shared.exchanges.find(event)
    }

    /// Returns the edges of the state of the machine at this place.
    #[inline(always)]
    pub fn row(&self, place: usize, state: u32) -> &[NumberedEdge]
        requires { spec.HasRow self.now.machines place state }
        ensures { result.now ≡ spec.row_at self.now.machines place state }
    {
        row_of(&self.shared.machines.as_slice()[place], state)
    }
}

// Returns the edges of the state.
#[inline(always)]
fn row_of(rows: &Rows, state: u32) -> &[NumberedEdge]
    requires { state < length rows.now }
    ensures { result.now ≡ spec.row_of rows.now state }
{
    rows.as_slice()[state as usize].as_slice()
}

// Numbers the edges of the machine of each role. New exchanges are appended.
fn number_machines(
    alloc: Global,
    exchanges: &mut Numberer,
    version: &Version,
) -> Result<Items<Rows>, AllocError>
    requires { exchanges.old ≡ spec.no_exchanges }
    ensures { IfOk result (λ machines.
        spec.IsNumberingOf (meaning_of version.now).roles version.now.machines exchanges.new machines) }
{
    let roles = version.protocol().roles();
    let machines = version.machines();
    let mut all = Vec::with_capacity(alloc, machines.len())?;
    for (place, machine) in machines.iter().enumerate() {
        let rows = number_rows(exchanges, roles, &roles[place], machine)?;
        all.push(rows)?;
    }
    Ok(Items::from_vec(all))
}

// Numbers the edges of the role's machine.
fn number_rows(
    exchanges: &mut Numberer,
    roles: &[Role],
    role: &Role,
    machine: &Machine,
) -> Result<Rows, AllocError>
    requires { spec.AreExchanges roles.now exchanges.old }
    ensures rows { IfOk result (λ rows. spec.AreRows exchanges.new role.now rows machine.now) }
    ensures exchanges { OnOk result (spec.AreExchanges roles.now exchanges.new) }
    ensures kept { OnOk result (spec.KeepsNumbers exchanges.old exchanges.new) }
{
    let mut rows = Vec::with_capacity(exchanges.alloc(), machine.states())?;
    for row in machine.rows() {
        let numbered = number_row(exchanges, roles, role, row.as_slice())?;
        rows.push(numbered)?;
    }
    Ok(Items::from_vec(rows))
}

// Numbers the edges of one state of the role's machine.
fn number_row(
    exchanges: &mut Numberer,
    roles: &[Role],
    role: &Role,
    row: &[Edge],
) -> Result<OneOrMany<NumberedEdge>, AllocError>
    requires { spec.AreExchanges roles.now exchanges.old }
    ensures row { IfOk result (λ numbered. AllZip (spec.IsEdge exchanges.new role.now) numbered row.now) }
    ensures exchanges { OnOk result (spec.AreExchanges roles.now exchanges.new) }
    ensures kept { OnOk result (spec.KeepsNumbers exchanges.old exchanges.new) }
{
    if let [only] = row {
        let numbered = number_edge(exchanges, roles, role, only)?;
        return Ok(OneOrMany::one(numbered));
    }
    let numbered = number_edges(exchanges, roles, role, row)?;
    Ok(OneOrMany::from_vec(numbered))
}

// Numbers the edges of one state of the role's machine.
fn number_edges(
    exchanges: &mut Numberer,
    roles: &[Role],
    role: &Role,
    row: &[Edge],
) -> Result<Vec<NumberedEdge>, AllocError>
    requires { spec.AreExchanges roles.now exchanges.old }
    ensures row { IfOk result (λ numbered. AllZip (spec.IsEdge exchanges.new role.now) numbered.items row.now) }
    ensures exchanges { OnOk result (spec.AreExchanges roles.now exchanges.new) }
    ensures kept { OnOk result (spec.KeepsNumbers exchanges.old exchanges.new) }
{
    let mut numbered = Vec::with_capacity(exchanges.alloc(), row.len())?;
    for edge in row {
        numbered.push(number_edge(exchanges, roles, role, edge)?)?;
    }
    Ok(numbered)
}

// Numbers the edge of the role's machine.
fn number_edge(
    exchanges: &mut Numberer,
    roles: &[Role],
    role: &Role,
    edge: &Edge,
) -> Result<NumberedEdge, AllocError>
    requires { spec.AreExchanges roles.now exchanges.old }
    ensures edge { IfOk result (λ numbered. spec.IsEdge exchanges.new role.now numbered edge.now) }
    ensures exchanges { OnOk result (spec.AreExchanges roles.now exchanges.new) }
    ensures kept { OnOk result (spec.KeepsNumbers exchanges.old exchanges.new) }
{
    match &edge.action {
        // No machine has a join.
        Action::Join => Ok(NumberedEdge::Joins),
        Action::Sends { to, message } => {
            let number = number_exchange(exchanges, roles, role, to, message)?;
            Ok(NumberedEdge::Sends(number, edge.next))
        }
        Action::Receives { from, message } => {
            let number = number_exchange(exchanges, roles, from, role, message)?;
            Ok(NumberedEdge::Receives(number, edge.next))
        }
    }
}

// Returns the number of the exchange of this message. A new exchange is appended. A role that is not one of the roles
// has no exchange, and no machine has an edge of it.
fn number_exchange(
    exchanges: &mut Numberer,
    roles: &[Role],
    from: &Role,
    to: &Role,
    message: &SharedMessage,
) -> Result<usize, AllocError>
    requires { spec.AreExchanges roles.now exchanges.old }
    ensures number { IfOk result (spec.IsNumberOf exchanges.new (spec.send_of from.now to.now message.now)) }
    ensures exchanges { OnOk result (spec.AreExchanges roles.now exchanges.new) }
    ensures kept { OnOk result (spec.KeepsNumbers exchanges.old exchanges.new) }
{
    let (Some(sender), Some(receiver)) = (place_of(roles, from), place_of(roles, to)) else {
        return Err(AllocError);
    };
    let alloc = exchanges.alloc();
    let event = Event::Sent {
        from: from.copy()?,
        to: to.copy()?,
        message: message.copy()?,
    };
    let send = SharedEvent::new(alloc, event)?;
    let exchange = Exchange {
        send,
        message: message.copy()?,
        from: sender,
        to: receiver,
    };
    exchanges.number_of(exchange)
}
