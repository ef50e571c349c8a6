//! The tasks of building the type of a protocol.

use crate::scope::Scope;
use scrib_static_checks::checking::State;
use scrib_static_checks::declared::Declaration;
use scrib_static_checks::effect::CallEffect;
use scrib_static_checks::protocol_index::ProtocolIndex;
use scrib_tree::tree::{Block, ModuleTree, Statement};
use scrib_type_builder::built_type::BuiltType;
use scrib_types::containers::Boxed;
use scrib_types::name::{Dotted, Name, Role};
use scrib_types::shared_message::SharedMessage;
use scrib_types::spot::Spot;
use std::alloc::Global;

/// The requested protocol, with all declared protocols of the modules, their index, the states of the walk, the types
/// that are built in isolation, and the allocator.
#[derive(Clone, Copy, Drop)]
pub struct ElaborationContext<'a, 'k> {
    pub alloc: Global,
    pub modules: &'a [ModuleTree],
    pub declared: &'k [Declaration<'a>],
    pub protocol_index: &'k ProtocolIndex,
    pub states: &'k [State],
    pub memo: &'k [Option<Boxed<BuiltType<'a>>>],
    pub root: Declaration<'a>,
}

/// A call of a protocol, with the roles that are given to it.
#[derive(Clone, Copy, Drop)]
pub struct CallSite<'a> {
    pub callee: Callee<'a>,
    pub roles: &'a [Role],
}

/// A called protocol, its index in the table, and its effect.
#[derive(Clone, Copy, Drop)]
pub struct Callee<'a> {
    pub place: usize,
    pub declared: Declaration<'a>,
    pub effect: CallEffect,
}

/// A statement that sends a message to each of the receivers in turn.
#[derive(Clone, Copy, Drop)]
pub struct MessageStatement<'a> {
    pub message: &'a SharedMessage,
    pub from: &'a Role,
    pub to: &'a [Role],
}

/// A choice at this position.
#[derive(Clone, Copy, Drop)]
pub struct ChoiceStatement<'a> {
    pub chooser: &'a Role,
    pub branches: &'a [Block],
    pub spot: Spot,
}

/// A recursion at this position.
#[derive(Clone, Copy, Drop)]
pub struct RecStatement<'a> {
    pub name: &'a Name,
    pub body: &'a [Statement],
    pub spot: Spot,
}

/// A call of the protocol that this path names, with these roles.
#[derive(Clone, Copy, Drop)]
pub struct CallStatement<'a> {
    pub path: &'a Dotted,
    pub roles: &'a [Role],
}

/// A choice of which the first blocks have their types, in `types`. While blocks after the next one are left, it keeps
/// the type of what follows the choice for them.
#[derive(Drop)]
pub struct Choosing<'a> {
    pub scope: Scope<'a>,
    pub chooser: &'a Role,
    pub branches: &'a [Block],
    pub spot: Spot,
    pub follows: Option<BuiltType<'a>>,
    pub types: Vec<BuiltType<'a>>,
}

/// The next step with the type that was built last.
#[derive(Drop)]
pub enum Task<'a> {
    /// These statements precede what has the type. The last of them is next.
    Front(Scope<'a>, &'a [Statement]),
    /// The type is that of the choice's next block.
    Join(Choosing<'a>),
    /// The type is that of the body of the recursion at this position.
    Close(&'a ModuleTree, Spot),
}
