//! Module trees.

use scrib_types::containers::Items;
use scrib_types::name::{Dotted, Name, Role};
use scrib_types::one_or_many::OneOrMany;
use scrib_types::shared_message::SharedMessage;
use scrib_types::spot::Spot;

/// A module: its full name, its imports and its protocols, each in the order of the text. A type
/// declaration carries no meaning and leaves nothing here.
#[derive(Drop)]
pub struct ModuleTree {
    pub name: Dotted,
    pub imports: Items<Import>,
    pub protocols: Items<ProtocolDeclaration>,
}

/// An import: the full name of the module, the name after `as` where there is one, and the place of
/// the word `import`.
#[derive(Drop)]
pub struct Import {
    pub module: Dotted,
    pub known_as: Option<Name>,
    pub spot: Spot,
}

/// A protocol as it is declared: its name, its roles in order, the statements of its block, and the
/// place of the word `global`.
#[derive(Drop)]
pub struct ProtocolDeclaration {
    pub name: Name,
    pub roles: Items<RoleDeclaration>,
    pub body: Items<Statement>,
    pub spot: Spot,
}

/// A role as it is declared, and the place of the word `role`.
#[derive(Drop)]
pub struct RoleDeclaration {
    pub name: Role,
    pub spot: Spot,
}

/// A statement, and the place of its first byte.
#[derive(Drop)]
#[cycle(statements)]
pub enum Statement {
    /// A message from a role to each of one or more roles, in order.
    Message {
        message: SharedMessage,
        from: Role,
        to: OneOrMany<Role>,
        spot: Spot,
    },
    /// A choice of a role between one or more blocks.
    Choice {
        at: Role,
        branches: Items<Block>,
        spot: Spot,
    },
    /// A recursion, which `continue` names inside its block.
    Rec {
        name: Name,
        body: Items<Statement>,
        spot: Spot,
    },
    /// The jump to the start of the recursion of this name.
    Continue {
        name: Name,
        spot: Spot,
    },
    /// A call of a protocol, the part before the last dot naming an import, with its roles in order.
    Do {
        protocol: Dotted,
        roles: OneOrMany<Role>,
        spot: Spot,
    },
}

/// The statements of a branch of a choice, and the place of its opening brace.
#[derive(Drop)]
#[cycle(statements)]
pub struct Block {
    pub body: Items<Statement>,
    pub spot: Spot,
}
