//! The types of protocols in isolation, as if nothing followed them, each of which is built once.

ghost use Rattle.std.specs.Prelude.{◌≡◌, List, Bool, slice_get, Some, IfOk, IfErr, IfSome};
ghost use Rattle.scrib_tree.specs.declared.tree.ModuleTree.{ModuleTree as ParsedTree};
ghost use Rattle.scrib_static_checks.specs.Names.{Declaration as PureDeclaration};
ghost use Rattle.scrib_static_checks.specs.Walking.{IsIdle};
ghost use Rattle.scrib_static_checks.specs.Statements.{KeepsRules};
ghost use Rattle.scrib_static_checks.specs.Elaboration.{start_of};
ghost use Rattle.scrib_static_checks.specs.Table.{shown, declaration_of};
ghost use Rattle.scrib_elaborate.specs.Typing.{made_of, FramesMake, IsMemo, IsEmptyMemo, IsAloneAt, IsTable, IsTabled, TypingFails};

use crate::tasks::ElaborationContext;
use crate::typing::{type_alone, type_of_root};
use scrib_static_checks::checking::{State, SymbolTable};
use scrib_type_builder::build_error::{BuildError, Refused};
use scrib_type_builder::built_type::BuiltType;
use scrib_types::containers::Boxed;
use std::alloc::{AllocError, Global};

// The largest number of nodes of a type that is kept. A larger one is built where it is needed, so that the types of
// protocols that call one another do not fill the memory.
const MAX_MEMOIZED: usize = 4_096;

/// For each declared protocol its type in isolation, once it is built. The types are in boxes: the list has a place for
/// each protocol of the library, and only a few of them are built.
pub type Memo<'a> = Vec<Option<Boxed<BuiltType<'a>>>>;

/// Returns a memo for `count` protocols, without a type.
///
/// # Errors
/// `AllocError` where memory was refused.
pub fn empty_memo<'a>(alloc: Global, count: usize) -> Result<Memo<'a>, AllocError>
    ensures { IfOk result (λ memo. IsEmptyMemo memo.items) }
{
    let mut memo = Vec::with_capacity(alloc, count)?;
    for _ in 0..count {
        memo.push_reserved(None);
    }
    Ok(memo)
}

/// Builds the types of the protocols at these indices in isolation, in this order, each after those that it calls. It
/// ends at the first one that has no type, or a large one. The fault of such a protocol is reported at a call of it.
///
/// # Errors
/// `Refused` where memory was refused.
pub fn memoize<'a>(
    alloc: Global,
    table: &SymbolTable<'a, '_>,
    states: &[State],
    places: &[usize],
    memo: &mut Memo<'a>,
) -> Result<(), Refused>
    requires { IsTabled table.now.modules.now table.now.declared.now table.now.protocol_index.now.slots.items states.now
        memo.old.items }
    ensures { IsMemo table.now.modules.now (shown table.now.declared.now) memo.new.items }
{
    for place in places {
        let Some(typed) = alone(alloc, table, states, &*memo, *place)? else {
            return Ok(());
        };
        if *place < memo.len() {
            memo[*place] = Some(typed);
        }
    }
    Ok(())
}

// Returns the type of the protocol at this index in isolation, if it has one of at most 4,096 nodes.
fn alone<'a>(
    alloc: Global,
    table: &SymbolTable<'a, '_>,
    states: &[State],
    memo: &[Option<Boxed<BuiltType<'a>>>],
    place: usize,
) -> Result<Option<Boxed<BuiltType<'a>>>, Refused>
    requires { IsTabled table.now.modules.now table.now.declared.now table.now.protocol_index.now.slots.items states.now
        memo.now }
    ensures { IfOk result
        (λ o. IfSome o (λ t. IsAloneAt table.now.modules.now (shown table.now.declared.now) place (made_of t))) }
{
    let SymbolTable {
        modules,
        declared,
        protocol_index,
    } = *table;
    let Some(root) = declared.get(place) else {
        return Ok(None);
    };
    let Some(State::Walked(summary)) = states.get(place) else {
        return Ok(None);
    };
    if summary.size.nodes.base >= MAX_MEMOIZED {
        return Ok(None);
    }
    let context = ElaborationContext {
        alloc,
        modules,
        declared: &*declared,
        protocol_index: &*protocol_index,
        states,
        memo,
        root: *root,
    };
    let typed = type_alone(&context)?;
    let boxed = in_box(alloc, typed)?;
    Ok(boxed)
}

// Returns the type in a box, if there is one. Errors: `AllocError` where memory was refused.
fn in_box<'a>(
    alloc: Global,
    typed: Option<BuiltType<'a>>,
) -> Result<Option<Boxed<BuiltType<'a>>>, AllocError>
    ensures { IfOk result (λ boxed. boxed ≡ typed.entry) }
{
    match typed {
        Some(typed) => Ok(Some(Boxed::new(alloc, typed)?)),
        None => Ok(None),
    }
}

/// Removes the walk over the requested protocol, at index `place` and with `nodes` nodes. It does so if its type is
/// small enough and not in the memo. A protocol that calls it then walks it again, and its type is added to the memo.
/// If no other protocol calls it, no second type is built. This only saves time: a type that is not in the memo is
/// built for each protocol that reaches it.
pub fn remove_walk(
    states: &mut Vec<State>,
    memo: &[Option<Boxed<BuiltType>>],
    place: usize,
    nodes: usize,
)
    ensures { (modules : List ParsedTree) → (ds : List PureDeclaration) → IsIdle modules ds states.old.items
        → IsIdle modules ds states.new.items }
{
    let is_memoized = matches!(memo.get(place), Some(Some(_)));
    if nodes <= MAX_MEMOIZED && !is_memoized && place < states.len() {
        states[place] = State::Unwalked;
    }
}

/// Returns the type of the requested protocol, at index `place` of the table. It is a copy of the one in the memo, or a
/// new one.
///
/// # Errors
/// Those of `type_of_root`.
pub fn memoized_type<'a>(
    context: &ElaborationContext<'a, '_>,
    place: usize,
) -> Result<BuiltType<'a>, BuildError<'a>>
    requires table { IsTable context.now }
    requires there { slice_get (shown context.now.declared.now) place ≡ Some (declaration_of context.now.root) }
    requires kept { (e : Bool) × KeepsRules context.now.modules.now (declaration_of context.now.root) e }
    ensures ok { IfOk result (λ t. FramesMake context.now.modules.now 0 (start_of (declaration_of context.now.root))
        (made_of t)) }
    ensures fault { IfErr result (TypingFails context.now.modules.now (declaration_of context.now.root)) }
{
    if let Some(Some(typed)) = context.memo.get(place) {
        let typed = typed.get().copy(context.alloc)?;
        return Ok(typed);
    }
    type_of_root(context)
}
