//! Elaboration of a protocol among modules.

ghost use Rattle.std.specs.Prelude.{◌≡◌, slice_get, Some, IfOk, IfErr, MatchResult};
ghost use Rattle.scrib_types.specs.Agreement.{Agreement};
ghost use Rattle.scrib_static_checks.specs.Names.{declarations, is_called, role_names};
ghost use Rattle.scrib_static_checks.specs.ProtocolIndex.{IsProtocolIndex};
ghost use Rattle.scrib_static_checks.specs.Elaboration.{Elaborates};
ghost use Rattle.scrib_static_checks.specs.Faults.{FailsAt};
ghost use Rattle.scrib_elaborate.specs.Meaning.{elaborated_meaning, ResultMeans};
ghost use Rattle.scrib_elaborate.specs.Sites.{AreSites};
ghost use Rattle.scrib_static_checks.specs.Table.{shown, declaration_of, IsFound};
ghost use Rattle.scrib_elaborate.specs.Typing.{IsTable, IsTabled, origin_sites};
ghost use Rattle.scrib_static_checks.specs.Walking.{IsAbsentFault, IsCounted};

use crate::elaborated::{ChoiceSite, Elaborated};
use crate::memo::{Memo, empty_memo, memoize, memoized_type, remove_walk};
use crate::tasks::ElaborationContext;
use scrib_static_checks::checking::{State, SymbolTable};
use scrib_static_checks::declared::{Declaration, all_declared};
use scrib_static_checks::fault::{ElaborateFault, Fault, FaultKind};
use scrib_static_checks::modules::Modules;
use scrib_static_checks::names::has_module;
use scrib_static_checks::protocol_index::ProtocolIndex;
use scrib_static_checks::walk::{check_size, fault_in, unwalked, walk};
use scrib_tree::tree::RoleDeclaration;
use scrib_type_builder::build_error::BuildError;
use scrib_type_builder::built_type::{BuiltType, Origin};
use scrib_types::containers::Items;
use scrib_types::name::{Dotted, Name, Role};
use scrib_types::spot::Spot;
use std::alloc::{AllocError, Global};
use std::marker::Model;

/// Returns the meaning of the protocol of this name, in the module of this name, among the modules.
///
/// # Errors
/// `Broken` with a rule that fails and its position, exactly where the protocol means nothing. For a missing protocol
/// that is `NoModule` or `NoProtocol`, with the requested module's name and the position 0:0. `OutOfMemory` where
/// memory was refused.
pub fn elaborate(
    alloc: Global,
    modules: &Modules,
    module: &Dotted,
    protocol: &Name,
) -> Result<Elaborated, ElaborateFault>
    ensures ok { IfOk result (λ e. Elaborates modules.now «module».now protocol.now (elaborated_meaning e)) }
    ensures sites { IfOk result (AreSites modules.now «module».now protocol.now) }
    ensures only { (a : Agreement) → Elaborates modules.now «module».now protocol.now a → ResultMeans result a }
    ensures fault { IfErr result (FailsAt modules.now «module».now protocol.now) }
{
    let mut elaborator = Elaborator::new(alloc, modules)?;
    elaborator.elaborate(module, protocol)
}

/// Elaborates several protocols among the same modules. It checks a called protocol once, and once more if that was
/// itself requested before.
#[derive(Drop)]
pub struct Elaborator<'a> {
    alloc: Global,
    modules: &'a Modules,
    declared: Vec<Declaration<'a>>,
    protocol_index: &'a ProtocolIndex,
    results: Results<'a>,
}

// The states of the walk, and the types that are built in isolation, of the declared protocols.
#[derive(Drop)]
struct Results<'a> {
    states: Vec<State>,
    memo: Memo<'a>,
}

impl<'a> Model for Elaborator<'a> {
    ghost use Rattle.std.specs.Prelude.{List};
    ghost use Rattle.std.specs.Coded.{codes};
    ghost use Rattle.scrib_tree.specs.declared.tree.ModuleTree as parsed;
    ghost use Rattle.scrib_tree.specs.contracts.tree.Statement as statement;
    ghost use Rattle.scrib_elaborate.specs.Typing.{IsTabled};

    ghost Value = { List parsed.ModuleTree };

    ghost coded = { Prim.hlevel (codes, statement.the_row.coded) };

    ghost view = { λ e. e.modules.now };

    ghost invariant = { λ e. IsTabled e.modules.now e.declared.items e.protocol_index.now.slots.items
        e.results.states.items e.results.memo.items };
}

impl<'a> Elaborator<'a> {
    /// Returns an elaborator for these modules.
    ///
    /// # Errors
    /// `AllocError` where memory was refused.
    pub fn new(alloc: Global, modules: &'a Modules) -> Result<Elaborator<'a>, AllocError>
        ensures { IfOk result (λ e. e ≡ modules.entry.now) }
    {
        let declared = all_declared(alloc, modules)?;
        let states = unwalked(alloc, declared.len())?;
        let memo = empty_memo(alloc, declared.len())?;
        Ok(Elaborator {
            alloc,
            modules,
            declared,
            protocol_index: modules.protocol_index(),
            results: Results { states, memo },
        })
    }

    /// Returns the meaning of the protocol of this name, in the module of this name.
    ///
    /// # Errors
    /// Those of `elaborate`.
    pub fn elaborate(
        &mut self,
        module: &Dotted,
        protocol: &Name,
    ) -> Result<Elaborated, ElaborateFault>
        ensures ok { IfOk result (λ e. Elaborates self.old «module».now protocol.now (elaborated_meaning e)) }
        ensures sites { IfOk result (AreSites self.old «module».now protocol.now) }
        ensures only { (a : Agreement) → Elaborates self.old «module».now protocol.now a → ResultMeans result a }
        ensures fault { IfErr result (FailsAt self.old «module».now protocol.now) }
        ensures same { self.new ≡ self.old }
    {
        let modules = self.modules.as_slice();
        let protocol_index = self.protocol_index;
        let table = SymbolTable {
            modules,
            declared: &self.declared,
            protocol_index: &*protocol_index,
        };
        elaborate_among(self.alloc, &table, &mut self.results, module, protocol)
    }
}

// Returns the meaning of the protocol among the modules of the table, with the results so far.
fn elaborate_among<'a>(
    alloc: Global,
    table: &SymbolTable<'a, '_>,
    results: &mut Results<'a>,
    module: &Dotted,
    protocol: &Name,
) -> Result<Elaborated, ElaborateFault>
    requires { IsTabled table.now.modules.now table.now.declared.now table.now.protocol_index.now.slots.items
        results.old.states.items results.old.memo.items }
    ensures ok { IfOk result (λ e. Elaborates table.now.modules.now «module».now protocol.now (elaborated_meaning e)) }
    ensures sites { IfOk result (AreSites table.now.modules.now «module».now protocol.now) }
    ensures only { (a : Agreement) → Elaborates table.now.modules.now «module».now protocol.now a → ResultMeans result a }
    ensures fault { IfErr result (FailsAt table.now.modules.now «module».now protocol.now) }
    ensures tabled { IsTabled table.now.modules.now table.now.declared.now table.now.protocol_index.now.slots.items
        results.new.states.items results.new.memo.items }
{
    let root = find_root(alloc, table, module, protocol)?;
    let mut walked = Vec::new(alloc);
    walk(alloc, table, root, &mut results.states, &mut walked)?;
    let SymbolTable {
        modules,
        declared,
        protocol_index,
    } = *table;
    let count = check_size(alloc, declared, &results.states, root)?;
    walked.pop();
    memoize(alloc, table, &results.states, &walked, &mut results.memo)?;
    let at = declared[root];
    let context = ElaborationContext {
        alloc,
        modules,
        declared: &*declared,
        protocol_index: &*protocol_index,
        states: &results.states,
        memo: &results.memo,
        root: at,
    };
    let answer = finish(&context, root, count, module, protocol);
    remove_walk(&mut results.states, &results.memo, root, count);
    answer
}

// Returns the meaning of the protocol, after the first two passes.
fn finish(
    context: &ElaborationContext,
    root: usize,
    count: usize,
    module: &Dotted,
    protocol: &Name,
) -> Result<Elaborated, ElaborateFault>
    requires table { IsTable context.now }
    requires there { slice_get (shown context.now.declared.now) root ≡ Some (declaration_of context.now.root) }
    requires ready { IsCounted context.now.modules.now (shown context.now.declared.now)
        (declaration_of context.now.root) count «module».now protocol.now }
    ensures ok { IfOk result (λ e. Elaborates context.now.modules.now «module».now protocol.now (elaborated_meaning e)) }
    ensures sites { IfOk result (AreSites context.now.modules.now «module».now protocol.now) }
    ensures fault { IfErr result (FailsAt context.now.modules.now «module».now protocol.now) }
{
    match memoized_type(context, root) {
        Ok(typed) => {
            let BuiltType { global, origins } = typed;
            let roles = copy_roles(context.alloc, context.root.protocol.roles.as_slice())?;
            let sites = choice_sites(context.alloc, &origins)?;
            Ok(Elaborated::new(roles, global, count, sites))
        }
        Err(BuildError::Broken(home, rule)) => Err(fault_in(context.alloc, home, rule)),
        Err(BuildError::OutOfMemory) => Err(ElaborateFault::OutOfMemory),
    }
}

fn copy_roles(alloc: Global, roles: &[RoleDeclaration]) -> Result<Items<Role>, AllocError>
    ensures { IfOk result (λ names. names ≡ role_names roles.now) }
{
    let mut names = Vec::with_capacity(alloc, roles.len())?;
    for role in roles {
        names.push(role.name.copy()?)?;
    }
    Ok(Items::from_vec(names))
}

// Returns the choices that communications with several branches come from.
fn choice_sites(alloc: Global, origins: &[Option<Origin>]) -> Result<Items<ChoiceSite>, AllocError>
    ensures { IfOk result (λ ts. ts ≡ origin_sites origins.now) }
{
    let mut found_sites = Vec::new(alloc);
    for found in origins {
        if let Some(origin) = found {
            let module = origin.home.name.copy()?;
            let spot = origin.spot;
            found_sites.push(ChoiceSite { module, spot })?;
        }
    }
    Ok(Items::from_vec(found_sites))
}

// Returns the index of the requested protocol in the table.
fn find_root(
    alloc: Global,
    table: &SymbolTable,
    module: &Dotted,
    protocol: &Name,
) -> Result<usize, ElaborateFault>
    requires all { shown table.now.declared.now ≡ declarations table.now.modules.now }
    requires indexed { IsProtocolIndex (shown table.now.declared.now) table.now.protocol_index.now.slots.items }
    ensures { MatchResult result
        (IsFound (shown table.now.declared.now) (is_called «module».now protocol.now))
        (FailsAt table.now.modules.now «module».now protocol.now) }
{
    match table.protocol_index.find(table.declared, module, protocol) {
        Some(root) => Ok(root),
        None if has_module(table.modules, module) => {
            Err(absent(alloc, module, FaultKind::NoProtocol))
        }
        None => Err(absent(alloc, module, FaultKind::NoModule)),
    }
}

// Returns the fault that the protocol does not exist, or `OutOfMemory` where memory for a copy of the name was refused.
fn absent(alloc: Global, name: &Dotted, kind: FaultKind) -> ElaborateFault
    ensures { IsAbsentFault name.now kind result }
{
    let spot = Spot { line: 0, column: 0 };
    match name.copy() {
        Ok(module) => ElaborateFault::Broken(Fault { kind, module, spot }),
        Err(error) => ElaborateFault::from(error),
    }
}
