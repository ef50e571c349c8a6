//! The declared protocols of modules, and the one that a call names.

ghost use Rattle.std.specs.Prelude.{◌≡◌, ◌++◌, IfOk, OnOk, MatchOption, None};
ghost use Rattle.std.specs.List.{All};
ghost use Rattle.std.specs.Option.{option_copied};
ghost use Rattle.scrib_static_checks.specs.Names.{has_checked_names, dotted_eq, known_by, imported, looked_in, declarations, declared_in, is_called, first_where};
ghost use Rattle.scrib_static_checks.specs.Table.{shown, HasCheckedNames, IsFound};

use crate::modules::Modules;
use crate::names::{same_name, same_names};
use scrib_tree::tree::{Import, ModuleTree, ProtocolDeclaration};
use scrib_types::name::{Dotted, Name};
use std::alloc::{AllocError, Global};

/// A declared protocol, its module, and whether the names of that module are already checked.
#[derive(Clone, Copy, Drop)]
pub struct Declaration<'a> {
    pub home: &'a ModuleTree,
    pub protocol: &'a ProtocolDeclaration,
    pub names_checked: bool,
}

/// Returns all protocols that the modules declare, in order.
///
/// # Errors
/// `AllocError` where memory was refused.
pub fn all_declared<'a>(
    alloc: Global,
    modules: &'a Modules,
) -> Result<Vec<Declaration<'a>>, AllocError>
    ensures all { IfOk result (λ ds. shown ds.items ≡ declarations modules.now) }
    ensures names_checked { IfOk result (λ ds. All HasCheckedNames ds.items) }
{
    // The index contains as many protocols as there were when it was filled, usually all of them.
    let mut all = Vec::with_capacity(alloc, modules.protocol_index().indexed)?;
    let names_checked = modules.names_checked();
    for (i, home) in modules.as_slice().iter().enumerate() {
        declare(&mut all, home, names_checked[i])?;
    }
    Ok(all)
}

fn declare<'a>(
    all: &mut Vec<Declaration<'a>>,
    home: &'a ModuleTree,
    names_checked: bool,
) -> Result<(), AllocError>
    requires so { names_checked ≡ has_checked_names home.now }
    requires others { All HasCheckedNames all.old.items }
    ensures all { OnOk result (shown all.new.items ≡ shown all.old.items ++ declared_in home.now home.now.protocols) }
    ensures names_checked { OnOk result (All HasCheckedNames all.new.items) }
{
    for protocol in home.protocols.as_slice() {
        all.push(Declaration {
            home,
            protocol,
            names_checked,
        })?;
    }
    Ok(())
}

/// Returns the index of the declared protocol with this name, in the module of this name.
pub fn find(declared: &[Declaration], home: &Dotted, name: &Name) -> Option<usize>
    ensures { MatchOption result
        (first_where (is_called home.now name.now) (shown declared.now) ≡ None)
        (IsFound (shown declared.now) (is_called home.now name.now)) }
{
    for (i, one) in declared.iter().enumerate() {
        if name.equal(&one.protocol.name) && same_name(home, &one.home.name) {
            return Some(i);
        }
    }
    None
}

/// Returns the name of the module in which a call looks up its protocol. `front` is the call's path without its last
/// name. If it is empty, that is this module, and otherwise the module of the import known by it.
pub fn looked_in<'a>(at: &'a ModuleTree, front: &[Name]) -> Option<&'a Dotted>
    ensures { option_copied result ≡ looked_in at.now front.now }
{
    if front.is_empty() {
        return Some(&at.name);
    }
    imported(at.imports.as_slice(), front)
}

fn imported<'a>(imports: &'a [Import], front: &[Name]) -> Option<&'a Dotted>
    ensures { option_copied result ≡ imported imports.now front.now }
{
    for import in imports {
        if is_known_by(import, front) {
            return Some(&import.module);
        }
    }
    None
}

fn is_known_by(import: &Import, front: &[Name]) -> bool
    ensures { result ≡ dotted_eq front.now (known_by import.now) }
{
    match &import.known_as {
        Some(name) => front.len() == 1 && front[0].equal(name),
        None => same_names(front, import.module.as_slice()),
    }
}
