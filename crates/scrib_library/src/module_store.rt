//! The accepted modules, with a summary of each.

ghost use Rattle.std.specs.Prelude.{◌≡◌, ◌<◌, [], false, length, remove, slice_index_or, MatchOption, IfOk, OnErr};
ghost use Rattle.scrib_tree.specs.declared.tree.ModuleTree as parsed;
ghost use Rattle.scrib_static_checks.specs.Names.{has_name, module_names};
ghost use Rattle.scrib_static_checks.specs.Table.{IsPlace};
ghost use Rattle.scrib_static_checks.specs.Placed.{IsModulePlaced, undone};
ghost use Rattle.scrib_library.specs.Summaries.{summaries_of};

use crate::summaries::{ModuleSummary, place_of, summary_of};
use scrib_static_checks::modules::{Modules, Placed};
use scrib_tree::tree::ModuleTree;
use scrib_types::name::Dotted;
use std::alloc::{AllocError, Global};
use std::marker::Model;

/// Modules, and the summary of each in the same order. Contracts see the list of the modules.
#[derive(Drop)]
pub struct ModuleStore {
    modules: Modules,
    summaries: Vec<ModuleSummary>,
}

impl Model for ModuleStore {
    ghost use Rattle.std.specs.Prelude.{◌≡◌, List};
    ghost use Rattle.std.specs.Coded.{codes};
    ghost use Rattle.scrib_tree.specs.declared.tree.ModuleTree as parsed;
    ghost use Rattle.scrib_tree.specs.contracts.tree.Statement as statement;
    ghost use Rattle.scrib_library.specs.Summaries.{summaries_of};

    ghost Value = { List parsed.ModuleTree };

    ghost coded = { Prim.hlevel (codes, statement.the_row.coded) };

    ghost view = { λ s. s.modules };

    ghost invariant = { λ s. s.summaries.items ≡ summaries_of s.modules };
}

impl ModuleStore {
    /// Returns an empty store.
    pub fn new(alloc: Global) -> ModuleStore
        ensures { result ≡ [] }
    {
        ModuleStore {
            modules: Modules::new(alloc),
            summaries: Vec::new(alloc),
        }
    }

    /// Puts the module in place of the one with its name, or last, and returns where it was placed.
    ///
    /// # Errors
    /// `AllocError` if memory for one more module was refused. The modules are unchanged then.
    pub fn put(&mut self, tree: ModuleTree) -> Result<Placed, AllocError>
        ensures ok { IfOk result (IsModulePlaced tree self.old self.new) }
        ensures err { OnErr result (self.new ≡ self.old) }
    {
        let summary = summary_of(&tree);
        let place = self.place_of(&tree.name);
        self.summaries.reserve(1)?;
        let placed = self.modules.put_there(place, tree)?;
        match placed.replaced {
            Some(_) => self.summaries[placed.at] = summary,
            None => self.summaries.push_reserved(summary),
        }
        Ok(placed)
    }

    /// Returns the index of the module of this name.
    pub fn place_of(&self, name: &Dotted) -> Option<usize>
        ensures { MatchOption result (has_name name.now (module_names self.now) ≡ false) (IsPlace self.now name.now) }
    {
        place_of(self.modules.as_slice(), &self.summaries, name)
    }

    /// Undoes the last put.
    pub fn undo(&mut self, placed: Placed)
        requires { placed.at < length self.old }
        ensures { self.new ≡ undone placed self.old }
    {
        match &placed.replaced {
            Some(tree) => self.summaries[placed.at] = summary_of(tree),
            None => self.summaries.truncate(placed.at),
        }
        self.modules.undo(placed);
    }

    /// Removes the module at this index. The others keep their order.
    pub fn take_out(&mut self, at: usize) -> ModuleTree
        requires { at < length self.old }
        ensures taken { (d : parsed.ModuleTree) → result ≡ slice_index_or self.old at d }
        ensures out { self.new ≡ remove self.old at }
    {
        self.summaries.remove(at);
        self.modules.take_out(at)
    }

    /// Returns the modules without their summaries.
    pub fn as_modules(&self) -> &Modules
        ensures { result.now ≡ self.now }
    {
        &self.modules
    }

    /// Returns the modules, in order.
    pub fn as_slice(&self) -> &[ModuleTree]
        ensures { result.now ≡ self.now }
    {
        self.modules.as_slice()
    }

    /// Returns the summary of each module, in the same order.
    pub fn summaries(&self) -> &[ModuleSummary]
        ensures { result.now ≡ summaries_of self.now }
    {
        self.summaries.as_slice()
    }
}
