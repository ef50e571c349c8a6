//! The modules among which protocols call one another.

ghost use Rattle.std.specs.Prelude.{◌≡◌, ◌∷◌, ◌++◌, ◌<◌, [], false, length, map, remove, slice_set, slice_index_or, MatchOption, IfOk, OnOk, OnErr, IsTrue};
ghost use Rattle.scrib_tree.specs.declared.tree.ModuleTree as parsed;
ghost use Rattle.scrib_static_checks.specs.Names.{has_name, module_names, protocol_names, declarations, with_module, has_checked_names};
ghost use Rattle.scrib_static_checks.specs.ProtocolIndex.{IsProtocolIndex, IsIndexed};
ghost use Rattle.scrib_static_checks.specs.Table.{IsPlace};
ghost use Rattle.scrib_static_checks.specs.Placed.{IsModulePlaced, undone};

use crate::declared::all_declared;
use crate::names::same_name;
use crate::own_names::has_checked_names;
use crate::protocol_index::ProtocolIndex;
use scrib_tree::tree::{ModuleTree, ProtocolDeclaration};
use scrib_types::name::Dotted;
use std::alloc::{AllocError, Global};
use std::marker::Model;
use std::mem::replace;

/// The place of a module that was put, and the module that it replaced.
#[derive(Drop)]
pub struct Placed {
    pub at: usize,
    pub replaced: Option<ModuleTree>,
}

/// An ordered list of modules. Modules that were added one by one have different names. Contracts refer to the list.
#[derive(Drop)]
pub struct Modules {
    alloc: Global,
    trees: Vec<ModuleTree>,
    // For each module, whether its names are already checked, so that elaboration can skip them.
    names_checked: Vec<bool>,
    // The index of their protocols. It is kept while modules declare the same names, and extended by new modules.
    protocol_index: ProtocolIndex,
}

impl Model for Modules {
    ghost use Rattle.std.specs.Prelude.{◌≡◌, List, map};
    ghost use Rattle.std.specs.Coded.{codes};
    ghost use Rattle.scrib_tree.specs.declared.tree.ModuleTree as parsed;
    ghost use Rattle.scrib_tree.specs.contracts.tree.Statement as statement;
    ghost use Rattle.scrib_static_checks.specs.Names.{declarations, has_checked_names};
    ghost use Rattle.scrib_static_checks.specs.ProtocolIndex.{IsIndexed};

    ghost Value = { List parsed.ModuleTree };

    ghost coded = { Prim.hlevel (codes, statement.the_row.coded) };

    ghost view = { λ m. m.trees.items };

    ghost invariant = { λ m. (m.names_checked.items ≡ map has_checked_names m.trees.items)
        × IsIndexed (declarations m.trees.items) m.protocol_index.slots.items m.protocol_index.indexed };
}

impl Modules {
    /// Returns an empty list of modules.
    pub fn new(alloc: Global) -> Modules
        ensures { result ≡ [] }
    {
        Modules {
            alloc,
            trees: Vec::new(alloc),
            names_checked: Vec::new(alloc),
            protocol_index: ProtocolIndex {
                slots: Vec::new(alloc),
                indexed: 0,
            },
        }
    }

    /// Replaces the module of the same name, or adds this one at the end.
    ///
    /// # Errors
    /// `AllocError` where memory for one more was refused. The modules are unchanged then.
    pub fn add(&mut self, tree: ModuleTree) -> Result<(), AllocError>
        ensures ok { OnOk result (self.new ≡ with_module tree self.old) }
        ensures err { OnErr result (self.new ≡ self.old) }
    {
        self.put(tree)?;
        Ok(())
    }

    /// Replaces the module of the same name, or adds this one at the end, and returns where it is now.
    ///
    /// # Errors
    /// `AllocError` where memory for one more was refused. The modules are unchanged then.
    pub fn put(&mut self, tree: ModuleTree) -> Result<Placed, AllocError>
        ensures ok { IfOk result (IsModulePlaced tree self.old self.new) }
        ensures err { OnErr result (self.new ≡ self.old) }
    {
        let place = self.place_of(&tree.name);
        self.put_there(place, tree)
    }

    /// Replaces the module at this place, which has the same name, or adds this one at the end if there is none.
    /// Returns where it is now.
    ///
    /// # Errors
    /// `AllocError` where memory for one more was refused. The modules are unchanged then.
    pub fn put_there(
        &mut self,
        place: Option<usize>,
        tree: ModuleTree,
    ) -> Result<Placed, AllocError>
        requires { MatchOption place (has_name tree.name (module_names self.old) ≡ false) (IsPlace self.old tree.name) }
        ensures ok { IfOk result (IsModulePlaced tree self.old self.new) }
        ensures err { OnErr result (self.new ≡ self.old) }
    {
        match place {
            Some(at) => {
                let replaced = self.exchange(at, tree);
                self.fill_index();
                Ok(Placed {
                    at,
                    replaced: Some(replaced),
                })
            }
            None => {
                let at = self.trees.len();
                self.push(tree)?;
                self.fill_index();
                Ok(Placed { at, replaced: None })
            }
        }
    }

    /// Returns the place of the module of this name.
    pub fn place_of(&self, name: &Dotted) -> Option<usize>
        ensures { MatchOption result (has_name name.now (module_names self.now) ≡ false) (IsPlace self.now name.now) }
    {
        place_of(&self.trees, name)
    }

    /// Removes and returns the module at this place. The others keep their order.
    pub fn take_out(&mut self, at: usize) -> ModuleTree
        requires { at < length self.old }
        ensures taken { (d : parsed.ModuleTree) → result ≡ slice_index_or self.old at d }
        ensures out { self.new ≡ remove self.old at }
    {
        self.protocol_index.slots.clear();
        self.names_checked.remove(at);
        self.trees.remove(at)
    }

    /// Undoes the last `put`.
    pub fn undo(&mut self, placed: Placed)
        requires { placed.at < length self.old }
        ensures { self.new ≡ undone placed self.old }
    {
        let Placed { at, replaced } = placed;
        match replaced {
            Some(tree) => {
                self.exchange(at, tree);
            }
            None => {
                self.protocol_index.slots.clear();
                self.trees.truncate(at);
                self.names_checked.truncate(at);
            }
        }
    }

    /// Returns the modules, in order.
    pub fn as_slice(&self) -> &[ModuleTree]
        ensures { result.now ≡ self.now }
    {
        self.trees.as_slice()
    }

    /// Returns for each module, in order, whether its names are already checked.
    pub fn names_checked(&self) -> &[bool]
        ensures { result.now ≡ map has_checked_names self.now }
    {
        self.names_checked.as_slice()
    }

    /// Returns the index of their protocols by name.
    pub fn protocol_index(&self) -> &ProtocolIndex
        ensures { IsProtocolIndex (declarations self.now) result.now.slots.items }
    {
        &self.protocol_index
    }

    // Replaces the module at this place, and returns the old one.
    fn exchange(&mut self, at: usize, tree: ModuleTree) -> ModuleTree
        requires { at < length self.old }
        ensures now { self.new ≡ slice_set self.old at tree }
        ensures before { (d : parsed.ModuleTree) → result ≡ slice_index_or self.old at d }
    {
        if !declare_alike(&self.trees[at], &tree) {
            self.protocol_index.slots.clear();
        }
        self.names_checked[at] = has_checked_names(&tree);
        replace(&mut self.trees[at], tree)
    }

    // Adds the module at the end.
    fn push(&mut self, tree: ModuleTree) -> Result<(), AllocError>
        ensures ok { OnOk result (self.new ≡ self.old ++ tree ∷ []) }
        ensures err { OnErr result (self.new ≡ self.old) }
    {
        self.names_checked.push(has_checked_names(&tree))?;
        self.protocol_index.add(&tree);
        if let Err(refused) = self.trees.push(tree) {
            self.names_checked.pop();
            self.protocol_index.slots.clear();
            return Err(AllocError::from(refused));
        }
        Ok(())
    }

    // Fills the index if it has no slots. If memory is refused it stays empty, and look-ups search the list instead.
    fn fill_index(&mut self)
        ensures { self.new ≡ self.old }
    {
        if self.protocol_index.slots.is_empty() {
            if let Ok(protocol_index) = protocol_index_of(self.alloc, self) {
                self.protocol_index = protocol_index;
            }
        }
    }
}

// Returns the index of the protocols that the modules declare.
fn protocol_index_of(alloc: Global, modules: &Modules) -> Result<ProtocolIndex, AllocError>
    ensures { IfOk result (λ d. IsIndexed (declarations modules.now) d.slots.items d.indexed) }
{
    let declared = all_declared(alloc, modules)?;
    ProtocolIndex::new(alloc, &declared)
}

// Returns whether the two modules have one name, and declare protocols of the same names in the same order.
fn declare_alike(a: &ModuleTree, b: &ModuleTree) -> bool
    ensures name { IsTrue result → a.now.name ≡ b.now.name }
    ensures protocols { IsTrue result → protocol_names a.now.protocols ≡ protocol_names b.now.protocols }
{
    a.name.equal(&b.name) && are_named_alike(a.protocols.as_slice(), b.protocols.as_slice())
}

fn are_named_alike(a: &[ProtocolDeclaration], b: &[ProtocolDeclaration]) -> bool
    ensures { IsTrue result → protocol_names a.now ≡ protocol_names b.now }
{
    if a.len() != b.len() {
        return false;
    }
    for i in 0..a.len() {
        if !a[i].name.equal(&b[i].name) {
            return false;
        }
    }
    true
}

// Returns the place of the first module of this name.
fn place_of(trees: &[ModuleTree], name: &Dotted) -> Option<usize>
    ensures { MatchOption result (has_name name.now (module_names trees.now) ≡ false) (IsPlace trees.now name.now) }
{
    for (i, tree) in trees.iter().enumerate() {
        if same_name(name, &tree.name) {
            return Some(i);
        }
    }
    None
}
