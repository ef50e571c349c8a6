//! Which protocols the statements of another call.

ghost use Rattle.std.specs.Prelude.{◌≡◌, ℕ, List, false};
ghost use Rattle.scrib_static_checks.specs.SourceView.{body_of, blocks_of, statement_of};
ghost use Rattle.scrib_library.specs.Calls.{EachCall, EachCallAt, EachCallOf, IsOther};

use crate::affected::imports_some;
use crate::names::same;
use scrib_static_checks::declared::looked_in;
use scrib_tree::tree::{Block, ModuleTree, Statement};
use scrib_types::name::{Dotted, Name};

/// Whether calls in the module `at` can be of protocols of the module `home`: it is this module, or imports it. Most
/// modules cannot call a protocol, so the walk over their statements is spared.
pub fn may_call(at: &ModuleTree, home: &Dotted) -> bool
    ensures { result ≡ false → (name : List ℕ) (path : List (List ℕ)) → IsOther at.now home.now name path }
{
    same(home, &at.name) || imports_some(at, &[home])
}

/// Whether some call in these statements of the module `at` calls the protocol `name` of the module `home`.
#[cycle(calls)]
pub fn calls_in(at: &ModuleTree, body: &[Statement], home: &Dotted, name: &Name) -> bool
    ensures { result ≡ false → EachCall (IsOther at.now home.now name.now) (body_of body.now) }
{
    for statement in body {
        if calls_at(at, statement, home, name) {
            return true;
        }
    }
    false
}

#[cycle(calls)]
fn calls_of(at: &ModuleTree, blocks: &[Block], home: &Dotted, name: &Name) -> bool
    ensures { result ≡ false → EachCallOf (IsOther at.now home.now name.now) (blocks_of blocks.now) }
{
    for block in blocks {
        if calls_in(at, block.body.as_slice(), home, name) {
            return true;
        }
    }
    false
}

#[cycle(calls)]
#[tactic(auto, using(scrib_static_checks::specs::SourceView::statement_views))]
fn calls_at(at: &ModuleTree, statement: &Statement, home: &Dotted, name: &Name) -> bool
    ensures { result ≡ false → EachCallAt (IsOther at.now home.now name.now) (statement_of statement.now) }
{
    match statement {
        Statement::Message { .. } => false,
        Statement::Choice { branches, .. } => calls_of(at, branches.as_slice(), home, name),
        Statement::Rec { body, .. } => calls_in(at, body.as_slice(), home, name),
        Statement::Continue { .. } => false,
        Statement::Do { protocol, .. } => is_of(at, protocol, home, name),
    }
}

// Whether a call of this path in the module `at` calls the protocol `name` of the module `home`.
fn is_of(at: &ModuleTree, path: &Dotted, home: &Dotted, name: &Name) -> bool
    ensures { result ≡ false → IsOther at.now home.now name.now path.now }
{
    let names = path.as_slice();
    let last = names.len() - 1;
    if !names[last].equal(name) {
        return false;
    }
    match looked_in(at, &names[..last]) {
        Some(module) => module.equal(home),
        None => false,
    }
}
