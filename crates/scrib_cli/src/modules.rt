//! Parses module texts.

ghost use Rattle.std.specs.Prelude.{IfOk, IfErr};
ghost use Rattle.scrib_library.specs.Edits.{Reads};
ghost use Rattle.scrib_cli.specs.ProjectionSteps.{IsUnreadOrRefused, AreAddedOrFail, StopsAmong};

use scrib_lexer::lex::lex;
use scrib_library::fault::EditFault;
use scrib_parser::interner::Interner;
use scrib_parser::parse::parse;
use scrib_script_io::fault::ScriptFault;
use scrib_static_checks::modules::Modules;
use scrib_tree::tree::ModuleTree;
use scrib_types::containers::Items;
use std::alloc::Global;

/// Adds the modules of the texts, in order. A text that can't be read is given as `None`.
///
/// Stops at the first text that is no module and returns why it is none.
///
/// # Errors
/// - `Read` where the first text that is no module can't be read.
/// - `OutOfMemory` where memory is refused.
pub fn add_texts(
    alloc: Global,
    modules: &mut Modules,
    texts: &[Option<Items<u8>>],
) -> Result<Option<EditFault>, ScriptFault>
    ensures ok { IfOk result (AreAddedOrFail modules.old texts.now modules.new) }
    ensures fault { IfErr result (StopsAmong texts.now) }
{
    for text in texts {
        let Some(text) = text else {
            return Err(ScriptFault::Read);
        };
        match module_of(alloc, text.as_slice()) {
            Ok(tree) => modules.add(tree)?,
            Err(EditFault::OutOfMemory) => return Err(ScriptFault::OutOfMemory),
            Err(fault) => return Ok(Some(fault)),
        }
    }
    Ok(None)
}

// Parses a module text.
fn module_of(alloc: Global, text: &[u8]) -> Result<ModuleTree, EditFault>
    ensures ok { IfOk result (Reads text.now) }
    ensures fault { IfErr result (IsUnreadOrRefused text.now) }
{
    let tokens = lex(alloc, text)?;
    let tree = parse(alloc, tokens.as_slice(), &mut Interner::new())?;
    Ok(tree)
}
