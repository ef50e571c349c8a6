//! Reads a text as a module.

ghost use Rattle.std.specs.Prelude.{ℕ, List, IfOk, IfErr};
ghost use Rattle.scrib_types.specs.declared.profile.Profile.{Profile};
ghost use Rattle.scrib_tree.specs.declared.tree.ModuleTree.{ModuleTree};
ghost use Rattle.scrib_library.specs.Edits.{Reads, PutFails};

use crate::fault::EditFault;
use scrib_lexer::lex::lex;
use scrib_parser::interner::Interner;
use scrib_parser::parse::parse;
use scrib_tree::tree::ModuleTree;
use std::alloc::Global;

/// Lexes and parses the text. The module shares names and messages with recent texts, as far as these are still known.
///
/// # Errors
/// `Lex` if the text has no token sequence, `Parse` if its tokens do not form a module, `OutOfMemory` if memory was
/// refused.
pub fn read(alloc: Global, text: &[u8], interner: &mut Interner) -> Result<ModuleTree, EditFault>
    ensures ok { IfOk result (Reads text.now) }
    ensures fault { IfErr result (λ f. (profile : Profile) (before : List ModuleTree) (used : ℕ)
        → PutFails profile before used text.now f) }
{
    let tokens = lex(alloc, text)?;
    let tree = parse(alloc, tokens.as_slice(), interner)?;
    Ok(tree)
}
