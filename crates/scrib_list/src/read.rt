//! Reads a text as a module.

ghost use Rattle.std.specs.Prelude.{IfOk};
ghost use Rattle.scrib_list.specs.Readings.{IsReading};

use scrib_lexer::fault::LexFault;
use scrib_lexer::lex::lex;
use scrib_library::fault::EditFault;
use scrib_parser::fault::ParseFault;
use scrib_parser::interner::Interner;
use scrib_parser::parse::parse;
use scrib_tree::tree::ModuleTree;
use std::alloc::{AllocError, Global};

// A text that was read.
pub(crate) enum Reading {
    // It is this module.
    Module(ModuleTree),
    // It is no module, for this reason.
    Refused(EditFault),
}

// Lexes and parses the text. It fails where memory is refused.
#[tactic(auto, using(crate::proofs::Refusals::has_no_tokens))]
pub(crate) fn read(alloc: Global, text: &[u8]) -> Result<Reading, AllocError>
    ensures { IfOk result (IsReading text.now) }
{
    let tokens = match lex(alloc, text) {
        Ok(tokens) => tokens,
        Err(LexFault::OutOfMemory) => return Err(AllocError),
        Err(fault) => return Ok(Reading::Refused(EditFault::Lex(fault))),
    };
    match parse(alloc, tokens.as_slice(), &mut Interner::new()) {
        Ok(tree) => Ok(Reading::Module(tree)),
        Err(ParseFault::OutOfMemory) => Err(AllocError),
        Err(fault) => Ok(Reading::Refused(EditFault::Parse(fault))),
    }
}
