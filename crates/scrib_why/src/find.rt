//! Finds the kind of a name.

ghost use Rattle.std.specs.Prelude.{◌≡◌, IfSome, is_some};
ghost use Rattle.scrib_why.specs.Names.{names_of, kind_names, has_name};

use crate::choice_kinds::choice_kinds;
use crate::kind::Kind;
use crate::library_kinds::library_kinds;
use crate::protocol_kinds::protocol_kinds;
use crate::reason_kinds::reason_kinds;
use crate::step_kinds::step_kinds;
use crate::text_kinds::text_kinds;

// Returns the first of the kinds that has this name.
fn find_in<'a>(kinds: &'a [Kind], name: &[u8]) -> Option<&'a Kind>
    ensures named { IfSome result (λ kind. kind.now.name.now ≡ name.now) }
    ensures found { is_some result ≡ has_name (names_of kinds.now) name.now }
{
    for kind in kinds {
        if kind.name.as_bytes() == name {
            return Some(kind);
        }
    }
    None
}

/// Returns the kind of this name, `None` where no kind has it.
#[tactic(auto, using(crate::proofs::NameLists::choices))]
pub fn find(name: &[u8]) -> Option<&'static Kind>
    ensures named { IfSome result (λ kind. kind.now.name.now ≡ name.now) }
    ensures found { is_some result ≡ has_name kind_names name.now }
{
    find_in(text_kinds(), name)
        .or(find_in(protocol_kinds(), name))
        .or(find_in(choice_kinds(), name))
        .or(find_in(library_kinds(), name))
        .or(find_in(step_kinds(), name))
        .or(find_in(reason_kinds(), name))
}
