//! Protocols' names, cached by their text.

ghost use Rattle.std.specs.Prelude.{◌≡◌, IfOk, IfSome};
ghost use Rattle.std.proofs.Props.{props};
ghost use Rattle.scrib_script_reader.specs.NamedHeads.{SpellsName};

use crate::fields::fields_of;
use crate::text::dotted_of;
use crate::text_cache::{Spelled, TextCache};
use scrib_types::name::Dotted;
use std::alloc::{AllocError, Global};

// The text's only field is the name's text.
impl Spelled for Dotted {
    ghost spells = { SpellsName };

    ghost spells_once = { λ _ _. Prim.hlevel props };
}

impl TextCache<Dotted> {
    // The name that the text's only field is, or none where it has another number of fields or no dotted name.
    pub fn name(&mut self, text: &[u8]) -> Result<Option<Dotted>, AllocError>
        ensures { IfOk result (λ found. IfSome found (SpellsName text.now)) }
    {
        if let Some(name) = self.find(text) {
            return Ok(Some(name.copy()?));
        }
        let Some(name) = name_of_text(self.allocator(), text)? else {
            return Ok(None);
        };
        self.store(text, name.copy()?)?;
        Ok(Some(name))
    }
}

// The name that the text's only field is, if it is a dotted name.
fn name_of_text(alloc: Global, text: &[u8]) -> Result<Option<Dotted>, AllocError>
    ensures { IfOk result (λ found. IfSome found (SpellsName text.now)) }
{
    let fields = fields_of(alloc, text)?;
    let [field] = fields.as_slice() else {
        return Ok(None);
    };
    dotted_of(alloc, field)
}
