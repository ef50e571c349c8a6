//! Joins, cached by the text of their role.

ghost use Rattle.std.specs.Prelude.{◌≡◌, IfOk, IfSome};
ghost use Rattle.std.proofs.Props.{props};
ghost use Rattle.scrib_script_reader.specs.NamedHeads.{SpellsJoin};

use crate::fields::fields_of;
use crate::text_cache::{Spelled, TextCache};
use scrib_types::event::Event;
use scrib_types::name::Name;
use scrib_types::shared_event::SharedEvent;
use std::alloc::{AllocError, Global};

// The only event that a text spells with no direction is the join of the role that is the text's only field.
impl Spelled for SharedEvent {
    ghost spells = { SpellsJoin };

    ghost spells_once = { λ _ _. Prim.hlevel props };
}

impl TextCache<SharedEvent> {
    // The join of the role that is the text's only field, or none where it has another number of fields or no name.
    pub fn join(&mut self, text: &[u8]) -> Result<Option<SharedEvent>, AllocError>
        ensures { IfOk result (λ found. IfSome found (SpellsJoin text.now)) }
    {
        if let Some(join) = self.find(text) {
            return Ok(Some(join.copy()?));
        }
        let Some(join) = join_of_text(self.allocator(), text)? else {
            return Ok(None);
        };
        self.store(text, join.copy()?)?;
        Ok(Some(join))
    }
}

// The join of the role that is the text's only field, if that is a name.
fn join_of_text(alloc: Global, text: &[u8]) -> Result<Option<SharedEvent>, AllocError>
    ensures { IfOk result (λ found. IfSome found (SpellsJoin text.now)) }
{
    let fields = fields_of(alloc, text)?;
    let [field] = fields.as_slice() else {
        return Ok(None);
    };
    let Some(role) = Name::from_bytes(alloc, field)? else {
        return Ok(None);
    };
    Ok(Some(SharedEvent::new(alloc, Event::Join { role })?))
}
