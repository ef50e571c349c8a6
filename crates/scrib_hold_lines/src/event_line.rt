//! Events with their lines.

ghost use Rattle.std.specs.Prelude.{◌≡◌, IfOk, IfSome};
ghost use Rattle.scrib_core.specs.declared.step.Step.TheVariants.{Note};
ghost use Rattle.scrib_script_reader.specs.declared.line.Line.TheVariants as line;
ghost use Rattle.scrib_hold_lines.specs.Lines.{IsLineOf};

use scrib_core::format::Format;
use scrib_holdback::arrival::Arrival;
use scrib_types::shared_event::SharedEvent;
use std::alloc::{AllocError, Global};
use std::marker::Model;

/// An event of a conversation, with its line. Contracts see the event, and the format of the reply to it.
#[derive(Drop)]
pub struct EventLine {
    event: SharedEvent,
    format: Format,
    conversation: u32,
    // The line, with its end.
    text: Vec<u8>,
}

impl Model for EventLine {
    ghost use Rattle.std.specs.Prelude.{◌≡◌};
    ghost use Rattle.scrib_types.specs.declared.event.Event.{Event};
    ghost use Rattle.scrib_core.specs.declared.format.Format.{Format};
    ghost use Rattle.scrib_core.specs.declared.step.Step.TheVariants.{Note};
    ghost use Rattle.scrib_script_reader.specs.declared.line.Line.TheVariants as line;
    ghost use Rattle.scrib_hold_lines.specs.Lines.{IsLineOf};

    ghost Value = { Event × Format };

    ghost view = { λ x. (x.event, x.format) };

    ghost invariant = { λ x. IsLineOf x.text.items (line.Step x.format (Note x.conversation x.event)) };
}

impl EventLine {
    /// Returns the event of a conversation, the reply to which is printed in this format, with its line.
    ///
    /// # Errors
    /// `AllocError` where memory for the line is refused.
    pub(crate) fn new(
        alloc: Global,
        conversation: u32,
        event: SharedEvent,
        format: Format,
        text: &[u8],
    ) -> Result<EventLine, AllocError>
        requires { IsLineOf text.now (line.Step format (Note conversation event)) }
        ensures { IfOk result (λ x. x ≡ (event, format)) }
    {
        let text = Vec::from_slice(alloc, text)?;
        Ok(EventLine {
            event,
            format,
            conversation,
            text,
        })
    }

    /// Returns the line, with its end, if the event is of this conversation.
    pub(crate) fn text_in(&self, conversation: u32) -> Option<&[u8]>
        ensures { IfSome result (λ text. IsLineOf text.now (line.Step self.now.1 (Note conversation self.now.0))) }
    {
        if self.conversation == conversation {
            Some(self.text.as_slice())
        } else {
            None
        }
    }
}

impl Arrival for EventLine {
    ghost event = { λ x. x.0 };

    fn event(&self) -> &SharedEvent {
        &self.event
    }
}
