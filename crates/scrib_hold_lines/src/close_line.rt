//! Closings with their lines.

ghost use Rattle.std.specs.Prelude.{◌≡◌, IfOk, IfSome};
ghost use Rattle.scrib_core.specs.declared.step.Step.TheVariants.{Close};
ghost use Rattle.scrib_script_reader.specs.declared.line.Line.TheVariants as line;
ghost use Rattle.scrib_hold_lines.specs.Lines.{IsLineOf};

use scrib_core::format::Format;
use std::alloc::{AllocError, Global};
use std::marker::Model;

/// A line that closes a conversation. Contracts see the format of the reply to it.
#[derive(Drop)]
pub struct CloseLine {
    format: Format,
    conversation: u32,
    // The line, with its end.
    text: Vec<u8>,
}

impl Model for CloseLine {
    ghost use Rattle.std.specs.Prelude.{◌≡◌};
    ghost use Rattle.scrib_core.specs.declared.format.Format.{Format};
    ghost use Rattle.scrib_core.specs.declared.step.Step.TheVariants.{Close};
    ghost use Rattle.scrib_script_reader.specs.declared.line.Line.TheVariants as line;
    ghost use Rattle.scrib_hold_lines.specs.Lines.{IsLineOf};

    ghost Value = { Format };

    ghost view = { λ x. x.format };

    ghost invariant = { λ x. IsLineOf x.text.items (line.Step x.format (Close x.conversation)) };
}

impl CloseLine {
    /// Returns the line that closes a conversation, the reply to which is printed in this format.
    ///
    /// # Errors
    /// `AllocError` where memory for the line is refused.
    pub(crate) fn new(
        alloc: Global,
        conversation: u32,
        format: Format,
        text: &[u8],
    ) -> Result<CloseLine, AllocError>
        requires { IsLineOf text.now (line.Step format (Close conversation)) }
        ensures { IfOk result (λ x. x ≡ format) }
    {
        let text = Vec::from_slice(alloc, text)?;
        Ok(CloseLine {
            format,
            conversation,
            text,
        })
    }

    /// Returns the line, with its end, if it closes this conversation.
    pub(crate) fn text_in(&self, conversation: u32) -> Option<&[u8]>
        ensures { IfSome result (λ text. IsLineOf text.now (line.Step self.now (Close conversation))) }
    {
        if self.conversation == conversation {
            Some(self.text.as_slice())
        } else {
            None
        }
    }
}
