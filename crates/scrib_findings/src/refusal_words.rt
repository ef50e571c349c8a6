//! Why a step was refused, in the words of replies.

ghost use Rattle.std.specs.Prelude.{◌≡◌, IfOk};
ghost use Rattle.scrib_report.specs.Lines.{refusal_text};

use scrib_core::reply::{Refusal, Reply};
use scrib_report::line::line;
use std::alloc::{AllocError, Global};

// What is in front of these words in the line of a reply.
const REFUSED: [u8; 8] = *b"refused ";

// Returns the words, as the line of a reply has them. It fails where memory is refused.
#[tactic(auto, unfolding(scrib_report::specs::Lines::line_of))]
pub(crate) fn refusal_words(alloc: Global, refusal: Refusal) -> Result<Vec<u8>, AllocError>
    ensures { IfOk result (λ words. words.items ≡ refusal_text refusal) }
{
    let reply = Reply::Refused(refusal);
    let text = line(alloc, &reply)?;
    Vec::from_slice(alloc, &text.as_slice()[REFUSED.len()..])
}
