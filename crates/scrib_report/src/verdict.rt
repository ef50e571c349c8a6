//! The text of verdicts.

ghost use Rattle.std.specs.Prelude.{◌≡◌, ◌++◌, IfOk, OnOk};
ghost use Rattle.scrib_types.specs.declared.event.Told.TheVariants.{Judged};
ghost use Rattle.scrib_report.specs.Lines as lines;

use scrib_types::event::{Told, Verdict};
use scrib_types::name::Role;
use scrib_types::text::{push_bytes, push_number};
use std::alloc::{AllocError, Global};

#[tactic(auto, unfolding(crate::specs::Lines::offence_text))]
fn push_offence(out: &mut Vec<u8>, place: usize, role: &Role) -> Result<(), AllocError>
    ensures { OnOk result (out.new.items ≡ out.old.items ++ lines.offence_text place role.now) }
{
    push_bytes(out, b"offence at ")?;
    push_number(out, place as u64)?;
    push_bytes(out, b" by ")?;
    push_bytes(out, role.as_bytes())
}

// Appends the verdict: `permitted`, `withdrawn`, or the offence with the allowed actions.
#[tactic(auto, unfolding(crate::specs::Lines::verdict_text))]
pub(crate) fn push_verdict(out: &mut Vec<u8>, verdict: &Verdict) -> Result<(), AllocError>
    ensures { OnOk result (out.new.items ≡ out.old.items ++ lines.verdict_text verdict.now) }
{
    match verdict {
        Verdict::Permitted => push_bytes(out, b"permitted"),
        Verdict::Withdrawn => push_bytes(out, b"withdrawn"),
        Verdict::Offence {
            place,
            role,
            allowed,
        } => {
            push_offence(out, *place, role)?;
            push_bytes(out, b", allowed: ")?;
            push_bytes(out, allowed.text())
        }
    }
}

// Appends `stale`, or the verdict.
#[tactic(auto, unfolding(crate::specs::Lines::told_text))]
pub(crate) fn push_told(out: &mut Vec<u8>, answer: &Told) -> Result<(), AllocError>
    ensures { OnOk result (out.new.items ≡ out.old.items ++ lines.told_text answer.now) }
{
    match answer {
        Told::Stale => push_bytes(out, b"stale"),
        Told::Judged(verdict) => push_verdict(out, verdict),
    }
}

// The verdict in one word: `permitted`, `offence`, `withdrawn` or `stale`.
pub(crate) fn verdict_word(verdict: &Told) -> &'static str
    ensures { result.now ≡ lines.verdict_word verdict.now }
{
    match verdict {
        Told::Stale => "stale",
        Told::Judged(verdict) => judged_word(verdict),
    }
}

// The verdict in one word: `permitted`, `offence` or `withdrawn`.
pub(crate) fn judged_word(verdict: &Verdict) -> &'static str
    ensures { result.now ≡ lines.verdict_word (Judged verdict.now) }
{
    match verdict {
        Verdict::Permitted => "permitted",
        Verdict::Offence { .. } => "offence",
        Verdict::Withdrawn => "withdrawn",
    }
}

/// Returns the text of the verdict: `stale`, `permitted`, `withdrawn` or
/// `offence at 3 by A, allowed: B!hello(), B!x()`. It is in ASCII bytes, without a line feed.
///
/// # Errors
/// `AllocError` where memory for the text is refused.
pub fn verdict(alloc: Global, verdict: &Told) -> Result<Vec<u8>, AllocError>
    ensures { IfOk result (λ text. text.items ≡ lines.told_text verdict.now) }
{
    let mut out = Vec::new(alloc);
    push_told(&mut out, verdict)?;
    Ok(out)
}
