//! Lines of events, and of permitted verdicts, that are appended whole or not at all.

ghost use Rattle.std.specs.Prelude.{◌≡◌, ◌≤◌, ◌++◌, ◌∷◌, [], ℕ, List, OnOk, OnErr, codes, drop, length};
ghost use Rattle.std.specs.Fmt.{decimal};
ghost use Rattle.scrib_types.specs.Texts.{allowed_text};
ghost use Rattle.scrib_types.specs.declared.event.Told.TheVariants.{Judged};
ghost use Rattle.scrib_types.specs.declared.event.Verdict.TheVariants.{Permitted};
ghost use Rattle.scrib_core.specs.declared.reply.Reply.TheVariants.{Noted};
ghost use Rattle.scrib_report.specs.Lines as lines;

use itoa::write_digits;
use scrib_types::allowed::Allowed;
use scrib_types::event::Verdict;
use scrib_types::name::Role;
use std::alloc::AllocError;

// Ends of lines about events. The blanks before them are room for an id, a dot and a place.
const PERMITTED: [u8; 49] = *b"                                       permitted\n";

const WITHDRAWN: [u8; 49] = *b"                                       withdrawn\n";

// The offsets in these at which the digits of the place end.
const PERMITTED_END: usize = 38;

const WITHDRAWN_END: usize = 38;

// What is between the place of an event and that of the offence.
const OFFENCE_AT: [u8; 12] = *b" offence at ";

// What is behind the place of the offence, behind room for what is before it.
const BY: [u8; 67] = *b"                                                                by ";

// The offset in `BY` at which the digits of the offence's place end.
const BY_END: usize = 63;

// The first event that broke a protocol: its place, its role, and what the role was allowed there.
#[derive(Clone, Copy)]
struct Offence<'a> {
    place: u64,
    role: &'a Role,
    allowed: &'a Allowed,
}

/// Appends `3 permitted` for the conversation `id`, and a line feed: the line of a reply to a turn or a question.
///
/// # Errors
/// `AllocError` where memory for the longer text is refused; the text is then as it was.
#[inline(never)]
pub fn push_permitted_verdict(out: &mut Vec<u8>, id: u32) -> Result<(), AllocError>
    ensures ok { OnOk result (out.new.items ≡ out.old.items ++ (decimal id ++ codes " permitted\n")) }
    ensures err { OnErr result (out.new.items ≡ out.old.items) }
{
    let mut line = PERMITTED;
    let id_at = write_digits(u64::from(id), &mut line, PERMITTED_END);
    out.extend_from_slice(&line[id_at..])
}

/// Appends `3.1 permitted` for the event at this place of the conversation `id`, and a line feed.
///
/// Most lines of a long script are such. It is not inlined, so that LLVM inlines what it calls.
///
/// # Errors
/// `AllocError` where memory for the longer text is refused; the text is then as it was.
#[inline(never)]
pub fn push_permitted(out: &mut Vec<u8>, id: u32, place: u64) -> Result<(), AllocError>
    ensures ok { OnOk result
        (out.new.items ≡ out.old.items ++ lines.line_of (Noted id place (Judged Permitted)) ++ 10 ∷ []) }
    ensures err { OnErr result (out.new.items ≡ out.old.items) }
{
    push_event(out, id, place, PERMITTED, PERMITTED_END)
}

/// Appends the line of an event with this verdict, in ASCII bytes, and a line feed.
///
/// # Errors
/// `AllocError` where memory for the longer text is refused; the text is then as it was.
#[inline(never)]
pub fn push_judged_event(
    out: &mut Vec<u8>,
    id: u32,
    place: u64,
    verdict: &Verdict,
) -> Result<(), AllocError>
    ensures ok { OnOk result
        (out.new.items ≡ out.old.items ++ lines.line_of (Noted id place (Judged verdict.now)) ++ 10 ∷ []) }
    ensures err { OnErr result (out.new.items ≡ out.old.items) }
{
    match verdict {
        Verdict::Permitted => push_permitted(out, id, place),
        Verdict::Withdrawn => push_event(out, id, place, WITHDRAWN, WITHDRAWN_END),
        Verdict::Offence {
            place: at,
            role,
            allowed,
        } => {
            let offence = Offence {
                place: *at as u64,
                role,
                allowed,
            };
            push_offended_event(out, id, place, offence)
        }
    }
}

// Appends the line of an event whose conversation has an offence, and a line feed, or leaves the text as it was.
fn push_offended_event(
    out: &mut Vec<u8>,
    id: u32,
    place: u64,
    offence: Offence<'_>,
) -> Result<(), AllocError>
    ensures ok { OnOk result (out.new.items ≡ out.old.items ++ (decimal id ++ codes "." ++ decimal place
        ++ codes " offence at " ++ decimal offence.entry.place ++ codes " by ") ++ offence.entry.role.now
        ++ codes ", allowed: " ++ allowed_text offence.entry.allowed.now ++ codes "\n") }
    ensures err { OnErr result (out.new.items ≡ out.old.items) }
{
    let before = out.len();
    let pushed = push_pieces(out, id, place, offence);
    if pushed.is_err() {
        out.truncate(before);
    }
    pushed
}

// Appends the same piece by piece. After an error, some pieces may be there.
fn push_pieces(
    out: &mut Vec<u8>,
    id: u32,
    place: u64,
    offence: Offence<'_>,
) -> Result<(), AllocError>
    ensures ok { OnOk result (out.new.items ≡ out.old.items ++ (decimal id ++ codes "." ++ decimal place
        ++ codes " offence at " ++ decimal offence.entry.place ++ codes " by ") ++ offence.entry.role.now
        ++ codes ", allowed: " ++ allowed_text offence.entry.allowed.now ++ codes "\n") }
    ensures kept { (more : List ℕ) × (out.new.items ≡ out.old.items ++ more) }
{
    push_offence_head(out, id, place, offence.place)?;
    out.extend_from_slice(offence.role.as_bytes())?;
    out.extend_from_slice(b", allowed: ")?;
    out.extend_from_slice(offence.allowed.text())?;
    out.extend_from_slice(b"\n")
}

// Appends an id, a dot, a place, ` offence at `, the offence's place, and ` by `, by one append.
fn push_offence_head(
    out: &mut Vec<u8>,
    id: u32,
    place: u64,
    offence_place: u64,
) -> Result<(), AllocError>
    ensures ok { OnOk result (out.new.items ≡ out.old.items ++ (decimal id ++ codes "." ++ decimal place
        ++ codes " offence at " ++ decimal offence_place ++ codes " by ")) }
    ensures err { OnErr result (out.new.items ≡ out.old.items) }
{
    let mut line = BY;
    let offence_at = write_digits(offence_place, &mut line, BY_END);
    let words_at = offence_at - OFFENCE_AT.len();
    line[words_at..offence_at].copy_from_slice(&OFFENCE_AT);
    let id_at = write_event(&mut line, id, place, words_at);
    out.extend_from_slice(&line[id_at..])
}

// Appends an id, a dot, a place, and what the template has behind the room for these, by one append.
#[inline(always)]
fn push_event(
    out: &mut Vec<u8>,
    id: u32,
    place: u64,
    template: [u8; 49],
    digits_end: usize,
) -> Result<(), AllocError>
    requires room { 31 ≤ digits_end }
    requires within { digits_end ≤ 49 }
    ensures ok { OnOk result (out.new.items
        ≡ out.old.items ++ decimal id ++ codes "." ++ decimal place ++ drop digits_end template) }
    ensures err { OnErr result (out.new.items ≡ out.old.items) }
{
    // The line is written from its end, so one append suffices.
    let mut line = template;
    let id_at = write_event(&mut line, id, place, digits_end);
    out.extend_from_slice(&line[id_at..])
}

// Writes an id, a dot and a place so that they end at `end`. Returns where they begin.
#[inline(always)]
fn write_event(line: &mut [u8], id: u32, place: u64, end: usize) -> usize
    requires room { 31 ≤ end }
    requires within { end ≤ length line.old }
    ensures written { drop result line.new ≡ decimal id ++ codes "." ++ decimal place ++ drop end line.old }
    ensures within { result ≤ end }
    ensures same_length { length line.new ≡ length line.old }
{
    let place_at = write_digits(place, line, end);
    line[place_at - 1] = b'.';
    write_digits(u64::from(id), line, place_at - 1)
}
