//! Lines whose meaning needs no fields: by their length, their first bytes, or the one spelling of an `ask`.

ghost use Rattle.std.specs.Prelude.{◌≡◌, ◌≤◌, ◌∷◌, ◌++◌, ℕ, List, IfSome, MatchOption, IsTrue, length, codes};
ghost use Rattle.scrib_core.specs.declared.format.Format.TheVariants as format;
ghost use Rattle.scrib_core.specs.declared.step.Step.TheVariants.{Ask};
ghost use Rattle.scrib_script_reader.specs.Fields.{fields};
ghost use Rattle.scrib_script_reader.specs.FirstBytes as spec;
ghost use Rattle.scrib_script_reader.specs.PlainLines.{plain_meaning, IsShort};
ghost use Rattle.scrib_script_reader.specs.Says.{Says, IsSkipped};
ghost use Rattle.scrib_script_reader.specs.declared.line.Line.TheVariants as line;

use crate::line::{Line, MAX_LINE_BYTES};
use crate::short_line::ShortLine;
use crate::text::number_of;
use scrib_core::format::Format;
use scrib_core::step::Step;

// The meaning of a line that needs no fields.
#[derive(Clone, Copy)]
pub(crate) enum PlainLine {
    // A comment.
    Skipped,
    // The step `Ask` of this id. The format of its reply is a line of text.
    Ask(u32),
    // A line that is longer than a line may be, or that begins as no line does.
    Bad,
}

impl PlainLine {
    // The same meaning as that of any line.
    #[inline(always)]
    pub(crate) fn meaning(self) -> Line
        ensures { result ≡ plain_meaning self }
    {
        match self {
            PlainLine::Skipped => Line::Skipped,
            PlainLine::Ask(id) => Line::Step(Format::Line, Step::Ask { id }),
            PlainLine::Bad => Line::Bad,
        }
    }

    // The short line of this meaning, where the line has this number.
    #[inline(always)]
    pub(crate) fn numbered(self, number: u64) -> ShortLine
        ensures { (bytes : List ℕ) → Says bytes (plain_meaning self) → IsShort bytes number result }
    {
        match self {
            PlainLine::Skipped => ShortLine::Skipped,
            PlainLine::Ask(id) => ShortLine::Ask { id },
            PlainLine::Bad => ShortLine::Bad(number),
        }
    }
}

// The meaning of a line, given without its end, where no fields are needed for it. A line that gives none is not too
// long.
#[inline(always)]
pub(crate) fn plain_line_of(bytes: &[u8]) -> Option<PlainLine>
    ensures { MatchOption result (length bytes.now ≤ 131072) (λ plain. Says bytes.now (plain_meaning plain)) }
{
    if bytes.len() > MAX_LINE_BYTES {
        return Some(PlainLine::Bad);
    }
    if let Some(id) = ask_of(bytes) {
        return Some(PlainLine::Ask(id));
    }
    if is_comment(bytes) {
        return Some(PlainLine::Skipped);
    }
    if begins_no_line(bytes) {
        return Some(PlainLine::Bad);
    }
    None
}

// The bytes after `ask` and a single blank.
fn after_ask(bytes: &[u8]) -> Option<&[u8]>
    ensures { IfSome result (λ rest. bytes.now ≡ codes "ask" ++ 32 ∷ rest.now) }
{
    match bytes {
        [b'a', b's', b'k', b' ', rest @ ..] => Some(rest),
        _ => None,
    }
}

// The id of an `ask` line that is spelled with a single blank.
#[tactic(auto, using(crate::proofs::Heads::ask_says))]
fn ask_of(bytes: &[u8]) -> Option<u32>
    ensures { IfSome result (λ id. Says bytes.now (line.Step format.Line (Ask id))) }
{
    let digits = after_ask(bytes)?;
    let id = number_of(digits)?;
    Some(id)
}

// The bytes after the `#` of a comment.
fn comment_of(bytes: &[u8]) -> Option<&[u8]>
    ensures { IfSome result (λ rest. bytes.now ≡ 35 ∷ rest.now) }
{
    match bytes {
        [b'#', rest @ ..] => Some(rest),
        _ => None,
    }
}

// Whether the line begins with `#`, and so does its first field.
fn is_comment(bytes: &[u8]) -> bool
    ensures { IsTrue result → IsSkipped (fields bytes.now) }
{
    match comment_of(bytes) {
        Some(_) => true,
        None => false,
    }
}

// Whether the first two bytes begin no line that has a meaning.
fn begins_no_line(bytes: &[u8]) -> bool
    ensures { IsTrue result → Says bytes.now line.Bad }
{
    match bytes {
        [first, second, ..] => !may_begin(*first, *second),
        _ => false,
    }
}

// Whether a line that has a meaning may begin with these two bytes: with a blank, a `#`, or the two of its word.
fn may_begin(first: u8, second: u8) -> bool
    ensures { result ≡ spec.may_begin first second }
{
    match first {
        b' ' | b'\t' | b'#' => true,
        b'a' => second == b's',
        b'c' => second == b'l',
        b'j' => second == b's' || second == b'o',
        b'p' => second == b'u' || second == b'r',
        b's' => second == b'e' || second == b'w',
        b'r' => second == b'e',
        b'o' => second == b'p',
        b't' => second == b'u',
        b'w' => second == b'i',
        _ => false,
    }
}
