//! Parses single lines of a script.

ghost use Rattle.std.specs.Prelude.{◌≡◌, ◌≤◌, ◌↔◌, ◌∷◌, ◌++◌, IfOk, IfSome, IsTrue, map, length, codes};
ghost use Rattle.scrib_core.specs.declared.step.Step.TheVariants.{Turn};
ghost use Rattle.scrib_script_reader.specs.Says.{Says, IsSkipped, IsPutLine, IsSweepLine, Asks};
ghost use Rattle.scrib_core.specs.declared.format.Format.TheVariants as format;
ghost use Rattle.scrib_script_reader.specs.declared.line.Line.TheVariants as line;

use crate::fields::fields_of;
use crate::plain_line::plain_line_of;
use crate::step::step_of;
use crate::text::number_of;
use scrib_core::format::Format;
use scrib_core::step::Step;
use std::alloc::{AllocError, Global};

/// The most bytes of a line outside module texts, without its end.
pub const MAX_LINE_BYTES: usize = 131_072;

/// The meaning of a line outside module texts.
#[derive(Drop)]
pub enum Line {
    /// A line without fields, or a comment.
    Skipped,
    /// The text of a module follows; the reply to its put is printed in this format.
    Put(Format),
    /// A step, and the format of its reply.
    Step(Format, Step),
    /// A sweep, and the format of its reply.
    Sweep(Format),
    /// None of these.
    Bad,
}

/// Returns the meaning of a line, given without its end. A line of more than [`MAX_LINE_BYTES`] bytes is `Bad`.
///
/// # Errors
/// `AllocError` where memory for the fields or for the step is refused.
pub fn line_of(alloc: Global, bytes: &[u8]) -> Result<Line, AllocError>
    ensures { IfOk result (Says bytes.now) }
{
    match plain_line_of(bytes) {
        Some(plain) => Ok(plain.meaning()),
        None => line_by_fields(alloc, bytes),
    }
}

// The meaning of a line by its fields, or by the one spelling of a `turn` with a single blank.
fn line_by_fields(alloc: Global, bytes: &[u8]) -> Result<Line, AllocError>
    requires { length bytes.now ≤ 131072 }
    ensures { IfOk result (Says bytes.now) }
{
    if let Some(id) = turn_of(bytes) {
        return Ok(Line::Step(Format::Line, Step::Turn { id }));
    }
    let fields = fields_of(alloc, bytes)?;
    let fields = fields.as_slice();
    if is_skipped(fields) {
        return Ok(Line::Skipped);
    }
    let (format, words) = format_of(fields);
    if is_put(words) {
        return Ok(Line::Put(format));
    }
    if is_sweep(words) {
        return Ok(Line::Sweep(format));
    }
    match step_of(alloc, words)? {
        Some(step) => Ok(Line::Step(format, step)),
        None => Ok(Line::Bad),
    }
}

// The bytes after `turn` and a single blank.
fn after_turn(bytes: &[u8]) -> Option<&[u8]>
    ensures { IfSome result (λ rest. bytes.now ≡ codes "turn" ++ 32 ∷ rest.now) }
{
    match bytes {
        [b't', b'u', b'r', b'n', b' ', rest @ ..] => Some(rest),
        _ => None,
    }
}

// The id of a `turn` line that is spelled with a single blank.
#[tactic(auto, using(crate::proofs::Heads::turn_says))]
fn turn_of(bytes: &[u8]) -> Option<u32>
    ensures { IfSome result (λ id. Says bytes.now (line.Step format.Line (Turn id))) }
{
    let digits = after_turn(bytes)?;
    let id = number_of(digits)?;
    Some(id)
}

// Whether there is no field, or the first one begins with `#`.
fn is_skipped(fields: &[&[u8]]) -> bool
    ensures { IsTrue result ↔ IsSkipped (map (λ field. field.now) fields.now) }
{
    match fields {
        [] => true,
        [first, ..] => first.first() == Some(&b'#'),
    }
}

// The format that the fields ask for, and the fields after it.
fn format_of<'a, 'b>(fields: &'a [&'b [u8]]) -> (Format, &'a [&'b [u8]])
    ensures { Asks (map (λ field. field.now) fields.now) result.0 (map (λ field. field.now) result.1.now) }
{
    match fields {
        [word, rest @ ..] if *word == b"json".as_slice() => (Format::Json, rest),
        _ => (Format::Line, fields),
    }
}

fn is_put(fields: &[&[u8]]) -> bool
    ensures { IsTrue result ↔ IsPutLine (map (λ field. field.now) fields.now) }
{
    match fields {
        [word] => *word == b"put".as_slice(),
        _ => false,
    }
}

fn is_sweep(fields: &[&[u8]]) -> bool
    ensures { IsTrue result ↔ IsSweepLine (map (λ field. field.now) fields.now) }
{
    match fields {
        [word] => *word == b"sweep".as_slice(),
        _ => false,
    }
}
