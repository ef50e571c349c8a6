//! Texts with a number inside.

ghost use Rattle.std.specs.Prelude.{◌≡◌, ◌≤◌, ◌+◌, ◌++◌, OnOk, OnErr, codes, drop, length};
ghost use Rattle.std.specs.Fmt.{decimal};

use itoa::write_digits;
use scrib_types::text::{push_bytes, push_number};
use std::alloc::AllocError;

// Appends the number between two texts.
pub(crate) fn push_numbered(
    out: &mut Vec<u8>,
    before: &[u8],
    number: u64,
    after: &[u8],
) -> Result<(), AllocError>
    ensures { OnOk result (out.new.items ≡ out.old.items ++ (before.now ++ decimal number ++ after.now)) }
{
    push_bytes(out, before)?;
    push_number(out, number)?;
    push_bytes(out, after)
}

// The ends of `refused BadLine 3` and of `open 3: `, behind room for a word and a number.
const LINE_END: [u8; 40] = *b"                                       \n";

const COLON: [u8; 40] = *b"                                      : ";

// The offsets in these at which the digits end.
const LINE_DIGITS_END: usize = 39;

const COLON_DIGITS_END: usize = 38;

/// Appends the line of a bad line of this number, as `refused BadLine 3`, and a line feed.
///
/// # Errors
/// `AllocError` where memory for the longer text is refused; the text is then as it was.
pub fn push_bad_line(out: &mut Vec<u8>, number: u64) -> Result<(), AllocError>
    ensures ok { OnOk result
        (out.new.items ≡ out.old.items ++ (codes "refused BadLine " ++ decimal number ++ codes "\n")) }
    ensures err { OnErr result (out.new.items ≡ out.old.items) }
{
    push_word_and_number(out, b"refused BadLine ", number, LINE_END, LINE_DIGITS_END)
}

// Appends `open `, the id, and `: `, or leaves the text as it was.
pub(crate) fn push_opened_id(out: &mut Vec<u8>, id: u32) -> Result<(), AllocError>
    ensures ok { OnOk result (out.new.items ≡ out.old.items ++ (codes "open " ++ decimal id ++ codes ": ")) }
    ensures err { OnErr result (out.new.items ≡ out.old.items) }
{
    push_word_and_number(out, b"open ", u64::from(id), COLON, COLON_DIGITS_END)
}

// Appends the number between a word and what the template has behind the room for these, by one append.
#[inline(always)]
fn push_word_and_number(
    out: &mut Vec<u8>,
    word: &[u8],
    number: u64,
    template: [u8; 40],
    digits_end: usize,
) -> Result<(), AllocError>
    requires room { length word.now + 20 ≤ digits_end }
    requires within { digits_end ≤ 40 }
    ensures ok { OnOk result (out.new.items
        ≡ out.old.items ++ (word.now ++ decimal number ++ drop digits_end template)) }
    ensures err { OnErr result (out.new.items ≡ out.old.items) }
{
    // The text is written from its end, so one append suffices.
    let mut text = template;
    let number_at = write_digits(number, &mut text, digits_end);
    let word_at = number_at - word.len();
    text[word_at..number_at].copy_from_slice(word);
    out.extend_from_slice(&text[word_at..])
}
