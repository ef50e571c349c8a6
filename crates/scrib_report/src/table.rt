//! The table of settled conversations.

ghost use Rattle.std.specs.Prelude.{◌≡◌, ◌++◌, IfOk, OnOk, replicate};
ghost use Rattle.std.specs.Fmt.{decimal};
ghost use Rattle.scrib_report.specs.Table as rows;

use crate::verdict::verdict_word;
use scrib_core::ended::Ended;
use scrib_types::text::{push_bytes, push_dotted};
use std::alloc::{AllocError, Global};

// The widths of the columns, in bytes.
const ID_WIDTH: usize = 10;

const EVENTS_WIDTH: usize = 8;

const VERDICT_WIDTH: usize = 9;

// Appends `count` blanks.
fn push_blanks(out: &mut Vec<u8>, count: usize) -> Result<(), AllocError>
    ensures { OnOk result (out.new.items ≡ out.old.items ++ replicate count 32) }
{
    for _ in 0..count {
        out.push(b' ')?;
    }
    Ok(())
}

/// Appends the number, filled up with blanks on its left to `width` bytes.
///
/// # Errors
/// `AllocError` where memory for the longer text is refused.
pub fn push_right_aligned(out: &mut Vec<u8>, width: usize, number: u64) -> Result<(), AllocError>
    ensures { OnOk result (out.new.items ≡ out.old.items ++ rows.right_aligned width number) }
{
    let digits = number.to_string(*out.allocator())?;
    push_blanks(out, width.saturating_sub(digits.len()))?;
    push_bytes(out, digits.as_bytes())
}

// Appends the text, filled up with blanks on its right to `width` bytes.
fn push_left_aligned(out: &mut Vec<u8>, width: usize, text: &[u8]) -> Result<(), AllocError>
    ensures { OnOk result (out.new.items ≡ out.old.items ++ rows.left_aligned width text.now) }
{
    push_bytes(out, text)?;
    push_blanks(out, width.saturating_sub(text.len()))
}

#[tactic(auto, unfolding(crate::specs::Table::row_text))]
fn push_row(out: &mut Vec<u8>, ended: &Ended) -> Result<(), AllocError>
    ensures { OnOk result (out.new.items ≡ out.old.items ++ rows.row_text ended.now) }
{
    push_right_aligned(out, ID_WIDTH, u64::from(ended.id))?;
    push_bytes(out, b" ")?;
    push_right_aligned(out, EVENTS_WIDTH, ended.events as u64)?;
    push_bytes(out, b" ")?;
    push_left_aligned(out, VERDICT_WIDTH, verdict_word(&ended.told).as_bytes())?;
    push_bytes(out, b" ")?;
    push_dotted(out, &ended.name)?;
    push_bytes(out, b"\n")
}

fn push_rows(out: &mut Vec<u8>, list: &[Ended]) -> Result<(), AllocError>
    ensures { OnOk result (out.new.items ≡ out.old.items ++ rows.rows_text list.now) }
{
    for ended in list {
        push_row(out, ended)?;
    }
    Ok(())
}

// The number of events of all logs together.
pub(crate) fn events_of(list: &[Ended]) -> u128
    ensures { result ≡ rows.events_of list.now }
{
    let mut events = 0;
    for ended in list {
        events += ended.events as u128;
    }
    events
}

// Appends the number and the text after it.
pub(crate) fn push_count(out: &mut Vec<u8>, count: u128, what: &[u8]) -> Result<(), AllocError>
    ensures { OnOk result (out.new.items ≡ out.old.items ++ (decimal count ++ what.now)) }
{
    let digits = count.to_string(*out.allocator())?;
    push_bytes(out, digits.as_bytes())?;
    push_bytes(out, what)
}

fn push_total(out: &mut Vec<u8>, conversations: usize, events: u128) -> Result<(), AllocError>
    ensures { OnOk result (out.new.items ≡ out.old.items ++ rows.total_text conversations events) }
{
    push_bytes(out, b"total ")?;
    push_count(out, conversations as u128, b" conversations, ")?;
    push_count(out, events, b" events\n")
}

// Appends the table of settled conversations.
pub(crate) fn push_table(out: &mut Vec<u8>, list: &[Ended]) -> Result<(), AllocError>
    ensures { OnOk result (out.new.items ≡ out.old.items ++ rows.table_lines list.now) }
{
    push_rows(out, list)?;
    push_total(out, list.len(), events_of(list))
}

/// Returns the table of settled conversations, in ASCII bytes, with a line for each in the order of the list.
///
/// A line has the id, the number of events, the verdict in one word, and the full name of the protocol. The last line
/// has the number of conversations and that of all their events. Each line ends with a line feed.
///
/// # Errors
/// `AllocError` where memory for the text is refused.
pub fn table(alloc: Global, list: &[Ended]) -> Result<Vec<u8>, AllocError>
    ensures { IfOk result (λ text. text.items ≡ rows.table_lines list.now) }
{
    let mut out = Vec::new(alloc);
    push_table(&mut out, list)?;
    Ok(out)
}
