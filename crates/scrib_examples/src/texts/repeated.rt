//! Scripts that are too large to be written down.

use crate::fault::RowsFault;
use crate::making::watched;
use scrib_core::format::Format;
use std::alloc::{AllocError, Global};
use std::io;
use std::io::Write;

// Adds the text, with the number in place of each `@`, and the next one in place of `@+`.
fn push_numbered(script: &mut String, text: &str, number: u64) -> Result<(), AllocError> {
    let mut parts = text.split('@');
    script.push_str(parts.next().unwrap_or(""))?;
    for part in parts {
        let (number, rest) = match part.strip_prefix('+') {
            Some(rest) => (number.saturating_add(1), rest),
            None => (number, part),
        };
        write!(script, "{number}{rest}")?;
    }
    Ok(())
}

// Adds the text of a block so often, with its numbers from 0.
fn push_block(script: &mut String, block: &str) -> Result<(), RowsFault> {
    let (count, text) = block.split_once(':').ok_or(RowsFault::BadRow)?;
    let count: u64 = count.parse().ok().ok_or(RowsFault::BadRow)?;
    for number in 0..count {
        push_numbered(script, text, number)?;
    }
    Ok(())
}

// The text, with each block `[COUNT:TEXT]` repeated so often.
fn expanded(alloc: Global, text: &str) -> Result<String, RowsFault> {
    let mut parts = text.split('[');
    let mut script = String::from_str(alloc, parts.next().unwrap_or(""))?;
    for part in parts {
        let (block, rest) = part.split_once(']').ok_or(RowsFault::BadRow)?;
        push_block(&mut script, block)?;
        script.push_str(rest)?;
    }
    Ok(script)
}

// The line without its digits.
fn without_digits(alloc: Global, line: &str) -> Result<String, AllocError> {
    let mut rest = String::new(alloc);
    for letter in line.chars() {
        if !letter.is_ascii_digit() {
            rest.push(letter)?;
        }
    }
    Ok(rest)
}

// Lines one after another that are the same but for their digits: the first, the last, and how many there are.
#[derive(Clone, Copy)]
struct Stretch<'a> {
    first: &'a str,
    last: &'a str,
    lines: u64,
}

// Adds the first and the last line, and how many lines are between them.
fn push_stretch(stretch: Stretch<'_>, out: &mut Vec<u8>) -> io::Result<()> {
    let Stretch { first, last, lines } = stretch;
    match lines {
        0 => Ok(()),
        1 => writeln!(out, "{first}"),
        2 => writeln!(out, "{first}\n{last}"),
        _ => writeln!(out, "{first}\n({} lines)\n{last}", lines.saturating_sub(2)),
    }
}

/// What the script of the body prints, with its blocks repeated. But of lines that follow one another and differ in
/// digits alone, the first, the last and how many are between them.
pub(crate) fn printed_repeated(alloc: Global, body: &str) -> Result<Vec<u8>, RowsFault> {
    let output = watched(alloc, Format::Line, expanded(alloc, body)?.as_str())?;
    let mut out = Vec::new(alloc);
    let mut stretch = Stretch {
        first: "",
        last: "",
        lines: 0,
    };
    for line in output.lines() {
        let last = without_digits(alloc, stretch.last)?;
        if last.as_str() != without_digits(alloc, line)?.as_str() {
            push_stretch(stretch, &mut out)?;
            stretch.lines = 0;
        }
        if stretch.lines == 0 {
            stretch.first = line;
        }
        stretch.last = line;
        stretch.lines = stretch.lines.saturating_add(1);
    }
    push_stretch(stretch, &mut out)?;
    Ok(out)
}
