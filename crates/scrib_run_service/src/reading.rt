//! Reads the script of a connection.

ghost use Rattle.std.specs.Prelude.{◌≡◌, ◌<◌, true, [], OnOk, IfOk, IfErr, length};
ghost use Rattle.scrib_script_reader.specs.Scripts.{item_list};
ghost use Rattle.scrib_script_reader.specs.ShortLines.{short_items};
ghost use Rattle.scrib_script_io.specs.declared.fault.ScriptFault.TheVariants as fault;
ghost use Rattle.scrib_run_service.specs.Outcomes.{TakesItems};
ghost use Rattle.scrib_run_service.specs.Reading.{of_reading, Carries, CarriesTo, CarriesFront, AppendsSpelled, AppendsFront, AppendsEnd, Ran, RanPart};

use crate::common::Common;
use crate::connection::Connection;
use crate::progress::Progress;
use scrib_core::format::Format;
use scrib_core::step::Step;
use scrib_script_io::fault::ScriptFault;
use scrib_script_io::reading::read_piece;
use scrib_script_reader::item::Item;
use scrib_script_reader::script::Script;
use scrib_script_reader::short_line::ShortLine;
use std::io::Read;
use std::sync::Wait;

// How many bytes of a script are read at once.
const PIECE_BYTES: usize = 65_536;

/// Carries out the script of the reader over the connection, which must have no buffered events. Appends the lines of
/// the replies to the connection's, and counts the noted events.
///
/// # Errors
/// - `Read` where the reader fails, and in the line of the first byte past the limits of a script. The connection then
///   has the lines of all earlier items.
/// - `OutOfMemory` where memory is refused.
pub(crate) fn run_script<R: Read, P: Progress>(
    rt: &impl Wait,
    common: &Common<'_, P>,
    connection: &mut Connection<'_>,
    reader: &mut R,
) -> Result<(), ScriptFault>
    requires { connection.old.pending.items ≡ [] }
    ensures ok { OnOk result (Ran connection.old connection.new (R.remaining reader.old)) }
    ensures read { IfErr result (λ e. e ≡ fault.Read → RanPart connection.old connection.new (R.remaining reader.old)) }
    ensures fault { IfErr result (λ e. of_reading e ≡ true) }
{
    let mut piece = vec![in common.alloc; 0u8; PIECE_BYTES]?;
    run_by_pieces(rt, common, connection, reader, piece.as_mut_slice())
}

// As `run_script`, by pieces that are read into this buffer.
fn run_by_pieces<R: Read, P: Progress>(
    rt: &impl Wait,
    common: &Common<'_, P>,
    connection: &mut Connection<'_>,
    reader: &mut R,
    piece: &mut [u8],
) -> Result<(), ScriptFault>
    requires none { connection.old.pending.items ≡ [] }
    requires some { 0 < length piece.old }
    ensures ok { OnOk result (Ran connection.old connection.new (R.remaining reader.old)) }
    ensures read { IfErr result (λ e. e ≡ fault.Read → RanPart connection.old connection.new (R.remaining reader.old)) }
    ensures fault { IfErr result (λ e. of_reading e ≡ true) }
{
    let mut script = Script::new(common.alloc);
    for _ in 0..u64::MAX {
        let n = read_piece(reader, piece)?;
        if n == 0 {
            end_script(rt, connection, &mut script)?;
            common.tally.add(connection.take_noted());
            return Ok(());
        }
        take_piece(rt, connection, &mut script, &piece[..n])?;
        common.tally.add(connection.take_noted());
    }
    Err(ScriptFault::Read)
}

// Consumes the next bytes of the script, and carries out the items that they spell. At a fault, it carries out the
// items before it.
fn take_piece(
    rt: &impl Wait,
    connection: &mut Connection<'_>,
    script: &mut Script,
    piece: &[u8],
) -> Result<(), ScriptFault>
    requires { connection.old.pending.items ≡ [] }
    ensures ok { OnOk result (AppendsSpelled connection.old connection.new script.old script.new piece.now) }
    ensures read { IfErr result (λ e. e ≡ fault.Read →
        AppendsFront connection.old connection.new script.old piece.now) }
    ensures fault { IfErr result (λ e. of_reading e ≡ true) }
{
    let submitted = submit_items(rt, connection, script, piece);
    connection.flush(rt)?;
    submitted
}

// Consumes the next bytes of the script, and submits the items that they spell to the connection, which may buffer
// events.
fn submit_items(
    rt: &impl Wait,
    connection: &mut Connection<'_>,
    script: &mut Script,
    piece: &[u8],
) -> Result<(), ScriptFault>
    ensures ok { OnOk result (Carries connection.old connection.new script.old script.new piece.now) }
    ensures read { IfErr result (λ e. e ≡ fault.Read →
        CarriesFront connection.old connection.new script.old piece.now) }
    ensures fault { IfErr result (λ e. of_reading e ≡ true) }
{
    let mut rest = piece;
    while !rest.is_empty() {
        rest = submit_next(rt, connection, script, rest)?;
    }
    Ok(())
}

// Consumes the bytes up to the end of the next item or of a line before it, and submits what they spell. Returns the
// bytes that are left.
#[inline(always)]
fn submit_next<'a>(
    rt: &impl Wait,
    connection: &mut Connection<'_>,
    script: &mut Script,
    piece: &'a [u8],
) -> Result<&'a [u8], ScriptFault>
    ensures ok { IfOk result (λ rest.
        CarriesTo connection.old connection.new script.old script.new piece.now rest.now) }
    ensures shorter { IfOk result (λ rest. 0 < length piece.now → length rest.now < length piece.now) }
    ensures read { IfErr result (λ e. e ≡ fault.Read →
        CarriesFront connection.old connection.new script.old piece.now) }
    ensures fault { IfErr result (λ e. of_reading e ≡ true) }
{
    match script.next_short(piece) {
        Some((line, rest)) => {
            submit_short(rt, connection, line, script.lines())?;
            Ok(rest)
        }
        None => submit_other(rt, connection, script, piece),
    }
}

// The same where the next line is none that `next_short` reads.
#[inline(never)]
fn submit_other<'a>(
    rt: &impl Wait,
    connection: &mut Connection<'_>,
    script: &mut Script,
    piece: &'a [u8],
) -> Result<&'a [u8], ScriptFault>
    ensures ok { IfOk result (λ rest.
        CarriesTo connection.old connection.new script.old script.new piece.now rest.now) }
    ensures shorter { IfOk result (λ rest. 0 < length piece.now → length rest.now < length piece.now) }
    ensures read { IfErr result (λ e. e ≡ fault.Read →
        CarriesFront connection.old connection.new script.old piece.now) }
    ensures fault { IfErr result (λ e. of_reading e ≡ true) }
{
    let (item, rest) = script.next_item(piece)?;
    submit_any(rt, connection, item, script.lines())?;
    Ok(rest)
}

// Submits what the line of this number spells.
#[inline(always)]
fn submit_short(
    rt: &impl Wait,
    connection: &mut Connection<'_>,
    line: ShortLine,
    number: u64,
) -> Result<(), ScriptFault>
    ensures took { OnOk result (TakesItems connection.old connection.new (short_items line)) }
    ensures fault { IfErr result (λ e. e ≡ fault.OutOfMemory) }
{
    match line {
        // most lines of a long script
        ShortLine::Note { id, event } => connection.submit_note(rt, id, event),
        line => submit_rare(rt, connection, line, number),
    }
}

// The same for any line.
#[inline(never)]
fn submit_rare(
    rt: &impl Wait,
    connection: &mut Connection<'_>,
    line: ShortLine,
    number: u64,
) -> Result<(), ScriptFault>
    ensures took { OnOk result (TakesItems connection.old connection.new (short_items line)) }
    ensures fault { IfErr result (λ e. e ≡ fault.OutOfMemory) }
{
    submit_any(rt, connection, item_of(line), number)
}

// The item of the line, if it has one.
fn item_of(line: ShortLine) -> Option<Item>
    ensures { item_list result ≡ short_items line }
{
    match line {
        ShortLine::Note { id, event } => {
            Some(Item::Step(Format::Line, Step::Note { id, event }))
        }
        ShortLine::Ask { id } => Some(Item::Step(Format::Line, Step::Ask { id })),
        ShortLine::Open { id, name } => Some(Item::Step(Format::Line, Step::Open { id, name })),
        ShortLine::Bad(number) => Some(Item::BadLine(number)),
        ShortLine::Skipped => None,
    }
}

// Submits the item of this line, if there is one.
#[inline(always)]
fn submit_any(
    rt: &impl Wait,
    connection: &mut Connection<'_>,
    item: Option<Item>,
    number: u64,
) -> Result<(), ScriptFault>
    ensures took { OnOk result (TakesItems connection.old connection.new (item_list item)) }
    ensures fault { IfErr result (λ e. e ≡ fault.OutOfMemory) }
{
    match item {
        Some(item) => connection.submit(rt, item, number),
        None => Ok(()),
    }
}

// Carries out the item that the end of the script spells, if there is one.
fn end_script(
    rt: &impl Wait,
    connection: &mut Connection<'_>,
    script: &mut Script,
) -> Result<(), ScriptFault>
    requires { connection.old.pending.items ≡ [] }
    ensures ok { OnOk result (AppendsEnd connection.old connection.new script.old) }
    ensures fault { IfErr result (λ e. e ≡ fault.OutOfMemory) }
{
    let number = script.lines() + 1;
    let item = script.last_item()?;
    submit_any(rt, connection, item, number)?;
    connection.flush(rt)
}
