//! Runs scripts of many connections over one service.

ghost use Rattle.std.specs.Prelude.{◌≡◌, ◌≢◌, ◌++◌, true, map, flat_map, IfOk, IfErr, IfSome, OnOk, OnErr, vec_len};
ghost use Rattle.std.specs.Io.KnownBytes.{Appends};
ghost use Rattle.scrib_report.specs.ReplyTexts.{heading};
ghost use Rattle.scrib_shards.specs.Settling.{IsSettledSome};
ghost use Rattle.scrib_script_io.specs.Writes.{AppendsPart};
ghost use Rattle.scrib_script_io.specs.Faults.{of_output, of_script};
ghost use Rattle.scrib_script_io.specs.declared.fault.ScriptFault.TheVariants as fault;
ghost use Rattle.scrib_run_service.specs.ConnectionResults.{AreClosed, AreTexts};
ghost use Rattle.scrib_run_service.specs.Outputs as outputs;
ghost use Rattle.scrib_run_service.specs.Outputs.{connections_text, IsRunTable, IsUnsettled, Prints, PrintsPart, PrintsRun, PrintsRunPart, WritesAll, WritesFirst, WritesPart};

use crate::common::Common;
use crate::connection::{Closed, Connection};
use crate::connections::{Ran, run_connections};
use crate::options::Options;
use crate::progress::{Phase, Progress, Tally};
use crate::reading::run_script;
use scrib_core::format::Format;
use scrib_rejudge::workers::sweep;
use scrib_report::part::OutputPart;
use scrib_report::printing::text_of_part;
pub use scrib_script_io::fault::ScriptFault;
use scrib_script_io::writing::{flush_out, write_out};
use scrib_settlement::fault::SettleFault;
use scrib_shards::gate::OpenGate;
use scrib_shards::pass::Pass;
use scrib_shards::service::Service;
use scrib_shards::settled::Settled;
use std::alloc::{AllocError, Global};
use std::io::{Read, Write};
use std::marker::Send;
use std::mem::forget;
use std::sync::Wait;
use std::thread;
use std::thread::Threads;

// A service that is not yet settled, its passes, and the format of its table.
#[derive(Drop)]
struct Unsettled {
    alloc: Global,
    format: Format,
    service: Service,
    passes: Vec<Pass>,
}

/// Runs scripts over one new service, by these options. The setup script is carried out first, and its lines are
/// written. Then each connection script is carried out on a thread of its own, by passes of its own. Meanwhile workers
/// renew the verdicts that edits leave stale. When all have ended, a last sweep renews every stale verdict.
///
/// Then the line `connection 1`, with the connection's number, and its lines are written for each connection in order.
/// Meanwhile the service is settled on other threads. The table of all conversations is written last. If the reader of
/// a connection failed, its last line is `read fault`. In JSON these lines are `{"connection":1}`, `{"fault":"read"}`,
/// and a line for each conversation and for their number. The memory of the service is not freed, since a process makes
/// one run.
///
/// # Errors
/// After a fault, a prefix of the output is written; after `OutOfMemory` its last line may be cut.
/// - `Read` where the reader of the setup fails, and in the line of its first byte past the limits of a script.
/// - `Write` where the writer fails, unless the setup was refused memory.
/// - `Settle` where the passes do not settle the service; this would be a defect of the service.
/// - `OutOfMemory` where memory is refused: for a line, a thread, the channel, the last sweep or the settling.
pub fn run_service<
    R: Threads + Wait + Sync,
    S: Read,
    C: Read + Send + Drop,
    P: Progress + Sync,
    W: Write,
>(
    rt: &R,
    alloc: Global,
    options: &Options<P>,
    setup: &mut S,
    connections: Vec<C>,
    writer: &mut W,
) -> Result<(), ScriptFault>
    ensures ok { OnOk result (PrintsRun options.now.format options.now.shape.shards (S.remaining setup.old)
        (map (λ c. C.remaining c) connections.items) (W.contents writer.old) (W.contents writer.new)) }
    ensures err { IfErr result (λ e. e ≢ fault.OutOfMemory →
        PrintsRunPart options.now.format options.now.shape.shards (S.remaining setup.old)
        (map (λ c. C.remaining c) connections.items) (W.contents writer.old) (W.contents writer.new)) }
    ensures read { IfErr result (λ e. e ≡ fault.Read →
        WritesFirst options.now.format (S.remaining setup.old) (W.contents writer.old) (W.contents writer.new)) }
{
    let Options {
        shape,
        format,
        progress,
    } = options;
    let Ok(service) = Service::new(alloc, shape.shards()) else {
        return Err(ScriptFault::OutOfMemory);
    };
    let tally = Tally::new(progress);
    let common = Common {
        alloc,
        service: &service,
        format: *format,
        tally: &tally,
    };
    tally.begin(Phase::Setup);
    let prepared = run_setup(rt, &common, setup, writer)?;
    let closed = run_to_last_sweep(rt, &common, shape.workers(), connections)?;
    tally.begin(Phase::Settling);
    let (passes, texts) = split_closed(alloc, prepared, closed)?;
    let unsettled = Unsettled {
        alloc,
        format: *format,
        service,
        passes,
    };
    settle_and_print(rt, unsettled, texts.as_slice(), writer)
}

// Carries out the setup, and writes and flushes its lines, also those before a fault of its reader. Returns its passes.
fn run_setup<S: Read, P: Progress, W: Write>(
    rt: &impl Wait,
    common: &Common<'_, P>,
    setup: &mut S,
    writer: &mut W,
) -> Result<Vec<Pass>, ScriptFault>
    ensures ok { OnOk result (
        WritesAll common.now.format (S.remaining setup.old) (W.contents writer.old) (W.contents writer.new)) }
    ensures read { IfErr result (λ e. e ≡ fault.Read →
        WritesFirst common.now.format (S.remaining setup.old) (W.contents writer.old) (W.contents writer.new)) }
    ensures write { IfErr result (λ e. e ≡ fault.Write →
        WritesPart common.now.format (S.remaining setup.old) (W.contents writer.old) (W.contents writer.new)) }
    ensures fault { IfErr result (λ e. of_script e ≡ true) }
{
    let mut connection = Connection::new(common, None);
    let ran = run_script(rt, common, &mut connection, setup);
    let closed = connection.close()?;
    let written = write_whole(writer, closed.lines.as_slice());
    first_fault(ran, written)?;
    Ok(closed.passes)
}

// Writes the bytes, and flushes them.
fn write_whole<W: Write>(writer: &mut W, bytes: &[u8]) -> Result<(), ScriptFault>
    ensures ok { OnOk result (Appends (W.contents writer.old) (W.contents writer.new) bytes.now) }
    ensures err { OnErr result (AppendsPart (W.contents writer.old) (W.contents writer.new) bytes.now) }
    ensures fault { IfErr result (λ e. e ≡ fault.Write) }
{
    write_out(writer, bytes)?;
    flush_out(writer)
}

// Returns the fault of a script and of the writing of its lines. `OutOfMemory` of the script comes first, since its
// last line may be cut then. Else a fault of the writer comes first.
fn first_fault(
    ran: Result<(), ScriptFault>,
    written: Result<(), ScriptFault>,
) -> Result<(), ScriptFault>
    ensures { result ≡ outputs.first_fault ran written }
{
    match ran {
        Ok(()) => written,
        Err(ScriptFault::OutOfMemory) => Err(ScriptFault::OutOfMemory),
        Err(fault) => match written {
            Ok(()) => Err(fault),
            Err(other) => Err(other),
        },
    }
}

// Carries out the connections, and then sweeps until no verdict is stale.
fn run_to_last_sweep<R: Threads + Wait + Sync, C: Read + Send + Drop, P: Progress + Sync>(
    rt: &R,
    common: &Common<'_, P>,
    workers: usize,
    connections: Vec<C>,
) -> Result<Vec<Closed>, ScriptFault>
    ensures texts { IfOk result (λ closed.
        AreTexts common.now.format (map (λ c. C.remaining c) connections.items) (map (λ c. c.lines.items) closed.items)) }
    ensures fault { IfErr result (λ e. e ≡ fault.OutOfMemory) }
{
    common.tally.begin(Phase::Connections);
    let ran = run_connections(rt, common, workers, connections)?;
    common.tally.begin(Phase::LastSweep);
    let closed = all_closed(common.alloc, ran)?;
    if sweep(rt, common.alloc, common.service, workers, &OpenGate).is_err() {
        return Err(ScriptFault::OutOfMemory);
    }
    Ok(closed)
}

// Returns the connections, if none was refused memory.
fn all_closed(alloc: Global, ran: Vec<Ran>) -> Result<Vec<Closed>, AllocError>
    ensures { IfOk result (λ closed. map (λ c. Ok c) closed.items ≡ ran.items) }
{
    let mut closed = Vec::with_capacity(alloc, ran.len())?;
    for one in ran {
        closed.push(one?)?;
    }
    Ok(closed)
}

// Writes the heading of the connection of this number, and then its lines.
fn write_connection<W: Write>(
    alloc: Global,
    format: Format,
    number: u64,
    lines: &[u8],
    writer: &mut W,
) -> Result<(), ScriptFault>
    ensures ok { OnOk result (
        Appends (W.contents writer.old) (W.contents writer.new) (heading format number ++ lines.now)) }
    ensures err { OnErr result (
        AppendsPart (W.contents writer.old) (W.contents writer.new) (heading format number ++ lines.now)) }
    ensures fault { IfErr result (λ e. of_output e ≡ true) }
{
    let heading = text_of_part(alloc, &OutputPart::Connection(number), format)?;
    write_out(writer, heading.as_slice())?;
    write_out(writer, lines)
}

// Writes the lines of the connections in order, each after its heading. Their numbers begin with 1.
fn write_connections<W: Write>(
    alloc: Global,
    format: Format,
    texts: &[Vec<u8>],
    writer: &mut W,
) -> Result<(), ScriptFault>
    ensures ok { OnOk result (
        Appends (W.contents writer.old) (W.contents writer.new) (connections_text format 1 (map (λ v. v.items) texts.now))) }
    ensures err { OnErr result (
        AppendsPart (W.contents writer.old) (W.contents writer.new) (connections_text format 1 (map (λ v. v.items) texts.now))) }
    ensures fault { IfErr result (λ e. of_output e ≡ true) }
{
    let mut number = 0u64;
    for lines in texts {
        number += 1;
        write_connection(alloc, format, number, lines.as_slice(), writer)?;
    }
    Ok(())
}

// Returns the passes of the setup and then of each connection in order, and the lines of each connection.
fn split_closed(
    alloc: Global,
    setup: Vec<Pass>,
    connections: Vec<Closed>,
) -> Result<(Vec<Pass>, Vec<Vec<u8>>), AllocError>
    ensures passes { IfOk result (λ r. r.0.items ≡ setup.items ++ flat_map (λ c. c.passes.items) connections.items) }
    ensures texts { IfOk result (λ r. r.1.items ≡ map (λ c. c.lines) connections.items) }
{
    let mut passes = setup;
    let mut texts = Vec::with_capacity(alloc, connections.len())?;
    for closed in connections {
        let Closed {
            passes: mut own,
            lines,
        } = closed;
        passes.append(&mut own)?;
        texts.push(lines)?;
    }
    Ok((passes, texts))
}

// Settles the service on a thread, and writes the lines of the connections meanwhile. Returns the table's text, and the
// result of the writing.
fn settle_beside<R: Threads + Sync, W: Write>(
    rt: &R,
    unsettled: Unsettled,
    texts: &[Vec<u8>],
    writer: &mut W,
) -> (Result<Vec<u8>, ScriptFault>, Result<(), ScriptFault>)
    ensures table { IfOk result.0 (λ text.
        IsRunTable unsettled.format (vec_len unsettled.service.shards) unsettled.passes.items text.items) }
    ensures settle { IfErr result.0 (λ e. e ≡ fault.Settle →
        IsUnsettled (vec_len unsettled.service.shards) unsettled.passes.items) }
    ensures fault { IfErr result.0 (λ e. e ≢ fault.Read) }
    ensures written { OnOk result.1 (
        Appends (W.contents writer.old) (W.contents writer.new) (connections_text unsettled.format 1 (map (λ v. v.items) texts.now))) }
    ensures cut { OnErr result.1 (
        AppendsPart (W.contents writer.old) (W.contents writer.new) (connections_text unsettled.format 1 (map (λ v. v.items) texts.now))) }
    ensures output { IfErr result.1 (λ e. of_output e ≡ true) }
{
    let (alloc, format) = (unsettled.alloc, unsettled.format);
    let mut unsettled = Some(unsettled);
    thread::join_mut(
        rt,
        &mut || settled_table(rt, &mut unsettled),
        &mut || write_connections(alloc, format, texts, writer),
    )
}

// Writes the lines of the connections while the service settles, and then the table.
fn settle_and_print<R: Threads + Sync, W: Write>(
    rt: &R,
    unsettled: Unsettled,
    texts: &[Vec<u8>],
    writer: &mut W,
) -> Result<(), ScriptFault>
    ensures ok { OnOk result (
        Prints unsettled.format (map (λ v. v.items) texts.now) (vec_len unsettled.service.shards) unsettled.passes.items
        (W.contents writer.old) (W.contents writer.new)) }
    ensures err { OnErr result (
        PrintsPart unsettled.format (map (λ v. v.items) texts.now) (vec_len unsettled.service.shards) unsettled.passes.items
        (W.contents writer.old) (W.contents writer.new)) }
    ensures settle { IfErr result (λ e. e ≡ fault.Settle →
        IsUnsettled (vec_len unsettled.service.shards) unsettled.passes.items) }
    ensures fault { IfErr result (λ e. e ≢ fault.Read) }
{
    let (table, written) = settle_beside(rt, unsettled, texts, writer);
    let table = table?;
    written?;
    write_whole(writer, table.as_slice())
}

// As `table_of`, for a service that is taken out of the option.
fn settled_table<R: Threads + Sync>(
    rt: &R,
    unsettled: &mut Option<Unsettled>,
) -> Result<Vec<u8>, ScriptFault>
    ensures table { IfOk result (λ text. IfSome unsettled.old (λ u.
        IsRunTable u.format (vec_len u.service.shards) u.passes.items text.items)) }
    ensures settle { IfErr result (λ e. e ≡ fault.Settle → IfSome unsettled.old (λ u.
        IsUnsettled (vec_len u.service.shards) u.passes.items)) }
    ensures fault { IfErr result (λ e. e ≢ fault.Read) }
{
    match unsettled.take() {
        Some(unsettled) => table_of(rt, unsettled),
        None => Err(ScriptFault::Settle),
    }
}

// Settles the service, and returns the text of its table.
fn table_of<R: Threads + Sync>(rt: &R, unsettled: Unsettled) -> Result<Vec<u8>, ScriptFault>
    ensures table { IfOk result (λ text.
        IsRunTable unsettled.format (vec_len unsettled.service.shards) unsettled.passes.items text.items) }
    ensures settle { IfErr result (λ e. e ≡ fault.Settle →
        IsUnsettled (vec_len unsettled.service.shards) unsettled.passes.items) }
    ensures fault { IfErr result (λ e. e ≢ fault.Read) }
{
    let Unsettled {
        alloc,
        format,
        service,
        passes,
    } = unsettled;
    let settled = settled(rt, service, passes)?;
    let table = text_of_part(alloc, &OutputPart::Table(settled.list.as_slice()), format)?;
    // Freeing the memory of long logs, event by event, takes a tenth of a run, and the process ends soon.
    forget(settled);
    Ok(table)
}

// Settles the service.
fn settled<R: Threads + Sync>(
    rt: &R,
    service: Service,
    passes: Vec<Pass>,
) -> Result<Settled, ScriptFault>
    ensures settled { IfOk result (λ s.
        IsSettledSome (vec_len service.shards) s.library s.shards.items passes.items s.list.items) }
    ensures settle { IfErr result (λ e. e ≡ fault.Settle → IsUnsettled (vec_len service.shards) passes.items) }
    ensures fault { IfErr result (λ e. e ≢ fault.Read) }
{
    match service.settle_on_threads(rt, passes) {
        Ok(settled) => Ok(settled),
        Err((SettleFault::OutOfMemory, _, _)) => Err(ScriptFault::OutOfMemory),
        Err(_) => Err(ScriptFault::Settle),
    }
}
