//! The end of a service: it is settled with passes.

use crate::fault::RowsFault;
use scrib_core::format::Format;
use scrib_report::part::OutputPart;
use scrib_report::printing::text_of_part;
use scrib_report::table::table;
use scrib_shards::fault::SettleFault;
use scrib_shards::pass::Pass;
use scrib_shards::service::Service;
use std::alloc::Global;
use std::io::Write;

/// Adds the line of a refused settling.
pub(crate) fn push_fault(
    alloc: Global,
    out: &mut Vec<u8>,
    fault: &SettleFault,
) -> Result<(), RowsFault> {
    match fault {
        SettleFault::PassesMissing { shard } => writeln!(out, "refused PassesMissing {shard}")?,
        SettleFault::Mismatch {
            conversation,
            place,
        } => {
            let part = OutputPart::Mismatch {
                conversation: *conversation,
                place: *place,
            };
            out.extend_from_slice(text_of_part(alloc, &part, Format::Line)?.as_slice())?;
        }
        SettleFault::OutOfMemory => writeln!(out, "refused OutOfMemory")?,
    }
    Ok(())
}

/// Settles the service with the passes, and once more where memory is refused. Adds the table, or the line of the
/// fault. Where it is refused, the service and the passes are returned.
pub(crate) fn push_settling(
    alloc: Global,
    service: Service,
    passes: Vec<Pass>,
    out: &mut Vec<u8>,
) -> Result<Option<(Service, Vec<Pass>)>, RowsFault> {
    let answer = match service.settle(passes) {
        Err((SettleFault::OutOfMemory, service, passes)) => service.settle(passes),
        answer => answer,
    };
    match answer {
        Ok(settled) => {
            out.extend_from_slice(table(alloc, settled.list.as_slice())?.as_slice())?;
            Ok(None)
        }
        Err((fault, service, passes)) => {
            push_fault(alloc, out, &fault)?;
            Ok(Some((service, passes)))
        }
    }
}

/// Settles the service without the last pass, which is refused, and then with all. Adds the line of the fault, and what
/// the second settling answers.
pub(crate) fn push_settling_twice(
    alloc: Global,
    service: Service,
    mut passes: Vec<Pass>,
    out: &mut Vec<u8>,
) -> Result<(), RowsFault> {
    let last = passes.pop().ok_or(RowsFault::BadRow)?;
    let refused = push_settling(alloc, service, passes, out)?;
    let (service, mut passes) = refused.ok_or(RowsFault::Wrong)?;
    passes.push(last)?;
    push_settling(alloc, service, passes, out)?;
    Ok(())
}
