//! The commands `project` and `machine`: print the projection on a role of a protocol of some files.

ghost use Rattle.std.specs.Prelude.{IfOk, OnErr};
ghost use Rattle.scrib_cli.specs.Commands.{IsQueryWritten, IsQueryPartWritten};

use crate::commands::fault::CommandFault;
use crate::commands::folder::Folder;
use crate::commands::reading::read_files;
use crate::role_query::{RoleQuery, write_projection};
use std::alloc::Global;
use std::io::Write;

/// Does what `write_projection` does, over the module texts of these files. Returns whether it wrote a projection.
///
/// # Errors
/// After an error, nothing or a prefix of the output is written.
/// - `Unopened` and `Unread` where the protocol has a full name and the first file that is no module can't be opened
///   or read.
/// - `Unwritten` where the writer fails.
/// - `OutOfMemory` where memory is refused.
pub fn query_files<'a, F: Folder, W: Write>(
    alloc: Global,
    query: &RoleQuery<'_>,
    folder: &F,
    paths: &[&'a str],
    writer: &mut W,
) -> Result<bool, CommandFault<'a>>
    ensures ok { IfOk result (λ has_projection.
        IsQueryWritten query.now (F.text folder.now) paths.now has_projection
        (W.contents writer.old) (W.contents writer.new)) }
    ensures err { OnErr result
        (IsQueryPartWritten query.now (F.text folder.now) paths.now (W.contents writer.old) (W.contents writer.new)) }
{
    let Ok(read) = read_files(alloc, folder, paths) else {
        return Err(CommandFault::OutOfMemory);
    };
    match write_projection(alloc, query, read.texts.as_slice(), writer) {
        Ok(has_projection) => Ok(has_projection),
        Err(fault) => Err(read.fault_of(&fault)),
    }
}
