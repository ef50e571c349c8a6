//! The command `list`: the protocols of the module texts of files.

use scrib_cli::commands::fault::CommandFault;
use scrib_cli::commands::folder::Folder;
use scrib_cli::commands::source::Source;
use scrib_cli::reading::read_text;
use scrib_core::format::Format;
use scrib_list::list::push_protocols;
use scrib_list::listed::Listed;
use scrib_script_io::fault::ScriptFault;
use scrib_script_io::writing::{flush_out, write_out};
use std::alloc::Global;
use std::io::{Read, Write};

// Writes what is listed of the texts of these files, in order, and continues after a text that is no module. Returns
// whether all are modules. Fails at the first file that can't be opened or read, and where a write fails or memory is
// refused; the lines of the files before it are then written.
pub(crate) fn list_files<'a, F: Folder, W: Write>(
    alloc: Global,
    format: Format,
    folder: &F,
    paths: &[&'a str],
    writer: &mut W,
) -> Result<bool, CommandFault<'a>> {
    let mut all_listed = true;
    for path in paths {
        let mut file = folder.open(path)?;
        match list_text(alloc, format, &mut file, writer) {
            Ok(Listed::Protocols) => {}
            Ok(Listed::Refusal) => all_listed = false,
            Err(fault) => return Err(CommandFault::over(Source::named(path), &fault, true)),
        }
    }
    Ok(all_listed)
}

// Reads a text to its end, and writes what is listed of it.
fn list_text<R: Read, W: Write>(
    alloc: Global,
    format: Format,
    reader: &mut R,
    writer: &mut W,
) -> Result<Listed, ScriptFault> {
    let text = read_text(alloc, reader)?;
    let mut lines = Vec::new(alloc);
    let listed = push_protocols(&mut lines, format, text.as_slice())?;
    write_out(writer, lines.as_slice())?;
    flush_out(writer)?;
    Ok(listed)
}
