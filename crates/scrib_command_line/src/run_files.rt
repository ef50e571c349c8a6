//! The command `run`: scripts of files over one service.

ghost use Rattle.std.specs.Prelude.{◌≡◌, true, IfOk};

use scrib_cli::commands::fault::CommandFault;
use scrib_cli::commands::folder::Folder;
use scrib_cli::commands::observed::Observed;
use scrib_cli::commands::source::Source;
use scrib_run_service::options::Options;
use scrib_run_service::progress::Progress;
use scrib_run_service::run_service::run_service;
use std::alloc::Global;
use std::io::Write;
use std::marker::Send;
use std::sync::Wait;
use std::thread::Threads;

/// The scripts of a run: the paths of their files in the folder.
#[derive(Clone, Copy)]
pub struct RunScripts<'a, 'b, F> {
    pub folder: &'b F,
    pub setup: &'a str,
    pub connections: &'b [&'a str],
}

/// Runs the scripts of these files as `run_service` does. Returns true: their refusals are replies to steps.
///
/// # Errors
/// What was written by then is a beginning of the output.
/// - `Unopened` where one of the files can't be opened, before anything is written.
/// - `Unread` and `TooLong` where `run_service` returns `Read`, of the setup.
/// - `Unwritten`, `Unsettled` and `OutOfMemory` where `run_service` returns `Write`, `Settle` and `OutOfMemory`.
pub fn run_files<'a, R: Threads + Wait + Sync, P: Progress + Sync, F: Folder, W: Write>(
    rt: &R,
    alloc: Global,
    options: &Options<P>,
    scripts: &RunScripts<'a, '_, F>,
    writer: &mut W,
) -> Result<bool, CommandFault<'a>>
where
    F::File: Send,
    ensures done { IfOk result (λ done. done ≡ true) }
{
    let RunScripts {
        folder,
        setup,
        connections,
    } = *scripts;
    let mut first = Observed::new(folder.open(setup)?);
    let readers = open_all(alloc, folder, connections)?;
    match run_service(rt, alloc, options, &mut first, readers, writer) {
        Ok(()) => Ok(true),
        Err(fault) => Err(CommandFault::over(Source::named(setup), &fault, first.has_failed())),
    }
}

// The files of these paths, opened in order.
fn open_all<'a, F: Folder>(
    alloc: Global,
    folder: &F,
    paths: &[&'a str],
) -> Result<Vec<F::File>, CommandFault<'a>> {
    let Ok(mut files) = Vec::with_capacity(alloc, paths.len()) else {
        return Err(CommandFault::OutOfMemory);
    };
    for path in paths {
        if files.push(folder.open(path)?).is_err() {
            return Err(CommandFault::OutOfMemory);
        }
    }
    Ok(files)
}
