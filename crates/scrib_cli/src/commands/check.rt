//! The command `check`: puts the module texts of files.

ghost use Rattle.std.specs.Prelude.{◌≡◌, true, IfOk, IfErr, IfSome, OnErr};
ghost use Rattle.scrib_core.specs.Answers.{State, initial_under};
ghost use Rattle.scrib_core.specs.Held.{state_of};
ghost use Rattle.scrib_cli.specs.Checks.{IsChecked, IsPartChecked};
ghost use Rattle.scrib_cli.specs.Commands.{AreChecked, ArePartChecked};
ghost use Rattle.scrib_script_io.specs.Faults.{of_script};
ghost use Rattle.scrib_cli.specs.Faults.{script_fault};

use crate::check::{Core, check_module};
use crate::commands::fault::CommandFault;
use crate::commands::folder::Folder;
use crate::commands::source::Source;
use scrib_types::profile::Profile;
use std::alloc::Global;
use std::io::{Read, Write};

/// Puts the module texts of these files, in order, into one new monitor under this profile.
///
/// Writes the line of each reply as `check_module` does, and continues after a refusal. Returns whether all texts were
/// accepted.
///
/// # Errors
/// After an error, the lines of the files before it are written, and at most a prefix of the next.
/// - `Unopened` and `Unread` at the first file that can't be opened or read.
/// - `Unwritten` where the writer fails.
/// - `OutOfMemory` where there is no memory for a module text or a line.
pub fn check_files<'a, F: Folder, W: Write>(
    alloc: Global,
    profile: Profile,
    folder: &F,
    paths: &[&'a str],
    writer: &mut W,
) -> Result<bool, CommandFault<'a>>
    ensures ok { IfOk result (λ accepted. (after : State) ×
        AreChecked (F.text folder.now) paths.now (initial_under profile) accepted after
        (W.contents writer.old) (W.contents writer.new)) }
    ensures err { OnErr result (ArePartChecked (F.text folder.now) paths.now (initial_under profile)
        (W.contents writer.old) (W.contents writer.new)) }
    ensures fault { IfErr result (λ e. of_script (script_fault e) ≡ true) }
{
    let mut core = Core::with_profile(alloc, profile);
    check_each(alloc, &mut core, folder, paths, writer)
}

// The same over this monitor.
fn check_each<'a, F: Folder, W: Write>(
    alloc: Global,
    core: &mut Core,
    folder: &F,
    paths: &[&'a str],
    writer: &mut W,
) -> Result<bool, CommandFault<'a>>
    ensures ok { IfOk result (λ accepted. (after : State) ×
        AreChecked (F.text folder.now) paths.now (state_of core.old) accepted after
        (W.contents writer.old) (W.contents writer.new)) }
    ensures err { OnErr result (ArePartChecked (F.text folder.now) paths.now (state_of core.old)
        (W.contents writer.old) (W.contents writer.new)) }
    ensures fault { IfErr result (λ e. of_script (script_fault e) ≡ true) }
{
    let mut accepted = true;
    for path in paths {
        let mut file = folder.open(path)?;
        if !check_file(alloc, core, path, &mut file, writer)? {
            accepted = false;
        }
    }
    Ok(accepted)
}

// Does what `check_module` does with the file of this path, which this reader reads.
fn check_file<'a, R: Read, W: Write>(
    alloc: Global,
    core: &mut Core,
    path: &'a str,
    reader: &mut R,
    writer: &mut W,
) -> Result<bool, CommandFault<'a>>
    ensures ok { IfOk result (λ accepted. IfSome (R.remaining reader.old) (λ input.
        IsChecked input (state_of core.old) accepted (state_of core.new)
        (W.contents writer.old) (W.contents writer.new))) }
    ensures err { OnErr result (IfSome (R.remaining reader.old) (λ input.
        IsPartChecked input (state_of core.old) (state_of core.new) (W.contents writer.old) (W.contents writer.new))) }
    ensures fault { IfErr result (λ e. of_script (script_fault e) ≡ true) }
{
    match check_module(alloc, core, reader, writer) {
        Ok(accepted) => Ok(accepted),
        Err(fault) => Err(CommandFault::over(Source::named(path), &fault, true)),
    }
}
