//! Reads the module texts of files.

ghost use Rattle.std.specs.Prelude.{◌≡◌, IfOk, IfSome, take};
ghost use Rattle.scrib_cli.specs.Commands.{AreRead};

use crate::commands::fault::CommandFault;
use crate::commands::folder::Folder;
use crate::commands::source::Source;
use crate::reading::{Items, read_text};
use scrib_script_io::fault::ScriptFault;
use std::alloc::{AllocError, Global};

// Module texts in order, up to the first that can't be opened or read. That one is `None`, and its fault is kept.
#[derive(Drop)]
pub(crate) struct ModuleTexts<'a> {
    pub(crate) texts: Vec<Option<Items<u8>>>,
    pub(crate) unread: Option<CommandFault<'a>>,
}

impl<'a> ModuleTexts<'a> {
    // The command's fault for a fault over these texts: a read fault is that of the missing text.
    pub(crate) fn fault_of(&self, fault: &ScriptFault) -> CommandFault<'a> {
        match (fault, self.unread) {
            (ScriptFault::Read, Some(unread)) => unread,
            _ => CommandFault::over(Source::StandardInput, fault, true),
        }
    }
}

// The module texts of these files.
pub(crate) fn read_files<'a, F: Folder>(
    alloc: Global,
    folder: &F,
    paths: &[&'a str],
) -> Result<ModuleTexts<'a>, AllocError>
    ensures { IfOk result (λ read. AreRead (F.text folder.now) paths.now read.texts.items) }
{
    let mut texts = Vec::new(alloc);
    for path in paths {
        match read_file(alloc, folder, path) {
            Ok(text) => texts.push(Some(text))?,
            Err(CommandFault::OutOfMemory) => return Err(AllocError),
            Err(fault) => {
                texts.push(None)?;
                return Ok(ModuleTexts {
                    texts,
                    unread: Some(fault),
                });
            }
        }
    }
    Ok(ModuleTexts {
        texts,
        unread: None,
    })
}

// The module text of the file of this path.
fn read_file<'a, F: Folder>(
    alloc: Global,
    folder: &F,
    path: &'a str,
) -> Result<Items<u8>, CommandFault<'a>>
    ensures { IfOk result (λ text. IfSome (F.text folder.now path.now) (λ input. text ≡ take 1_048_577 input)) }
{
    let mut file = folder.open(path)?;
    match read_text(alloc, &mut file) {
        Ok(text) => Ok(text),
        Err(fault) => Err(CommandFault::over(Source::named(path), &fault, true)),
    }
}
