//! Opens the files that the commands read.

ghost use Rattle.std.specs.Prelude.{◌≡◌, ℕ, List, Option, Some, None, IfOk, IfErr, IfSome};
ghost use Rattle.scrib_cli.specs.Faults.{script_fault};
ghost use Rattle.scrib_script_io.specs.declared.fault.ScriptFault.TheVariants as fault;

use crate::commands::fault::CommandFault;
use crate::commands::source::Source;
use std::io::{Input, Read};
use std::rt::Files;
use std::{fs, io};

/// Opens files by their paths.
pub trait Folder {
    /// A file that is read from its beginning.
    type File: Read + Drop;

    // The contents of the file of this path, where they are known.
    ghost text: { Self → List ℕ → Option (List ℕ) } = { λ _ _. None };

    /// Opens the file of this path.
    ///
    /// # Errors
    /// `Unopened`, a read fault, where the file can't be opened.
    fn open<'a>(&self, path: &'a str) -> Result<Self::File, CommandFault<'a>>
        ensures text { IfOk result (λ file.
            IfSome (text self.now path.now) (λ bytes. Self.File.remaining file ≡ Some bytes)) }
        ensures fault { IfErr result (λ e. script_fault e ≡ fault.Read) };
}

/// The files of the system, with standard input under the path `-`.
#[derive(Clone, Copy)]
pub struct SystemFiles<'a, R, I> {
    pub files: &'a R,
    pub input: &'a I,
}

/// An opened file of the system, or standard input.
#[derive(Drop)]
pub enum SystemFile<F, I> {
    File(F),
    Input(I),
}

impl<F: Read, I: Read> Read for SystemFile<F, I> {
    fn read(&mut self, buf: &mut [u8]) -> io::Result<usize> {
        match self {
            SystemFile::File(file) => file.read(buf),
            SystemFile::Input(input) => input.read(buf),
        }
    }
}

impl<R: Files, I: Input> Folder for SystemFiles<'_, R, I> {
    type File = SystemFile<R::File, I::Reader>;

    fn open<'a>(&self, path: &'a str) -> Result<SystemFile<R::File, I::Reader>, CommandFault<'a>> {
        let source = Source::named(path);
        if source == Source::StandardInput {
            return Ok(SystemFile::Input(self.input.reader()));
        }
        match fs::open(self.files, path) {
            Ok(file) => Ok(SystemFile::File(file)),
            Err(_) => Err(CommandFault::Unopened(source)),
        }
    }
}
