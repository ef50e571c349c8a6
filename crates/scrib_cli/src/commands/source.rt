//! The sources that the commands read.

use std::fmt;
use std::fmt::{Display, Formatter};

/// The source that a command reads.
#[derive(Clone, Copy, Debug, PartialEq, Eq)]
pub enum Source<'a> {
    /// The file of this path.
    File(&'a str),
    /// Standard input.
    StandardInput,
}

/// The path, or `standard input`.
impl Display for Source<'_> {
    fn fmt<W: fmt::Write>(&self, f: &mut Formatter<W>) -> fmt::Result {
        match *self {
            Source::File(path) => f.write_str(path),
            Source::StandardInput => f.write_str("standard input"),
        }
    }
}

impl<'a> Source<'a> {
    /// Returns the source that a word of the command line names: standard input for `-`, else the file of this path.
    pub fn named(word: &'a str) -> Source<'a> {
        if word == "-" {
            Source::StandardInput
        } else {
            Source::File(word)
        }
    }
}
