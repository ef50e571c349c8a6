//! The input of the commands that read a script.

/// The input of a command that reads a script: the file of `path` in the folder, or where no path is given what the
/// reader reads.
#[derive(Drop)]
pub struct ScriptInput<'a, 'b, F, R> {
    pub folder: &'b F,
    pub path: Option<&'a str>,
    pub reader: R,
}
