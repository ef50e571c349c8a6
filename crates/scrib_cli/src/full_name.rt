//! The full name of a protocol on a command line.

ghost use Rattle.std.specs.Prelude.{IfOk, option_map};
ghost use Rattle.scrib_script_reader.specs.Fields.{Finds};
ghost use Rattle.scrib_cli.specs.Projections.{IsFullName};
ghost use Rattle.scrib_cli.specs.ProjectionSteps.{AreNamesOf};

use scrib_types::name::{Dotted, Name};
use std::alloc::{AllocError, Global};

/// The full name of a protocol: the name of its module and its own.
#[derive(Drop)]
pub struct FullName {
    pub home: Dotted,
    pub protocol: Name,
}

/// Parses a full name, as `demo.Hello`. Returns `None` where the word isn't two or more names joined by dots.
///
/// # Errors
/// `AllocError` where memory for the name is refused.
pub fn full_name_of(alloc: Global, word: &str) -> Result<Option<FullName>, AllocError>
    ensures { IfOk result (Finds (IsFullName word.now)) }
{
    let Some(mut names) = names_of(alloc, word.as_bytes())? else {
        return Ok(None);
    };
    let Some(protocol) = names.pop() else {
        return Ok(None);
    };
    if names.is_empty() {
        return Ok(None);
    }
    let home = Dotted::from_vec(alloc, names)?;
    Ok(Some(FullName { home, protocol }))
}

// The names that the bytes join by dots, if they do.
fn names_of(alloc: Global, bytes: &[u8]) -> Result<Option<Vec<Name>>, AllocError>
    ensures { IfOk result (λ names. AreNamesOf bytes.now (option_map (λ v. v.items) names)) }
{
    let mut names = Vec::new(alloc);
    for piece in bytes.split(|byte| *byte == b'.') {
        let Some(name) = Name::from_bytes(alloc, piece)? else {
            return Ok(None);
        };
        names.push(name)?;
    }
    Ok(Some(names))
}
