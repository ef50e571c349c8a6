//! Commands over texts: the script, or the module texts, that follow the command.

mod beside;
mod past;
mod repeated;
mod whole;

use crate::fault::RowsFault;
pub(crate) use crate::texts::beside::printed_beside;
pub(crate) use crate::texts::past::printed_past;
pub(crate) use crate::texts::repeated::printed_repeated;
use crate::texts::whole::push_judgements;
use scrib_cli::explain_script::explain_script;
use scrib_cli::id::id_of;
use scrib_cli::role_query::{Form, RoleQuery, write_projection};
use scrib_cli::run_script::{Format, run_script};
use scrib_types::containers::Items;
use scrib_types::profile::Profile;
use std::alloc::Global;

/// Adds the role's projection, or its machine, from the module texts of the body, with lines `%%` between them.
pub(crate) fn push_role(
    alloc: Global,
    query: &RoleQuery<'_>,
    body: &str,
    out: &mut Vec<u8>,
) -> Result<(), RowsFault> {
    let mut texts = Vec::new(alloc);
    for text in body.split("\n%%\n") {
        texts.push(Some(Items::from_slice(alloc, text.as_bytes())?))?;
    }
    write_projection(alloc, query, &texts, out)?;
    Ok(())
}

// Runs the command over what follows its line, and adds what it prints under this profile for roles.
fn obey(
    alloc: Global,
    profile: Profile,
    command: &str,
    body: &str,
    out: &mut Vec<u8>,
) -> Result<(), RowsFault> {
    let mut words = command.split_whitespace();
    let mut reader = body.as_bytes();
    match (words.next(), words.next(), words.next()) {
        (Some("watch"), None, None) => run_script(alloc, Format::Line, &mut reader, out)?,
        (Some("judge"), None, None) => push_judgements(alloc, body, out)?,
        (Some("explain"), Some(id), None) => {
            let id = id_of(id).ok_or(RowsFault::BadRow)?;
            explain_script(alloc, &mut reader, id, out)?;
        }
        (Some(word), Some(protocol), Some(role)) => {
            let form = match word {
                "project" => Form::Text,
                "machine" => Form::Graph,
                _ => return Err(RowsFault::BadRow),
            };
            let query = RoleQuery {
                form,
                profile,
                protocol,
                role,
            };
            push_role(alloc, &query, body, out)?;
        }
        _ => return Err(RowsFault::BadRow),
    }
    Ok(())
}

// What the command prints under this profile. A script has the line in front of it.
fn printed_under(
    alloc: Global,
    profile: Profile,
    line: &str,
    command: &str,
    body: &str,
) -> Result<Vec<u8>, RowsFault> {
    let line = match command.split(' ').next() {
        Some("watch" | "judge" | "explain") => line,
        _ => "",
    };
    let text = format!(in alloc; "{line}{body}")?;
    let mut out = Vec::new(alloc);
    obey(alloc, profile, command, text.as_str(), &mut out)?;
    Ok(out)
}

/// What the command prints over what follows its line; then also what it prints where receptions merge, where that is
/// something else.
pub(crate) fn printed_texts(
    alloc: Global,
    command: &str,
    body: &str,
) -> Result<Vec<u8>, RowsFault> {
    let mut out = Vec::new(alloc);
    obey(alloc, Profile::Plain, command, body, &mut out)?;
    let plain = printed_under(alloc, Profile::Plain, "#\n", command, body)?;
    let line = "profile reception\n";
    let wider = printed_under(alloc, Profile::Reception, line, command, body)?;
    let wider = wider
        .strip_prefix(line.as_bytes())
        .unwrap_or(wider.as_slice());
    if wider != plain.as_slice() {
        out.extend_from_slice(b"-- where receptions merge\n")?;
        out.extend_from_slice(wider)?;
    }
    Ok(out)
}
