//! Reads the options of a command line.

ghost use Rattle.std.specs.Prelude.{◌<◌, ◌+◌, ◌^◌};

use clap::ArgMatches;
use scrib_cli::id::id_of;
use scrib_cli::role_query::{Form, RoleQuery};
use scrib_core::format::Format;
use scrib_labelled::label_options::{LabelOptions, LabelledStyle};
use scrib_labelled::session_key::SessionKey;
use scrib_labels::session_name::is_session_name;
use scrib_run_service::shape::{Shape, ShapeFault};
use scrib_script_reader::limits::Limits;
use scrib_types::profile::Profile;

// The most lines for which an event may wait.
const MAX_BOUND: u32 = 16_777_216;

// The format of the output: JSON with `--json`, else lines of text.
pub(crate) fn format_of(matches: &ArgMatches) -> Format {
    if matches.get_flag("json") {
        Format::Json
    } else {
        Format::Line
    }
}

// The limits of the script: none with `--endless`.
pub(crate) fn limits_of(matches: &ArgMatches) -> Limits
    ensures { result.lines + 1 < 2 ^ 64 }
{
    if matches.get_flag("endless") {
        Limits::endless()
    } else {
        Limits::of_scripts()
    }
}

// How the lines of the script are spelled.
fn spelling_of(matches: &ArgMatches) -> LabelOptions {
    LabelOptions {
        tags: matches.get_flag("tags"),
        names: matches.get_flag("names"),
        objects: matches.get_str("input") == Some("json"),
    }
}

// The same, where it is not a script of plain lines.
pub(crate) fn labels_of(matches: &ArgMatches) -> Option<LabelOptions> {
    let labels = spelling_of(matches);
    if labels.tags || labels.names || labels.objects {
        Some(labels)
    } else {
        None
    }
}

// How `watch` runs a script whose lines are spelled so.
pub(crate) fn style_of(matches: &ArgMatches) -> LabelledStyle {
    LabelledStyle {
        labels: spelling_of(matches),
        closes: matches.get_flag("close-complete"),
        format: format_of(matches),
        lines: matches.get_flag("lines"),
    }
}

// The same, where the script is not one of plain lines, or its replies have the numbers of lines.
pub(crate) fn labelled_style_of(matches: &ArgMatches) -> Option<LabelledStyle> {
    let style = style_of(matches);
    if style.lines || labels_of(matches).is_some() {
        Some(style)
    } else {
        None
    }
}

// The number of the conversation that `explain` or `next` is asked about. Fails with the message for the user where the
// word is none.
pub(crate) fn number_of(matches: &ArgMatches) -> Result<u32, &'static str> {
    match id_of(matches.get_str("ID").unwrap_or("")) {
        Some(id) => Ok(id),
        None => Err("the ID is 1 to 10 decimal digits, at most 4294967295"),
    }
}

// The conversation that `explain` or `next` is asked about: a name where conversations have names, else a number. Fails
// with the message for the user where the word is neither.
pub(crate) fn session_key_of<'a>(
    matches: &ArgMatches<'a>,
    named: bool,
) -> Result<SessionKey<'a>, &'static str> {
    if !named {
        return Ok(SessionKey::Number(number_of(matches)?));
    }
    let word = matches.get_str("ID").unwrap_or("");
    if is_session_name(word.as_bytes()) {
        Ok(SessionKey::Name(word))
    } else {
        Err(
            "with --names the ID is 1 to 128 letters, digits and _ . : -, and no word that begins replies",
        )
    }
}

// For how many lines an event may wait, by this word. Fails with the message for the user where it is out of range.
pub(crate) fn bound_of(word: &str) -> Result<u64, &'static str> {
    match id_of(word) {
        Some(bound @ 1..=MAX_BOUND) => Ok(u64::from(bound)),
        _ => Err("an event may wait for 1 to 16777216 lines"),
    }
}

// The profile under which protocols are accepted: `Reception` with `--reception`, else `Plain`.
pub(crate) fn profile_of(matches: &ArgMatches) -> Profile {
    if matches.get_flag("reception") {
        Profile::Reception
    } else {
        Profile::Plain
    }
}

// The question of `project` or `machine`, whose projection is printed in this form.
pub(crate) fn query_of<'a>(matches: &ArgMatches<'a>, form: Form) -> RoleQuery<'a> {
    RoleQuery {
        form,
        profile: profile_of(matches),
        protocol: matches.get_str("PROTOCOL").unwrap_or(""),
        role: matches.get_str("ROLE").unwrap_or(""),
    }
}

// The numbers of shards and of workers for `run`. Fails with the message for the user where one is out of range.
pub(crate) fn shape_of(matches: &ArgMatches) -> Result<Shape, &'static str> {
    let shards = matches.get_str("shards").and_then(id_of);
    let workers = matches.get_str("workers").and_then(id_of);
    let (Some(shards), Some(workers)) = (shards, workers) else {
        return Err("the numbers of shards and of workers are decimal digits");
    };
    match Shape::new(shards as usize, workers as usize) {
        Ok(shape) => Ok(shape),
        Err(ShapeFault::BadShards) => Err("there may be 1 to 64 shards"),
        Err(ShapeFault::BadWorkers) => Err("there may be 1 to 16 workers"),
    }
}
