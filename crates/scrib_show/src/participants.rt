//! The participants of a diagram.

ghost use Rattle.std.specs.Prelude.{◌≡◌, ◌++◌, OnOk};
ghost use Rattle.scrib_show.specs.ChartLines as chart;

use scrib_types::name::Role;
use scrib_types::text::{push_bytes, push_number};
use std::alloc::AllocError;

// Adds the line of each role. It fails where memory for the longer text is refused, as do the functions below.
pub(crate) fn push_participants(out: &mut Vec<u8>, roles: &[Role]) -> Result<(), AllocError>
    ensures { OnOk result (out.new.items ≡ out.old.items ++ chart.participants 1 roles.now) }
{
    for i in 0..roles.len() {
        push_participant(out, i + 1, roles[i].as_bytes())?;
    }
    Ok(())
}

// Adds the line of a role, whose place is this.
#[tactic(auto, unfolding(crate::specs::ChartLines::participant_line))]
fn push_participant(out: &mut Vec<u8>, place: usize, name: &[u8]) -> Result<(), AllocError>
    ensures { OnOk result (out.new.items ≡ out.old.items ++ chart.participant_line place name.now) }
{
    push_bytes(out, b"    participant ")?;
    push_alias(out, place)?;
    push_bytes(out, b" as ")?;
    push_label(out, name)?;
    push_bytes(out, b"\n")
}

// Adds what the role at this place is called in the diagram.
pub(crate) fn push_alias(out: &mut Vec<u8>, place: usize) -> Result<(), AllocError>
    ensures { OnOk result (out.new.items ≡ out.old.items ++ chart.alias_text place) }
{
    push_bytes(out, b"p")?;
    push_number(out, place as u64)
}

// Adds the label of a role.
fn push_label(out: &mut Vec<u8>, name: &[u8]) -> Result<(), AllocError>
    ensures { OnOk result (out.new.items ≡ out.old.items ++ chart.label_text name.now) }
{
    if is_end_word(name) {
        push_escaped(out, name)
    } else {
        push_bytes(out, name)
    }
}

// Whether the name is a keyword of the diagrams.
fn is_end_word(name: &[u8]) -> bool
    ensures { result ≡ chart.is_end_word name.now }
{
    match name {
        [a, b, c] => {
            (*a == b'e' || *a == b'E') && (*b == b'n' || *b == b'N') && (*c == b'd' || *c == b'D')
        }
        _ => false,
    }
}

// Adds the text with its first byte as an entity code.
fn push_escaped(out: &mut Vec<u8>, text: &[u8]) -> Result<(), AllocError>
    ensures { OnOk result (out.new.items ≡ out.old.items ++ chart.escaped text.now) }
{
    match text {
        [] => Ok(()),
        [first, rest @ ..] => {
            push_bytes(out, b"#")?;
            push_number(out, u64::from(*first))?;
            push_bytes(out, b";")?;
            push_bytes(out, rest)
        }
    }
}
