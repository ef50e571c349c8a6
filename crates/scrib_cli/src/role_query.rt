//! Writes the projection of a protocol on a role: its local type, or the graph of its machine.

ghost use Rattle.std.specs.Prelude.{◌≡◌, ◌⊎◌, ◌++◌, ◌∷◌, [], ℕ, List, Bool, IfOk, IfErr, OnErr};
ghost use Rattle.std.specs.Io.KnownBytes.{Appends};
ghost use Rattle.scrib_types.specs.LocalView.{local_of};
ghost use Rattle.scrib_projection.specs.Text.{local_text};
ghost use Rattle.scrib_machine.specs.Compilable.{IsCompilable};
ghost use Rattle.scrib_core.specs.declared.reply.Reply.TheVariants.{Refused};
ghost use Rattle.scrib_core.specs.declared.reply.Refusal.TheVariants.{Edit};
ghost use Rattle.scrib_report.specs.LineOutput.{reply_line};
ghost use Rattle.scrib_script_io.specs.Writes.{AppendsPart};
ghost use Rattle.scrib_cli.specs.Projections.{IsQueryOutput, FaultImplies, IsTextOf, IsPrinted, IsGraphOf, is_projection};
ghost use Rattle.scrib_cli.specs.ProjectionSteps.{HasMachine};

use crate::explanation::refusal;
pub use crate::form::Form;
use crate::projection::{Projection, projection_of};
use scrib_core::reply::{Refusal, Reply};
use scrib_library::fault::EditFault;
use scrib_machine::compile::compile;
use scrib_machine::graph::graph_text;
use scrib_projection::text::text;
use scrib_report::line::push_whole_line;
pub use scrib_script_io::fault::ScriptFault;
use scrib_script_io::writing::{flush_out, write_out};
use scrib_types::containers::Items;
use scrib_types::local::Local;
use scrib_types::profile::Profile;
use std::alloc::{AllocError, Global};
use std::io::Write;

/// A question about a role of a protocol.
#[derive(Clone, Copy)]
pub struct RoleQuery<'a> {
    /// The form in which the projection is printed.
    pub form: Form,
    /// The profile under which the protocol is projected.
    pub profile: Profile,
    /// The full name of the protocol, as `demo.Hello`.
    pub protocol: &'a str,
    /// The name of the role.
    pub role: &'a str,
}

/// Writes the projection that the query asks for, or one refusal line.
///
/// In `Form::Text` the projection is one line, as `B!hello().B?bye().end`. In `Form::Graph` it is the machine of the
/// role, as a graph in the DOT language. The refusal line is the same in both forms.
///
/// `texts` are module texts. A text that can't be read is given as `None`; of a text that is too long the first
/// 1,048,577 bytes are enough. Refusals are found in this order:
/// - `refused NoProtocol` where the protocol isn't two or more names joined by dots;
/// - for each text in order the fault that it can't be read, or why it is no module, as `refused EndOfText`;
/// - why the protocol has no meaning, as `refused NoRole demo 2:1`;
/// - `refused NoRole` where the protocol declares no such role;
/// - `refused Unmergeable C m 2:1` where it has no projection on the role.
///
/// Flushes the writer. Returns whether it wrote a projection.
///
/// # Errors
/// After an error, nothing or a prefix of the output is written.
/// - `Read` where the protocol has a full name and the first text that is no module can't be read.
/// - `Write` where the writer fails.
/// - `OutOfMemory` where memory is refused.
pub fn write_projection<W: Write>(
    alloc: Global,
    query: &RoleQuery<'_>,
    texts: &[Option<Items<u8>>],
    writer: &mut W,
) -> Result<bool, ScriptFault>
    ensures ok { IfOk result (λ has_projection. (written : List ℕ)
        × IsQueryOutput query.now texts.now has_projection written
        × Appends (W.contents writer.old) (W.contents writer.new) written) }
    ensures err { OnErr result (Appends (W.contents writer.old) (W.contents writer.new) []
        ⊎ ((has_projection : Bool) × (written : List ℕ)
        × IsQueryOutput query.now texts.now has_projection written
        × AppendsPart (W.contents writer.old) (W.contents writer.new) written)) }
    ensures fault { IfErr result (FaultImplies query.now texts.now) }
{
    let projection = projection_of(alloc, query.profile, query.protocol, query.role, texts)?;
    let (has_projection, written) = projection_output(alloc, query.form, projection)?;
    write_out(writer, written.as_slice())?;
    flush_out(writer)?;
    Ok(has_projection)
}

// Whether the role has a projection, and the text of it or of the refusal.
fn projection_output(
    alloc: Global,
    form: Form,
    projection: Projection,
) -> Result<(bool, Vec<u8>), AllocError>
    requires { HasMachine projection }
    ensures { IfOk result (λ r. (r.0 ≡ is_projection projection) × IsTextOf form projection r.1.items) }
{
    match projection {
        Projection::Projects(local) => Ok((true, printed(alloc, form, &local)?)),
        Projection::NoProtocol => Ok((false, refusal(alloc, b"NoProtocol")?)),
        Projection::NoRole => Ok((false, refusal(alloc, b"NoRole")?)),
        Projection::Refused(fault) => Ok((false, fault_line(alloc, fault)?)),
    }
}

// The text of a local type, in this form.
fn printed(alloc: Global, form: Form, local: &Local) -> Result<Vec<u8>, AllocError>
    requires { IsCompilable (local_of local.now) }
    ensures { IfOk result (λ text. IsPrinted form local.now text.items) }
{
    match form {
        Form::Text => local_line(alloc, local),
        Form::Graph => local_graph(alloc, local),
    }
}

// The line of a local type.
fn local_line(alloc: Global, local: &Local) -> Result<Vec<u8>, AllocError>
    ensures { IfOk result (λ line. line.items ≡ local_text 0 (local_of local.now) ++ 10 ∷ []) }
{
    let mut line = text(alloc, local)?;
    line.push(b'\n')?;
    Ok(line)
}

// The graph of a local type's machine.
fn local_graph(alloc: Global, local: &Local) -> Result<Vec<u8>, AllocError>
    requires { IsCompilable (local_of local.now) }
    ensures { IfOk result (λ text. IsGraphOf (local_of local.now) text.items) }
{
    let machine = compile(alloc, local)?;
    graph_text(alloc, &machine)
}

// The refusal line of a fault.
fn fault_line(alloc: Global, fault: EditFault) -> Result<Vec<u8>, AllocError>
    ensures { IfOk result (λ line. line.items ≡ reply_line (Refused (Edit fault))) }
{
    let reply = Reply::Refused(Refusal::Edit(fault));
    let mut text = Vec::new(alloc);
    push_whole_line(&mut text, &reply)?;
    Ok(text)
}
