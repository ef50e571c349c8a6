//! The protocols of a module text, line by line.

ghost use Rattle.std.specs.Prelude.{◌≡◌, ◌++◌, IfOk, OnOk, OnErr};
ghost use Rattle.scrib_list.specs.Protocols.{protocol_text, protocol_texts};
ghost use Rattle.scrib_list.specs.Listings.{IsListed, IsListing};

use crate::listed::Listed;
use crate::protocol_line::push_protocol_line;
use crate::protocol_object::push_protocol_object;
use crate::read::{Reading, read};
use scrib_core::format::Format;
use scrib_core::reply::{Refusal, Reply};
use scrib_report::part::OutputPart;
use scrib_report::printing::push_part;
use scrib_tree::tree::ProtocolDeclaration;
use scrib_types::name::Dotted;
use std::alloc::{AllocError, Global};

// Appends the protocol in this format, with an LF. It fails where memory is refused, as do the functions below.
fn push_protocol(
    out: &mut Vec<u8>,
    format: Format,
    home: &Dotted,
    protocol: &ProtocolDeclaration,
) -> Result<(), AllocError>
    ensures { OnOk result (out.new.items ≡ out.old.items ++ protocol_text format home.now protocol.now) }
{
    match format {
        Format::Line => push_protocol_line(out, home, protocol),
        Format::Json => push_protocol_object(out, home, protocol),
    }
}

fn push_each_protocol(
    out: &mut Vec<u8>,
    format: Format,
    home: &Dotted,
    protocols: &[ProtocolDeclaration],
) -> Result<(), AllocError>
    ensures { OnOk result (out.new.items ≡ out.old.items ++ protocol_texts format home.now protocols.now) }
{
    for protocol in protocols {
        push_protocol(out, format, home, protocol)?;
    }
    Ok(())
}

// Returns what is listed of the text, and the lines.
fn listing(alloc: Global, format: Format, text: &[u8]) -> Result<(Listed, Vec<u8>), AllocError>
    ensures { IfOk result (λ listing. IsListing format text.now listing.0 listing.1.items) }
{
    let mut lines = Vec::new(alloc);
    match read(alloc, text)? {
        Reading::Module(tree) => {
            push_each_protocol(&mut lines, format, &tree.name, tree.protocols.as_slice())?;
            Ok((Listed::Protocols, lines))
        }
        Reading::Refused(fault) => {
            let reply = Reply::Refused(Refusal::Edit(fault));
            push_part(&mut lines, &OutputPart::Reply(&reply), format)?;
            Ok((Listed::Refusal, lines))
        }
    }
}

/// Appends a line for each protocol of the module text, in the order of the text: its full name, and its roles as they
/// are declared. In JSON the line is an object. Of a text that is no module it appends the line of the refusal that a
/// put of the text would get. Returns which of the two it was.
///
/// # Errors
/// `AllocError` where memory is refused; `out` is then as it was.
pub fn push_protocols(out: &mut Vec<u8>, format: Format, text: &[u8]) -> Result<Listed, AllocError>
    ensures ok { IfOk result (λ listed. IsListed format text.now listed out.old.items out.new.items) }
    ensures err { OnErr result (out.new.items ≡ out.old.items) }
{
    let (listed, lines) = listing(*out.allocator(), format, text)?;
    out.extend_from_slice(lines.as_slice())?;
    Ok(listed)
}
