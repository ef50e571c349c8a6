//! The text of refusals.

ghost use Rattle.std.specs.Prelude.{◌≡◌, ◌++◌, OnOk, codes};
ghost use Rattle.scrib_parser.specs.LeftOut.{spelling};
ghost use Rattle.scrib_types.specs.Texts.{dotted_text};
ghost use Rattle.scrib_report.specs.Lines as lines;

use scrib_core::reply::Refusal;
use scrib_lexer::fault::LexFault;
use scrib_library::fault::EditFault;
use scrib_parser::fault::{LeftOutWord, ParseFault};
use scrib_project::fault::Unmergeable;
use scrib_static_checks::fault::{Fault, FaultKind};
use scrib_types::name::Dotted;
use scrib_types::spot::Spot;
use scrib_types::text::{push_bytes, push_dotted, push_number};
use std::alloc::AllocError;

#[tactic(auto, unfolding(crate::specs::Lines::spot_text))]
fn push_spot(out: &mut Vec<u8>, spot: &Spot) -> Result<(), AllocError>
    ensures { OnOk result (out.new.items ≡ out.old.items ++ lines.spot_text spot.now) }
{
    push_bytes(out, b" ")?;
    push_number(out, u64::from(spot.line))?;
    push_bytes(out, b":")?;
    push_number(out, u64::from(spot.column))
}

// Appends the word and the place.
fn push_with_spot(out: &mut Vec<u8>, word: &[u8], spot: &Spot) -> Result<(), AllocError>
    ensures { OnOk result (out.new.items ≡ out.old.items ++ (word.now ++ lines.spot_text spot.now)) }
{
    push_bytes(out, word)?;
    push_spot(out, spot)
}

#[tactic(auto, unfolding(crate::specs::Lines::lex_fault_text))]
fn push_lex_fault(out: &mut Vec<u8>, fault: &LexFault) -> Result<(), AllocError>
    ensures { OnOk result (out.new.items ≡ out.old.items ++ lines.lex_fault_text fault.now) }
{
    match fault {
        LexFault::TextTooLong => push_bytes(out, b"TextTooLong"),
        LexFault::BadByte { at } => push_with_spot(out, b"BadByte", at),
        LexFault::OpenComment { at } => push_with_spot(out, b"OpenComment", at),
        LexFault::OpenString { at } => push_with_spot(out, b"OpenString", at),
        LexFault::LongName { at } => push_with_spot(out, b"LongName", at),
        LexFault::OutOfMemory => push_bytes(out, b"OutOfMemory"),
    }
}

fn push_left_out(out: &mut Vec<u8>, word: LeftOutWord, spot: &Spot) -> Result<(), AllocError>
    ensures { OnOk result (out.new.items
        ≡ out.old.items ++ (codes "LeftOut " ++ spelling word ++ lines.spot_text spot.now)) }
{
    push_bytes(out, b"LeftOut ")?;
    push_with_spot(out, word.text().as_bytes(), spot)
}

#[tactic(auto, unfolding(crate::specs::Lines::parse_fault_text))]
fn push_parse_fault(out: &mut Vec<u8>, fault: &ParseFault) -> Result<(), AllocError>
    ensures { OnOk result (out.new.items ≡ out.old.items ++ lines.parse_fault_text fault.now) }
{
    match fault {
        ParseFault::Unexpected { at } => push_with_spot(out, b"Unexpected", at),
        ParseFault::EndOfText => push_bytes(out, b"EndOfText"),
        ParseFault::LeftOut { word, at } => push_left_out(out, *word, at),
        ParseFault::TooDeep { at } => push_with_spot(out, b"TooDeep", at),
        ParseFault::OutOfMemory => push_bytes(out, b"OutOfMemory"),
    }
}

fn push_kind(out: &mut Vec<u8>, kind: FaultKind) -> Result<(), AllocError>
    ensures { OnOk result (out.new.items ≡ out.old.items ++ lines.kind_text kind) }
{
    match kind {
        FaultKind::NoModule => push_bytes(out, b"NoModule"),
        FaultKind::NoProtocol => push_bytes(out, b"NoProtocol"),
        FaultKind::TwiceDeclared => push_bytes(out, b"TwiceDeclared"),
        FaultKind::NoRole => push_bytes(out, b"NoRole"),
        FaultKind::RepeatedRole => push_bytes(out, b"RepeatedRole"),
        FaultKind::WrongCount => push_bytes(out, b"WrongCount"),
        FaultKind::SelfMessage => push_bytes(out, b"SelfMessage"),
        FaultKind::DoCycle => push_bytes(out, b"DoCycle"),
        FaultKind::NoRec => push_bytes(out, b"NoRec"),
        FaultKind::Unguarded => push_bytes(out, b"Unguarded"),
        FaultKind::Unreachable => push_bytes(out, b"Unreachable"),
        FaultKind::EmptyBranch => push_bytes(out, b"EmptyBranch"),
        FaultKind::ContinueHead => push_bytes(out, b"ContinueHead"),
        FaultKind::RecHead => push_bytes(out, b"RecHead"),
        FaultKind::NotChooser => push_bytes(out, b"NotChooser"),
        FaultKind::TwoReceivers => push_bytes(out, b"TwoReceivers"),
        FaultKind::SameOperator => push_bytes(out, b"SameOperator"),
        FaultKind::TooManyRoles => push_bytes(out, b"TooManyRoles"),
        FaultKind::TooLarge => push_bytes(out, b"TooLarge"),
    }
}

#[tactic(auto, unfolding(crate::specs::Lines::fault_text))]
fn push_fault(out: &mut Vec<u8>, fault: &Fault) -> Result<(), AllocError>
    ensures { OnOk result (out.new.items ≡ out.old.items ++ lines.fault_text fault.now) }
{
    push_kind(out, fault.kind)?;
    push_bytes(out, b" ")?;
    push_dotted(out, &fault.module)?;
    push_spot(out, &fault.spot)
}

#[tactic(auto, unfolding(crate::specs::Lines::unmergeable_text))]
fn push_unmergeable(out: &mut Vec<u8>, fault: &Unmergeable) -> Result<(), AllocError>
    ensures { OnOk result (out.new.items ≡ out.old.items ++ lines.unmergeable_text fault.now) }
{
    push_bytes(out, b"Unmergeable ")?;
    push_bytes(out, fault.role.as_bytes())?;
    push_bytes(out, b" ")?;
    push_dotted(out, &fault.module)?;
    push_spot(out, &fault.spot)
}

fn push_with_name(out: &mut Vec<u8>, word: &[u8], name: &Dotted) -> Result<(), AllocError>
    ensures { OnOk result (out.new.items ≡ out.old.items ++ (word.now ++ dotted_text name.now)) }
{
    push_bytes(out, word)?;
    push_dotted(out, name)
}

#[tactic(auto, unfolding(crate::specs::Lines::edit_fault_text))]
fn push_edit_fault(out: &mut Vec<u8>, fault: &EditFault) -> Result<(), AllocError>
    ensures { OnOk result (out.new.items ≡ out.old.items ++ lines.edit_fault_text fault.now) }
{
    match fault {
        EditFault::Lex(fault) => push_lex_fault(out, fault),
        EditFault::Parse(fault) => push_parse_fault(out, fault),
        EditFault::UnknownModule => push_bytes(out, b"UnknownModule"),
        EditFault::TooManyModules => push_bytes(out, b"TooManyModules"),
        EditFault::StillImported { by } => push_with_name(out, b"StillImported ", by),
        EditFault::ImportMissing { module } => push_with_name(out, b"ImportMissing ", module),
        EditFault::TooManyProtocols => push_bytes(out, b"TooManyProtocols"),
        EditFault::Elaborate(fault) => push_fault(out, fault),
        EditFault::Project(fault) => push_unmergeable(out, fault),
        EditFault::VersionsFull => push_bytes(out, b"VersionsFull"),
        EditFault::NeedsReception { name } => push_with_name(out, b"NeedsReception ", name),
        EditFault::OutOfMemory => push_bytes(out, b"OutOfMemory"),
    }
}

// Appends why a step was refused.
#[tactic(auto, unfolding(crate::specs::Lines::refusal_text))]
pub(crate) fn push_refusal(out: &mut Vec<u8>, refusal: &Refusal) -> Result<(), AllocError>
    ensures { OnOk result (out.new.items ≡ out.old.items ++ lines.refusal_text refusal.now) }
{
    match refusal {
        Refusal::AlreadyOpen => push_bytes(out, b"AlreadyOpen"),
        Refusal::UnknownProtocol => push_bytes(out, b"UnknownProtocol"),
        Refusal::TooManyConversations => push_bytes(out, b"TooManyConversations"),
        Refusal::NoConversation => push_bytes(out, b"NoConversation"),
        Refusal::Edit(fault) => push_edit_fault(out, fault),
        Refusal::LogFull => push_bytes(out, b"LogFull"),
        Refusal::OutOfMemory => push_bytes(out, b"OutOfMemory"),
    }
}
