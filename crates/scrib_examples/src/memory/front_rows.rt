//! Rows of the front end, of machines and of queues.

ghost use Rattle.std.specs.Prelude.{◌≡◌};

use crate::fault::{RowsFault, check};
use crate::making::{DEMO, event_of, name_of};
use crate::memory::core_rows::core_after;
use crate::memory::rows;
use crate::memory::script_rows::PAGE_BYTES;
use crate::texts::push_role;
use scrib_cli::role_query::{Form, RoleQuery};
use scrib_core::reply::Refusal;
use scrib_elaborate::elaborate::elaborate;
use scrib_lexer::lex::lex;
use scrib_library::fault::EditFault;
use scrib_parser::interner::Interner;
use scrib_parser::parse::parse;
use scrib_project::protocol::protocol;
use scrib_queues::queues::Queues;
use scrib_static_checks::modules::Modules;
use scrib_types::event::Event;
use scrib_types::global::GlobalType;
use scrib_types::name::{Dotted, Name};
use scrib_types::profile::Profile;
use scrib_types::protocol::Protocol;
use scrib_types::shared_message::SharedMessage;
use std::alloc::Global;

// What is printed of the demonstration: the form, the role, and the text.
const PRINTED: [(Form, &str, &str); 3] = [
    (Form::Text, "A", "B!hello().B?bye().end\n"),
    (Form::Text, "B", "A?hello().A!bye().end\n"),
    (Form::Graph, "A", MACHINE),
];

// The machine of A.
const MACHINE: &str =
    "digraph machine {\n  rankdir=LR;\n  node [shape=circle];\n  start [shape=point];\n  start -> 0;\n  0;\n  1;\n  2 [shape=doublecircle];\n  0 -> 1 [label=\"B!hello()\"];\n  1 -> 2 [label=\"B?bye()\"];\n}\n";

// The protocol of the demonstration, made by itself.
fn agreed(alloc: Global, module: &Dotted, name: &Name) -> Result<Protocol, EditFault> {
    let tokens = lex(alloc, DEMO.as_bytes())?;
    let tree = parse(alloc, &tokens, &mut Interner::new())?;
    let mut modules = Modules::new(alloc);
    modules.add(tree)?;
    let elaborated = elaborate(alloc, &modules, module, name)?;
    Ok(protocol(alloc, elaborated, Profile::Plain)?)
}

// The protocol of the demonstration, made by itself, means what a monitor has.
fn check_protocol(alloc: Global) -> Result<(), RowsFault> {
    let module = name_of(alloc, "open 0 demo")?;
    let name = name_of(alloc, "open 0 Hello")?;
    let agreed = agreed(alloc, &module, &name.as_slice()[0]).map_err(Refusal::Edit)?;
    let core = core_after(alloc, rows::DEMO_OPENED)?;
    match core.view(1) {
        Some((Some(protocol), _)) => check(Protocol::same_meaning(&agreed, protocol)),
        _ => Err(RowsFault::Wrong),
    }
}

/// The tokens of a module, its protocol, the projections of that, and the machine of one. Of a role nothing is written
/// where memory is refused.
pub(crate) fn run_front_end(alloc: Global) -> Result<(), RowsFault> {
    let tokens = lex(alloc, DEMO.as_bytes())
        .map_err(EditFault::from)
        .map_err(Refusal::Edit)?;
    check(tokens.len() == 31 && tokens[0].bytes.len() == 6)?;
    drop(tokens);
    check_protocol(alloc)?;
    for (form, role, want) in PRINTED {
        let query = RoleQuery {
            form,
            profile: Profile::Plain,
            protocol: "demo.Hello",
            role,
        };
        let mut written = Vec::with_capacity(alloc, PAGE_BYTES)?;
        match push_role(alloc, &query, DEMO, &mut written) {
            Ok(()) => check(written.as_slice() == want.as_bytes())?,
            fault => {
                check(written.is_empty())?;
                return fault;
            }
        }
    }
    Ok(())
}

// The message is in the queues and in their copy, and nothing else is.
fn check_queues(
    alloc: Global,
    queues: &mut Queues<SharedMessage>,
    message: &SharedMessage,
) -> Result<(), RowsFault>
    requires { queues.old.roles ≡ 2 }
{
    let copy = match queues.copy(alloc) {
        Ok(copy) => copy,
        Err(_) => queues.copy(alloc).ok().ok_or(RowsFault::Again)?,
    };
    check(matches!(queues.front(0, 1), Some(front) if front.equal(message)))?;
    check(matches!(copy.front(0, 1), Some(front) if front.equal(message)))?;
    check(queues.front(1, 0).is_none())?;
    let popped = queues.pop(0, 1);
    check(matches!(&popped, Some(front) if front.equal(message)))?;
    check(queues.pop(0, 1).is_none())
}

/// A queue and its copy.
pub(crate) fn run_queues(alloc: Global) -> Result<(), RowsFault> {
    let event = event_of(alloc, "send 0 A B a()")?;
    let Event::Sent { message, .. } = event.get() else {
        return Err(RowsFault::Wrong);
    };
    let mut queues = Queues::new(alloc, 2);
    if queues.reserve(0, 1).is_err() {
        check(queues.front(0, 1).is_none())?;
        queues.reserve(0, 1).ok().ok_or(RowsFault::Again)?;
    }
    queues.push(0, 1, message.copy()?);
    check_queues(alloc, &mut queues, message)
}

/// A global type and its copy.
pub(crate) fn run_copies(alloc: Global) -> Result<(), RowsFault> {
    let core = core_after(alloc, rows::TWO_OF_THREE)?;
    let Some((Some(protocol), _)) = core.view(1) else {
        return Err(RowsFault::Wrong);
    };
    let copy = GlobalType::copy(alloc, protocol.global())?;
    check(GlobalType::equal(&copy, protocol.global()))
}
