//! Makes the steps of a connection.

ghost use Rattle.std.specs.Prelude.{◌≡◌, false};
ghost use Rattle.scrib_client.specs.Steps.{IsMadeSome, is_close};

use crate::passes::Passes;
use crate::service_reply::{ServiceReply, asked, edited, judged, noted, profiled, refused};
use scrib_core::reply::{Edit, Refusal, Reply};
use scrib_core::step::Step;
use scrib_shards::gate::OpenGate;
use scrib_shards::service::Service;
use std::sync::Wait;

/// Makes the step over the service, and returns its reply.
///
/// A note and a question are made by the pass of their conversation. Connects first where there is no pass. The step
/// closes no conversation: a close needs the passes of all connections to the conversation.
pub fn make_step(rt: &impl Wait, service: &Service, passes: &mut Passes, step: Step) -> ServiceReply
    requires { is_close step ≡ false }
    ensures { IsMadeSome passes.old.by_id.entries step result }
{
    match step {
        Step::Put { text } => edited(Edit::Put, service.put(rt, text.as_slice())),
        Step::Withdraw { name } => edited(Edit::Withdraw, service.withdraw(rt, &name)),
        Step::Profile { profile } => profiled(profile, service.profile(rt, profile)),
        Step::Open { id, name } => match service.open(rt, id, &name) {
            Ok(()) => ServiceReply::Reply(Reply::Opened { id, name }),
            Err(refusal) => refused(refusal),
        },
        Step::Note { id, event } => noted(id, passes.note(rt, service, id, event)),
        Step::Turn { id } => judged(id, service.turn(rt, id, &OpenGate)),
        Step::Ask { id } => asked(id, passes.ask(rt, service, id)),
        // No connection closes a conversation.
        Step::Close { .. } => refused(Refusal::NoConversation),
    }
}
