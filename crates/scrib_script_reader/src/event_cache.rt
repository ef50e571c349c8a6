//! The events of exchanges, cached by the text of their exchange.

ghost use Rattle.std.specs.Prelude.{◌≡◌, ℕ, List, IfOk, IfSome};
ghost use Rattle.std.proofs.Props.{props};
ghost use Rattle.scrib_types.specs.declared.event.Event.TheVariants.{Sent, Received};
ghost use Rattle.scrib_script_reader.specs.declared.direction.Direction.TheVariants.{Send, Receive};
ghost use Rattle.scrib_script_reader.specs.Heads.{SpellsEvent, SpellsExchange};

use crate::direction::Direction;
use crate::exchange::{Exchange, exchange_of};
use crate::fields::fields_of;
use crate::text_cache::{Spelled, TextCache};
use scrib_types::event::Event;
use scrib_types::shared_event::SharedEvent;
use std::alloc::{AllocError, Global};

// The two events of an exchange.
#[derive(Drop)]
pub(crate) struct ExchangeEvents {
    sent: SharedEvent,
    received: SharedEvent,
}

// The text's fields are the sender, the receiver and the message of both events.
impl Spelled for ExchangeEvents {
    ghost spells = { λ text e. SpellsEvent text Send e.sent × SpellsEvent text Receive e.received };

    ghost spells_once = { λ _ _. Prim.hlevel props };
}

impl ExchangeEvents {
    // The event in this direction.
    fn event(&self, direction: Direction) -> &SharedEvent
        ensures { (text : List ℕ) → SpellsEvent text Send self.now.sent × SpellsEvent text Receive self.now.received →
            SpellsEvent text direction result.now }
    {
        match direction {
            Direction::Send => &self.sent,
            Direction::Receive => &self.received,
        }
    }
}

impl TextCache<ExchangeEvents> {
    // The event in this direction of the exchange that the text's fields spell, or none where they spell no exchange.
    pub fn event(
        &mut self,
        direction: Direction,
        text: &[u8],
    ) -> Result<Option<SharedEvent>, AllocError>
        ensures { IfOk result (λ found. IfSome found (SpellsEvent text.now direction)) }
    {
        if let Some(events) = self.find(text) {
            return Ok(Some(events.event(direction).copy()?));
        }
        let fields = fields_of(self.allocator(), text)?;
        let Some(exchange) = exchange_of(self.allocator(), fields.as_slice())? else {
            return Ok(None);
        };
        let events = events_of(self.allocator(), exchange)?;
        let event = events.event(direction).copy()?;
        self.store(text, events)?;
        Ok(Some(event))
    }
}

// Both events of the exchange.
fn events_of(alloc: Global, exchange: Exchange) -> Result<ExchangeEvents, AllocError>
    ensures sent { IfOk result (λ events. events.sent ≡ Sent exchange.from exchange.to exchange.message) }
    ensures received { IfOk result (λ events. events.received ≡ Received exchange.from exchange.to exchange.message) }
{
    let sent = sent_of(alloc, &exchange)?;
    let Exchange { from, to, message } = exchange;
    let received = SharedEvent::new(alloc, Event::Received { from, to, message })?;
    Ok(ExchangeEvents { sent, received })
}

// The event that sends the exchange's message.
fn sent_of(alloc: Global, exchange: &Exchange) -> Result<SharedEvent, AllocError>
    ensures { IfOk result (λ e. e ≡ Sent exchange.now.from exchange.now.to exchange.now.message) }
{
    let from = exchange.from.copy()?;
    let to = exchange.to.copy()?;
    let message = exchange.message.copy()?;
    SharedEvent::new(alloc, Event::Sent { from, to, message })
}
