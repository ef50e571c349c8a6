//! Hands items on to a sink, in order.

ghost use Rattle.std.specs.Prelude.{◌≡◌, ◌++◌, ◌∷◌, [], true, IfErr, OnOk, OnErr, map};
ghost use Rattle.scrib_script_reader.specs.Scripts.{item_list};
ghost use Rattle.scrib_script_io.specs.Faults.{of_output};
ghost use Rattle.scrib_hold_stage.specs.PendingClosings.{closings_in};
ghost use Rattle.scrib_hold.specs.HeldScripts.{item_of};
ghost use Rattle.scrib_hold.specs.NumberedItems.{numbered_at, numbered_closed, numbered_closing, numbered_event};
ghost use Rattle.scrib_hold.specs.Sinks.{FailsWithin, GathersItem, GathersItems};

use crate::item_sink::ItemSink;
use scrib_core::format::Format;
use scrib_core::step::Step;
use scrib_hold_stage::closings::{Closing, PendingClosings};
use scrib_hold_stage::noted::Noted;
use scrib_script_io::fault::ScriptFault;
use scrib_script_reader::item::Item;
use scrib_types::shared_event::SharedEvent;

// Carries out an event that was released. After an error what is gathered is unchanged.
fn take_event<S: ItemSink>(
    sink: &mut S,
    noted: Noted<(SharedEvent, Format)>,
) -> Result<(), ScriptFault>
    ensures ok { OnOk result (GathersItem S.carries S.gathered sink.old sink.new noted.time (item_of noted)) }
    ensures err { OnErr result (S.gathered sink.new ≡ S.gathered sink.old) }
    ensures fault { IfErr result (λ e. of_output e ≡ true) }
{
    let id = noted.conversation;
    let (event, asked) = noted.arrival;
    match asked {
        // most events of a long script
        Format::Line => sink.note(noted.time, id, event),
        Format::Json => sink.take(
            noted.time,
            Item::Step(Format::Json, Step::Note { id, event }),
        ),
    }
}

/// Carries out the events that were released, in order.
///
/// # Errors
/// `OutOfMemory` where there is no memory for the output. That of some first events is then gathered.
pub(crate) fn take_released<S: ItemSink>(
    sink: &mut S,
    released: &mut Vec<Noted<(SharedEvent, Format)>>,
) -> Result<(), ScriptFault>
    ensures ok { OnOk result (GathersItems S.carries S.gathered sink.old sink.new
        (map numbered_event released.old.items)) }
    ensures err { OnErr result (FailsWithin S.carries S.gathered sink.old sink.new
        (map numbered_event released.old.items)) }
    ensures fault { IfErr result (λ e. of_output e ≡ true) }
{
    released.reverse();
    while let Some(noted) = released.pop() {
        take_event(sink, noted)?;
    }
    Ok(())
}

// Carries the item of entry `number` out, if there is one. After an error what is gathered is unchanged.
fn take_passing<S: ItemSink>(
    sink: &mut S,
    number: u64,
    passing: Option<Item>,
) -> Result<(), ScriptFault>
    ensures ok { OnOk result (GathersItems S.carries S.gathered sink.old sink.new
        (numbered_at number (item_list passing))) }
    ensures err { OnErr result (S.gathered sink.new ≡ S.gathered sink.old) }
    ensures fault { IfErr result (λ e. of_output e ≡ true) }
{
    match passing {
        Some(item) => sink.take(number, item),
        None => Ok(()),
    }
}

/// Carries out what passes at once of entry `number`, and then the events that were released.
///
/// # Errors
/// `OutOfMemory` where there is no memory for the output. That of some first items is then gathered.
pub(crate) fn take_let_out<S: ItemSink>(
    sink: &mut S,
    number: u64,
    passing: Option<Item>,
    released: &mut Vec<Noted<(SharedEvent, Format)>>,
) -> Result<(), ScriptFault>
    ensures ok { OnOk result (GathersItems S.carries S.gathered sink.old sink.new
        (numbered_at number (item_list passing) ++ map numbered_event released.old.items)) }
    ensures err { OnErr result (FailsWithin S.carries S.gathered sink.old sink.new
        (numbered_at number (item_list passing) ++ map numbered_event released.old.items)) }
    ensures fault { IfErr result (λ e. of_output e ≡ true) }
{
    take_passing(sink, number, passing)?;
    take_released(sink, released)
}

// Carries the closing out. After an error what is gathered is unchanged.
fn take_closing<S: ItemSink>(sink: &mut S, closing: Closing<Format>) -> Result<(), ScriptFault>
    ensures ok { OnOk result (GathersItems S.carries S.gathered sink.old sink.new (numbered_closing closing ∷ [])) }
    ensures err { OnErr result (S.gathered sink.new ≡ S.gathered sink.old) }
    ensures fault { IfErr result (λ e. of_output e ≡ true) }
{
    let id = closing.conversation;
    sink.take(closing.time, Item::Step(closing.line, Step::Close { id }))
}

/// Carries out the events that were released, and then the closing.
///
/// # Errors
/// `OutOfMemory` where there is no memory for the output. That of some first items is then gathered.
pub(crate) fn take_closed<S: ItemSink>(
    sink: &mut S,
    released: &mut Vec<Noted<(SharedEvent, Format)>>,
    closing: Closing<Format>,
) -> Result<(), ScriptFault>
    ensures ok { OnOk result (GathersItems S.carries S.gathered sink.old sink.new
        (numbered_closed closing released.old.items)) }
    ensures err { OnErr result (FailsWithin S.carries S.gathered sink.old sink.new
        (numbered_closed closing released.old.items)) }
    ensures fault { IfErr result (λ e. of_output e ≡ true) }
{
    take_released(sink, released)?;
    take_closing(sink, closing)
}

// Carries out the closings that wait, in order. After an error the output of some first ones is gathered.
fn take_closings<S: ItemSink>(
    sink: &mut S,
    pending: &mut PendingClosings<Format>,
) -> Result<(), ScriptFault>
    ensures ok { OnOk result (GathersItems S.carries S.gathered sink.old sink.new
        (map numbered_closing (closings_in pending.old))) }
    ensures err { OnErr result (FailsWithin S.carries S.gathered sink.old sink.new
        (map numbered_closing (closings_in pending.old))) }
    ensures fault { IfErr result (λ e. of_output e ≡ true) }
{
    while let Some(closing) = pending.pop() {
        take_closing(sink, closing)?;
    }
    Ok(())
}

/// Carries out the closings that wait, in order. Then carries out an end inside a module text, where there is one,
/// with `number`.
///
/// # Errors
/// `OutOfMemory` where there is no memory for the output. That of some first items is then gathered.
pub(crate) fn take_end<S: ItemSink>(
    sink: &mut S,
    pending: &mut PendingClosings<Format>,
    number: u64,
    end: Option<Item>,
) -> Result<(), ScriptFault>
    ensures ok { OnOk result (GathersItems S.carries S.gathered sink.old sink.new
        (map numbered_closing (closings_in pending.old) ++ numbered_at number (item_list end))) }
    ensures err { OnErr result (FailsWithin S.carries S.gathered sink.old sink.new
        (map numbered_closing (closings_in pending.old) ++ numbered_at number (item_list end))) }
    ensures fault { IfErr result (λ e. of_output e ≡ true) }
{
    take_closings(sink, pending)?;
    take_passing(sink, number, end)
}
