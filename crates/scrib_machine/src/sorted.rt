//! Edges, sorted by the printed text of their actions.

ghost use Rattle.std.specs.Prelude.{◌≡◌, ◌≢◌, IfOk, AllPairs};
ghost use Rattle.std.specs.List.Sorted.{IsPermutation};
ghost use Rattle.scrib_types.specs.Judgement.{ComesBefore};
ghost use Rattle.scrib_types.specs.Texts.{action_text};
ghost use Rattle.scrib_machine.specs.Layout as layout;

use crate::machine::Edge;
use scrib_types::event::Action;
use scrib_types::text::push_action;
use std::alloc::{AllocError, Global};

// Room for the printed text that most actions have.
const USUAL_TEXT: usize = 32;

// An edge, with the printed text of its action.
#[derive(Drop)]
struct Printed {
    edge: Edge,
    text: Vec<u8>,
}

/// The edges, sorted by the printed text of their actions. Each text is made once.
///
/// # Errors
/// `AllocError` where memory is refused, here and below.
pub fn sorted(alloc: Global, edges: Vec<Edge>) -> Result<Vec<Edge>, AllocError>
    requires { AllPairs (λ a b. a ≢ b) (layout.actions_of edges.items) }
    ensures same { IfOk result (λ list. IsPermutation edges.items list.items) }
    ensures sorted { IfOk result (λ list. AllPairs ComesBefore (layout.actions_of list.items)) }
{
    if edges.len() < 2 {
        return Ok(edges);
    }
    let mut list = with_texts(alloc, edges)?;
    list.sort_by(|a, b| a.text.as_slice().cmp(b.text.as_slice()))?;
    edges_of(alloc, list)
}

// Each edge with its text.
fn with_texts(alloc: Global, edges: Vec<Edge>) -> Result<Vec<Printed>, AllocError>
    ensures edges { IfOk result (λ list. layout.printed_edges list.items ≡ edges.items) }
    ensures texts { IfOk result (λ list. layout.AllPrinted list.items) }
{
    let mut list = Vec::with_capacity(alloc, edges.len())?;
    for edge in edges {
        let text = text_of(alloc, &edge.action)?;
        list.push(Printed { edge, text })?;
    }
    Ok(list)
}

// The edges without their texts.
fn edges_of(alloc: Global, list: Vec<Printed>) -> Result<Vec<Edge>, AllocError>
    ensures { IfOk result (λ edges. edges.items ≡ layout.printed_edges list.items) }
{
    let mut edges = Vec::with_capacity(alloc, list.len())?;
    for printed in list {
        edges.push(printed.edge)?;
    }
    Ok(edges)
}

// The action's printed text.
fn text_of(alloc: Global, action: &Action) -> Result<Vec<u8>, AllocError>
    ensures { IfOk result (λ text. text.items ≡ action_text action.now) }
{
    let mut text = Vec::with_capacity(alloc, USUAL_TEXT)?;
    push_action(&mut text, action)?;
    Ok(text)
}
