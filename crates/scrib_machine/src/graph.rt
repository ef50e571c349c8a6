//! Machines as graphs, in the DOT language of Graphviz.

ghost use Rattle.std.specs.Prelude.{◌≡◌, ℕ, ◌++◌, IfOk, OnOk};
ghost use Rattle.scrib_machine.specs.Graph as spec;

use crate::machine::{Edge, Machine};
use scrib_types::one_or_many::OneOrMany;
use scrib_types::text::{push_action, push_bytes, push_number};
use std::alloc::{AllocError, Global};

/// The machine's text as a graph in the DOT language, in ASCII. Each state is a node with its number, and an end is a
/// double circle. Each edge is labelled with its printed action. An arrow from a point leads to the start.
///
/// # Errors
/// `AllocError` where memory for the text is refused, here and below.
#[tactic(auto, unfolding(crate::specs::Graph::graph_text))]
pub fn graph_text(alloc: Global, machine: &Machine) -> Result<Vec<u8>, AllocError>
    ensures { IfOk result (λ text. text.items ≡ spec.graph_text machine.now) }
{
    let mut out = Vec::new(alloc);
    let rows = machine.rows();
    push_bytes(
        &mut out,
        b"digraph machine {\n  rankdir=LR;\n  node [shape=circle];\n",
    )?;
    push_bytes(&mut out, b"  start [shape=point];\n  start -> 0;\n")?;
    push_states(&mut out, rows)?;
    push_edges(&mut out, rows)?;
    push_bytes(&mut out, b"}\n")?;
    Ok(out)
}

// Adds a line for each state.
fn push_states(out: &mut Vec<u8>, rows: &[OneOrMany<Edge>]) -> Result<(), AllocError>
    ensures { OnOk result (out.new.items ≡ out.old.items ++ spec.state_lines 0 rows.now) }
{
    for (i, row) in rows.iter().enumerate() {
        push_state(out, i as u64, row.as_slice())?;
    }
    Ok(())
}

// Adds the line of the state of this number, which has these edges.
#[tactic(auto, unfolding(crate::specs::Graph::state_line))]
fn push_state(out: &mut Vec<u8>, number: u64, edges: &[Edge]) -> Result<(), AllocError>
    ensures { OnOk result (out.new.items ≡ out.old.items ++ spec.state_line number edges.now) }
{
    push_bytes(out, b"  ")?;
    push_number(out, number)?;
    push_bytes(out, shape_of(edges))?;
    push_bytes(out, b";\n")
}

// The attributes of the node of a state with these edges: an end is a double circle.
fn shape_of(edges: &[Edge]) -> &'static [u8]
    ensures { result.now ≡ spec.shape_of edges.now }
{
    match edges {
        [] => b" [shape=doublecircle]",
        [_, ..] => b"",
    }
}

// Adds a line for each edge of each state.
fn push_edges(out: &mut Vec<u8>, rows: &[OneOrMany<Edge>]) -> Result<(), AllocError>
    ensures { OnOk result (out.new.items ≡ out.old.items ++ spec.edge_lines 0 rows.now) }
{
    for (i, row) in rows.iter().enumerate() {
        push_row(out, i as u64, row.as_slice())?;
    }
    Ok(())
}

// Adds a line for each of these edges of the state of this number.
fn push_row(out: &mut Vec<u8>, number: u64, edges: &[Edge]) -> Result<(), AllocError>
    ensures { OnOk result (out.new.items ≡ out.old.items ++ spec.lines_from number edges.now) }
{
    for edge in edges {
        push_edge(out, number, edge)?;
    }
    Ok(())
}

// Adds the line of an edge of the state of this number. The label needs no escape: printed actions have letters,
// digits, underscores and the marks `!`, `?`, `(`, `)`, `,` and `.` alone.
#[tactic(auto, unfolding(crate::specs::Graph::edge_line))]
fn push_edge(out: &mut Vec<u8>, number: u64, edge: &Edge) -> Result<(), AllocError>
    ensures { OnOk result (out.new.items ≡ out.old.items ++ spec.edge_line number edge.now) }
{
    push_bytes(out, b"  ")?;
    push_number(out, number)?;
    push_bytes(out, b" -> ")?;
    push_number(out, u64::from(edge.next))?;
    push_bytes(out, b" [label=\"")?;
    push_action(out, &edge.action)?;
    push_bytes(out, b"\"];\n")
}
