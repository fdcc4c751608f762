//! Circuit graphs, ready orders, moves and widths.

ghost use Rattle.unqomp.specs.GraphOf.{IsGraphOf};

use crate::graphs::{has_edges, has_order};
use crate::words;
use flat_core::Flat;
use graph_core::{EdgeKind, Graph, Vertex};
use move_plan::{Move, Rows, move_of};
use std::alloc::Global;
use test_forms::{TableFault, Worked, worked_form};
use topo_order::{Cycle, OrderFault, VertexOrder, order};
use unqomp::graph_of;

// A form and what is wanted of it: its edges by kind, its ready order, that order's moves, and their width.
#[derive(Clone, Copy)]
struct Row {
    form: Worked,
    target: &'static str,
    control: &'static str,
    available: &'static str,
    order: &'static str,
    moves: &'static str,
    width: usize,
}

static ROWS: [Row; 5] = [
    Row {
        form: Worked::XorOfAnds,
        target: "F0>R0 F1>R1",
        control: "F0>F1 F1>F2 F0>R1",
        available: "F1>R0 F2>R1 R1>R0",
        order: "F0 F1 F2 R1 R0",
        moves: "up0 up1 do2 down1 down0",
        width: 6,
    },
    Row {
        form: Worked::HadamardAfterUncopy,
        target: "F0>R0",
        control: "F0>F2",
        available: "F0>F1 F2>R0 R0>F1",
        order: "F0 F2 R0 F1",
        moves: "up0 do2 down0 do1",
        width: 3,
    },
    Row {
        form: Worked::TwoAnds,
        target: "F0>R0 F1>R1 F2>F3 F3>F4",
        control: "F0>F2 F1>F3 F0>F4",
        available: "F2>R0 F3>R1 F4>R0",
        order: "F0 F1 F2 F3 R1 F4 R0",
        moves: "up0 up1 do2 do3 down1 do4 down0",
        width: 7,
    },
    Row {
        form: Worked::Adder,
        target: "F0>R0 F1>F2 F2>F3 F3>R3 R3>R2 R2>R1 F4>F5 F6>F7",
        control: "F0>F2 F0>F3 F3>F5 F0>F7 F0>R2 F0>R3",
        available: "F0>F8 F1>F6 F2>F6 F2>R0 F3>R0 F5>R3 F7>R0 R0>F8 R1>F6 R2>F6 R2>R0 R3>R0",
        order: "F0 F1 F2 F3 F4 F5 R3 R2 R1 F6 F7 R0 F8",
        moves: "up0 up1 up2 up3 do4 do5 down3 down2 down1 do6 do7 down0 do8",
        width: 8,
    },
    Row {
        form: Worked::Teleportation,
        target: "F3>Z0 F0>F2 F2>Z1 F1>F6 F7>R7",
        control: "F0>F1 F3>F4 F2>F5 F2>F6 F3>F7 F6>F7 F7>F8 F3>R7 F6>R7",
        available: "F1>F2 F2>F3 F4>Z0 F5>Z1 F6>Z1 F7>Z0 F8>R7 R7>Z0",
        order: "F0 F1 F2 F3 F4 F5 F6 Z1 F7 F8 R7 Z0",
        moves: "do0 do1 do2 do3 do4 do5 do6 free1 up7 do8 down7 free0",
        width: 3,
    },
];

// Whether some ids, read as moves, are these moves.
fn has_moves(flat: &Flat, graph: &Graph, ids: &VertexOrder, wanted: &[Move]) -> bool
    requires { IsGraphOf flat.now graph.now }
{
    for (i, mv) in wanted.iter().enumerate() {
        let Some(id) = ids.get(i) else {
            return false;
        };
        if id.number as usize >= graph.len() {
            return false;
        }
        if move_of(flat, graph.vertex(*id)) != *mv {
            return false;
        }
    }
    ids.len() == wanted.len()
}

// Which kind of edges of a graph is not as wanted, if any.
fn missed_edges(graph: &Graph, row: &Row) -> Option<&'static str> {
    if !has_edges(graph, EdgeKind::Target, row.target) {
        Some("target edges")
    } else if !has_edges(graph, EdgeKind::Control, row.control) {
        Some("control edges")
    } else if !has_edges(graph, EdgeKind::Availability, row.available) {
        Some("availability edges")
    } else {
        None
    }
}

// What of the ready order and its moves is not as wanted, if anything.
fn missed_order(
    flat: &Flat,
    graph: &Graph,
    ids: &VertexOrder,
    moves: &[Move],
    row: &Row,
) -> Option<&'static str>
    requires { IsGraphOf flat.now graph.now }
{
    if !has_order(graph, ids, row.order) {
        Some("order")
    } else if !has_moves(flat, graph, ids, moves) {
        Some("moves")
    } else {
        None
    }
}

// The width of a list of moves, if it is valid.
fn width_of(alloc: Global, flat: &Flat, moves: &[Move]) -> Result<Option<usize>, TableFault> {
    let mut rows = Rows::new(alloc, flat)?;
    if rows.valid(flat, moves) {
        Ok(Some(rows.width(flat, moves)))
    } else {
        Ok(None)
    }
}

// What of a row is not as wanted, if anything.
fn missed(alloc: Global, row: &Row) -> Result<Option<&'static str>, TableFault> {
    let flat = worked_form(alloc, row.form)?;
    let moves = words::moves(alloc, row.moves)?;
    if width_of(alloc, &flat, moves.as_slice())? != Some(row.width) {
        return Ok(Some("width"));
    }
    let graph = graph_of(alloc, &flat)?;
    let Ok(ids) = order(alloc, &graph) else {
        return Ok(Some("no order"));
    };
    let missed = missed_order(&flat, &graph, &ids, moves.as_slice(), row);
    Ok(missed_edges(&graph, row).or(missed))
}

#[test]
fn graphs_orders_and_moves(rt: HostRuntime) {
    for row in &ROWS {
        let missed = missed(rt.alloc(), row).unwrap_or(Some("a fault"));
        assert_eq!(rt; missed, None, "{}", row.order);
    }
}

// Whether the step of a vertex is on a line.
fn is_on(flat: &Flat, vertex: Vertex, line: u32) -> bool {
    match vertex {
        Vertex::Forward(s) | Vertex::Reverse(s) => {
            (s.number as usize) < flat.steps() && flat.line(s) == line
        }
        Vertex::Free(_) => false,
    }
}

// Whether a cycle goes through exactly these vertices, whose steps are on these lines.
fn goes_through(flat: &Flat, cycle: &Cycle, wanted: &[(&str, u32)]) -> bool {
    for (v, (word, line)) in cycle.vertices().iter().zip(wanted.iter()) {
        if words::vertex(word) != Some(*v) || !is_on(flat, *v, *line) {
            return false;
        }
    }
    cycle.vertices().len() == wanted.len()
}

// Whether the cycle that is given for a form is this one.
fn has_cycle(alloc: Global, form: Worked, wanted: &[(&str, u32)]) -> Result<bool, TableFault> {
    let flat = worked_form(alloc, form)?;
    let graph = graph_of(alloc, &flat)?;
    match order(alloc, &graph) {
        Err(OrderFault::Cycle(cycle)) => Ok(goes_through(&flat, &cycle, wanted)),
        _ => Ok(false),
    }
}

#[test]
fn a_flip_of_what_was_copied_before(rt: HostRuntime) {
    let wanted = [("F1", 4), ("F2", 5), ("R0", 3)];
    assert!(rt; matches!(has_cycle(rt.alloc(), Worked::Cycle, &wanted), Ok(true)));
}
