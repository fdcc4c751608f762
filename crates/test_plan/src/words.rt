//! Vertices, edges and moves as words: `F0` and `R0` do and undo step 0, `Z0` frees wire 0, `F0>R0` is an edge, and
//! `up0`, `down0`, `do0` and `free0` are moves.

use flat_core::{StepId, WireId};
use graph_core::Vertex;
use move_plan::{Move, MoveList};
use std::alloc::Global;
use test_forms::TableFault;

// The number behind a prefix.
fn number(word: &str, prefix: &str) -> Option<u32> {
    word.strip_prefix(prefix)?.parse::<u32>().ok()
}

/// The vertex of a word.
pub fn vertex(word: &str) -> Option<Vertex> {
    if let Some(number) = number(word, "F") {
        Some(Vertex::Forward(StepId { number }))
    } else if let Some(number) = number(word, "R") {
        Some(Vertex::Reverse(StepId { number }))
    } else {
        number(word, "Z").map(|number| Vertex::Free(WireId { number }))
    }
}

/// The ends of an edge.
pub fn edge(word: &str) -> Option<(Vertex, Vertex)> {
    let (from, to) = word.split_once('>')?;
    Some((vertex(from)?, vertex(to)?))
}

// The move of a word.
fn move_of(word: &str) -> Option<Move> {
    if let Some(number) = number(word, "up") {
        Some(Move::Up(StepId { number }))
    } else if let Some(number) = number(word, "down") {
        Some(Move::Down(StepId { number }))
    } else if let Some(number) = number(word, "do") {
        Some(Move::Do(StepId { number }))
    } else {
        number(word, "free").map(|number| Move::Free(WireId { number }))
    }
}

/// The moves of a text. A word that is no move is refused.
pub fn moves(alloc: Global, text: &str) -> Result<MoveList, TableFault> {
    let mut list = MoveList::new(alloc);
    for word in text.split_whitespace() {
        match move_of(word) {
            Some(mv) => list.push(mv)?,
            None => return Err(TableFault::Broken),
        }
    }
    Ok(list)
}
