//! Moves, lists of moves and plans.

ghost use Rattle.std.specs.Prelude.{◌≡◌, ◌++◌, ◌∷◌, [], length, slice_get, OnOk, OnErr};
ghost use Rattle.std.specs.Option.{option_copied};

use flat_core::{StepId, WireId};
use std::alloc::{AllocError, Global};
use std::marker::Model;

/// One move of a plan.
#[derive(Clone, Copy, PartialEq, Eq)]
pub enum Move {
    /// Does an X step on a Dropped wire, which is undone again.
    Up(StepId),
    /// Undoes an X step on a Dropped wire.
    Down(StepId),
    /// Does any other step, once.
    Do(StepId),
    /// Frees a Measured or Zeroed wire at its top: where its outcome bit is 1, a Measured wire is flipped.
    Free(WireId),
}

/// A list of moves.
#[derive(Drop)]
pub struct MoveList {
    items: Vec<Move>,
}

impl Model for MoveList {
    ghost use Rattle.std.specs.Prelude.{List};
    ghost use Rattle.move_plan.specs.declared.moves.Move.{Move};

    ghost Value = { List Move };

    ghost view = { λ l. l.items.items };
}

impl MoveList {
    /// No moves.
    pub fn new(alloc: Global) -> MoveList
        ensures { result ≡ [] }
    {
        MoveList {
            items: Vec::new(alloc),
        }
    }

    /// How many moves.
    pub fn len(&self) -> usize
        ensures { result ≡ length self.now }
    {
        self.items.len()
    }

    /// The move at a place, if there is one.
    pub fn get(&self, i: usize) -> Option<&Move>
        ensures { option_copied result ≡ slice_get self.now i }
    {
        self.items.get(i)
    }

    /// Adds a move at the end.
    pub fn push(&mut self, item: Move) -> Result<(), AllocError>
        ensures ok { OnOk result (self.new ≡ self.old ++ item ∷ []) }
        ensures err { OnErr result (self.new ≡ self.old) }
    {
        self.items.push(item)?;
        Ok(())
    }

    /// The moves.
    pub fn as_slice(&self) -> &[Move]
        ensures { result.now ≡ self.now }
    {
        self.items.as_slice()
    }
}

/// A plan: its moves, how many qubits it needs, and its recomputation level from 0 to 16.
#[derive(Drop)]
pub struct Plan {
    pub moves: MoveList,
    pub width: usize,
    pub level: u8,
}
