//! A short row of gates, kept in place.

ghost use Rattle.std.specs.Prelude.{◌≡◌, ℕ, ◌<◌, ◌≤◌, List, [], ◌∷◌, ◌++◌, length, take};
ghost use Rattle.gate_core.specs.declared.gate.Gate.{Gate};

use gate_core::gate::{Gate, OneKind};
use std::marker::Model;

/// At most nine gates, in order. It takes no memory.
#[derive(Drop)]
pub struct GateRow {
    items: [Gate; 9],
    len: usize,
}

impl Model for GateRow {
    ghost Value = { List Gate };

    ghost view = { λ r. take r.len r.items };

    ghost invariant = { λ r. r.len ≤ 9 };
}

impl GateRow {
    // No gates.
    pub(crate) fn new() -> GateRow
        ensures { result ≡ [] }
    {
        GateRow {
            items: [Gate::One {
                kind: OneKind::Id,
                q: 0,
            }; 9],
            len: 0,
        }
    }

    // Adds a gate at the end.
    pub(crate) fn push(&mut self, gate: Gate)
        requires { length self.old < 9 }
        ensures { self.new ≡ self.old ++ gate ∷ [] }
    {
        self.items[self.len] = gate;
        self.len += 1;
    }

    /// The gates.
    pub fn as_slice(&self) -> &[Gate]
        ensures gates { result.now ≡ self.now }
        ensures few { length result.now ≤ 9 }
    {
        &self.items[..self.len]
    }
}
