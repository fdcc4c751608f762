//! Tables of values and their amplitudes.

ghost use Rattle.std.specs.Prelude.{◌≡◌, ◌↔◌, ◌≤◌, ◌==◌, Bool, List, length, IsNone, slice_get};
ghost use Rattle.std.specs.Option.{option_map};
ghost use Rattle.amp_core.specs.declared.Amp.{Amp};

use crate::bits::BitList;
use crate::terms::Terms;
use amp_core::Amp;
use std::marker::Model;

/// A table with a row for each value whose amplitude is not zero: the value and its reduced amplitude. The rows are
/// in text order of the values, 0 before 1 and the first bit first. `Terms::merged` makes them.
#[derive(Drop)]
pub struct Table {
    rows: Vec<(BitList, Amp)>,
}

impl Model for Table {
    ghost Value = { List (List Bool × Amp) };

    ghost view = { λ t. t.rows.items };
}

impl Table {
    // The table of these rows.
    pub(crate) fn of_rows(rows: Vec<(BitList, Amp)>) -> Table
        ensures { result ≡ rows.items }
    {
        Table { rows }
    }

    /// How many rows.
    pub fn len(&self) -> usize
        ensures { result ≡ length self.now }
    {
        self.rows.len()
    }

    /// Whether there is no row.
    pub fn is_empty(&self) -> bool
        ensures { result ≡ (length self.now == 0) }
    {
        self.rows.is_empty()
    }

    /// The value and the amplitude of a row, where there is one.
    pub fn row(&self, i: usize) -> Option<(&[bool], Amp)>
        ensures value { option_map (λ row. (row.0.now, row.1)) result ≡ slice_get self.now i }
        ensures none { IsNone result ↔ (length self.now ≤ i) }
    {
        let row = self.rows.get(i)?;
        Some((row.0.as_slice(), row.1))
    }

    /// The rows as a term list, in their order.
    pub fn into_terms(self) -> Terms
        ensures { result ≡ self }
    {
        Terms::from_vec(self.rows)
    }
}
