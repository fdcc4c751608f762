//! The wires of one side of a table.

ghost use Rattle.std.specs.Prelude.{◌≡◌, ◌<◌, ◌^◌, [], ◌∷◌, length, IfOk};
ghost use Rattle.test_forms.specs.Table.{wire_form_of, wire_forms_of, keeps, ids};

use crate::entries::WireEntry;
use flat_core::{End, WireId, WireList, WireLists};
use std::alloc::{AllocError, Global};

/// The input wires or the Output wires.
#[derive(Clone, Copy, PartialEq, Eq)]
pub enum Side {
    Ins,
    Outs,
}

// Whether a wire is of a side.
fn keeps(side: Side, entry: WireEntry) -> bool
    ensures { result ≡ keeps side (wire_form_of entry) }
{
    match side {
        Side::Ins => entry.input,
        Side::Outs => matches!(entry.end, End::Output),
    }
}

// The ids of the wires of a side, in their order.
fn ids_of(alloc: Global, wires: &[WireEntry], side: Side) -> Result<WireList, AllocError>
    requires { length wires.now < 2 ^ 32 }
    ensures { IfOk result (λ list. list ≡ ids side (wire_forms_of wires.now) (length wires.now)) }
{
    let mut list = WireList::new(alloc);
    for i in 0..wires.len() {
        if keeps(side, wires[i]) {
            list.push(WireId { number: i as u32 })?;
        }
    }
    Ok(list)
}

/// One list with the wires of a side.
pub fn side_of(alloc: Global, wires: &[WireEntry], side: Side) -> Result<WireLists, AllocError>
    requires { length wires.now < 2 ^ 32 }
    ensures { IfOk result (λ lists. lists ≡ ids side (wire_forms_of wires.now) (length wires.now) ∷ []) }
{
    let list = ids_of(alloc, wires, side)?;
    let mut lists = WireLists::new(alloc);
    lists.push(list)?;
    Ok(lists)
}
