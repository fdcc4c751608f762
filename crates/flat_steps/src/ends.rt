//! Ends of wires.

ghost use Rattle.std.specs.Prelude.{◌≡◌, length};
ghost use Rattle.bit_arith.specs.Built.{begun};
ghost use Rattle.bit_arith.specs.Does.{Below};
ghost use Rattle.flat_form.specs.Flat.{end_all};

use bit_arith::Builder;
use flat_core::{End, WireId};

/// Sets the end of wires.
pub(crate) fn end_all(builder: &mut Builder, end: End, wires: &[WireId])
    requires { Below (length builder.old.draft.wires) wires.now }
    ensures { builder.new ≡ record { draft = (end_all end wires.now (begun builder.old.draft)).draft; setting = builder.old.setting } }
{
    for wire in wires {
        builder.end(*wire, end);
    }
}
