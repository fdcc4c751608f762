//! The state of flattening.

ghost use Rattle.std.specs.Prelude.{◌≡◌, false, true, length, reverse, IfOk, IfErr};
ghost use Rattle.silq_types.specs.Types.{shape_bits};
ghost use Rattle.flat_core.specs.declared.step.End.TheVariants.{Output};
ghost use Rattle.flat_core.specs.Drafts.{finished, FitsEnds};
ghost use Rattle.bit_arith.specs.Built.{begun, all_made, wires_from};
ghost use Rattle.bit_arith.specs.Calls.{Went, Refused};
ghost use Rattle.bit_arith.specs.Does.{Below};
ghost use Rattle.flat_form.specs.Flat.{begin, input_wires, end_all, wire_lists, joined};
ghost use Rattle.flat_form.specs.Names.{AllOf};

use crate::outputs::{end_values, wire_lists};
use crate::parts::bits;
use crate::stack::{Callers, Values};
use crate::variables::Variables;
use bit_arith::{Builder, Operand};
use flat_core::{End, Flat, Lit, WireLists};
use flat_form::{Known, TypedBits};
use silq_io::LimitFault;
use silq_types::{List, Shape};
use std::alloc::{AllocError, Global};
use std::marker::Model;

/// What is built so far, and what is known of the names in reach and of the values under way. After a refusal it is only dropped.
#[derive(Drop)]
pub struct Flattening {
    pub(crate) alloc: Global,
    pub(crate) builder: Builder,
    // how many statements were met
    pub(crate) statements: u32,
    pub(crate) variables: Variables,
    pub(crate) values: Values,
    // what calls under way will go on with
    pub(crate) callers: Callers,
}

impl Model for Flattening {
    ghost use Rattle.bit_arith.specs.Built.{begun};
    ghost use Rattle.flat_form.specs.State.{Flattening as State};

    // within all limits so far
    ghost Value = { State };

    ghost view = { λ f. record { built = begun f.builder.draft; setting = f.builder.setting; statements = f.statements; env = f.variables; values = f.values; callers = f.callers } };
}

impl Flattening {
    /// The state at the beginning of a program with these parameters, whose wires are the first.
    pub fn begin(alloc: Global, shapes: &[Shape]) -> Result<Flattening, LimitFault>
        ensures ok { IfOk result (λ s. s ≡ begin shapes.now) }
        ensures refused { IfErr result (λ e. Refused e (begin shapes.now).built) }
    {
        let mut builder = Builder::new(alloc);
        let mut values = Values::new(alloc);
        for shape in shapes {
            let parameter = input(&mut builder, alloc, *shape)?;
            values.push(Known::Shown(parameter))?;
        }
        Ok(Flattening {
            alloc,
            builder,
            statements: 0,
            variables: Variables::new(alloc),
            values,
            callers: Callers::new(alloc),
        })
    }

    /// The wires of the values under way, the first value first.
    pub fn wire_lists(&self) -> Result<WireLists, AllocError>
        ensures { IfOk result (λ ws. ws ≡ wire_lists (reverse self.now.values)) }
    {
        wire_lists(self.alloc, self.values.as_slice())
    }

    /// The flat form of what was built: the values under way end as outputs.
    pub fn finish(self, ins: WireLists) -> Result<Flat, AllocError>
        requires wires { AllOf (λ ws. Below (length self.built.draft.wires) ws) (wire_lists (reverse self.values)) }
        requires ends { FitsEnds (finished (end_all Output (joined (wire_lists (reverse self.values))) self.built).draft ins (wire_lists (reverse self.values))) }
        ensures form { IfOk result (λ f. f ≡ finished (end_all Output (joined (wire_lists (reverse self.values))) self.built).draft ins (wire_lists (reverse self.values))) }
        ensures within { self.built.over ≡ None }
    {
        let outs = self.wire_lists()?;
        let Flattening {
            alloc,
            mut builder,
            values,
            ..
        } = self;
        end_values(&mut builder, alloc, End::Output, values.as_slice())?;
        Ok(builder.finish(ins, outs))
    }
}

/// A parameter with wires of its own.
fn input(builder: &mut Builder, alloc: Global, shape: Shape) -> Result<TypedBits, LimitFault>
    ensures answer { IfOk result (λ v. v ≡ record { classical = false; shape = shape; operands = all_made (wires_from (length builder.old.draft.wires) (shape_bits shape)); own = true; began = 0 }) }
    ensures ok { IfOk result (λ _. Went builder.old builder.new (input_wires (shape_bits shape) (begun builder.old.draft))) }
    ensures refused { IfErr result (λ e. Refused e (input_wires (shape_bits shape) (begun builder.old.draft))) }
{
    let mut operands = List::new(alloc);
    for _ in 0..bits(shape) {
        let wire = builder.wire(true)?;
        operands.push(Operand::Literal(Lit {
            wire,
            positive: true,
        }))?;
    }
    Ok(TypedBits {
        classical: false,
        shape,
        operands,
        own: true,
        began: 0,
    })
}
