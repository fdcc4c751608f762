//! Blocks and calls.

ghost use Rattle.std.specs.Prelude.{◌≡◌, IfErr, OnOk};
ghost use Rattle.silq_mean.specs.Effect.{step, enter_block, leave_block, enter_body, leave_body};
ghost use Rattle.bit_arith.specs.Calls.{Refused};
ghost use Rattle.flat_form.specs.Flat.{call_began, flat};
ghost use Rattle.flat_steps.specs.Ready.{Ready};

use crate::stack::{Caller, Values};
use crate::state::Flattening;
use crate::variables::Variables;
use flat_form::Known;
use silq_io::LimitFault;
use silq_tree::NameId;
use std::mem;

/// A call's expression began with its first argument, which is the last value.
fn call_began(wires: usize, arguments: &Values) -> usize
    ensures { result ≡ call_began wires arguments.now }
{
    match arguments.last() {
        Some(Known::Shown(value)) => value.began,
        _ => wires,
    }
}

impl Flattening {
    /// Opens a block.
    pub fn enter_block(&mut self) -> Result<(), LimitFault>
        ensures ok { OnOk result (self.new ≡ flat (step enter_block) self.old) }
        ensures refused { IfErr result (λ e. Refused e (flat (step enter_block) self.old).built) }
    {
        self.variables.open()?;
        Ok(())
    }

    /// Closes a block.
    pub fn leave_block(&mut self)
        ensures { self.new ≡ flat (step leave_block) self.old }
    {
        self.variables.close();
    }

    /// Begins the body of a function, whose parameters are the last values.
    pub fn enter_body(&mut self, parameters: &[NameId]) -> Result<(), LimitFault>
        requires { Ready (step (enter_body parameters.now)) self.old }
        ensures ok { OnOk result (self.new ≡ flat (step (enter_body parameters.now)) self.old) }
        ensures refused { IfErr result (λ e. Refused e (flat (step (enter_body parameters.now)) self.old).built) }
    {
        let arguments = self.values.turn_over(parameters.len())?;
        let began = call_began(self.builder.wires(), &arguments);
        let variables = Variables::of_parameters(self.alloc, parameters, arguments)?;
        let caller = Caller {
            began,
            variables: mem::replace(&mut self.variables, variables),
            values: mem::replace(&mut self.values, Values::new(self.alloc)),
        };
        self.callers.push(caller)?;
        Ok(())
    }

    /// Ends the body of a function, whose results are the values under way.
    pub fn leave_body(&mut self) -> Result<(), LimitFault>
        ensures ok { OnOk result (self.new ≡ flat (step leave_body) self.old) }
        ensures refused { IfErr result (λ e. Refused e (flat (step leave_body) self.old).built) }
    {
        let Some(caller) = self.callers.pop() else {
            return Ok(());
        };
        let Caller {
            variables,
            mut values,
            ..
        } = caller;
        let results = mem::replace(&mut self.values, Values::new(self.alloc));
        values.extend(results)?;
        self.variables = variables;
        self.values = values;
        Ok(())
    }
}
