//! Values of variables, and assignments.

ghost use Rattle.std.specs.Prelude.{◌≡◌, IfErr, OnOk};
ghost use Rattle.silq_mean.specs.Effect.{step, give_static, give_part, assign_to, assign_in_turn, end_name, end_compared};
ghost use Rattle.bit_arith.specs.Calls.{Refused};
ghost use Rattle.flat_form.specs.Flat.{flat};
ghost use Rattle.flat_steps.specs.Ready.{Ready};

use crate::state::Flattening;
use crate::uses::{Use, assigned, used};
use crate::variables::as_variable;
use flat_form::Known;
use silq_io::LimitFault;
use silq_tree::NameId;
use silq_types::Need;

impl Flattening {
    /// Gives the number of a static expression.
    pub fn give_static(&mut self, number: i64) -> Result<(), LimitFault>
        ensures ok { OnOk result (self.new ≡ flat (step (give_static number)) self.old) }
        ensures refused { IfErr result (λ e. Refused e (flat (step (give_static number)) self.old).built) }
    {
        self.values.push(Known::Static(number))?;
        Ok(())
    }

    /// Gives a variable, or a part of one. In a consumed use a quantum variable is moved.
    pub fn give_part(&mut self, need: Need, name: NameId, indices: &[i64]) -> Result<(), LimitFault>
        requires { Ready (step (give_part need name indices.now)) self.old }
        ensures ok { OnOk result (self.new ≡ flat (step (give_part need name indices.now)) self.old) }
        ensures refused { IfErr result (λ e. Refused e (flat (step (give_part need name indices.now)) self.old).built) }
    {
        let began = self.builder.wires();
        let known = self.variables.replace(name, Known::Absent);
        let Use { given, left } = used(self.alloc, began, need, indices, known)?;
        self.variables.replace(name, left);
        self.values.push(given)?;
        Ok(())
    }

    /// Assigns the last value to a variable, or to the part of one that was taken out.
    pub fn assign_to(&mut self, name: NameId, indices: &[i64]) -> Result<(), LimitFault>
        requires { Ready (step (assign_to name indices.now)) self.old }
        ensures ok { OnOk result (self.new ≡ flat (step (assign_to name indices.now)) self.old) }
        ensures refused { IfErr result (λ e. Refused e (flat (step (assign_to name indices.now)) self.old).built) }
    {
        let value = self.values.take_last();
        if indices.is_empty() {
            self.variables.bind(name, as_variable(value))?;
            return Ok(());
        }
        let lent = self.variables.replace(name, Known::Absent);
        let known = assigned(indices, lent, value)?;
        self.variables.bind(name, as_variable(known))?;
        Ok(())
    }

    /// Assigns the last values to variables in turn.
    pub fn assign_in_turn(&mut self, names: &[NameId]) -> Result<(), LimitFault>
        requires { Ready (step (assign_in_turn names.now)) self.old }
        ensures ok { OnOk result (self.new ≡ flat (step (assign_in_turn names.now)) self.old) }
        ensures refused { IfErr result (λ e. Refused e (flat (step (assign_in_turn names.now)) self.old).built) }
    {
        let values = self.values.turn_over(names.len())?;
        self.variables.bind_all(names, values)?;
        Ok(())
    }

    /// Takes a variable out.
    pub fn end_name(&mut self, name: NameId) -> Result<(), LimitFault>
        ensures ok { OnOk result (self.new ≡ flat (step (end_name name)) self.old) }
        ensures refused { IfErr result (λ e. Refused e (flat (step (end_name name)) self.old).built) }
    {
        self.variables.bind(name, Known::Absent)?;
        Ok(())
    }

    /// Takes a variable out, with the value that it was compared with.
    pub fn end_compared(&mut self, name: NameId) -> Result<(), LimitFault>
        ensures ok { OnOk result (self.new ≡ flat (step (end_compared name)) self.old) }
        ensures refused { IfErr result (λ e. Refused e (flat (step (end_compared name)) self.old).built) }
    {
        self.variables.bind(name, Known::Absent)?;
        self.values.take_last();
        Ok(())
    }
}
