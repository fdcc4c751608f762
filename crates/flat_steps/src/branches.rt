//! Choices at run time.

ghost use Rattle.std.specs.Prelude.{◌≡◌, [], ◌∷◌, length, IfOk, IfErr, OnOk};
ghost use Rattle.bit_arith.specs.Built.{negated, begun, made, new_wire, next_wire, under as under_condition_of};
ghost use Rattle.bit_arith.specs.Rows.{flip};
ghost use Rattle.bit_arith.specs.Calls.{Refused, Went, Safe, AllSafe, no_target};
ghost use Rattle.flat_form.specs.Flat.{chosen_by, first_branch, enter_branch, under, as_condition, entered};
ghost use Rattle.flat_form.specs.Good.{Good};
ghost use Rattle.flat_form.specs.Fine.{IsBit};
ghost use Rattle.flat_form.specs.State.{last};
ghost use Rattle.flat_steps.specs.Entering.{Entered};

use crate::state::Flattening;
use crate::uses::operands_of;
use crate::wires::only_operand;
use bit_arith::{Builder, Operand};
use flat_core::Lit;
use silq_io::LimitFault;

/// A choice that is under way.
#[derive(Clone, Copy)]
pub struct Choice {
    /// The operand that chooses the first branch.
    pub chosen: Operand,
    /// The condition in force outside.
    pub outer: Option<Operand>,
}

// The condition that holds where an operand does: the constant 1 is none.
fn as_condition(p: Operand) -> Option<Operand>
    ensures { result ≡ as_condition p }
{
    match p {
        Operand::Const(true) => None,
        Operand::Const(false) => Some(Operand::Const(false)),
        Operand::Literal(lit) => Some(Operand::Literal(lit)),
    }
}

// A new wire with an operand's bit, where the condition in force holds.
fn on_a_wire(builder: &mut Builder, p: Operand) -> Result<Operand, LimitFault>
    requires { AllSafe (length builder.old.draft.wires) no_target (under_condition_of builder.old.setting (p ∷ [])) }
    ensures safe { IfOk result (λ q. Safe (length builder.new.draft.wires) no_target q) }
    ensures answer { IfOk result (λ q. q ≡ made (next_wire (begun builder.old.draft))) }
    ensures ok { IfOk result (λ _. Went builder.old builder.new (flip builder.old.setting (next_wire (begun builder.old.draft)) (p ∷ []) (new_wire (begun builder.old.draft)))) }
    ensures refused { IfErr result (λ e. Refused e (flip builder.old.setting (next_wire (begun builder.old.draft)) (p ∷ []) (new_wire (begun builder.old.draft)))) }
{
    let wires = builder.copy(&[p])?;
    Ok(Operand::Literal(Lit {
        wire: wires[0],
        positive: true,
    }))
}

// Enters a branch: below another condition its own is put on a wire. Gives the condition that was in force.
fn enter(builder: &mut Builder, chosen: Operand) -> Result<Option<Operand>, LimitFault>
    requires outer { AllSafe (length builder.old.draft.wires) no_target (under_condition_of builder.old.setting []) }
    requires chosen { Safe (length builder.old.draft.wires) no_target chosen }
    ensures outer { IfOk result (λ outer. outer ≡ builder.old.setting.condition) }
    ensures ok { IfOk result (λ _. Entered builder.old builder.new (entered builder.old.setting chosen (begun builder.old.draft))) }
    ensures refused { IfErr result (λ e. Refused e (entered builder.old.setting chosen (begun builder.old.draft)).built) }
{
    let outer = builder.under(None);
    let shown = match outer {
        None => chosen,
        Some(_) => {
            builder.under(outer);
            on_a_wire(builder, chosen)?
        }
    };
    let condition = as_condition(builder.read(shown));
    builder.under(condition);
    Ok(outer)
}

impl Flattening {
    /// Begins the first branch of a choice by the last value.
    pub fn first_branch(&mut self) -> Result<Choice, LimitFault>
        requires good { Good self.old }
        requires bit { IsBit (last self.old) }
        ensures choice { IfOk result (λ c. c ≡ record { chosen = chosen_by self.old; outer = self.old.setting.condition }) }
        ensures ok { IfOk result (λ _. self.new ≡ first_branch self.old) }
        ensures refused { IfErr result (λ e. Refused e (first_branch self.old).built) }
    {
        let value = self.values.take_last();
        let chosen = only_operand(operands_of(&value));
        let outer = enter(&mut self.builder, chosen)?;
        Ok(Choice { chosen, outer })
    }

    /// Begins the second branch, where the first one ended.
    pub fn second_branch(&mut self, choice: Choice) -> Result<(), LimitFault>
        requires good { Good (under choice.outer self.old) }
        requires safe { Safe (length self.old.built.draft.wires) no_target choice.chosen }
        ensures ok { OnOk result (self.new ≡ enter_branch (negated choice.chosen) (under choice.outer self.old)) }
        ensures refused { IfErr result (λ e. Refused e (enter_branch (negated choice.chosen) (under choice.outer self.old)).built) }
    {
        self.builder.under(choice.outer);
        enter(&mut self.builder, choice.chosen.negated())?;
        Ok(())
    }

    /// Goes on behind a choice, where the second branch ended.
    pub fn end_choice(&mut self, choice: Choice)
        ensures { self.new ≡ under choice.outer self.old }
    {
        self.builder.under(choice.outer);
    }
}
