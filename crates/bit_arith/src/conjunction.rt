//! Conjunctions of operands, and what one step does under them.

ghost use Rattle.std.specs.Prelude.{◌≡◌, ◌<◌, List, [], ◌∷◌, length, IfOk, IfErr, Some, None, option_map, if◌then◌else◌};
ghost use Rattle.flat_core.specs.Label.{same_wire};
ghost use Rattle.flat_core.specs.declared.step.Step.TheVariants.{X};
ghost use Rattle.bit_arith.specs.declared.operand.Operand.{Operand};
ghost use Rattle.bit_arith.specs.Built.{begun, push, new_wire, next_wire, plus, under, under_condition, read, opposite, has as has_lit, tidy, literals};
ghost use Rattle.bit_arith.specs.Rows.{flip, flip_lits, gathered, conjunction, turn, turn_lits, had};
ghost use Rattle.bit_arith.specs.Calls.{IsTarget, Safe, AllSafe, no_target, WasRead, Went, Refused};
ghost use Rattle.bit_arith.specs.Fits.{LitsFit};

use crate::builder::Builder;
use crate::operand::Operand;
use flat_core::{Lit, Step, WireId};
use silq_io::LimitFault;
use std::alloc::AllocError;

impl Builder {
    /// One operand for the conjunction of some operands; the condition in force does not count.
    #[tactic(auto, unfolding(crate::specs::Rows::conjunction))]
    pub fn and(&mut self, list: &[Operand]) -> Result<Operand, LimitFault>
        requires safe { AllSafe (length self.old.draft.wires) no_target list.now }
        ensures answer { IfOk result (λ p. p ≡ (conjunction self.old.setting list.now (begun self.old.draft)).answer) }
        ensures ok { IfOk result (λ _. Went self.old self.new (conjunction self.old.setting list.now (begun self.old.draft)).built) }
        ensures refused { IfErr result (λ e. Refused e (conjunction self.old.setting list.now (begun self.old.draft)).built) }
    {
        let Some(lits) = self.literals(None, list)? else {
            return Ok(Operand::Const(false));
        };
        match lits.as_slice() {
            [] => Ok(Operand::Const(true)),
            [first, rest @ ..] => Ok(Operand::Literal(self.gather(*first, rest)?)),
        }
    }

    /// Flips a wire where the condition in force and all operands hold.
    #[tactic(auto, unfolding(crate::specs::Rows::flip))]
    pub fn flip(&mut self, w: WireId, list: &[Operand]) -> Result<(), LimitFault>
        requires target { IsTarget self.old.draft w }
        requires safe { AllSafe (length self.old.draft.wires) (same_wire w) (under self.old.setting list.now) }
        ensures ok { IfOk result (λ _. Went self.old self.new (flip self.old.setting w list.now (begun self.old.draft))) }
        ensures refused { IfErr result (λ e. Refused e (flip self.old.setting w list.now (begun self.old.draft))) }
    {
        match self.literals(self.condition, list)? {
            None => Ok(()),
            Some(lits) => self.flip_under(w, lits.as_slice()),
        }
    }

    /// A phase of so many eighths of a turn where the condition in force and all operands hold.
    #[tactic(auto, unfolding(crate::specs::Rows::turn))]
    pub fn turn(&mut self, eighths: u8, list: &[Operand]) -> Result<(), LimitFault>
        requires safe { AllSafe (length self.old.draft.wires) no_target (under self.old.setting list.now) }
        ensures ok { IfOk result (λ _. Went self.old self.new (turn self.old.setting eighths list.now (begun self.old.draft))) }
        ensures refused { IfErr result (λ e. Refused e (turn self.old.setting eighths list.now (begun self.old.draft))) }
    {
        let eighths = eighths % 8;
        if eighths == 0 {
            return Ok(());
        }
        match self.literals(self.condition, list)? {
            None => Ok(()),
            Some(lits) => self.turn_under(eighths, lits.as_slice()),
        }
    }

    /// A Hadamard gate on a wire where the condition in force holds.
    #[tactic(auto, unfolding(crate::specs::Rows::had))]
    pub fn had(&mut self, w: WireId) -> Result<(), LimitFault>
        requires target { IsTarget self.old.draft w }
        requires safe { AllSafe (length self.old.draft.wires) (same_wire w) (under self.old.setting []) }
        requires read { WasRead self.old.draft self.old.setting.condition }
        ensures ok { IfOk result (λ _. Went self.old self.new (had self.old.setting w (begun self.old.draft))) }
        ensures refused { IfErr result (λ e. Refused e (had self.old.setting w (begun self.old.draft))) }
    {
        let control = match self.condition {
            None | Some(Operand::Const(true)) => None,
            Some(Operand::Const(false)) => return Ok(()),
            Some(Operand::Literal(lit)) => Some(lit),
        };
        self.push(Step::H { target: w, control })
    }

    // The literals of a conjunction without constants and doubles, none where it is false.
    fn literals(
        &self,
        condition: Option<Operand>,
        list: &[Operand],
    ) -> Result<Option<Vec<Lit>>, AllocError>
        requires { AllSafe (length self.now.draft.wires) no_target (under_condition condition list.now) }
        ensures { IfOk result (λ o. option_map (λ v. v.items) o ≡ literals self.now.draft (under_condition condition list.now)) }
    {
        let mut kept = Vec::new(self.alloc);
        if let Some(first) = condition {
            if !self.keep(&mut kept, first)? {
                return Ok(None);
            }
        }
        for operand in list {
            if !self.keep(&mut kept, *operand)? {
                return Ok(None);
            }
        }
        Ok(Some(kept))
    }

    // Adds an operand to a conjunction; false where the conjunction cannot hold.
    fn keep(&self, kept: &mut Vec<Lit>, operand: Operand) -> Result<bool, AllocError>
        requires { Safe (length self.now.draft.wires) no_target operand }
        ensures { IfOk result (λ possible. (ps : List Operand) → tidy kept.old.items (read self.now.draft operand ∷ ps) ≡ (if possible then tidy kept.new.items ps else None)) }
    {
        match self.read(operand) {
            Operand::Const(bit) => Ok(bit),
            Operand::Literal(lit) => {
                if has(kept.as_slice(), lit) {
                    return Ok(true);
                }
                if has(kept.as_slice(), opposite(lit)) {
                    return Ok(false);
                }
                kept.push(lit)?;
                Ok(true)
            }
        }
    }

    // One literal for a conjunction of literals: the first itself, or else two at a time into new wires.
    fn gather(&mut self, first: Lit, rest: &[Lit]) -> Result<Lit, LimitFault>
        requires { LitsFit self.old.draft no_target (first ∷ rest.now) }
        ensures answer { IfOk result (λ l. l ≡ (gathered self.old.setting first rest.now (begun self.old.draft)).answer) }
        ensures ok { IfOk result (λ _. Went self.old self.new (gathered self.old.setting first rest.now (begun self.old.draft)).built) }
        ensures refused { IfErr result (λ e. Refused e (gathered self.old.setting first rest.now (begun self.old.draft)).built) }
    {
        let mut whole = first;
        for next in rest {
            let wire = self.new_wire()?;
            self.push(Step::X {
                target: wire,
                first: Some(whole),
                second: Some(*next),
            })?;
            whole = Lit {
                wire,
                positive: true,
            };
        }
        Ok(whole)
    }

    // Flips a wire where all literals hold.
    fn flip_under(&mut self, w: WireId, lits: &[Lit]) -> Result<(), LimitFault>
        requires target { IsTarget self.old.draft w }
        requires fit { LitsFit self.old.draft (same_wire w) lits.now }
        ensures ok { IfOk result (λ _. Went self.old self.new (flip_lits self.old.setting w lits.now (begun self.old.draft))) }
        ensures refused { IfErr result (λ e. Refused e (flip_lits self.old.setting w lits.now (begun self.old.draft))) }
    {
        let (first, second) = match lits {
            [] => (None, None),
            [only] => (Some(*only), None),
            [first, middle @ .., last] => (Some(self.gather(*first, middle)?), Some(*last)),
        };
        self.push(Step::X {
            target: w,
            first,
            second,
        })
    }

    // Turns where all literals hold.
    fn turn_under(&mut self, eighths: u8, lits: &[Lit]) -> Result<(), LimitFault>
        requires some { 0 < eighths }
        requires few { eighths < 8 }
        requires fit { LitsFit self.old.draft no_target lits.now }
        ensures ok { IfOk result (λ _. Went self.old self.new (turn_lits self.old.setting eighths (Some lits.now) (begun self.old.draft))) }
        ensures refused { IfErr result (λ e. Refused e (turn_lits self.old.setting eighths (Some lits.now) (begun self.old.draft))) }
    {
        let control = match lits {
            [] => self.one()?,
            [first, rest @ ..] => self.gather(*first, rest)?,
        };
        self.push(Step::P { eighths, control })
    }

    // A new wire that shows 1.
    fn one(&mut self) -> Result<Lit, LimitFault>
        ensures answer { IfOk result (λ l. l ≡ plus (next_wire (begun self.old.draft))) }
        ensures ok { IfOk result (λ _. Went self.old self.new (push self.old.setting (X (next_wire (begun self.old.draft)) None None) (new_wire (begun self.old.draft)))) }
        ensures refused { IfErr result (λ e. Refused e (push self.old.setting (X (next_wire (begun self.old.draft)) None None) (new_wire (begun self.old.draft)))) }
    {
        let wire = self.new_wire()?;
        self.push(Step::X {
            target: wire,
            first: None,
            second: None,
        })?;
        Ok(Lit {
            wire,
            positive: true,
        })
    }
}

// Whether a literal is in the list.
fn has(lits: &[Lit], lit: Lit) -> bool
    ensures { result ≡ has_lit lits.now lit }
{
    lits.iter()
        .any(|l| l.wire == lit.wire && l.positive == lit.positive)
}

// The literal of the same wire with the other sign.
fn opposite(lit: Lit) -> Lit
    ensures { result ≡ opposite lit }
{
    Lit {
        wire: lit.wire,
        positive: !lit.positive,
    }
}
