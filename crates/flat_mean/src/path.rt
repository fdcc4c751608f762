//! The values and the weight of one path.

ghost use Rattle.std.specs.Prelude.{◌≡◌, ◌≤◌, ◌<◌, ◌^◌, ◌%◌, ◌+◌, ◌&&◌, ◌||◌, ℕ, length, cond, IfSome};
ghost use Rattle.std.specs.Bool.{beq};
ghost use Rattle.amp_core.specs.Amplitude.{none, one, times};
ghost use Rattle.flat_core.specs.Label.{wire_of, EachNamed};
ghost use Rattle.flat_core.specs.Sound.{HasEighths, IsFlat};
ghost use Rattle.flat_mean.specs.Row.{bits_of, holds, is_h, next};
ghost use Rattle.flat_mean.specs.Path.{count_choices, count_inputs, input_row, top_row, path_weight};
ghost use Rattle.flat_mean.specs.Factor.{IsStepFactor, IsFactor};

use amp_core::Amp;
use flat_core::{Flat, Lit, Step, StepId, WireId};

// A factor: w^eighths over root two^halvings where it is possible, else zero.
#[derive(Clone, Copy)]
struct Factor {
    possible: bool,
    eighths: u8,
    halvings: u32,
}

impl Factor {
    const ONE: Factor = Factor {
        possible: true,
        eighths: 0,
        halvings: 0,
    };

    // The product of two factors.
    fn times(self, other: Factor) -> Factor
        requires first { self.eighths < 8 }
        requires second { other.eighths < 8 }
        requires few { self.halvings + other.halvings < 2 ^ 32 }
        ensures possible { result.possible ≡ (self.possible && other.possible) }
        ensures eighths { result.eighths ≡ (self.eighths + other.eighths) % 8 }
        ensures halvings { result.halvings ≡ self.halvings + other.halvings }
    {
        Factor {
            possible: self.possible && other.possible,
            eighths: (self.eighths + other.eighths) % 8,
            halvings: self.halvings + other.halvings,
        }
    }

    // The factor as an amplitude.
    fn amplitude(self) -> Amp
        requires { self.halvings ≤ 50 }
        ensures { result ≡ cond self.possible (times self.eighths self.halvings one) none }
    {
        if self.possible {
            let scale = Amp {
                k: self.halvings,
                ..Amp::ONE
            };
            scale.mul_w(self.eighths)
        } else {
            Amp::ZERO
        }
    }
}

// Whether a control has its sign's value; no control always holds.
fn control_holds(row: &[bool], control: Option<Lit>) -> bool
    requires { IfSome (wire_of control) (λ w. w.number < length row.now) }
    ensures { result ≡ holds (bits_of row.now) control }
{
    match control {
        Some(lit) => row[lit.wire.number as usize] == lit.positive,
        None => true,
    }
}

// Whether a step is an H.
fn is_hadamard(step: Step) -> bool
    ensures { result ≡ is_h step }
{
    matches!(step, Step::H { .. })
}

// The factor of a step under a choice bit, from the values before it.
fn factor_of(step: Step, bit: bool, row: &[bool]) -> Factor
    requires there { EachNamed (λ w. w.number < length row.now) step }
    requires eighths { HasEighths step }
    ensures factor { IsStepFactor step bit (bits_of row.now) result }
    ensures below { result.eighths < 8 }
{
    match step {
        Step::X { .. } | Step::M { .. } => Factor::ONE,
        Step::H { target, control } => hadamard_factor(
            row[target.number as usize],
            bit,
            control_holds(row, control),
        ),
        Step::P { eighths, control } => Factor {
            eighths: if control_holds(row, Some(control)) {
                eighths
            } else {
                0
            },
            ..Factor::ONE
        },
    }
}

// The factor of an H that takes a bit to another one, or keeps it where its control does not hold.
fn hadamard_factor(old: bool, new: bool, held: bool) -> Factor
    ensures possible { result.possible ≡ (held || beq new old) }
    ensures eighths { result.eighths ≡ cond (held && (old && new)) 4 0 }
    ensures halvings { result.halvings ≡ cond held 1 0 }
{
    Factor {
        possible: held || new == old,
        eighths: if held && old && new { 4 } else { 0 },
        halvings: if held { 1 } else { 0 },
    }
}

// Does one step on the wires' values.
fn do_step(step: Step, bit: bool, row: &mut [bool])
    requires { EachNamed (λ w. w.number < length row.old) step }
    ensures { (q : ℕ) → bits_of row.new q ≡ next step bit (bits_of row.old) q }
{
    match step {
        Step::X {
            target,
            first,
            second,
        } => {
            let flip = control_holds(row, first) && control_holds(row, second);
            let wire = target.number as usize;
            row[wire] = row[wire] != flip;
        }
        Step::H { target, control } => {
            if control_holds(row, control) {
                row[target.number as usize] = bit;
            }
        }
        Step::P { .. } | Step::M { .. } => {}
    }
}

// Gives the inputs their bits in the order of their numbers, and 0 to all other wires.
fn begin(flat: &Flat, input: &[bool], row: &mut [bool])
    requires sound { IsFlat flat.now }
    requires inputs { length input.now ≡ count_inputs flat.now.wires }
    requires room { length row.old ≡ length flat.now.wires }
    ensures { (q : ℕ) → bits_of row.new q ≡ input_row flat.now.wires (bits_of input.now) q }
{
    let mut used = 0;
    for w in 0..row.len() {
        let is_input = flat.is_input(WireId { number: w as u32 });
        row[w] = is_input && input[used];
        if is_input {
            used += 1;
        }
    }
}

// Does all steps on the wires' values, with the choice bits in turn, and gives their factor.
fn walk(flat: &Flat, steps: usize, choice: &[bool], row: &mut [bool]) -> Factor
    requires sound { IsFlat flat.now }
    requires count { steps ≡ length flat.now.steps }
    requires choices { length choice.now ≡ count_choices flat.now.steps }
    requires few { length choice.now ≤ 50 }
    requires room { length row.old ≡ length flat.now.wires }
    ensures values { (q : ℕ) → bits_of row.new q ≡ top_row flat.now.steps (bits_of row.old) (bits_of choice.now) q }
    ensures factor { IsFactor flat.now.steps (bits_of row.old) (bits_of choice.now) steps result }
{
    let mut used = 0;
    let mut factor = Factor::ONE;
    for s in 0..steps {
        let step = flat.step(StepId { number: s as u32 });
        let chooses = is_hadamard(step);
        let bit = chooses && choice[used];
        if chooses {
            used += 1;
        }
        factor = factor.times(factor_of(step, bit, row));
        do_step(step, bit, row);
    }
    factor
}

/// The weight of a path, and in `out` the value of each wire at its top. `input` has a bit for each input wire, in the
/// order of the wires' numbers, and `choice` has one for each H step, in step order. It takes no memory.
pub fn path_value(flat: &Flat, input: &[bool], choice: &[bool], out: &mut [bool]) -> Amp
    requires inputs { length input.now ≡ count_inputs flat.now.wires }
    requires choices { length choice.now ≡ count_choices flat.now.steps }
    requires few { length choice.now ≤ 50 }
    requires room { length out.old ≡ length flat.now.wires }
    ensures values { (q : ℕ) → bits_of out.new q ≡ top_row flat.now.steps (input_row flat.now.wires (bits_of input.now)) (bits_of choice.now) q }
    ensures weight { result ≡ path_weight flat.now.steps (input_row flat.now.wires (bits_of input.now)) (bits_of choice.now) }
{
    let steps = flat.steps();
    begin(flat, input, out);
    let factor = walk(flat, steps, choice, out);
    factor.amplitude()
}
