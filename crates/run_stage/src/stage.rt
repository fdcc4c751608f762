//! What is carried through a program, and what the leaves of an effect do to it.

ghost use Rattle.std.specs.Prelude.{◌≡◌, ℕ, [], ◌∷◌, IfOk, IfErr, OnOk};
ghost use Rattle.silq_mean.specs.Effect.{Effect, step as step_of, mix, measure, claim, statement};
ghost use Rattle.silq_mean.specs.Table.{inputs, begins};
ghost use Rattle.silq_run.specs.Steps.{meant};
ghost use Rattle.run_stage.specs.declared.stage.Stage.TheVariants as stages;
ghost use Rattle.run_stage.specs.Stages.{carried, outcomes_of, rows_of};
ghost use Rattle.run_stage.specs.Stops.{IsStop};

use crate::stop::WalkStop;
use silq_run::{Counts, Running, Sample, Step};
use silq_tree::NameId;
use silq_types::Shape;
use std::alloc::{AllocError, Global};

/// What is carried through a program. After a refusal it is only dropped.
#[derive(Drop)]
pub enum Stage {
    /// How many statements and H it has.
    Counting(Counts),
    /// One term, which tells how many outcomes it has.
    Sampling(Sample),
    /// All terms.
    Running(Running),
}

impl Stage {
    /// Nothing was counted yet.
    pub fn count() -> Stage
        ensures { result ≡ stages.Counting (record { statements = 0; splits = 0 }) }
    {
        Stage::Counting(Counts::begin())
    }

    /// The first term, to tell the number of outcomes.
    pub fn sample(alloc: Global, shapes: &[Shape], input: &[bool]) -> Result<Stage, AllocError>
        ensures { IfOk result (λ s. s ≡ stages.Sampling (begins (inputs shapes.now input.now))) }
    {
        let term = Sample::begin(alloc, shapes, input)?;
        Ok(Stage::Sampling(term))
    }

    /// The first term, for the terms at the end.
    pub fn run(
        alloc: Global,
        shapes: &[Shape],
        input: &[bool],
        outcome: &[bool],
    ) -> Result<Stage, AllocError>
        ensures { IfOk result (λ s. s ≡ stages.Running (record { outcome = outcome.now; waiting = 0; terms = begins (inputs shapes.now input.now) ∷ [] })) }
    {
        let terms = Running::begin(alloc, shapes, input, outcome)?;
        Ok(Stage::Running(terms))
    }

    /// How many outcomes were told; 0 where no such term is carried.
    pub fn outcomes(&self) -> u64
        ensures { result ≡ outcomes_of self.now }
    {
        match self {
            Stage::Counting(_) => 0,
            Stage::Sampling(term) => term.outcomes(),
            Stage::Running(_) => 0,
        }
    }

    /// What the terms show: their bits and their amplitudes; none where not all terms are carried.
    pub fn rows(&self, alloc: Global) -> Result<sum_laws::Terms, AllocError>
        ensures { IfOk result (λ rows. rows ≡ rows_of self.now) }
    {
        match self {
            Stage::Counting(_) => Ok(sum_laws::Terms::new(alloc)),
            Stage::Sampling(_) => Ok(sum_laws::Terms::new(alloc)),
            Stage::Running(terms) => terms.rows(),
        }
    }

    /// Carries a step out.
    pub fn step(&mut self, step: &Step) -> Result<(), WalkStop>
        ensures ok { OnOk result (carried (step_of (meant step.now)) self.old ≡ Ok self.new) }
        ensures refused { IfErr result (λ f. IsStop f (carried (step_of (meant step.now)) self.old)) }
    {
        match self {
            Stage::Counting(_) => Ok(()),
            Stage::Sampling(term) => {
                term.step(step)?;
                Ok(())
            }
            Stage::Running(terms) => {
                terms.step(step)?;
                Ok(())
            }
        }
    }

    /// H on the last value.
    pub fn mix(&mut self) -> Result<(), WalkStop>
        ensures ok { OnOk result (carried mix self.old ≡ Ok self.new) }
        ensures refused { IfErr result (λ f. IsStop f (carried mix self.old)) }
    {
        match self {
            Stage::Counting(counts) => {
                counts.split()?;
                Ok(())
            }
            Stage::Sampling(term) => {
                term.mix()?;
                Ok(())
            }
            Stage::Running(terms) => {
                terms.mix()?;
                Ok(())
            }
        }
    }

    /// The last value's bits take the next outcomes.
    pub fn measure(&mut self) -> Result<(), WalkStop>
        ensures ok { OnOk result (carried measure self.old ≡ Ok self.new) }
        ensures refused { IfErr result (λ f. IsStop f (carried measure self.old)) }
    {
        match self {
            Stage::Counting(_) => Ok(()),
            Stage::Sampling(term) => {
                term.measure()?;
                Ok(())
            }
            Stage::Running(terms) => {
                terms.measure()?;
                Ok(())
            }
        }
    }

    /// On a line a variable is forgotten that is to be equal to the last value.
    pub fn claim(&mut self, line: u32, name: NameId) -> Result<(), WalkStop>
        ensures ok { OnOk result (carried (claim line name) self.old ≡ Ok self.new) }
        ensures refused { IfErr result (λ f. IsStop f (carried (claim line name) self.old)) }
    {
        match self {
            Stage::Counting(_) => Ok(()),
            Stage::Sampling(_) => Ok(()),
            Stage::Running(terms) => {
                terms.claim(line, name)?;
                Ok(())
            }
        }
    }

    /// Begins a statement; what it holds is carried out next.
    pub fn begin_statement(&mut self) -> Result<(), WalkStop>
        ensures ok { OnOk result ((line : ℕ) (e : Effect) → carried (statement line e) self.old ≡ carried e self.new) }
        ensures refused { IfErr result (λ f. (line : ℕ) (e : Effect) → IsStop f (carried (statement line e) self.old)) }
    {
        match self {
            Stage::Counting(counts) => {
                counts.statement()?;
                Ok(())
            }
            Stage::Sampling(_) => Ok(()),
            Stage::Running(_) => Ok(()),
        }
    }
}
