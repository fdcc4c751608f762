//! The first of the terms that would follow were every outcome to come. It tells how many outcomes a program has.

ghost use Rattle.std.specs.Prelude.{◌≡◌, IfOk, OnOk};
ghost use Rattle.silq_mean.specs.Value.{is_one};
ghost use Rattle.silq_mean.specs.Term.{last, drop_last};
ghost use Rattle.silq_mean.specs.Effect.{step as step_of, mix, measure, sample};
ghost use Rattle.silq_mean.specs.Table.{inputs, begins};
ghost use Rattle.silq_run.specs.Steps.{meant};

use crate::step::Step;
use crate::term::Term;
use silq_types::Shape;
use std::alloc::{AllocError, Global};
use std::marker::Model;

/// One term under way, with every outcome told. After a refusal it is only dropped.
#[derive(Drop)]
pub struct Sample {
    alloc: Global,
    term: Term,
}

impl Model for Sample {
    ghost use Rattle.silq_mean.specs.Term.{Term as Meant};

    ghost Value = { Meant };

    ghost view = { λ s. s.term };
}

impl Sample {
    /// The first term, whose values under way are the parameters' and have these bits.
    pub fn begin(alloc: Global, shapes: &[Shape], input: &[bool]) -> Result<Sample, AllocError>
        ensures { IfOk result (λ s. s ≡ begins (inputs shapes.now input.now)) }
    {
        let term = Term::begin(alloc, shapes, input)?;
        Ok(Sample { alloc, term })
    }

    /// Carries a step out.
    pub fn step(&mut self, step: &Step) -> Result<(), AllocError>
        ensures { OnOk result (self.new ≡ sample (step_of (meant step.now)) self.old) }
    {
        self.term.step(self.alloc, step)
    }

    /// H on the last value: of the two terms the first, whose new value is 0.
    pub fn mix(&mut self) -> Result<(), AllocError>
        ensures { OnOk result (self.new ≡ sample mix self.old) }
    {
        self.term.hadamard(false)
    }

    /// The last value's bits are told.
    pub fn measure(&mut self) -> Result<(), AllocError>
        ensures { OnOk result (self.new ≡ sample measure self.old) }
    {
        let bits = self.term.last_bits(self.alloc)?;
        self.term.tell(bits.as_slice())
    }

    /// Begins a choice: whether the last value is 1, which is taken away.
    pub fn choose(&mut self) -> bool
        ensures first { result ≡ is_one (last self.old) }
        ensures rest { self.new ≡ drop_last self.old }
    {
        let first = self.term.has_one_last();
        self.term.values.take_last();
        first
    }

    /// How many outcomes were told.
    pub fn outcomes(&self) -> u64
        ensures { result ≡ self.now.measured }
    {
        self.term.measured
    }
}
