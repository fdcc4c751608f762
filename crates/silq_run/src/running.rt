//! All terms under way, and what leaves of an effect do to them.

ghost use Rattle.std.specs.Prelude.{◌≡◌, ◌+◌, ◌++◌, ◌*◌, [], ◌∷◌, length, map, not, nat_lt, IfOk, IfErr, OnOk};
ghost use Rattle.silq_mean.specs.Effect.{step as step_of, mix, measure, claim, most_terms};
ghost use Rattle.silq_mean.specs.Table.{inputs, begins, shown};
ghost use Rattle.silq_run.specs.Steps.{meant};
ghost use Rattle.silq_run.specs.Ran.{ran, IsRefusal, first_way, others_of};

use crate::fault::Stop;
use crate::step::Step;
use crate::term::Term;
use crate::terms::{Parted, Terms};
use silq_tree::NameId;
use silq_types::Shape;
use std::alloc::{AllocError, Global};
use std::marker::Model;
use std::mem;
use sum_laws::BitList;

const MOST_TERMS: usize = 1_048_576;

/// All terms under way. After a refusal it is only dropped.
#[derive(Drop)]
pub struct Running {
    alloc: Global,
    /// The outcomes of measurements in order.
    outcome: BitList,
    /// How many terms stand before the other way of a choice.
    waiting: usize,
    terms: Terms,
}

impl Model for Running {
    ghost use Rattle.silq_run.specs.Ran.{State};

    ghost Value = { State };

    ghost view = { λ r. record { outcome = r.outcome; waiting = r.waiting; terms = r.terms } };
}

/// A choice whose first way is under way.
#[derive(Drop)]
pub struct FirstWay {
    pub waiting: usize,
    pub others: Terms,
}

/// A choice whose second way is under way.
#[derive(Drop)]
pub struct SecondWay {
    pub waiting: usize,
    pub firsts: Terms,
}

impl Running {
    /// The first term alone, whose values under way are the parameters' and have these bits.
    pub fn begin(
        alloc: Global,
        shapes: &[Shape],
        input: &[bool],
        outcome: &[bool],
    ) -> Result<Running, AllocError>
        ensures { IfOk result (λ r. r ≡ record { outcome = outcome.now; waiting = 0; terms = begins (inputs shapes.now input.now) ∷ [] }) }
    {
        let first = Term::begin(alloc, shapes, input)?;
        let mut terms = Terms::new(alloc);
        terms.push(first)?;
        Ok(Running {
            alloc,
            outcome: BitList::from_slice(alloc, outcome)?,
            waiting: 0,
            terms,
        })
    }

    /// What the terms show at the end: the bits of their values under way, and their amplitudes.
    pub fn rows(&self) -> Result<sum_laws::Terms, AllocError>
        ensures { IfOk result (λ rows. rows ≡ map shown self.now.terms) }
    {
        self.terms.rows(self.alloc)
    }

    /// Carries a step out on each term.
    pub fn step(&mut self, step: &Step) -> Result<(), Stop>
        ensures ok { OnOk result (ran (step_of (meant step.now)) self.old ≡ Ok self.new) }
        ensures refused { IfErr result (λ f. IsRefusal f (ran (step_of (meant step.now)) self.old)) }
    {
        self.terms.step(self.alloc, step)?;
        Ok(())
    }

    /// H on the last value: two terms for each one.
    #[tactic(auto, using(crate::proofs::Room::mix_fits, crate::proofs::Room::mix_over))]
    pub fn mix(&mut self) -> Result<(), Stop>
        ensures ok { OnOk result (ran mix self.old ≡ Ok self.new) }
        ensures refused { IfErr result (λ f. IsRefusal f (ran mix self.old)) }
    {
        if !has_room(self.waiting, self.terms.len()) {
            return Err(Stop::TooManyTerms);
        }
        let mixed = self.terms.mixed(self.alloc)?;
        self.terms = mixed;
        Ok(())
    }

    /// The last value's bits take the next outcomes: the terms that have them stay.
    pub fn measure(&mut self) -> Result<(), Stop>
        ensures ok { OnOk result (ran measure self.old ≡ Ok self.new) }
        ensures refused { IfErr result (λ f. IsRefusal f (ran measure self.old)) }
    {
        let kept = self.terms.measured(self.alloc, self.outcome.as_slice())?;
        self.terms = kept;
        Ok(())
    }

    /// On a line a variable is forgotten that is to be equal to the last value.
    #[tactic(auto, using(crate::proofs::Room::claim_holds, crate::proofs::Room::claim_fails))]
    pub fn claim(&mut self, line: u32, name: NameId) -> Result<(), Stop>
        ensures ok { OnOk result (ran (claim line name) self.old ≡ Ok self.new) }
        ensures refused { IfErr result (λ f. IsRefusal f (ran (claim line name) self.old)) }
    {
        if !self.terms.all_equal_last(name)? {
            return Err(Stop::ForgetFalse { line });
        }
        Ok(())
    }

    /// Begins a choice by the last value: the terms where it is 1 go the first way, while the others wait.
    pub fn first_way(&mut self) -> Result<FirstWay, AllocError>
        ensures now { OnOk result (self.new ≡ first_way self.old) }
        ensures way { IfOk result (λ w. w ≡ record { waiting = self.old.waiting; others = others_of self.old.terms }) }
    {
        let Parted { ones, others } = self.terms.parted(self.alloc)?;
        let waiting = self.waiting;
        self.waiting = waiting.checked_add(others.len()).ok_or(AllocError)?;
        self.terms = ones;
        Ok(FirstWay { waiting, others })
    }

    /// Goes on with the second way, while the terms of the first one wait.
    pub fn second_way(&mut self, way: FirstWay) -> Result<SecondWay, AllocError>
        ensures now { OnOk result (self.new ≡ record { outcome = self.old.outcome; waiting = way.waiting + length self.old.terms; terms = way.others }) }
        ensures way { IfOk result (λ w. w ≡ record { waiting = way.waiting; firsts = self.old.terms }) }
    {
        let FirstWay { waiting, others } = way;
        let firsts = mem::replace(&mut self.terms, others);
        self.waiting = waiting.checked_add(firsts.len()).ok_or(AllocError)?;
        Ok(SecondWay { waiting, firsts })
    }

    /// Ends a choice: the terms of the first way, then those of the second.
    pub fn end_choice(&mut self, way: SecondWay) -> Result<(), AllocError>
        ensures { OnOk result (self.new ≡ record { outcome = self.old.outcome; waiting = way.waiting; terms = way.firsts ++ self.old.terms }) }
    {
        let SecondWay {
            waiting,
            mut firsts,
        } = way;
        let seconds = mem::replace(&mut self.terms, Terms::new(self.alloc));
        firsts.append(seconds)?;
        self.terms = firsts;
        self.waiting = waiting;
        Ok(())
    }
}

/// Whether twice so many terms are within the limit, beside those that wait.
fn has_room(waiting: usize, terms: usize) -> bool
    ensures { result ≡ not (nat_lt most_terms (waiting + 2 * terms)) }
{
    waiting as u128 + 2 * terms as u128 <= MOST_TERMS as u128
}
