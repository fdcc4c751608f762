//! All terms of a program at once.

ghost use Rattle.std.specs.Prelude.{◌≡◌, [], ◌∷◌, ◌++◌, length, map, filter, flat_map, not, false, true, IfOk, OnOk};
ghost use Rattle.silq_mean.specs.Effect.{after, all_pass, follow, measure};
ghost use Rattle.silq_mean.specs.Term.{hadamard, equals_last, last, drop_last};
ghost use Rattle.silq_mean.specs.Value.{is_one};
ghost use Rattle.silq_mean.specs.Table.{outcome_of, shown};
ghost use Rattle.silq_run.specs.Steps.{meant};

use crate::step::Step;
use crate::term::Term;
use silq_tree::NameId;
use std::alloc::{AllocError, Global};
use std::marker::Model;

/// Terms in their order.
#[derive(Drop)]
pub struct Terms {
    items: Vec<Term>,
}

impl Model for Terms {
    ghost use Rattle.std.specs.Prelude.{List};
    ghost use Rattle.silq_mean.specs.Term.{Term as Meant};

    ghost Value = { List Meant };

    ghost view = { λ t. t.items.items };
}

/// The terms of a choice.
#[derive(Drop)]
pub(crate) struct Parted {
    /// Those whose last value was 1.
    pub(crate) ones: Terms,
    pub(crate) others: Terms,
}

impl Terms {
    /// No terms.
    pub(crate) fn new(alloc: Global) -> Terms
        ensures { result ≡ [] }
    {
        Terms {
            items: Vec::new(alloc),
        }
    }

    /// How many.
    pub(crate) fn len(&self) -> usize
        ensures { result ≡ length self.now }
    {
        self.items.len()
    }

    /// Adds a term at the end.
    pub(crate) fn push(&mut self, term: Term) -> Result<(), AllocError>
        ensures { OnOk result (self.new ≡ self.old ++ term ∷ []) }
    {
        self.items.push(term)?;
        Ok(())
    }

    /// Adds terms at the end.
    pub(crate) fn append(&mut self, mut later: Terms) -> Result<(), AllocError>
        ensures { OnOk result (self.new ≡ self.old ++ later) }
    {
        self.items.append(&mut later.items)?;
        Ok(())
    }

    /// Carries a step out on each term.
    pub(crate) fn step(&mut self, alloc: Global, step: &Step) -> Result<(), AllocError>
        ensures { OnOk result (self.new ≡ map (after (meant step.now)) self.old) }
    {
        step_each(self.items.as_mut_slice(), alloc, step)
    }

    /// The two terms that follow each one by H on the last value.
    pub(crate) fn mixed(&self, alloc: Global) -> Result<Terms, AllocError>
        ensures { IfOk result (λ ts. ts ≡ flat_map (λ t. hadamard false t ∷ hadamard true t ∷ []) self.now) }
    {
        let mut mixed = Terms::new(alloc);
        for term in self.items.as_slice() {
            mixed.push_both(alloc, term)?;
        }
        Ok(mixed)
    }

    // Adds the two terms that follow one by H on the last value.
    fn push_both(&mut self, alloc: Global, term: &Term) -> Result<(), AllocError>
        ensures { OnOk result (self.new ≡ self.old ++ hadamard false term.now ∷ hadamard true term.now ∷ []) }
    {
        let mut first = term.copied(alloc)?;
        first.hadamard(false)?;
        self.push(first)?;
        let mut second = term.copied(alloc)?;
        second.hadamard(true)?;
        self.push(second)
    }

    /// Whether a variable is equal to the last value on each term.
    pub(crate) fn all_equal_last(&self, name: NameId) -> Result<bool, AllocError>
        ensures { IfOk result (λ b. b ≡ all_pass (equals_last name) self.now) }
    {
        for term in self.items.as_slice() {
            if !term.equals_last(name)? {
                return Ok(false);
            }
        }
        Ok(true)
    }

    /// The terms by their last value, which is taken away.
    pub(crate) fn parted(&self, alloc: Global) -> Result<Parted, AllocError>
        ensures ones { IfOk result (λ p. p.ones ≡ map drop_last (filter (λ t. is_one (last t)) self.now)) }
        ensures others { IfOk result (λ p. p.others ≡ map drop_last (filter (λ t. not (is_one (last t))) self.now)) }
    {
        let mut ones = Terms::new(alloc);
        let mut others = Terms::new(alloc);
        for term in self.items.as_slice() {
            let mut rest = term.copied(alloc)?;
            rest.values.take_last();
            if term.has_one_last() {
                ones.push(rest)?;
            } else {
                others.push(rest)?;
            }
        }
        Ok(Parted { ones, others })
    }

    /// The terms on which a measurement of the last value tells the outcomes that come.
    pub(crate) fn measured(&self, alloc: Global, outcome: &[bool]) -> Result<Terms, AllocError>
        ensures { IfOk result (λ ts. ts ≡ flat_map (follow (outcome_of outcome.now) measure) self.now) }
    {
        let mut kept = Terms::new(alloc);
        for term in self.items.as_slice() {
            kept.push_measured(alloc, outcome, term)?;
        }
        Ok(kept)
    }

    /// What the terms show at the end: their bits and their amplitudes.
    pub(crate) fn rows(&self, alloc: Global) -> Result<sum_laws::Terms, AllocError>
        ensures { IfOk result (λ rows. rows ≡ map shown self.now) }
    {
        let mut rows = sum_laws::Terms::new(alloc);
        for term in self.items.as_slice() {
            let row = term.row(alloc)?;
            rows.push(row)?;
        }
        Ok(rows)
    }

    // Adds a term after a measurement of its last value, if its bits are the outcomes that come.
    fn push_measured(
        &mut self,
        alloc: Global,
        outcome: &[bool],
        term: &Term,
    ) -> Result<(), AllocError>
        ensures { OnOk result (self.new ≡ self.old ++ follow (outcome_of outcome.now) measure term.now) }
    {
        let bits = term.last_bits(alloc)?;
        if !term.agrees(outcome, bits.as_slice())? {
            return Ok(());
        }
        let mut after = term.copied(alloc)?;
        after.tell(bits.as_slice())?;
        self.push(after)
    }
}

// Carries a step out on each term.
fn step_each(terms: &mut [Term], alloc: Global, step: &Step) -> Result<(), AllocError>
    ensures { OnOk result (terms.new ≡ map (after (meant step.now)) terms.old) }
{
    for term in terms.iter_mut() {
        term.step(alloc, step)?;
    }
    Ok(())
}
