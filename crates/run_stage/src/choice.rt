//! Choices by the last value.

ghost use Rattle.std.specs.Prelude.{◌≡◌, IfOk, IfErr, OnOk};
ghost use Rattle.run_stage.specs.declared.stop.WalkStop.TheVariants.{Memory};
ghost use Rattle.run_stage.specs.Choices.{Begun, second_stage, firsts_of, joined};

use crate::stage::Stage;
use crate::stop::WalkStop;
use silq_run::{FirstWay, SecondWay};

/// How a choice goes on.
#[derive(Drop)]
pub enum Choice {
    /// One way alone: whether it is the first.
    One(bool),
    /// Both ways in turn, with the terms that wait for the second where there are terms.
    Both(Option<FirstWay>),
}

impl Stage {
    /// Begins a choice by the last value, which is taken away.
    #[tactic(auto, using(crate::proofs::Parting::begun_counting, crate::proofs::Parting::begun_sampling, crate::proofs::Parting::begun_running))]
    pub fn begin_choice(&mut self) -> Result<Choice, WalkStop>
        ensures ok { IfOk result (λ choice. Begun choice self.old self.new) }
        ensures refused { IfErr result (λ f. f ≡ Memory) }
    {
        match self {
            Stage::Counting(_) => Ok(Choice::Both(None)),
            Stage::Sampling(term) => Ok(Choice::One(term.choose())),
            Stage::Running(terms) => {
                let way = terms.first_way()?;
                Ok(Choice::Both(Some(way)))
            }
        }
    }

    /// Goes on with the second way, while the terms of the first one wait.
    pub fn second_way(&mut self, way: Option<FirstWay>) -> Result<Option<SecondWay>, WalkStop>
        ensures now { OnOk result (self.new ≡ second_stage way self.old) }
        ensures firsts { IfOk result (λ firsts. firsts ≡ firsts_of way self.old) }
        ensures refused { IfErr result (λ f. f ≡ Memory) }
    {
        let Some(way) = way else {
            return Ok(None);
        };
        match self {
            Stage::Counting(_) => Ok(None),
            Stage::Sampling(_) => Ok(None),
            Stage::Running(terms) => {
                let firsts = terms.second_way(way)?;
                Ok(Some(firsts))
            }
        }
    }

    /// Ends a choice: the terms of the first way, then those of the second.
    pub fn end_choice(&mut self, firsts: Option<SecondWay>) -> Result<(), WalkStop>
        ensures ok { OnOk result (self.new ≡ joined firsts self.old) }
        ensures refused { IfErr result (λ f. f ≡ Memory) }
    {
        let Some(firsts) = firsts else {
            return Ok(());
        };
        match self {
            Stage::Counting(_) => Ok(()),
            Stage::Sampling(_) => Ok(()),
            Stage::Running(terms) => {
                terms.end_choice(firsts)?;
                Ok(())
            }
        }
    }
}
