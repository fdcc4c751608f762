//! How many statements and H a program has, with its calls inlined and its loops unrolled.

ghost use Rattle.std.specs.Prelude.{◌≡◌, ℕ, IfErr, OnOk};
ghost use Rattle.silq_mean.specs.Effect.{Effect, counts, mix, statement};
ghost use Rattle.silq_run.specs.Counted.{excess_of};

use std::marker::Model;

/// Which count is too high.
#[derive(Clone, Copy, PartialEq, Eq)]
pub enum Excess {
    /// More than 1,000,000 statements.
    Inlined,
    /// More than 50 H.
    HGates,
}

/// What was counted so far.
#[derive(Drop)]
pub struct Counts {
    statements: u32,
    splits: u32,
}

impl Model for Counts {
    ghost use Rattle.silq_mean.specs.Effect.{Counts as Meant};

    ghost Value = { Meant };

    ghost view = { λ c. record { statements = c.statements; splits = c.splits } };
}

const MOST_INLINED: u32 = 1_000_000;

const MOST_SPLITS: u32 = 50;

impl Counts {
    /// Nothing was counted yet.
    pub fn begin() -> Counts
        ensures { result ≡ record { statements = 0; splits = 0 } }
    {
        Counts {
            statements: 0,
            splits: 0,
        }
    }

    /// Counts a statement; what it holds is counted next.
    pub fn statement(&mut self) -> Result<(), Excess>
        ensures ok { OnOk result ((line : ℕ) (e : Effect) → counts (statement line e) self.old ≡ counts e self.new) }
        ensures refused { IfErr result (λ f. (line : ℕ) (e : Effect) → counts (statement line e) self.old ≡ Err (excess_of f)) }
    {
        if self.statements >= MOST_INLINED {
            return Err(Excess::Inlined);
        }
        self.statements += 1;
        Ok(())
    }

    /// Counts an H.
    pub fn split(&mut self) -> Result<(), Excess>
        ensures ok { OnOk result (counts mix self.old ≡ Ok self.new) }
        ensures refused { IfErr result (λ f. counts mix self.old ≡ Err (excess_of f)) }
    {
        if self.splits >= MOST_SPLITS {
            return Err(Excess::HGates);
        }
        self.splits += 1;
        Ok(())
    }
}
