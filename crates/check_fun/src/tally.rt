//! The counts of a check.

ghost use Rattle.std.specs.Prelude.{◌≡◌, [], None, IfErr, OnOk, OnErr};
ghost use Rattle.silq_types.specs.Known.{signature_of};
ghost use Rattle.check_scope.specs.Context.{count_statement};
ghost use Rattle.check_fun.specs.Counting.{Runs, Fails};
ghost use Rattle.check_fun.specs.Program.{with_instance};
ghost use Rattle.check_scope.specs.State.{State};
ghost use Rattle.check_scope.specs.Walk.{Checker};

use check_scope::fault::CheckFault;
use silq_io::LimitKind;
use silq_types::{InstanceKey, Known, Signature};
use std::alloc::{AllocError, Global};
use std::marker::Model;

/// The statements walked so far, and the instances met with their signatures.
#[derive(Drop)]
pub struct Tally {
    walked: u32,
    known: Known,
}

impl Model for Tally {
    ghost use Rattle.check_scope.specs.Walk.{Counts};

    ghost Value = { Counts };

    ghost view = { λ t. record { walked = t.walked; met = t.known } };
}

impl Tally {
    /// Nothing is counted yet.
    pub fn new(alloc: Global) -> Tally
        ensures { result ≡ record { walked = 0; met = [] } }
    {
        Tally {
            walked: 0,
            known: Known::new(alloc),
        }
    }

    /// Counts one statement; at most 1,000,000 are walked.
    #[tactic(auto, using(crate::proofs::BlockSteps::runs_counted, crate::proofs::BlockSteps::fails_counted))]
    pub fn count(&mut self) -> Result<(), CheckFault>
        ensures runs { (check : Checker) (s : State) → OnOk result (Runs check count_statement s self.old tt s self.new) }
        ensures fails { (check : Checker) (s : State) → IfErr result (λ f. Fails check count_statement s self.old f) }
    {
        if self.walked < 1_000_000 {
            self.walked += 1;
            Ok(())
        } else {
            Err(CheckFault::Limit(LimitKind::Walked))
        }
    }

    /// Adds the signature of an instance that is not known.
    pub fn add(&mut self, key: InstanceKey, signature: Signature) -> Result<(), AllocError>
        requires { signature_of self.old.met key ≡ None }
        ensures ok { OnOk result (self.new ≡ with_instance key signature self.old) }
        ensures err { OnErr result (self.new ≡ self.old) }
    {
        self.known.add(key, signature)
    }

    /// The instances met.
    pub fn known(&self) -> &Known
        ensures { result.now ≡ self.now.met }
    {
        &self.known
    }

    /// The instances met, where nothing more is counted.
    pub fn into_known(self) -> Known
        ensures { result ≡ self.met }
    {
        self.known
    }
}
