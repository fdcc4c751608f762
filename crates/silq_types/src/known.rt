//! The instances whose signatures are known.

ghost use Rattle.std.specs.Prelude.{◌≡◌, [], ◌∷◌, ◌++◌, length, None, OnOk, OnErr};
ghost use Rattle.std.specs.Option.{option_copied};
ghost use Rattle.silq_types.specs.Known.{signature_of};

use crate::signature::{InstanceKey, Signature};
use indexmap::IndexMap;
use std::alloc::{AllocError, Global};
use std::marker::Model;

/// Signatures by instance. It is seen as the list of both, in the order in which they were added.
#[derive(Drop)]
pub struct Known {
    map: IndexMap<InstanceKey, Signature>,
}

impl Model for Known {
    ghost use Rattle.std.specs.Prelude.{List};
    ghost use Rattle.silq_types.specs.declared.signature.InstanceKey.{InstanceKey as Key};
    ghost use Rattle.silq_types.specs.declared.signature.Signature.{Signature as Signed};

    ghost Value = { List (Key × Signed) };

    ghost view = { λ known. known.map.entries };
}

impl Known {
    /// No signatures. Takes no memory.
    pub fn new(alloc: Global) -> Known
        ensures { result ≡ [] }
    {
        Known {
            map: IndexMap::new(alloc),
        }
    }

    /// How many signatures.
    pub fn len(&self) -> usize
        ensures { result ≡ length self.now }
    {
        self.map.len()
    }

    /// The signature of an instance, where it is known. Takes no memory.
    pub fn get(&self, key: &InstanceKey) -> Option<&Signature>
        ensures { option_copied result ≡ signature_of self.now key.now }
    {
        self.map.get(key)
    }

    /// Adds the signature of an instance that is not known.
    pub fn add(&mut self, key: InstanceKey, signature: Signature) -> Result<(), AllocError>
        requires { signature_of self.old key ≡ None }
        ensures ok { OnOk result (self.new ≡ self.old ++ (key, signature) ∷ []) }
        ensures err { OnErr result (self.new ≡ self.old) }
    {
        self.map.insert(key, signature)?;
        Ok(())
    }
}
