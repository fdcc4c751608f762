//! What a body sees.

ghost use Rattle.std.specs.Prelude.{◌≡◌, IfOk};
ghost use Rattle.tree_walk.specs.Seen.{with_value};

use silq_mean::Receiver;
use silq_tree::NameId;
use silq_types::List;
use static_num::Statics;
use std::alloc::{AllocError, Global};

/// What the body of a function sees of its instance.
#[derive(Drop)]
pub struct Body {
    /// The number of the function.
    pub this: u32,
    /// The values of static parameters and of loop variables.
    pub statics: Statics,
    /// What takes the results over.
    pub results: List<Receiver>,
}

impl Body {
    /// What the body sees in a round of a loop, whose variable has this value.
    pub fn with_value(&self, alloc: Global, name: NameId, value: i64) -> Result<Body, AllocError>
        ensures { IfOk result (λ b. b ≡ with_value self.now name value) }
    {
        let mut statics = copied_statics(alloc, &self.statics)?;
        statics.push((name, value))?;
        let results = copied(alloc, self.results.as_slice())?;
        Ok(Body {
            this: self.this,
            statics,
            results,
        })
    }
}

/// The same values.
fn copied_statics(alloc: Global, statics: &Statics) -> Result<Statics, AllocError>
    ensures { IfOk result (λ copy. copy ≡ statics.now) }
{
    let mut copy = Statics::new(alloc);
    for pair in statics.as_slice() {
        copy.push(*pair)?;
    }
    Ok(copy)
}

/// The same takers.
fn copied(alloc: Global, takers: &[Receiver]) -> Result<List<Receiver>, AllocError>
    ensures { IfOk result (λ copy. copy ≡ takers.now) }
{
    let mut copy = List::new(alloc);
    for taker in takers {
        copy.push(*taker)?;
    }
    Ok(copy)
}
