//! The variables in reach.

ghost use Rattle.std.specs.Prelude.{◌≡◌, ◌<◌, ℕ, false, [], ◌∷◌, Some, nat_eq, length, slice_get, get_or, reverse, IfSome, IfNone, IfOk, OnOk, OnErr, drop};
ghost use Rattle.silq_tree.specs.declared.node.NameId.{NameId as Name};
ghost use Rattle.silq_mean.specs.Env.{is_in_block, in_block, block_with, is_in_reach, found, in_its_block, in_first_block, bound};
ghost use Rattle.indexmap.specs.IndexMap.{get};
ghost use Rattle.flat_form.specs.declared.known.Known.TheVariants.{Absent};
ghost use Rattle.flat_form.specs.Flat.{as_variable, bind_all, paired};
ghost use Rattle.flat_steps.specs.Reach.{number_of, is_named, IsPlace, Tells};

use crate::stack::Values;
use flat_form::{Known, TypedBits};
use indexmap::IndexMap;
use silq_tree::NameId;
use std::alloc::{AllocError, Global};
use std::marker::Model;
use std::mem;

/// The variables of a block in order of definition.
#[derive(Drop)]
struct Block {
    items: Vec<(NameId, Known)>,
}

/// Where a variable stands: the number of its block, the outermost first, and its own number in the block.
#[derive(Clone, Copy)]
struct Place {
    block: usize,
    number: usize,
}

/// The variables in reach, block by block.
#[derive(Drop)]
pub(crate) struct Variables {
    // the innermost block at the end
    blocks: Vec<Block>,
    // by the number of its name where each variable stands; of a block that was closed also where one stood
    places: IndexMap<u32, Place>,
}

impl Model for Block {
    ghost use Rattle.silq_mean.specs.Env.{Block as Listed};
    ghost use Rattle.flat_form.specs.declared.known.Known.{Known};

    ghost Value = { Listed Known };

    ghost view = { λ b. b.items.items };
}

impl Model for Variables {
    ghost use Rattle.std.specs.Prelude.{ℕ, nat_eq, reverse};
    ghost use Rattle.indexmap.specs.IndexMap.{get};
    ghost use Rattle.flat_steps.specs.Reach.{Tells};
    ghost use Rattle.silq_mean.specs.Env.{Env};
    ghost use Rattle.flat_form.specs.declared.known.Known.{Known};

    // the innermost block first
    ghost Value = { Env Known };

    ghost view = { λ v. reverse v.blocks.items };

    ghost invariant = { λ v. Tells (λ (n : ℕ). get nat_eq v.places n) v.blocks.items };
}

/// A variable does not say where the expression of its value began.
pub(crate) fn as_variable(known: Known) -> Known
    ensures { result ≡ as_variable known }
{
    match known {
        Known::Shown(value) => Known::Shown(TypedBits { began: 0, ..value }),
        other => other,
    }
}

impl Block {
    // A block without variables.
    fn new(alloc: Global) -> Block
        ensures { result ≡ [] }
    {
        Block {
            items: Vec::new(alloc),
        }
    }

    // The variables with these names and values, of which the last one is the first name's.
    fn of_values(alloc: Global, names: &[NameId], mut values: Values) -> Result<Block, AllocError>
        ensures { IfOk result (λ b. b ≡ paired names.now values) }
    {
        let mut items = Vec::new(alloc);
        for name in names {
            let Some(known) = values.pop() else {
                return Ok(Block { items });
            };
            items.push((*name, as_variable(known)))?;
        }
        Ok(Block { items })
    }

    // Whether the variable with this number is there and has the name.
    fn is_named(&self, number: usize, name: NameId) -> bool
        ensures { result ≡ is_named name (slice_get self.now number) }
    {
        match self.items.get(number) {
            Some(variable) => variable.0 == name,
            None => false,
        }
    }

    // What the variable with this number shows.
    fn get(&self, number: usize) -> &Known
        requires { number < length self.now }
        ensures { (x : Name) → number_of self.now x ≡ Some number → result.now ≡ in_block Absent self.now x }
    {
        &self.items[number].1
    }

    // Lets the variable with this number show something else, and gives what it showed.
    fn replace(&mut self, number: usize, known: Known) -> Known
        requires { number < length self.old }
        ensures old { (x : Name) → number_of self.old x ≡ Some number → result ≡ in_block Absent self.old x }
        ensures new { (x : Name) → number_of self.old x ≡ Some number → self.new ≡ block_with self.old x known }
    {
        let variable = &mut self.items[number];
        mem::replace(&mut variable.1, known)
    }

    // Adds a variable.
    fn define(&mut self, name: NameId, known: Known) -> Result<(), AllocError>
        requires { is_in_block self.old name ≡ false }
        ensures ok { OnOk result (self.new ≡ block_with self.old name known) }
        ensures err { OnErr result (self.new ≡ self.old) }
    {
        self.items.push((name, known))?;
        Ok(())
    }
}

// Where the variables of the outermost block stand.
fn places_in(
    alloc: Global,
    variables: &[(NameId, Known)],
) -> Result<IndexMap<u32, Place>, AllocError>
    ensures { IfOk result (λ places. Tells (λ (n : ℕ). get nat_eq places n) (variables.now ∷ [])) }
{
    let mut places = IndexMap::new(alloc);
    let mut number = variables.len();
    while number > 0 {
        number -= 1;
        let name = variables[number].0;
        places.insert(name.number, Place { block: 0, number })?;
    }
    Ok(places)
}

// Whether a variable with the name stands at the place.
fn is_there(blocks: &[Block], place: Place, name: NameId) -> bool
    ensures { result ≡ is_named name (slice_get (get_or blocks.now place.block []) place.number) }
{
    match blocks.get(place.block) {
        Some(block) => block.is_named(place.number, name),
        None => false,
    }
}

// Where a variable stands, if it is in reach.
fn place_of(places: &IndexMap<u32, Place>, blocks: &[Block], name: NameId) -> Option<Place>
    requires { Tells (λ (n : ℕ). get nat_eq places.now n) blocks.now }
    ensures some { IfSome result (λ p. IsPlace blocks.now name p) }
    ensures none { IfNone result (is_in_reach (reverse blocks.now) name ≡ false) }
{
    let place = *places.get(&name.number)?;
    if !is_there(blocks, place, name) {
        return None;
    }
    Some(place)
}

impl Variables {
    /// No blocks.
    pub(crate) fn new(alloc: Global) -> Variables
        ensures { result ≡ [] }
    {
        Variables {
            blocks: Vec::new(alloc),
            places: IndexMap::new(alloc),
        }
    }

    /// The variables of a function's body as it begins, where the last value is the first parameter's.
    pub(crate) fn of_parameters(
        alloc: Global,
        names: &[NameId],
        values: Values,
    ) -> Result<Variables, AllocError>
        ensures { IfOk result (λ v. v ≡ paired names.now values ∷ []) }
    {
        let block = Block::of_values(alloc, names, values)?;
        let places = places_in(alloc, block.items.as_slice())?;
        let mut blocks = Vec::new(alloc);
        blocks.push(block)?;
        Ok(Variables { blocks, places })
    }

    /// Opens a block.
    pub(crate) fn open(&mut self) -> Result<(), AllocError>
        ensures { OnOk result (self.new ≡ [] ∷ self.old) }
    {
        let block = Block::new(*self.blocks.allocator());
        self.blocks.push(block)?;
        Ok(())
    }

    /// Closes the innermost block, if there is one.
    pub(crate) fn close(&mut self)
        ensures { self.new ≡ drop 1 self.old }
    {
        self.blocks.pop();
    }

    /// What a variable shows, if it is in reach.
    pub(crate) fn find(&self, name: NameId) -> Option<&Known>
        ensures some { IfSome result (λ k. k.now ≡ found Absent self.now name) }
        ensures none { IfNone result (found Absent self.now name ≡ Absent) }
    {
        let place = place_of(&self.places, self.blocks.as_slice(), name)?;
        let block = &self.blocks[place.block];
        Some(block.get(place.number))
    }

    /// Lets a variable that is in reach show something else, and gives what it showed.
    pub(crate) fn replace(&mut self, name: NameId, known: Known) -> Known
        ensures old { result ≡ found Absent self.old name }
        ensures new { self.new ≡ in_its_block self.old name known }
    {
        let Some(place) = place_of(&self.places, self.blocks.as_slice(), name) else {
            return Known::Absent;
        };
        let block = &mut self.blocks[place.block];
        block.replace(place.number, known)
    }

    /// Lets a variable show something: where it is not in reach it is a new one of the innermost block.
    pub(crate) fn bind(&mut self, name: NameId, known: Known) -> Result<(), AllocError>
        ensures { OnOk result (self.new ≡ bound self.old name known) }
    {
        let Some(place) = place_of(&self.places, self.blocks.as_slice(), name) else {
            return self.define(name, known);
        };
        let block = &mut self.blocks[place.block];
        block.replace(place.number, known);
        Ok(())
    }

    /// Lets variables show values in turn, of which the last one is the first name's.
    pub(crate) fn bind_all(
        &mut self,
        names: &[NameId],
        mut values: Values,
    ) -> Result<(), AllocError>
        ensures { OnOk result (self.new ≡ bind_all self.old names.now values) }
    {
        for name in names {
            let Some(known) = values.pop() else {
                return Ok(());
            };
            self.bind(*name, as_variable(known))?;
        }
        Ok(())
    }

    // Adds a variable to the innermost block.
    fn define(&mut self, name: NameId, known: Known) -> Result<(), AllocError>
        requires { is_in_reach self.old name ≡ false }
        ensures { OnOk result (self.new ≡ in_first_block self.old name known) }
    {
        if self.blocks.is_empty() {
            self.open()?;
        }
        self.add(name, known)
    }

    // Adds a variable to the innermost block, which is there.
    fn add(&mut self, name: NameId, known: Known) -> Result<(), AllocError>
        requires open { 0 < length self.old }
        requires new { is_in_reach self.old name ≡ false }
        ensures { OnOk result (self.new ≡ in_first_block self.old name known) }
    {
        let block = self.blocks.len() - 1;
        let number = self.blocks[block].items.len();
        self.places.insert(name.number, Place { block, number })?;
        let innermost = &mut self.blocks[block];
        innermost.define(name, known)
    }
}
