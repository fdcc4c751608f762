//! The variables in reach.

ghost use Rattle.std.specs.Prelude.{◌≡◌, ◌<◌, true, false, [], ◌∷◌, reverse, IfSome, IfNone, IfOk, OnOk, drop};
ghost use Rattle.std.specs.List.{position};
ghost use Rattle.silq_types.specs.Types.{same_name};
ghost use Rattle.silq_mean.specs.Env.{is_in_block, in_block, block_with, is_in_reach, found, in_its_block, in_first_block, bound};
ghost use Rattle.silq_mean.specs.Value.{gone};
ghost use Rattle.silq_mean.specs.Term.{bind_all, paired};
ghost use Rattle.silq_run.specs.Reach.{IsInnermost};

use crate::stack::Values;
use crate::value::Value;
use silq_tree::NameId;
use std::alloc::{AllocError, Global};
use std::marker::Model;
use std::mem;

/// The variables of a block in order of definition.
#[derive(Drop)]
struct Block {
    items: Vec<(NameId, Value)>,
}

/// The variables in reach, block by block.
#[derive(Drop)]
pub(crate) struct Variables {
    // the innermost block at the end
    blocks: Vec<Block>,
}

impl Model for Block {
    ghost use Rattle.silq_mean.specs.Env.{Block as Listed};
    ghost use Rattle.silq_mean.specs.Value.{Value as Meant};

    ghost Value = { Listed Meant };

    ghost view = { λ b. b.items.items };
}

impl Model for Variables {
    ghost use Rattle.std.specs.Prelude.{reverse};
    ghost use Rattle.silq_mean.specs.Env.{Env};
    ghost use Rattle.silq_mean.specs.Value.{Value as Meant};

    // the innermost block first
    ghost Value = { Env Meant };

    ghost view = { λ v. reverse v.blocks.items };
}

impl Block {
    // A block without variables.
    fn new(alloc: Global) -> Block
        ensures { result ≡ [] }
    {
        Block {
            items: Vec::new(alloc),
        }
    }

    // The variables with these names and values, of which the last one is the first name's.
    fn of_values(alloc: Global, names: &[NameId], mut values: Values) -> Result<Block, AllocError>
        ensures { IfOk result (λ b. b ≡ paired names.now values) }
    {
        let mut items = Vec::new(alloc);
        for name in names {
            let Some(value) = values.pop() else {
                return Ok(Block { items });
            };
            items.push((*name, value))?;
        }
        Ok(Block { items })
    }

    // The same variables.
    fn copied(&self, alloc: Global) -> Result<Block, AllocError>
        ensures { IfOk result (λ b. b ≡ self.now) }
    {
        let mut items = Vec::new(alloc);
        for variable in self.items.as_slice() {
            let value = variable.1.copied(alloc)?;
            items.push((variable.0, value))?;
        }
        Ok(Block { items })
    }

    // The place of a variable.
    fn place(&self, name: NameId) -> Option<usize>
        ensures { result ≡ position (λ v. same_name v.0 name) self.now }
    {
        self.items.iter().position(|v| v.0 == name)
    }

    // Whether it has the variable.
    fn has(&self, name: NameId) -> bool
        ensures { result ≡ is_in_block self.now name }
    {
        self.place(name).is_some()
    }

    // What a variable shows.
    fn get(&self, name: NameId) -> Option<&Value>
        ensures some { IfSome result (λ k. k.now ≡ in_block gone self.now name) }
        ensures none { IfNone result (is_in_block self.now name ≡ false) }
    {
        let place = self.place(name)?;
        Some(&self.items[place].1)
    }

    // Lets a variable of the block show something else, and gives what it showed.
    fn replace(&mut self, name: NameId, value: Value) -> Value
        requires { is_in_block self.old name ≡ true }
        ensures old { result ≡ in_block gone self.old name }
        ensures new { self.new ≡ block_with self.old name value }
    {
        let Some(place) = self.place(name) else {
            unreachable!()
        };
        let variable = &mut self.items[place];
        mem::replace(&mut variable.1, value)
    }

    // Adds a variable.
    fn define(&mut self, name: NameId, value: Value) -> Result<(), AllocError>
        requires { is_in_block self.old name ≡ false }
        ensures { OnOk result (self.new ≡ block_with self.old name value) }
    {
        self.items.push((name, value))?;
        Ok(())
    }
}

// The innermost block that has a variable.
fn innermost(blocks: &[Block], name: NameId) -> Option<usize>
    ensures some { IfSome result (λ i. IsInnermost blocks.now name i) }
    ensures none { IfNone result (is_in_reach (reverse blocks.now) name ≡ false) }
{
    let mut i = blocks.len();
    while i > 0 {
        i -= 1;
        if blocks[i].has(name) {
            return Some(i);
        }
    }
    None
}

impl Variables {
    /// No blocks.
    pub(crate) fn new(alloc: Global) -> Variables
        ensures { result ≡ [] }
    {
        Variables {
            blocks: Vec::new(alloc),
        }
    }

    /// The variables of a function's body as it begins, where the last value is the first parameter's.
    pub(crate) fn of_parameters(
        alloc: Global,
        names: &[NameId],
        values: Values,
    ) -> Result<Variables, AllocError>
        ensures { IfOk result (λ v. v ≡ paired names.now values ∷ []) }
    {
        let mut variables = Variables::new(alloc);
        let block = Block::of_values(alloc, names, values)?;
        variables.blocks.push(block)?;
        Ok(variables)
    }

    /// The same variables.
    pub(crate) fn copied(&self, alloc: Global) -> Result<Variables, AllocError>
        ensures { IfOk result (λ v. v ≡ self.now) }
    {
        let mut blocks = Vec::new(alloc);
        for block in self.blocks.as_slice() {
            let same = block.copied(alloc)?;
            blocks.push(same)?;
        }
        Ok(Variables { blocks })
    }

    /// Opens a block.
    pub(crate) fn open(&mut self) -> Result<(), AllocError>
        ensures { OnOk result (self.new ≡ [] ∷ self.old) }
    {
        let block = Block::new(*self.blocks.allocator());
        self.blocks.push(block)?;
        Ok(())
    }

    /// Closes the innermost block, if there is one.
    pub(crate) fn close(&mut self)
        ensures { self.new ≡ drop 1 self.old }
    {
        self.blocks.pop();
    }

    /// What a variable shows, if it is in reach.
    pub(crate) fn find(&self, name: NameId) -> Option<&Value>
        ensures some { IfSome result (λ k. k.now ≡ found gone self.now name) }
        ensures none { IfNone result (found gone self.now name ≡ gone) }
    {
        let i = innermost(self.blocks.as_slice(), name)?;
        let block = &self.blocks[i];
        block.get(name)
    }

    /// Lets a variable that is in reach show something else, and gives what it showed.
    pub(crate) fn replace(&mut self, name: NameId, value: Value) -> Value
        ensures old { result ≡ found gone self.old name }
        ensures new { self.new ≡ in_its_block self.old name value }
    {
        let Some(i) = innermost(self.blocks.as_slice(), name) else {
            return Value::gone();
        };
        let block = &mut self.blocks[i];
        block.replace(name, value)
    }

    /// Lets a variable show something: where it is not in reach it is a new one of the innermost block.
    pub(crate) fn bind(&mut self, name: NameId, value: Value) -> Result<(), AllocError>
        ensures { OnOk result (self.new ≡ bound self.old name value) }
    {
        let Some(i) = innermost(self.blocks.as_slice(), name) else {
            return self.define(name, value);
        };
        let block = &mut self.blocks[i];
        block.replace(name, value);
        Ok(())
    }

    /// Lets variables show values in turn, of which the last one is the first name's.
    pub(crate) fn bind_all(
        &mut self,
        names: &[NameId],
        mut values: Values,
    ) -> Result<(), AllocError>
        ensures { OnOk result (self.new ≡ bind_all self.old names.now values) }
    {
        for name in names {
            let Some(value) = values.pop() else {
                return Ok(());
            };
            self.bind(*name, value)?;
        }
        Ok(())
    }

    // Adds a variable to the innermost block.
    fn define(&mut self, name: NameId, value: Value) -> Result<(), AllocError>
        requires { is_in_reach self.old name ≡ false }
        ensures { OnOk result (self.new ≡ in_first_block self.old name value) }
    {
        let blocks = self.blocks.len();
        if blocks == 0 {
            let mut block = Block::new(*self.blocks.allocator());
            block.define(name, value)?;
            self.blocks.push(block)?;
            return Ok(());
        }
        let block = &mut self.blocks[blocks - 1];
        block.define(name, value)
    }
}
