//! The context of a body's walk.

ghost use Rattle.std.specs.Prelude.{◌≡◌, ◌<◌, ◌≤◌, ◌-◌, ℕ, suc, max, Some, not, [], ◌∷◌, ◌++◌, length, take, slice_get, true, MatchOption, IfOk, IfErr, OnOk, OnErr};
ghost use Rattle.std.specs.Option.{option_copied};
ghost use Rattle.silq_types.specs.Known.{Signatures};
ghost use Rattle.silq_mean.specs.Written.{is_empty};
ghost use Rattle.check_scope.specs.Context.{find_var, replace, is_in_condition, is_variable, new_place};
ghost use Rattle.check_scope.specs.Library.{Shelf};
ghost use Rattle.check_scope.specs.State.{scope_in};
ghost use Rattle.check_scope.specs.Steps.{Reads, Stops};
ghost use Rattle.check_scope.specs.First.{IsFirstAt, IsAbsent};
ghost use Rattle.check_scope.specs.Kept.{variable_names};
ghost use Rattle.check_scope.specs.Places.{disturbs as disturb};
ghost use Rattle.check_scope.specs.declared.fault.CheckFault.TheVariants as checks;
ghost use Rattle.check_scope.specs.declared.fault.ExprFault.TheVariants as stops;

use crate::fault::{CheckFault, ExprFault};
use crate::name_index::NameIndex;
use crate::parts::{is_in_the_way, overlaps_any, same_part};
use silq_tree::NameId;
use silq_types::{List, Part, Ty, TyList, Var};
use static_num::Statics;
use std::alloc::{AllocError, Global};
use std::marker::Model;

/// The parts that a run-time condition holds.
pub type PartList = List<Part>;

/// How many places there are.
const PLACES: u128 = 1 << 127;

/// The number of the first variable with this part.
fn position(vars: &[Var], names: &NameIndex, part: Part) -> Option<usize>
    requires { names.now ≡ variable_names vars.now }
    ensures { MatchOption result (IsAbsent vars.now part) (IsFirstAt vars.now part) }
{
    let mut first = None;
    let mut next = names.last(part.name);
    while let Some(i) = next {
        next = names.before(i);
        if same_part(vars[i].part, part) {
            first = Some(i);
        }
    }
    first
}

/// Whether another variable that was taken out overlaps the part.
fn disturbs(vars: &[Var], names: &NameIndex, part: Part) -> bool
    requires { names.now ≡ variable_names vars.now }
    ensures { result ≡ disturb vars.now part }
{
    let mut next = names.last(part.name);
    while let Some(i) = next {
        if is_in_the_way(vars[i], part) {
            return true;
        }
        next = names.before(i);
    }
    false
}

/// How many variables in front have the names of the others.
fn same_names(vars: &[Var], others: &[Var]) -> usize
    ensures within { result ≤ length others.now }
    ensures same { take result (variable_names vars.now) ≡ take result (variable_names others.now) }
{
    let len = vars.len().min(others.len());
    for n in 0..len {
        if vars[n].part.name.number != others[n].part.name.number {
            return n;
        }
    }
    len
}

/// Adds the names of these variables.
fn push_names(names: &mut NameIndex, vars: &[Var]) -> Result<(), AllocError>
    ensures { OnOk result (names.new ≡ names.old ++ variable_names vars.now) }
{
    for var in vars {
        names.push(var.part.name)?;
    }
    Ok(())
}

/// What the walk of a body changes and sees: the variables in order of definition, the next new place, the values of static names,
/// and the parts that each run-time condition in force holds.
#[derive(Drop)]
pub struct Context {
    this: u32,
    results: TyList,
    depth: u32,
    height: u32,
    vars: Vec<Var>,
    // the names of the variables
    names: NameIndex,
    // each variable that was changed since the expression began, with its number, the latest last
    moved: Vec<(usize, Var)>,
    next: u128,
    statics: Statics,
    held: Vec<PartList>,
}

impl Model for Context {
    ghost use Rattle.check_scope.specs.State.{State};
    ghost use Rattle.check_scope.specs.Kept.{AreKept};
    ghost use Rattle.check_scope.specs.Undo.{undone};

    ghost Value = { State };

    ghost view = { λ c. record {
      this = c.this;
      results = c.results;
      depth = c.depth;
      height = c.height;
      vars = c.vars.items;
      start = undone c.vars.items c.moved.items;
      next = c.next;
      statics = c.statics;
      held = c.held.items;
    } };

    ghost invariant = { λ c. AreKept c.vars.items c.moved.items c.names };
}

impl Context {
    /// No variables, in the body of the function with this number, whose results have these types, with so many open instances.
    pub fn new(alloc: Global, this: u32, results: TyList, statics: Statics, depth: u32) -> Context
        ensures { result ≡ record { this = this; results = results; depth = depth; height = 0; vars = []; start = []; next = 0; statics = statics; held = [] } }
    {
        Context {
            this,
            results,
            depth,
            height: 0,
            vars: Vec::new(alloc),
            names: NameIndex::new(alloc),
            moved: Vec::new(alloc),
            next: 0,
            statics,
            held: Vec::new(alloc),
        }
    }

    /// The number of its function in the file.
    pub fn this(&self) -> u32
        ensures { result ≡ self.now.this }
    {
        self.this
    }

    /// The types of the function's results.
    pub fn results(&self) -> &[Ty]
        ensures { result.now ≡ self.now.results }
    {
        self.results.as_slice()
    }

    /// How many instances are open.
    pub fn depth(&self) -> u32
        ensures { result ≡ self.now.depth }
    {
        self.depth
    }

    /// The greatest height of an instance that was called.
    pub fn height(&self) -> u32
        ensures { result ≡ self.now.height }
    {
        self.height
    }

    /// The next new place.
    pub fn next(&self) -> u128
        ensures { result ≡ self.now.next }
    {
        self.next
    }

    /// The values of static names.
    pub fn statics(&self) -> &Statics
        ensures { result.now ≡ self.now.statics }
    {
        &self.statics
    }

    /// How many variables.
    pub fn len(&self) -> usize
        ensures { result ≡ length self.now.vars }
    {
        self.vars.len()
    }

    /// The variable with this number, from 0.
    pub fn var(&self, i: usize) -> Option<&Var>
        ensures { option_copied result ≡ slice_get self.now.vars i }
    {
        self.vars.get(i)
    }

    /// The variables in order of definition.
    pub fn vars(&self) -> &[Var]
        ensures { result.now ≡ self.now.vars }
    {
        self.vars.as_slice()
    }

    /// The variable with this part.
    pub fn find(&self, part: Part) -> Option<Var>
        ensures { result ≡ find_var self.now.vars part }
    {
        match position(self.vars.as_slice(), &self.names, part) {
            Some(i) => Some(self.vars[i]),
            None => None,
        }
    }

    /// Whether another variable than the part itself, which an element assignment took out, overlaps it.
    pub fn is_disturbed(&self, part: Part) -> bool
        ensures { result ≡ disturb self.now.vars part }
    {
        disturbs(self.vars.as_slice(), &self.names, part)
    }

    /// Whether a run-time condition is in force.
    pub fn is_run_time(&self) -> bool
        ensures { result ≡ not (is_empty self.now.held) }
    {
        !self.held.is_empty()
    }

    /// Whether a run-time condition in force holds a part that overlaps this one.
    pub fn holds(&self, part: Part) -> bool
        ensures { result ≡ is_in_condition self.now.held part }
    {
        for parts in self.held.iter() {
            if overlaps_any(parts.as_slice(), part) {
                return true;
            }
        }
        false
    }

    // ---- what an expression changes

    /// The next new place. There is no memory where it would pass 2^127.
    pub fn fresh(&mut self) -> Result<u128, ExprFault>
        ensures reads { (met : Signatures) → IfOk result (λ p. Reads met new_place self.old p self.new) }
        ensures full { OnErr result (self.new ≡ self.old) }
        ensures memory { IfErr result (λ f. f ≡ stops.Fault checks.Memory) }
    {
        let place = self.next;
        if place >= PLACES {
            return Err(ExprFault::Fault(CheckFault::Memory));
        }
        self.next = place + 1;
        Ok(place)
    }

    /// The variable is consumed.
    pub fn consume(&mut self, var: Var) -> Result<(), AllocError>
        requires { find_var self.old.vars var.part ≡ Some var }
        ensures ok { OnOk result (self.new ≡ record self.old { vars = replace self.old.vars (record var { consumed = true }) }) }
        ensures err { OnErr result (self.new ≡ self.old) }
    {
        if let Some(i) = position(self.vars.as_slice(), &self.names, var.part) {
            self.moved.push((i, var))?;
            self.vars[i] = Var {
                consumed: true,
                ..var
            };
        }
        Ok(())
    }

    /// An instance of this height was called.
    pub fn raise(&mut self, height: u32)
        ensures { self.new ≡ record self.old { height = max self.old.height height } }
    {
        self.height = self.height.max(height);
    }

    /// An expression begins here.
    pub fn begin(&mut self)
        ensures { self.new ≡ record self.old { start = self.old.vars } }
    {
        self.moved.clear();
    }

    /// The variables are as they were when the expression began, and so are the next new place and the height, which are these.
    pub fn restore(&mut self, next: u128, height: u32)
        ensures { self.new ≡ record self.old { vars = self.old.start; next = next; height = height } }
    {
        while let Some((i, var)) = self.moved.pop() {
            self.vars[i] = var;
        }
        self.next = next;
        self.height = height;
    }

    // ---- what a statement changes

    /// Adds a variable at the end.
    pub fn add(&mut self, var: Var) -> Result<(), AllocError>
        ensures ok { OnOk result (self.new ≡ record self.old { vars = self.old.vars ++ var ∷ []; start = self.old.vars ++ var ∷ [] }) }
        ensures err { OnErr result (self.new ≡ record self.old { start = self.old.vars }) }
    {
        self.moved.clear();
        self.vars.push(var)?;
        match self.names.push(var.part.name) {
            Ok(()) => Ok(()),
            Err(fault) => {
                self.vars.pop();
                Err(fault)
            }
        }
    }

    /// The first variable with this one's part is replaced by it, if there is one.
    pub fn replace(&mut self, var: Var)
        ensures { self.new ≡ record self.old { vars = replace self.old.vars var; start = replace self.old.vars var } }
    {
        self.moved.clear();
        if let Some(i) = position(self.vars.as_slice(), &self.names, var.part) {
            self.vars[i] = var;
        }
    }

    /// Keeps the first n variables.
    pub fn cut(&mut self, n: usize)
        ensures { self.new ≡ record self.old { vars = take n self.old.vars; start = take n self.old.vars } }
    {
        self.moved.clear();
        self.vars.truncate(n);
        self.names.truncate(n);
    }

    /// All variables, in place of those before. Where there is no memory there are none.
    pub fn put(&mut self, vars: Vec<Var>) -> Result<(), AllocError>
        ensures ok { OnOk result (self.new ≡ record self.old { vars = vars.items; start = vars.items }) }
        ensures err { OnErr result (self.new ≡ record self.old { vars = []; start = [] }) }
    {
        self.moved.clear();
        let same = same_names(self.vars.as_slice(), vars.as_slice());
        self.names.truncate(same);
        match push_names(&mut self.names, &vars.as_slice()[same..]) {
            Ok(()) => {
                self.vars = vars;
                Ok(())
            }
            Err(fault) => {
                self.names.truncate(0);
                self.vars.clear();
                Err(fault)
            }
        }
    }

    /// Gives a static name its value.
    pub fn bind(&mut self, name: NameId, value: i64) -> Result<(), AllocError>
        ensures ok { OnOk result (self.new ≡ record self.old { statics = self.old.statics ++ (name, value) ∷ [] }) }
        ensures err { OnErr result (self.new ≡ self.old) }
    {
        self.statics.push((name, value))
    }

    /// Takes away the last static value.
    pub fn unbind(&mut self)
        requires { 0 < length self.old.statics }
        ensures { self.new ≡ record self.old { statics = take (length self.old.statics - 1) self.old.statics } }
    {
        self.statics.pop();
    }

    /// The parts that one more run-time condition holds.
    pub fn hold(&mut self, parts: PartList) -> Result<(), AllocError>
        ensures ok { OnOk result (self.new ≡ record self.old { held = self.old.held ++ parts ∷ [] }) }
        ensures err { OnErr result (self.new ≡ self.old) }
    {
        self.held.push(parts)?;
        Ok(())
    }

    /// Takes away the last run-time condition.
    pub fn release(&mut self)
        requires { 0 < length self.old.held }
        ensures { self.new ≡ record self.old { held = take (length self.old.held - 1) self.old.held } }
    {
        self.held.pop();
    }
}
