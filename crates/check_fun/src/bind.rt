//! Binding names to values.

ghost use Rattle.std.specs.Prelude.{◌≡◌, ◌∷◌, [], None, true, false, is_some, slice_get, IfErr, IfSome, OnOk};
ghost use Rattle.silq_types.specs.Rules.{rule as rule_at, name_taken, held_changed, condition_changed, linear_left};
ghost use Rattle.silq_mean.specs.Written.{value_of as static_value_of};
ghost use Rattle.silq_types.specs.Types.{is_held as held_origin, is_linear as linear_origin};
ghost use Rattle.static_num.specs.Static.{value_of_name};
ghost use Rattle.check_scope.specs.Context.{rules, find_var, variable, is_in_condition};
ghost use Rattle.check_fun.specs.Counting.{Runs, Fails};
ghost use Rattle.check_scope.specs.Faults.{fault_as};
ghost use Rattle.check_scope.specs.Library.{Shelf};
ghost use Rattle.check_scope.specs.State.{scope_in};
ghost use Rattle.check_fun.specs.Statement.{any_name, passes, is_held_var, is_live_linear as live_linear, overwrites_linear, bind_name, bind_names, assigned as names_assigned};
ghost use Rattle.check_fun.specs.Stepping.{next_bound};
ghost use Rattle.check_scope.specs.Walk.{Checker, Counts};
ghost use Rattle.check_scope.specs.declared.fault.CheckFault.TheVariants as checks;

use crate::plain::obeyed;
use crate::target::variable_part;
use check_scope::context::Context;
use check_scope::fault::CheckFault;
use check_scope::rule;
use silq_tree::{NameId, Spot};
use silq_types::{Origin, Value, Var};

/// The last value of a static name.
fn static_value(pairs: &[(NameId, i64)], name: NameId) -> Option<i64>
    ensures { result ≡ value_of_name pairs.now name None }
{
    let mut found = None;
    for (key, value) in pairs {
        if key.number == name.number {
            found = Some(*value);
        }
    }
    found
}

/// Whether one of the names is that of a static value.
fn any_static(cx: &Context, names: &[NameId]) -> bool
    ensures { result ≡ any_name (λ x. is_some (static_value_of cx.now.statics x)) names.now }
{
    for name in names {
        if static_value(cx.statics().as_slice(), *name).is_some() {
            return true;
        }
    }
    false
}

/// Whether the name is that of a held variable.
fn is_held_name(cx: &Context, name: NameId) -> bool
    ensures { result ≡ passes is_held_var (find_var cx.now.vars (variable name)) }
{
    match cx.find(variable_part(name)) {
        Some(var) => is_held(var.origin),
        None => false,
    }
}

/// Whether one of the names is that of a held variable.
fn any_held(cx: &Context, names: &[NameId]) -> bool
    ensures { result ≡ any_name (λ x. passes is_held_var (find_var cx.now.vars (variable x))) names.now }
{
    for name in names {
        if is_held_name(cx, *name) {
            return true;
        }
    }
    false
}

/// Whether a run-time condition in force holds one of the variables with these names.
fn any_in_condition(cx: &Context, names: &[NameId]) -> bool
    ensures { result ≡ any_name (λ x. is_in_condition cx.now.held (variable x)) names.now }
{
    for name in names {
        if cx.holds(variable_part(*name)) {
            return true;
        }
    }
    false
}

/// Whether a value is that of a const parameter.
pub(crate) fn is_held(origin: Origin) -> bool
    ensures { result ≡ held_origin origin }
{
    match origin {
        Origin::Held => true,
        _ => false,
    }
}

/// Whether a value is Linear.
pub(crate) fn is_linear(origin: Origin) -> bool
    ensures { result ≡ linear_origin origin }
{
    match origin {
        Origin::Linear => true,
        _ => false,
    }
}

/// Whether a variable still owns a Linear value.
pub(crate) fn is_live_linear(var: Var) -> bool
    ensures { result ≡ live_linear var }
{
    is_linear(var.origin) && !var.consumed
}

/// Whether a variable with this name still owns a Linear value.
fn is_overwritten(cx: &Context, name: NameId) -> bool
    ensures { result ≡ passes live_linear (find_var cx.now.vars (variable name)) }
{
    match cx.find(variable_part(name)) {
        Some(var) => is_live_linear(var),
        None => false,
    }
}

/// Binds a name: a variable in reach anew, else a new variable at the end.
fn bind_one(cx: &mut Context, name: NameId, value: Value) -> Result<(), CheckFault>
    ensures bound { OnOk result (cx.new ≡ record cx.old { vars = bind_name cx.old.vars name value; start = bind_name cx.old.vars name value }) }
    ensures memory { IfErr result (λ f. f ≡ checks.Memory) }
{
    let part = variable_part(name);
    let var = Var {
        part,
        ty: value.ty,
        origin: value.origin,
        place: value.place,
        consumed: false,
    };
    if cx.find(part).is_some() {
        cx.replace(var);
        return Ok(());
    }
    match cx.add(var) {
        Ok(()) => Ok(()),
        Err(_) => Err(CheckFault::Memory),
    }
}

/// The value with a number, from 0.
fn value_at(values: &[Value], i: usize) -> Option<Value>
    ensures { result ≡ slice_get values.now i }
{
    values.get(i).copied()
}

/// Binds a name to a value, if there is one, where no Linear value is overwritten.
fn bind_next(
    cx: &mut Context,
    at: Spot,
    name: NameId,
    value: Option<Value>,
) -> Result<(), CheckFault>
    ensures bound { OnOk result (cx.new ≡ record cx.old { vars = next_bound cx.old.vars name value; start = cx.new.start }) }
    ensures kept { OnOk result (passes live_linear (find_var cx.old.vars (variable name)) ≡ false) }
    ensures lost { IfErr result (λ f. IfSome (fault_as f) (λ first. (passes live_linear (find_var cx.old.vars (variable name)) ≡ true) × (first ≡ rule_at linear_left at))) }
{
    if is_overwritten(cx, name) {
        return Err(CheckFault::Broken {
            rule: rule::LINEAR_LEFT,
            at,
        });
    }
    match value {
        Some(value) => bind_one(cx, name, value),
        None => Ok(()),
    }
}

/// Binds names to values in turn, where no Linear value is overwritten. A name beyond the last value is tested, but not bound.
fn bind_all(
    cx: &mut Context,
    at: Spot,
    names: &[NameId],
    values: &[Value],
) -> Result<(), CheckFault>
    ensures bound { OnOk result (cx.new ≡ record cx.old { vars = bind_names cx.old.vars names.now values.now; start = cx.new.start }) }
    ensures kept { OnOk result (overwrites_linear cx.old.vars names.now values.now ≡ false) }
    ensures lost { IfErr result (λ f. IfSome (fault_as f) (λ first. (overwrites_linear cx.old.vars names.now values.now ≡ true) × (first ≡ rule_at linear_left at))) }
{
    for (i, name) in names.iter().enumerate() {
        bind_next(cx, at, *name, value_at(values, i))?;
    }
    Ok(())
}

/// The names are free to be bound: none is static, held, or in a condition.
fn may_bind(cx: &Context, at: Spot, names: &[NameId]) -> Result<(), CheckFault>
    ensures runs { (check : Checker) (c : Counts) → OnOk result (Runs check (rules at ((any_name (λ x. is_some (static_value_of cx.now.statics x)) names.now, name_taken) ∷ (any_name (λ x. passes is_held_var (find_var cx.now.vars (variable x))) names.now, held_changed) ∷ (any_name (λ x. is_in_condition cx.now.held (variable x)) names.now, condition_changed) ∷ [])) cx.now c tt cx.now c) }
    ensures fails { (check : Checker) (c : Counts) → IfErr result (λ f. Fails check (rules at ((any_name (λ x. is_some (static_value_of cx.now.statics x)) names.now, name_taken) ∷ (any_name (λ x. passes is_held_var (find_var cx.now.vars (variable x))) names.now, held_changed) ∷ (any_name (λ x. is_in_condition cx.now.held (variable x)) names.now, condition_changed) ∷ [])) cx.now c f) }
{
    let is_static = any_static(cx, names);
    let is_held = any_held(cx, names);
    let is_in_condition = any_in_condition(cx, names);
    obeyed(
        at,
        &[
            (is_static, rule::NAME_TAKEN),
            (is_held, rule::HELD_CHANGED),
            (is_in_condition, rule::CONDITION_CHANGED),
        ],
    )
}

/// Binds the names of an assignment to its values.
pub(crate) fn assigned(
    cx: &mut Context,
    at: Spot,
    names: &[NameId],
    values: &[Value],
) -> Result<(), CheckFault>
    ensures runs { (l : Shelf) (check : Checker) (c : Counts) → OnOk result (Runs check (names_assigned (scope_in l cx.old) at names.now values.now) cx.old c tt cx.new c) }
    ensures fails { (l : Shelf) (check : Checker) (c : Counts) → IfErr result (λ f. Fails check (names_assigned (scope_in l cx.old) at names.now values.now) cx.old c f) }
{
    may_bind(cx, at, names)?;
    bind_all(cx, at, names, values)?;
    obeyed(at, &[(names.len() != values.len(), rule::RESULT_COUNT)])?;
    Ok(())
}
