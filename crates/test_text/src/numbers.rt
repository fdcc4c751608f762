//! Values of static expressions, and their eighths of a turn as angles.

use silq_parse::{Program, parse};
use silq_tree::{ExprId, NameId, Stmt};
use static_num::{AngleFault, StaticFault, Statics, angle, eval};
use std::alloc::{AllocError, Global};

// The static name of the first function, and the angle of its first statement.
fn first_angle(program: &Program) -> Option<(NameId, ExprId)> {
    let fun = program.funs.get(0)?;
    if fun.number as usize >= program.tree.funs() {
        return None;
    }
    let fun = program.tree.fun(*fun);
    let name = fun.statics.get(0)?;
    let stmt = fun.body.items.get(0)?;
    if stmt.number as usize >= program.tree.stmts() {
        return None;
    }
    match program.tree.stmt(*stmt) {
        Stmt::Phase { angle, .. } => Some((*name, *angle)),
        _ => None,
    }
}

fn fault_word(fault: StaticFault) -> &'static str {
    match fault {
        StaticFault::NotStatic => "not static",
        StaticFault::ZeroDivisor => "zero divisor",
        StaticFault::Overflow => "overflow",
    }
}

fn add_value(out: &mut String, value: Result<i64, StaticFault>) -> Result<(), AllocError> {
    match value {
        Ok(value) => write!(out, "{value}; "),
        Err(fault) => {
            let word = fault_word(fault);
            write!(out, "{word}; ")
        }
    }
}

fn add_turn(out: &mut String, turn: Result<u8, AngleFault>) -> Result<(), AllocError> {
    match turn {
        Ok(eighths) => write!(out, "{eighths}"),
        Err(AngleFault::NotEighth) => out.push_str("no eighth"),
        Err(AngleFault::Static(fault)) => out.push_str(fault_word(fault)),
    }
}

// The value and the eighths of an expression where the name stands for 4. An earlier value of the name does not count.
fn both_of(
    alloc: Global,
    program: &Program,
    name: NameId,
    e: ExprId,
) -> Result<String, AllocError> {
    let mut out = String::new(alloc);
    let mut statics = Statics::new(alloc);
    statics.push((name, 3))?;
    statics.push((name, 4))?;
    if (e.number as usize) < program.tree.exprs() {
        add_value(&mut out, eval(&program.tree, e, &statics))?;
        add_turn(&mut out, angle(&program.tree, e, &statics))?;
    }
    Ok(out)
}

/// The value of an expression in which `n` stands for 4, or why it has none, and the same of its eighths.
pub fn value_and_turn(alloc: Global, text: &str) -> Result<String, AllocError> {
    let text = format!(in alloc; "def f[n:!N]() {{ phase({text}); }}")?;
    match parse(alloc, &text) {
        Ok(program) => match first_angle(&program) {
            Some((name, e)) => both_of(alloc, &program, name, e),
            None => String::from_str(alloc, "no angle"),
        },
        Err(_) => String::from_str(alloc, "no expression"),
    }
}
