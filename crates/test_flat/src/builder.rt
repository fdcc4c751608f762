//! The rows of steps that a builder makes, each on the smallest state that shows it. A wire that a step changed is no longer read as
//! a constant.

ghost use Rattle.std.specs.Prelude.{◌≡◌};
ghost use Rattle.bit_arith.specs.Built.{made};

use bit_arith::{Builder, Operand};
use flat_core::{End, Lit, WireId, WireLists};
use silq_io::LimitFault;
use std::alloc::Global;

const ON: Operand = Operand::Const(true);

const OFF: Operand = Operand::Const(false);

// The wire's own bit.
fn of_wire(wire: WireId) -> Operand
    ensures { result ≡ made wire }
{
    Operand::Literal(Lit {
        wire,
        positive: true,
    })
}

// The bit of the wire with this number.
fn of_number(number: u32) -> Operand {
    of_wire(WireId { number })
}

// Three operands are gathered two by two on a new wire, and the target is changed.
fn flips_under_three(alloc: Global) -> Result<bool, LimitFault> {
    let mut builder = Builder::new(alloc);
    let a = builder.wire(true)?;
    let b = builder.wire(true)?;
    let c = builder.wire(true)?;
    let target = builder.wire(false)?;
    builder.flip(target, &[of_wire(a), of_wire(b), of_wire(c)])?;
    Ok(builder.wires() == 5)
}

// A wire that nothing changed is read as the constant 0.
fn reads_blank_wires(alloc: Global) -> Result<bool, LimitFault> {
    let mut builder = Builder::new(alloc);
    let blank = builder.wire(false)?;
    let target = builder.wire(false)?;
    let before = builder.read(of_wire(target));
    builder.flip(target, &[of_wire(blank).negated()])?;
    Ok((builder.wires(), before) == (2, OFF))
}

fn conjunctions(alloc: Global) -> Result<bool, LimitFault> {
    let mut builder = Builder::new(alloc);
    let a = builder.wire(true)?;
    let b = builder.wire(true)?;
    let both = builder.and(&[of_wire(a), of_wire(b)])?;
    Ok((builder.wires(), both) == (3, of_number(2)))
}

// A phase of nothing, and one of an eighth on a new wire.
fn phases(alloc: Global) -> Result<(usize, usize), LimitFault> {
    let mut none = Builder::new(alloc);
    none.turn(8, &[])?;
    let mut some = Builder::new(alloc);
    some.turn(9, &[])?;
    Ok((none.wires(), some.wires()))
}

fn hadamard_gates(alloc: Global) -> Result<bool, LimitFault> {
    let mut builder = Builder::new(alloc);
    let a = builder.wire(true)?;
    builder.had(a)?;
    Ok(builder.wires() == 1)
}

fn measures(alloc: Global) -> Result<bool, LimitFault> {
    let mut builder = Builder::new(alloc);
    let a = builder.wire(true)?;
    builder.measure(a)?;
    Ok(builder.wires() == 1)
}

// A wire that no step measures, and its end.
fn ends(alloc: Global) -> Result<bool, LimitFault> {
    let mut builder = Builder::new(alloc);
    let a = builder.wire(true)?;
    let measured = builder.is_measured(a);
    builder.end(a, End::Output);
    Ok(builder.wires() == 1 && !measured)
}

fn conjunction_on_a_wire(alloc: Global) -> Result<bool, LimitFault> {
    let mut builder = Builder::new(alloc);
    let both = builder.both(ON, OFF)?;
    Ok((builder.wires(), both) == (1, of_number(0)))
}

fn alternative_on_a_wire(alloc: Global) -> Result<bool, LimitFault> {
    let mut builder = Builder::new(alloc);
    let either = builder.either(ON, OFF)?;
    Ok((builder.wires(), either.negated()) == (1, of_number(0)))
}

// Whether a bit is 0 is told by the bit itself.
fn equality(alloc: Global) -> Result<bool, LimitFault> {
    let mut builder = Builder::new(alloc);
    let a = builder.wire(true)?;
    let equal = builder.equal(&[of_wire(a)], &[OFF])?;
    Ok((builder.wires(), equal) == (1, of_wire(a).negated()))
}

// The carry out tells the order.
fn order(alloc: Global) -> Result<bool, LimitFault> {
    let mut builder = Builder::new(alloc);
    let less = builder.less(&[ON], &[OFF], true)?;
    Ok((builder.wires(), less) == (1, of_number(0)))
}

// One place has no carry on a wire.
fn carries(alloc: Global) -> Result<bool, LimitFault> {
    let mut builder = Builder::new(alloc);
    let carries = builder.carry(&[ON], &[ON])?;
    Ok(builder.wires() == 0 && carries.as_slice() == [OFF].as_slice())
}

// A carry for each place but the first.
fn sums(alloc: Global) -> Result<(usize, usize), LimitFault> {
    let mut builder = Builder::new(alloc);
    let sum = builder.sum(&[ON, OFF], &[ON, OFF])?;
    Ok((builder.wires(), sum.len()))
}

fn differences(alloc: Global) -> Result<bool, LimitFault> {
    let mut builder = Builder::new(alloc);
    let difference = builder.difference(&[ON], &[ON])?;
    Ok(builder.wires() == 1 && difference.as_slice() == [of_number(0)].as_slice())
}

// A multiple by one bit stands on a wire of its own.
fn products(alloc: Global) -> Result<bool, LimitFault> {
    let mut builder = Builder::new(alloc);
    let product = builder.product(&[ON], &[ON])?;
    Ok(builder.wires() == 2 && product.as_slice() == [of_number(0)].as_slice())
}

fn copies(alloc: Global) -> Result<(usize, usize), LimitFault> {
    let mut builder = Builder::new(alloc);
    let copies = builder.copy(&[ON, OFF])?;
    Ok((builder.wires(), copies.len()))
}

fn flips_in_place(alloc: Global) -> Result<usize, LimitFault> {
    let mut builder = Builder::new(alloc);
    let x = builder.wire(true)?;
    builder.flip_each(&[x], &[ON])?;
    Ok(builder.wires())
}

fn sums_in_place(alloc: Global) -> Result<usize, LimitFault> {
    let mut builder = Builder::new(alloc);
    let x = builder.wire(true)?;
    builder.add_into(&[x], &[ON])?;
    Ok(builder.wires())
}

fn differences_in_place(alloc: Global) -> Result<usize, LimitFault> {
    let mut builder = Builder::new(alloc);
    let x = builder.wire(true)?;
    builder.sub_into(&[x], &[ON])?;
    Ok(builder.wires())
}

// The condition and the line that were set before.
fn settings(alloc: Global) -> (bool, u32, u32) {
    let mut builder = Builder::new(alloc);
    let outer = builder.under(Some(OFF));
    (outer.is_none(), builder.line(7), builder.line(8))
}

// The form without wires.
fn finishes(alloc: Global) -> usize {
    let builder = Builder::new(alloc);
    let flat = builder.finish(WireLists::new(alloc), WireLists::new(alloc));
    flat.wires()
}

#[test]
fn gates_and_settings(rt: HostRuntime) {
    let alloc = rt.alloc();
    let met = [
        ("flip", flips_under_three(alloc).unwrap_or(false)),
        ("read", reads_blank_wires(alloc).unwrap_or(false)),
        ("and", conjunctions(alloc).unwrap_or(false)),
        ("turn", matches!(phases(alloc), Ok((0, 1)))),
        ("had", hadamard_gates(alloc).unwrap_or(false)),
        ("measure", measures(alloc).unwrap_or(false)),
        ("end", ends(alloc).unwrap_or(false)),
        ("settings", settings(alloc) == (true, 1, 7)),
        ("finish", finishes(alloc) == 0),
    ];
    for (name, met) in met {
        assert!(rt; met, "{name}");
    }
}

#[test]
fn arithmetic(rt: HostRuntime) {
    let alloc = rt.alloc();
    let met = [
        ("both", conjunction_on_a_wire(alloc).unwrap_or(false)),
        ("either", alternative_on_a_wire(alloc).unwrap_or(false)),
        ("equal", equality(alloc).unwrap_or(false)),
        ("less", order(alloc).unwrap_or(false)),
        ("carry", carries(alloc).unwrap_or(false)),
        ("sum", matches!(sums(alloc), Ok((3, 2)))),
        ("difference", differences(alloc).unwrap_or(false)),
        ("product", products(alloc).unwrap_or(false)),
        ("copy", matches!(copies(alloc), Ok((2, 2)))),
        ("flip_each", matches!(flips_in_place(alloc), Ok(1))),
        ("add_into", matches!(sums_in_place(alloc), Ok(1))),
        ("sub_into", matches!(differences_in_place(alloc), Ok(1))),
    ];
    for (name, met) in met {
        assert!(rt; met, "{name}");
    }
}
