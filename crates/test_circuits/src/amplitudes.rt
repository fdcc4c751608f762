//! Amplitudes.

use amp_core::Amp;

fn over(a: i128, b: i128, c: i128, d: i128, k: u32) -> Amp {
    Amp { a, b, c, d, k }
}

#[test]
fn sums_and_products(rt: HostRuntime) {
    let one_over_root_two = over(1, 0, 0, 0, 1);
    let x = over(1, 2, 3, 4, 5);
    assert!(rt; one_over_root_two.is_small() && x.is_small() && Amp::ONE.is_small());
    let found = [
        Amp::ONE.add(&one_over_root_two),
        one_over_root_two.root_two(),
        x.mul_w(1),
        x.mul_w(11),
    ];
    // 1 is root two over root two, and root two is w - w^3.
    let wanted = [
        over(1, 1, 0, -1, 1),
        over(0, 1, 0, -1, 1),
        over(-4, 1, 2, 3, 5),
        over(-2, -3, -4, 1, 5),
    ];
    assert!(rt; found == wanted);
}

// Whether one number is written in this way and, with the least power, in that one.
fn is_reduced_to(x: Amp, least: Amp) -> bool {
    x.is_small()
        && least.is_small()
        && x.reduced() == least
        && x.same(&least)
        && x.is_zero() == (least == Amp::ZERO)
}

#[test]
fn one_number_over_many_powers(rt: HostRuntime) {
    for (x, least) in [
        (over(0, 1, 0, -1, 1), Amp::ONE),
        (over(2, 0, 0, 0, 3), over(1, 0, 0, 0, 1)),
        (over(1, 1, 0, 0, 4), over(1, 1, 0, 0, 4)),
        (over(0, 0, 0, 0, 9), Amp::ZERO),
    ] {
        assert!(rt; is_reduced_to(x, least), "{} {}", x.a, x.k);
    }
    assert!(rt; !is_reduced_to(over(1, 0, 0, 0, 2), Amp::ONE));
}

#[test]
fn sizes(rt: HostRuntime) {
    // The squared size of 1 + w is 2 + root two.
    let x = over(1, 1, 0, 0, 2);
    assert!(rt; x.is_within(1 << 60));
    let wide = over(0, 0, -(1 << 100), 0, 0);
    let bounds = [
        wide.is_small(),
        wide.is_within((1 << 100) + 1),
        wide.is_within(1 << 100),
        over(0, 0, 0, 0, 51).is_small(),
        over(0, 0, 0, 0, 50).is_small(),
    ];
    assert!(rt; x.norm() == (2, 1, 2) && bounds == [false, true, false, false, true]);
}
