use cx_term::{Ineq, Term};
use std::test::Fail;

/// `k` times the symbol `s`, and the number `c`.
fn form(k: i128, s: u32, c: i128) -> Option<Term> {
    match Term::constant(c) {
        Some(constant) => constant.plus_times(k, &Term::symbol(s)),
        None => None,
    }
}

/// Whether both are forms, and the same one, or both are none.
fn equal(a: Option<Term>, b: Option<Term>) -> bool {
    match (a, b) {
        (Some(a), Some(b)) => a.same(&b),
        (None, None) => true,
        _ => false,
    }
}

fn twice(t: Option<Term>) -> Option<Term> {
    match t {
        Some(t) => t.scale(2),
        None => None,
    }
}

#[test]
fn scale_and_limits(rt: HostRuntime) {
    // the largest coefficient is 2^32
    assert!(rt; form(4294967296, 3, 0).is_some());
    assert!(rt; form(4294967297, 3, 0).is_none());
    assert!(rt; twice(form(4294967296, 3, 0)).is_none());
    assert!(rt; equal(twice(form(5, 3, 7)), form(10, 3, 14)));
    // the largest constant is 2^96
    assert!(rt; Term::constant(79228162514264337593543950336).is_some());
    assert!(rt; Term::constant(79228162514264337593543950337).is_none());
    assert!(rt; Term::constant(-79228162514264337593543950336).is_some());
    assert!(rt; Term::constant(i128::MIN).is_none());
    assert!(rt; form(i128::MAX, 0, 0).is_none());
    assert!(rt; form(0, 0, 9).is_some());
}

#[test]
fn sums(rt: HostRuntime) {
    let x = Term::symbol(7);
    let y = Term::symbol(2);
    // 7 stands behind 2, and equal symbols are one part
    match x.add(&y) {
        Some(sum) => {
            assert_eq!(rt; sum.parts(), [(2, 1), (7, 1)].as_slice());
            assert_eq!(rt; sum.coefficient(7), 1);
            assert_eq!(rt; sum.coefficient(3), 0);
            assert!(rt; equal(sum.sub(&x), Some(y.copy())));
        }
        None => assert!(rt; false),
    }
    // what becomes 0 is no part
    assert!(rt; equal(x.sub(&x), Some(Term::default())));
    assert!(rt; equal(x.add(&x), form(2, 7, 0)));
    assert_eq!(rt; Term::zero().konst(), 0);
    match Ineq::Ne(x).copy() {
        Ineq::Ne(t) => assert!(rt; t.same(&Term::symbol(7))),
        Ineq::Ge(_) => assert!(rt; false),
    }
}

/// The sum of the symbols from `first` on, four of them.
fn four(first: u32) -> Option<Term> {
    let mut sum = Term::zero();
    for i in 0..4 {
        match sum.add(&Term::symbol(first.wrapping_add(i))) {
            Some(next) => sum = next,
            None => return None,
        }
    }
    Some(sum)
}

#[test]
fn replaced(rt: HostRuntime) {
    // a fifth symbol does not fit
    match four(0) {
        Some(sum) => {
            assert!(rt; sum.add(&Term::symbol(9)).is_none());
            // but it may replace one
            match sum.put(3, &Term::symbol(9)) {
                Some(t) => assert_eq!(rt; t.parts(), [(0, 1), (1, 1), (2, 1), (9, 1)].as_slice()),
                None => assert!(rt; false),
            }
            // 0 + 1 + 2 + 3 with 2^96, 2^96, -2^96 and -2^96 for them: what stands between passes the limit
            let top = 79228162514264337593543950336;
            match (
                Term::constant(top),
                Term::constant(top),
                Term::constant(-top),
                Term::constant(-top),
            ) {
                (Some(a), Some(b), Some(c), Some(d)) => {
                    assert!(rt; equal(sum.put_all([a, b, c, d].as_slice()), Some(Term::zero())));
                }
                _ => assert!(rt; false),
            }
            // a symbol past the end is the number 0
            assert!(rt;
                equal(
                    sum.put_all([Term::symbol(5)].as_slice()),
                    Some(Term::symbol(5))
                )
            );
        }
        None => assert!(rt; false),
    }
}

#[test]
fn sums_of_lists(rt: HostRuntime) {
    // 2^64
    let large = 18446744073709551616;
    let mixed = [
        (Some(3), 2),
        (None, 5),
        (Some(1), -4),
        (Some(3), -2),
        (None, -7),
        (Some(1), 1),
    ];
    match Term::sum_of(mixed.as_slice()) {
        Some(t) => {
            assert_eq!(rt;
                (t.konst(), t.coefficient(1), t.coefficient(3)),
                (-2, -3, 0)
            );
            assert_eq!(rt; t.parts().len(), 1);
        }
        None => assert!(rt; false),
    }
    // what stands between passes the limits
    let back = [
        (Some(0), large),
        (None, i128::MAX),
        (None, i128::MAX),
        (Some(0), 1 - large),
        (None, -i128::MAX),
        (None, -i128::MAX),
    ];
    match Term::sum_of(back.as_slice()) {
        Some(t) => assert!(rt; t.same(&Term::symbol(0))),
        None => assert!(rt; false),
    }
    let past = [(Some(0), 4294967297)];
    assert!(rt; Term::sum_of(past.as_slice()).is_none());
    let five = [
        (Some(9), 1),
        (Some(8), 1),
        (Some(7), 1),
        (Some(6), 1),
        (Some(5), 1),
    ];
    assert!(rt; Term::sum_of(five.as_slice()).is_none());
    let four = [
        (Some(9), 1),
        (Some(8), 1),
        (Some(7), 1),
        (Some(6), 1),
        (Some(9), -1),
        (Some(5), 1),
    ];
    assert!(rt; Term::sum_of(four.as_slice()).is_some());
}
