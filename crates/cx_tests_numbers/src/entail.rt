ghost use Rattle.std.specs.Prelude.{◌≤◌, ◌^◌, unsigned_abs};

use cx_entail::{Range, bounds, remainder, shows, shows_nonzero};
use cx_term::{Ineq, Term};

/// 2^64 - 1.
const TOP: i128 = 18446744073709551615;

/// 2^47.
const SPACE: i128 = 140737488355328;

/// All numbers from `lo` to `hi`.
fn all(lo: i128, hi: i128) -> Range
    requires lo { unsigned_abs lo ≤ 2 ^ 65 }
    requires hi { unsigned_abs hi ≤ 2 ^ 65 }
{
    Range { lo, hi, m: 1, r: 0 }
}

/// `a` times symbol 0 and `b` times symbol 1 and the number `c`.
fn form(a: i128, b: i128, c: i128) -> Term {
    let sum = match Term::constant(c) {
        Some(t) => t,
        None => return Term::zero(),
    };
    let sum = match sum.plus_times(a, &Term::symbol(0)) {
        Some(t) => t,
        None => return Term::zero(),
    };
    match sum.plus_times(b, &Term::symbol(1)) {
        Some(t) => t,
        None => Term::zero(),
    }
}

// Symbol 0 is an index i, symbol 1 a length n of elements of 8 bytes.
#[test]
fn an_index_below_a_length(rt: HostRuntime) {
    let ranges = [all(0, TOP), all(0, TOP)];
    let below = Ineq::Ge(form(-1, 1, -1));
    let fits = Ineq::Ge(form(0, -8, SPACE));
    let wanted = form(-8, 0, SPACE - 8);
    assert!(rt;
        shows(
            [below.copy(), fits.copy()].as_slice(),
            ranges.as_slice(),
            &wanted
        )
    );
    assert!(rt; !shows([below.copy()].as_slice(), ranges.as_slice(), &wanted));
    // i <= n is not i < n
    let at_most = Ineq::Ge(form(-1, 1, 0));
    assert!(rt; !shows([at_most].as_slice(), ranges.as_slice(), &form(-1, 1, -1)));
    // n is not 0, since i is below it
    assert!(rt; shows_nonzero([below].as_slice(), ranges.as_slice(), &form(0, 1, 0)));
    assert!(rt; !shows_nonzero([fits].as_slice(), ranges.as_slice(), &form(0, 1, 0)));
}

/// Symbol `b` less symbol `a`.
fn over(a: u32, b: u32) -> Term {
    match Term::symbol(b).sub(&Term::symbol(a)) {
        Some(t) => t,
        None => Term::zero(),
    }
}

#[test]
fn least_multiples_that_agree(rt: HostRuntime) {
    let ranges = [all(0, TOP), all(0, TOP)];
    // of 2n > 3i, twice 3n - 4i is three times 2n - 3i - 1 and i + 3
    let known = [Ineq::Ge(form(-3, 2, -1))];
    assert!(rt; shows(known.as_slice(), ranges.as_slice(), &form(-4, 3, 0)));
    assert!(rt; shows(known.as_slice(), ranges.as_slice(), &form(-4, 3, -2)));
    assert!(rt; !shows(known.as_slice(), ranges.as_slice(), &form(-4, 3, -3)));
    assert!(rt; !shows(known.as_slice(), ranges.as_slice(), &form(-5, 3, 0)));
    // n is at least 1 where 2n is
    let half = [Ineq::Ge(form(0, 2, -1))];
    assert!(rt; shows(half.as_slice(), ranges.as_slice(), &form(0, 1, -1)));
    assert!(rt; !shows(half.as_slice(), ranges.as_slice(), &form(0, 1, -2)));
}

#[test]
fn rounded_by_the_remainder(rt: HostRuntime) {
    let evens = Range {
        lo: 0,
        hi: 10,
        m: 2,
        r: 0,
    };
    // an even number that is at least 1 is at least 2
    let known = [Ineq::Ge(form(1, 0, -1))];
    assert!(rt; shows(known.as_slice(), [evens].as_slice(), &form(1, 0, -2)));
    assert!(rt; !shows(known.as_slice(), [evens].as_slice(), &form(1, 0, -3)));
    assert!(rt; !shows(known.as_slice(), [all(0, 10)].as_slice(), &form(1, 0, -2)));
}

#[test]
fn three_steps(rt: HostRuntime) {
    let whole = all(0, TOP);
    let ranges = [whole, whole, whole, whole, whole];
    let known = [
        Ineq::Ge(over(0, 1)),
        Ineq::Ge(over(1, 2)),
        Ineq::Ge(over(2, 3)),
        Ineq::Ge(over(3, 4)),
    ];
    assert!(rt; shows(known.as_slice(), ranges.as_slice(), &over(0, 3)));
    assert!(rt; shows(known.as_slice(), ranges.as_slice(), &over(1, 4)));
    assert!(rt; !shows(known.as_slice(), ranges.as_slice(), &over(0, 4)));
    assert!(rt; !shows(known.as_slice(), ranges.as_slice(), &over(3, 0)));
    // a number above a number is not that number
    let below = match over(0, 1).plus_number(-1) {
        Some(t) => [Ineq::Ge(t), known[1].copy(), known[2].copy()],
        None => return,
    };
    assert!(rt; shows_nonzero(below.as_slice(), ranges.as_slice(), &over(3, 0)));
    assert!(rt; !shows_nonzero(known.as_slice(), ranges.as_slice(), &over(3, 0)));
    assert!(rt; below[1].same(&known[1]));
    assert!(rt; !below[0].same(&known[0]));
    assert!(rt; !below[1].same(&Ineq::Ne(over(1, 2))));
    match over(0, 1).combined(2, -3, &over(0, 2), 5) {
        Some(t) => assert_eq!(rt;
            (
                t.konst(),
                t.coefficient(0),
                t.coefficient(1),
                t.coefficient(2)
            ),
            (5, 1, 2, -3)
        ),
        None => assert!(rt; false),
    }
}

#[test]
fn not_zero(rt: HostRuntime) {
    let ranges = [all(-5, 5), all(-5, 5)];
    let known = [Ineq::Ne(form(1, -1, 0))];
    // listed, and its negative
    assert!(rt; shows_nonzero(known.as_slice(), ranges.as_slice(), &form(1, -1, 0)));
    assert!(rt; shows_nonzero(known.as_slice(), ranges.as_slice(), &form(-1, 1, 0)));
    assert!(rt; !shows_nonzero(known.as_slice(), ranges.as_slice(), &form(1, 1, 0)));
    // 2i + 4n + 1 is odd
    let (nothing, _) = known.as_slice().split_at(0);
    assert!(rt; shows_nonzero(nothing, ranges.as_slice(), &form(2, 4, 1)));
    assert!(rt; !shows_nonzero(nothing, ranges.as_slice(), &form(2, 4, 2)));
}

#[test]
fn what_ranges_say(rt: HostRuntime) {
    let evens = Range {
        lo: 1,
        hi: 9,
        m: 2,
        r: 0,
    };
    let ranges = [evens, all(-3, 4)];
    assert_eq!(rt; evens.low(), 2);
    assert_eq!(rt; evens.high(), 8);
    assert_eq!(rt; bounds(&form(3, -2, 1), ranges.as_slice()), (-1, 31));
    assert_eq!(rt; remainder(&form(3, 6, 1), ranges.as_slice()), (6, -11));
    assert_eq!(rt; remainder(&Term::symbol(9), ranges.as_slice()), (0, 0));
}

#[test]
fn widened_to_a_threshold(rt: HostRuntime) {
    let thresholds = [
        -9223372036854775808,
        -2147483648,
        -32768,
        -1,
        0,
        1,
        255,
        32767,
        65535,
        2147483647,
        4294967295,
        SPACE,
        9223372036854775807,
        TOP,
    ];
    assert_eq!(rt;
        all(0, 0).widen(&all(0, 2), thresholds.as_slice()),
        all(0, 255)
    );
    assert_eq!(rt;
        all(0, 2).widen(&all(1, 2), thresholds.as_slice()),
        all(0, 2)
    );
    assert_eq!(rt;
        all(0, 2).widen(&all(-9, TOP + 1), thresholds.as_slice()),
        all(-32768, 36893488147419103232)
    );
}

/// Whether `v` is a number of the range.
fn has(a: Range, v: i128) -> bool {
    a.lo <= v && v <= a.hi && v.rem_euclid(i128::from(a.m)) == i128::from(a.r)
}

/// The range with this number: bounds, modulus and remainder out of a few.
fn nth(n: u32) -> Range {
    let m = u64::from(n / 16 % 6) + 1;
    Range {
        lo: i128::from(n % 4) * 3 - 7,
        hi: i128::from(n / 4 % 4) * 5 - 3,
        m,
        r: u64::from(n / 96) % m,
    }
}

/// Whether meet and join are what the numbers of both say, of which all lie between -20 and 20.
fn agrees(a: Range, b: Range) -> bool {
    let join = a.join(&b);
    let meet = a.meet(&b);
    let mut none = true;
    for n in 0..41 {
        let v = i128::from(n) - 20;
        let both = has(a, v) && has(b, v);
        if both {
            none = false;
        }
        if (has(a, v) || has(b, v)) && !has(join, v) {
            return false;
        }
        if let Some(meet) = meet {
            if has(meet, v) != both {
                return false;
            }
        }
    }
    none == meet.is_none()
}

#[test]
fn meets_and_joins(rt: HostRuntime) {
    let evens = Range {
        lo: 0,
        hi: 10,
        m: 2,
        r: 0,
    };
    let odds = Range {
        lo: 0,
        hi: 10,
        m: 2,
        r: 1,
    };
    assert_eq!(rt; evens.meet(&odds), None);
    assert_eq!(rt; evens.join(&odds), all(0, 10));
    for i in 0..192 {
        for j in 0..24 {
            assert!(rt; agrees(nth(i), nth(j * 8 + i % 8)));
        }
    }
}
