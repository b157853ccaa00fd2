// Fractions of texts, their sums, order and products, and how they are written.
use tda_frac::{Frac, lcm};

const MOST: u64 = u64::MAX;

fn sum_of(left: (u64, u64), right: (u64, u64)) -> Option<(u64, u64)> {
    let left = Frac::new(left.0, left.1)?;
    let right = Frac::new(right.0, right.1)?;
    let sum = left.add(right)?;
    Some((sum.num(), sum.den()))
}

fn is_at_most(left: (u64, u64), right: (u64, u64)) -> Option<bool> {
    let left = Frac::new(left.0, left.1)?;
    let right = Frac::new(right.0, right.1)?;
    Some(left.le(right))
}

fn flip_of(num: u64, den: u64) -> Option<(u64, u64)> {
    let one_over = Frac::new(num, den)?.flip()?;
    Some((one_over.num(), one_over.den()))
}

// Texts, and the fraction that each is, in lowest terms.
const TEXTS: [(&str, Option<(u64, u64)>); 23] = [
    ("6/4", Some((3, 2))),
    ("1/0", None),
    ("0/0", None),
    ("0/5", Some((0, 1))),
    ("0", Some((0, 1))),
    ("7", Some((7, 1))),
    ("18446744073709551615/1", Some((MOST, 1))),
    ("1/18446744073709551615", Some((1, MOST))),
    ("18446744073709551616", None),
    ("100000000000000000000", None),
    ("100000000000000000000/1", None),
    ("00", None),
    ("01", None),
    ("1/02", None),
    ("+1", None),
    ("-1", None),
    (" 1", None),
    ("1 ", None),
    ("1/", None),
    ("/1", None),
    ("/", None),
    ("1/2/3", None),
    ("", None),
];

#[test]
fn fractions_of_texts(rt: HostRuntime) {
    for (text, want) in TEXTS {
        let read = Frac::parse(text.as_bytes());
        assert_eq!(rt; read.map(|f| (f.num(), f.den())), want, "at {text}");
    }
}

// Two fractions, and their sum.
const SUMS: [((u64, u64), (u64, u64), Option<(u64, u64)>); 6] = [
    ((1, 3), (1, 6), Some((1, 2))),
    ((1, MOST), (1, MOST - 1), None),
    ((0, 1), (4, 6), Some((2, 3))),
    ((MOST, 1), (1, 1), None),
    // The sum of the cross products passes 128 bits, and that in lowest terms fits.
    ((MOST, MOST - 1), (MOST, MOST - 1), Some((MOST, MOST / 2))),
    ((MOST, MOST - 1), (MOST - 1, MOST), None),
];

#[test]
fn sums_of_fractions(rt: HostRuntime) {
    for (left, right, want) in SUMS {
        assert_eq!(rt; sum_of(left, right), want, "at {left:?} and {right:?}");
    }
}

#[test]
fn order_and_inverse(rt: HostRuntime) {
    assert_eq!(rt; is_at_most((0, 7), (0, 1)), Some(true));
    assert_eq!(rt; is_at_most((2, 4), (1, 2)), Some(true));
    assert_eq!(rt; is_at_most((1, MOST), (1, MOST - 1)), Some(true));
    assert_eq!(rt; is_at_most((1, MOST - 1), (1, MOST)), Some(false));
    assert_eq!(rt; flip_of(6, 4), Some((2, 3)));
    assert_eq!(rt; flip_of(0, 4), None);
}

// A fraction, a number, and their product where it is whole.
const WEIGHTS: [((u64, u64), u64, Option<u64>); 6] = [
    ((1, 3), 4, None),
    ((1, 3), 6, Some(2)),
    ((3, 2), 4, Some(6)),
    ((0, 1), 5, Some(0)),
    ((2, 1), MOST, None),
    ((MOST, 2), 2, Some(MOST)),
];

#[test]
fn weights_of_fractions(rt: HostRuntime) {
    for ((num, den), by, want) in WEIGHTS {
        let weight = Frac::new(num, den).and_then(|f| f.weight(by));
        assert_eq!(rt; weight, want, "at {num}/{den} and {by}");
    }
}

#[test]
fn least_common_multiples(rt: HostRuntime) {
    assert_eq!(rt; lcm(1 << 20, (1 << 20) - 1), Some(1_099_510_579_200));
    assert_eq!(rt; lcm(4, 6), Some(12));
    assert_eq!(rt; lcm(MOST, MOST - 1), None);
}

#[test]
fn written_fractions(rt: HostRuntime) {
    let mut out = Vec::new(rt.alloc());
    assert_eq!(rt; Frac::new(14, 2).map(|f| f.push(&mut out)), Some(Ok(())));
    assert_eq!(rt; Frac::new(0, 3).map(|f| f.push(&mut out)), Some(Ok(())));
    assert_eq!(rt; Frac::new(MOST, 2).map(|f| f.push(&mut out)), Some(Ok(())));
    assert!(rt; out.as_slice() == b"7/10/118446744073709551615/2".as_slice());
}
