// Squares of distances, and their steps.
use tda_loss::{Curve, Loss, square};

const NEAR: i64 = 1 << 32;

// The value and the step of the square at a distance of at most 2^32 either way.
fn square_at(d: i64) -> Option<(i128, i128)> {
    if d < -NEAR || NEAR < d {
        return None;
    }
    let loss = Loss::new(Curve::Square, |d: i64| square(d));
    Some((loss.value(d), loss.step(d)))
}

#[test]
fn squares(rt: HostRuntime) {
    let rows = [
        (0, 0, 1),
        (3, 9, 7),
        (-3, 9, -5),
        (-1, 1, -1),
        (NEAR, 1 << 64, (1 << 33) + 1),
        (-NEAR, 1 << 64, 1 - (1 << 33)),
    ];
    for (d, value, step) in rows {
        assert_eq!(rt; square_at(d), Some((value, step)), "at {d}");
    }
    let loss = Loss::new(Curve::Square, |d: i64| square(d));
    assert_eq!(rt; loss.curve(), Curve::Square);
    assert_eq!(rt; loss.value(2 * NEAR), 1 << 66);
}
