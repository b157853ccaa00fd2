// What a net keeps of an arc with its terms.
ghost use Rattle.std.specs.Prelude.{◌≡◌, ◌+◌, ◌<◌, ◌≤◌, ◌^◌, length, drop};
ghost use Rattle.tda_flow.specs.Lanes.{start_of, lane_at, AreInOrder};

use crate::net::Arc;

// An arc, and where its terms begin.
#[derive(Clone, Copy)]
pub(crate) struct Lane {
    pub(crate) arc: Arc,
    pub(crate) first_term: usize,
}

// Where the lanes after lane `i` begin in a list of `count` terms.
fn end_of(lanes: &[Lane], i: usize, count: usize) -> usize
    requires { i + 1 < 2 ^ 64 }
    ensures { result ≡ start_of (drop (i + 1) lanes.now) count }
{
    match lanes.get(i + 1) {
        Some(next) => next.first_term,
        None => count,
    }
}

// Where the terms of lane `i` begin and end in a list of `count` terms.
pub(crate) fn terms_of(lanes: &[Lane], i: usize, count: usize) -> (usize, usize)
    requires lane { i < length lanes.now }
    requires few { length lanes.now ≤ 2 ^ 20 }
    requires order { AreInOrder lanes.now count }
    ensures start { result.0 ≡ (lane_at lanes.now i).first_term }
    ensures end { result.1 ≡ start_of (drop (i + 1) lanes.now) count }
    ensures order { result.0 ≤ result.1 }
    ensures within { result.1 ≤ count }
{
    (lanes[i].first_term, end_of(lanes, i, count))
}
