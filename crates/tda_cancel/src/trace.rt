// The closed walk that last steps spell.
ghost use Rattle.std.specs.Prelude.{◌≡◌, ◌+◌, ◌-◌, ◌*◌, ◌<◌, ◌≤◌, ◌^◌, length, IsSome, slice_range};
ghost use Rattle.tda_cancel.specs.Steps.{AreBetween};
ghost use Rattle.tda_cancel.specs.Rows.{last_at, IsTable};
ghost use Rattle.tda_cancel.specs.Trace.{IsLosing};

use crate::rows::set_all;
use crate::steps::Step;
use tda_flow::Turn;

// Follows the last steps back from a node whose cost the table's last row lowers, and marks each node
// with the row in which it is passed, until a node is passed again. The turns between are a closed walk
// of negative cost; answers where it begins and ends among the turns in `walk`.
fn follow_back(
    steps: &[Step],
    lasts: &[Option<u32>],
    start: usize,
    marks: &mut [Option<usize>],
    walk: &mut [Turn],
) -> (usize, usize)
    requires steps { AreBetween (length marks.old) steps.now }
    requires nodes { length marks.old ≤ 2048 }
    requires walk { length walk.old ≡ length marks.old }
    requires lasts { length marks.old * length marks.old ≤ length lasts.now }
    requires table { IsTable steps.now (length marks.old) lasts.now (length marks.old) }
    requires start { start < length marks.old }
    requires changed { IsSome (last_at lasts.now ((length marks.old - 1) * length marks.old + start)) }
    ensures order { result.0 ≤ result.1 }
    ensures within { result.1 ≤ length walk.old }
    ensures losing { IsLosing steps.now (slice_range walk.new result.0 result.1) }
{
    let nodes = marks.len();
    set_all(marks, None);
    let mut at = start;
    let mut row = nodes;
    while marks[at].is_none() {
        marks[at] = Some(row);
        row -= 1;
        let Some(last) = lasts[row * nodes + at] else {
            unreachable!()
        };
        let step = steps[last as usize];
        walk[row] = step.turn;
        at = step.from as usize;
    }
    (row, marks[at].unwrap())
}

// The same over the first `nodes` places of the marks and of the walk.
pub(crate) fn close_walk(
    nodes: usize,
    steps: &[Step],
    lasts: &[Option<u32>],
    start: usize,
    marks: &mut [Option<usize>],
    walk: &mut [Turn],
) -> (usize, usize)
    requires steps { AreBetween nodes steps.now }
    requires nodes { nodes ≤ 2048 }
    requires marks { nodes ≤ length marks.old }
    requires walk { nodes ≤ length walk.old }
    requires lasts { nodes * nodes ≤ length lasts.now }
    requires table { IsTable steps.now nodes lasts.now nodes }
    requires start { start < nodes }
    requires changed { IsSome (last_at lasts.now ((nodes - 1) * nodes + start)) }
    ensures order { result.0 ≤ result.1 }
    ensures within { result.1 ≤ length walk.old }
    ensures losing { IsLosing steps.now (slice_range walk.new result.0 result.1) }
{
    follow_back(steps, lasts, start, &mut marks[..nodes], &mut walk[..nodes])
}
