// Least costs of walks, row by row.
ghost use Rattle.std.specs.Prelude.{◌≡◌, ℕ, ◌+◌, ◌-◌, ◌*◌, ◌<◌, ◌≤◌, ◌^◌, length, replicate, None, IfNone, IfSome, IsSome, pos};
ghost use Rattle.tda_loss.specs.Curve.{IsWithin};
ghost use Rattle.tda_cancel.specs.Steps.{AreBetween};
ghost use Rattle.tda_cancel.specs.Rows.{cost_at, last_at, IsNextRow, IsTable, IsSettled};

use crate::steps::Step;

// Gives all entries of a list one value.
pub(crate) fn set_all<T: Copy>(entries: &mut [T], value: T)
    ensures { entries.new ≡ replicate (length entries.old) value }
{
    for entry in entries.iter_mut() {
        *entry = value;
    }
}

// Lowers the cost of a step's end, where the step gives less than the row has so far, and keeps the
// place of the step as the last one there.
fn follow(
    steps: &[Step],
    place: usize,
    before: &[i128],
    costs: &mut [i128],
    lasts: &mut [Option<u32>],
)
    requires steps { AreBetween (length costs.old) steps.now }
    requires few { length steps.now ≤ 2 ^ 21 }
    requires place { place < length steps.now }
    requires near { (v : ℕ) → v < length costs.old → IsWithin (2 ^ 73) (cost_at before.now v) }
    requires before { length before.now ≡ length costs.old }
    requires lasts { length lasts.old ≡ length costs.old }
    requires row { IsNextRow steps.now place (length costs.old) (cost_at before.now) (cost_at costs.old) (last_at lasts.old) }
    ensures { IsNextRow steps.now (place + 1) (length costs.old) (cost_at before.now) (cost_at costs.new) (last_at lasts.new) }
{
    let step = steps[place];
    let end = step.to as usize;
    let cost = before[step.from as usize] + step.cost;
    if costs[end] <= cost {
        return;
    }
    costs[end] = cost;
    lasts[end] = Some(place as u32);
}

// Makes the next row of the table: for each node the least of its cost so far and of the costs that
// one step more gives. `lasts` gets the step, by its place in the list, that lowers a node's cost.
// `before` is scratch.
fn next_row(steps: &[Step], costs: &mut [i128], before: &mut [i128], lasts: &mut [Option<u32>])
    requires steps { AreBetween (length costs.old) steps.now }
    requires few { length steps.now ≤ 2 ^ 21 }
    requires near { (v : ℕ) → v < length costs.old → IsWithin (2 ^ 73) (cost_at costs.old v) }
    requires before { length before.old ≡ length costs.old }
    requires lasts { length lasts.old ≡ length costs.old }
    ensures { IsNextRow steps.now (length steps.now) (length costs.old) (cost_at costs.old) (cost_at costs.new) (last_at lasts.new) }
{
    before.copy_from_slice(costs);
    set_all(lasts, None);
    for place in 0..steps.len() {
        follow(steps, place, before, costs, lasts);
    }
}

// The first node whose cost a row lowers.
fn first_change(lasts: &[Option<u32>]) -> Option<usize>
    ensures none { IfNone result ((v : ℕ) → v < length lasts.now → last_at lasts.now v ≡ None) }
    ensures some { IfSome result (λ v. (v < length lasts.now) × IsSome (last_at lasts.now v)) }
{
    for (v, last) in lasts.iter().enumerate() {
        if last.is_some() {
            return Some(v);
        }
    }
    None
}

// Finds costs that no step lowers: the cost of a step's end is at most that of its start and the
// step's together. They begin at 0 and are made row by row, until a row repeats the one before.
//
// None where such costs are found. Else there are as many rows as nodes, and the node is one whose
// cost the last row lowers. The table has a row for each node, and `before` is scratch.
fn settle_rows(
    steps: &[Step],
    costs: &mut [i128],
    before: &mut [i128],
    lasts: &mut [Option<u32>],
) -> Option<usize>
    requires steps { AreBetween (length costs.old) steps.now }
    requires few { length steps.now ≤ 2 ^ 21 }
    requires some { 1 ≤ length costs.old }
    requires nodes { length costs.old ≤ 2048 }
    requires before { length before.old ≡ length costs.old }
    requires lasts { length costs.old * length costs.old ≤ length lasts.old }
    ensures settled { IfNone result (IsSettled steps.now costs.new) }
    ensures near { (v : ℕ) → v < length costs.old → IsWithin (2 ^ 73) (cost_at costs.new v) }
    ensures table { IfSome result (λ v. IsTable steps.now (length costs.old) lasts.new (length costs.old)) }
    ensures node { IfSome result (λ v. v < length costs.old) }
    ensures changed { IfSome result (λ v. IsSome (last_at lasts.new ((length costs.old - 1) * length costs.old + v))) }
{
    let nodes = costs.len();
    set_all(costs, 0);
    let mut changed = None;
    for row in 0..nodes {
        let first = row * nodes;
        let ends = &mut lasts[first..first + nodes];
        next_row(steps, costs, before, ends);
        changed = first_change(ends);
        if changed.is_none() {
            return None;
        }
    }
    changed
}

// The same over the first `nodes` places of two rows of costs.
pub(crate) fn settle(
    nodes: usize,
    steps: &[Step],
    costs: &mut [i128],
    before: &mut [i128],
    lasts: &mut [Option<u32>],
) -> Option<usize>
    requires steps { AreBetween nodes steps.now }
    requires few { length steps.now ≤ 2 ^ 21 }
    requires some { 1 ≤ nodes }
    requires nodes { nodes ≤ 2048 }
    requires costs { nodes ≤ length costs.old }
    requires before { nodes ≤ length before.old }
    requires lasts { nodes * nodes ≤ length lasts.old }
    ensures settled { IfNone result (IsSettled steps.now costs.new) }
    ensures near { (v : ℕ) → v < nodes → IsWithin (2 ^ 73) (cost_at costs.new v) }
    ensures table { IfSome result (λ v. IsTable steps.now nodes lasts.new nodes) }
    ensures node { IfSome result (λ v. v < nodes) }
    ensures changed { IfSome result (λ v. IsSome (last_at lasts.new ((nodes - 1) * nodes + v))) }
{
    settle_rows(steps, &mut costs[..nodes], &mut before[..nodes], lasts)
}
