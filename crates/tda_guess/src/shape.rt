// How a split's net is laid out.

use crate::state::Group;
use tda_flow::{Arc, Net, Term};

// How many cells, units and groups of a unit there are. Nodes: the hub, the cells, the groups by unit.
// Arcs: one for each cell, then by unit and cell, then by unit and group.
#[derive(Clone, Copy, Debug, PartialEq, Eq)]
pub(crate) struct Shape {
    pub(crate) cells: usize,
    pub(crate) units: usize,
    pub(crate) groups: usize,
}

const NO_ARC: Arc = Arc {
    from: 0,
    to: 0,
    low: 0,
    high: 0,
};

// The arc `i`, or one without flow.
fn arc_at(net: &Net, i: usize) -> Arc {
    if i < net.arcs() {
        return net.arc(i);
    }
    NO_ARC
}

// How many arcs begin at the hub, which are the first ones.
fn count_cells(net: &Net) -> usize {
    let mut count = 0;
    for i in 0..net.arcs() {
        if net.arc(i).from != 0 {
            break;
        }
        count = i.wrapping_add(1);
    }
    count
}

// a / b, or 0.
fn part(a: usize, b: usize) -> usize {
    if b == 0 {
        return 0;
    }
    a / b
}

// The shape of a split's net.
pub(crate) fn shape_of(net: &Net) -> Shape {
    let cells = count_cells(net);
    let nodes = net.nodes() as usize;
    let units = part(net.arcs().saturating_sub(nodes.saturating_sub(1)), cells);
    let groups = part(nodes.saturating_sub(1).saturating_sub(cells), units);
    Shape {
        cells,
        units,
        groups,
    }
}

impl Shape {
    // The place of a unit's group among all.
    pub(crate) fn place(self, unit: usize, group: usize) -> usize {
        unit.wrapping_mul(self.groups).wrapping_add(group)
    }

    // How many groups all units have.
    pub(crate) fn all_groups(self) -> usize {
        self.place(self.units, 0)
    }

    // The group of a node of the first unit, which is none at the hub.
    fn group_of(self, node: u32) -> usize {
        (node as usize).wrapping_sub(self.cells).wrapping_sub(1)
    }

    // The smallest group of a cell.
    pub(crate) fn smallest(self, net: &Net, cell: usize) -> usize {
        self.group_of(arc_at(net, self.cells.wrapping_add(cell)).to)
    }

    // The next larger group.
    pub(crate) fn next(self, net: &Net, group: usize) -> usize {
        let first = net.arcs().wrapping_sub(self.all_groups());
        self.group_of(arc_at(net, first.wrapping_add(group)).to)
    }

    // The count of a cell.
    pub(crate) fn count(self, net: &Net, cell: usize) -> i128 {
        i128::from(arc_at(net, cell).low)
    }

    // The group at a place among all.
    pub(crate) fn group(self, net: &Net, place: usize) -> Group {
        let i = net
            .arcs()
            .wrapping_sub(self.all_groups())
            .wrapping_add(place);
        if i < net.arcs() {
            return folded(net.terms(i), net.arc(i));
        }
        folded(&[], NO_ARC)
    }
}

// A group with its terms as one.
fn folded(terms: &[Term], arc: Arc) -> Group {
    let mut weight: i128 = 0;
    let mut pull: i128 = 0;
    for term in terms {
        let more = i128::from(term.weight);
        weight = weight.wrapping_add(more);
        pull = pull.wrapping_add(more.wrapping_mul(i128::from(term.target)));
    }
    Group {
        weight,
        pull,
        low: i128::from(arc.low),
        high: i128::from(arc.high),
    }
}
