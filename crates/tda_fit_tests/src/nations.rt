// Nations with their files, and the nets of their own fits and of the splits among their states, worked out by hand.

use tda_fitnet::ArcName::{self, *};
use tda_io::PERSONS;
use tda_spine::FitSize;

// What an arc stands for, its ends and bounds, and its terms: weight and target.
pub(crate) type Way = (ArcName, u32, u32, u64, u64, &'static [(u64, i64)]);

// The files of a nation; how large its own fit and its largest fit are; the nets of its own fit and of the split of the table from
// which that fit begins; and that table, with the states' shares and the states' tables.
pub(crate) struct Nation {
    pub(crate) schema: &'static str,
    pub(crate) spine: &'static str,
    pub(crate) facilities: &'static str,
    pub(crate) totals: &'static str,
    pub(crate) measurements: &'static str,
    pub(crate) size: FitSize,
    pub(crate) largest: FitSize,
    pub(crate) root: &'static [Way],
    pub(crate) split: &'static [Way],
    pub(crate) counts: &'static [u64],
    pub(crate) shares: &'static [u64],
    pub(crate) split_counts: &'static [u64],
}

// One kind of one cell, so one group: the kind's, and at the state also that of all cells. The state has no queries.
pub(crate) const HOUSES: Nation = Nation {
    schema: "version = 1\ntotal = '1'\nattribute = [{ name = 'kind', values = ['house'] }]\nlevel = [{ name = 'nation' }, { name = 'state' }, { name = 'block', query = [{ name = 'total', by = [], share = '1' }] }]",
    spine: "unit,level,parent\nUS,nation,\nS1,state,US\nB1,block,S1\nB2,block,S1\n",
    facilities: "block,kind,count\n",
    totals: "state,total\nS1,5\n",
    measurements: "unit,query,class,value\nB1,total,0,3\nB2,total,0,4\n",
    size: FitSize { nodes: 4, arcs: 4 },
    largest: FitSize { nodes: 4, arcs: 5 },
    root: &[
        (Fixed, 0, 1, 5, 5, &[]),
        (Share { state: 1, kind: 0 }, 1, 2, 0, PERSONS, &[]),
        (Give { unit: 0, cell: 0 }, 2, 3, 0, PERSONS, &[]),
        (Group { unit: 0, group: 0 }, 3, 0, 0, PERSONS, &[]),
    ],
    split: &[
        (Fixed, 0, 1, 5, 5, &[]),
        (Give { unit: 1, cell: 0 }, 1, 2, 0, PERSONS, &[]),
        (Group { unit: 1, group: 0 }, 2, 0, 5, 5, &[]),
    ],
    counts: &[5],
    shares: &[5],
    split_counts: &[5],
};

// Each level has two queries with one class, the one twice the weight of the other; what was measured is as far from 0 as may be; and
// nobody lives in the second state.
pub(crate) const TWINS: Nation = Nation {
    schema: "version = 1\ntotal = '3'\nattribute = [{ name = 'kind', values = ['house'] }]\nlevel = [{ name = 'nation', query = [{ name = 'all', by = [], share = '1' }, { name = 'kind', by = ['kind'], share = '1/2' }] }, { name = 'state', query = [{ name = 'all', by = [], share = '1/2' }, { name = 'kind', by = ['kind'], share = '1' }] }]",
    spine: "unit,level,parent\nUS,nation,\nS1,state,US\nS2,state,US\n",
    facilities: "block,kind,count\n",
    totals: "state,total\nS1,5\nS2,0\n",
    measurements: "unit,query,class,value\nUS,all,0,2147483648\nUS,kind,0,-2147483648\nS1,all,0,7\nS1,kind,0,8\nS2,all,0,-2147483648\nS2,kind,0,2147483648\n",
    size: FitSize { nodes: 5, arcs: 6 },
    largest: FitSize { nodes: 5, arcs: 6 },
    root: &[
        (Fixed, 0, 1, 5, 5, &[]),
        (Fixed, 0, 2, 0, 0, &[]),
        (Share { state: 1, kind: 0 }, 1, 3, 0, PERSONS, &[]),
        (Share { state: 2, kind: 0 }, 2, 3, 0, PERSONS, &[]),
        (Give { unit: 0, cell: 0 }, 3, 4, 0, PERSONS, &[]),
        (
            Group { unit: 0, group: 0 },
            4,
            0,
            0,
            PERSONS,
            &[(2, 2147483648), (1, -2147483648)],
        ),
    ],
    split: &[
        (Fixed, 0, 1, 5, 5, &[]),
        (Give { unit: 1, cell: 0 }, 1, 2, 0, PERSONS, &[]),
        (Give { unit: 2, cell: 0 }, 1, 3, 0, PERSONS, &[]),
        (Group { unit: 1, group: 0 }, 2, 0, 5, 5, &[(1, 7), (2, 8)]),
        (
            Group { unit: 2, group: 0 },
            3,
            0,
            0,
            0,
            &[(1, -2147483648), (2, 2147483648)],
        ),
    ],
    counts: &[5],
    shares: &[5, 0],
    split_counts: &[5, 0],
};

// The states are blocks. In the nation's fit they are the nodes 1 and 2, the kinds 3 and 4, the nation's groups 5 to 7: all persons,
// houses, prisons. In the split the cells are the nodes 1 and 2, and the groups of each state follow.
pub(crate) const PRISON: Nation = Nation {
    schema: "version = 1\ntotal = '1'\nattribute = [{ name = 'kind', values = ['house', 'prison'] }]\nlevel = [{ name = 'nation', query = [{ name = 'kind', by = ['kind'], share = '1' }] }, { name = 'state' }]",
    spine: "unit,level,parent\nUS,nation,\nS1,state,US\nS2,state,US\n",
    facilities: "block,kind,count\nS1,prison,1\n",
    totals: "state,total\nS1,50\nS2,50\n",
    measurements: "unit,query,class,value\nUS,kind,0,0\nUS,kind,1,100\n",
    size: FitSize { nodes: 8, arcs: 11 },
    largest: FitSize { nodes: 9, arcs: 12 },
    root: &[
        (Fixed, 0, 1, 50, 50, &[]),
        (Fixed, 0, 2, 50, 50, &[]),
        (Share { state: 1, kind: 0 }, 1, 3, 0, PERSONS, &[]),
        (Share { state: 1, kind: 1 }, 1, 4, 1, PERSONS, &[]),
        (Share { state: 2, kind: 0 }, 2, 3, 0, PERSONS, &[]),
        (Share { state: 2, kind: 1 }, 2, 4, 0, 0, &[]),
        (Give { unit: 0, cell: 0 }, 3, 6, 0, PERSONS, &[]),
        (Give { unit: 0, cell: 1 }, 4, 7, 0, PERSONS, &[]),
        (Group { unit: 0, group: 0 }, 5, 0, 0, PERSONS, &[]),
        (Group { unit: 0, group: 1 }, 6, 5, 0, PERSONS, &[(1, 0)]),
        (Group { unit: 0, group: 2 }, 7, 5, 0, PERSONS, &[(1, 100)]),
    ],
    split: &[
        (Fixed, 0, 1, 99, 99, &[]),
        (Fixed, 0, 2, 1, 1, &[]),
        (Give { unit: 1, cell: 0 }, 1, 4, 0, PERSONS, &[]),
        (Give { unit: 1, cell: 1 }, 2, 5, 0, PERSONS, &[]),
        (Give { unit: 2, cell: 0 }, 1, 7, 0, PERSONS, &[]),
        (Give { unit: 2, cell: 1 }, 2, 8, 0, PERSONS, &[]),
        (Group { unit: 1, group: 0 }, 3, 0, 50, 50, &[]),
        (Group { unit: 1, group: 1 }, 4, 3, 0, PERSONS, &[]),
        (Group { unit: 1, group: 2 }, 5, 3, 1, PERSONS, &[]),
        (Group { unit: 2, group: 0 }, 6, 0, 50, 50, &[]),
        (Group { unit: 2, group: 1 }, 7, 6, 0, PERSONS, &[]),
        (Group { unit: 2, group: 2 }, 8, 6, 0, 0, &[]),
    ],
    counts: &[99, 1],
    shares: &[49, 1, 50, 0],
    split_counts: &[49, 1, 50, 0],
};

// In the nation's fit the state is node 1, the kinds are 2 and 3, the nation's groups 4 to 6. The state has no queries.
pub(crate) const DORMITORY: Nation = Nation {
    schema: "version = 1\ntotal = '1'\nattribute = [{ name = 'kind', values = ['house', 'dorm'] }]\nlevel = [{ name = 'nation', query = [{ name = 'kind', by = ['kind'], share = '1/2' }] }, { name = 'state' }, { name = 'block', query = [{ name = 'kind', by = ['kind'], share = '1/2' }] }]",
    spine: "unit,level,parent\nUS,nation,\nS1,state,US\nB1,block,S1\nB2,block,S1\n",
    facilities: "block,kind,count\nB1,dorm,2\n",
    totals: "state,total\nS1,5\n",
    measurements: "unit,query,class,value\nUS,kind,0,3\nUS,kind,1,2\nB1,kind,0,3\nB1,kind,1,-10\nB2,kind,0,2\nB2,kind,1,0\n",
    size: FitSize { nodes: 7, arcs: 8 },
    largest: FitSize { nodes: 9, arcs: 12 },
    root: &[
        (Fixed, 0, 1, 5, 5, &[]),
        (Share { state: 1, kind: 0 }, 1, 2, 0, PERSONS, &[]),
        (Share { state: 1, kind: 1 }, 1, 3, 2, PERSONS, &[]),
        (Give { unit: 0, cell: 0 }, 2, 5, 0, PERSONS, &[]),
        (Give { unit: 0, cell: 1 }, 3, 6, 0, PERSONS, &[]),
        (Group { unit: 0, group: 0 }, 4, 0, 0, PERSONS, &[]),
        (Group { unit: 0, group: 1 }, 5, 4, 0, PERSONS, &[(1, 3)]),
        (Group { unit: 0, group: 2 }, 6, 4, 0, PERSONS, &[(1, 2)]),
    ],
    split: &[
        (Fixed, 0, 1, 3, 3, &[]),
        (Fixed, 0, 2, 2, 2, &[]),
        (Give { unit: 1, cell: 0 }, 1, 4, 0, PERSONS, &[]),
        (Give { unit: 1, cell: 1 }, 2, 5, 0, PERSONS, &[]),
        (Group { unit: 1, group: 0 }, 3, 0, 5, 5, &[]),
        (Group { unit: 1, group: 1 }, 4, 3, 0, PERSONS, &[]),
        (Group { unit: 1, group: 2 }, 5, 3, 2, PERSONS, &[]),
    ],
    counts: &[3, 2],
    shares: &[3, 2],
    split_counts: &[3, 2],
};
