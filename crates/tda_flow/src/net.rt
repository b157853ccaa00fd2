// Nets of nodes and arcs, with the terms of cost of each arc.
ghost use Rattle.std.specs.Prelude.{◌≡◌, ◌-◌, ◌*◌, ◌<◌, ◌≤◌, ◌^◌, [], length, OnOk, OnErr};
ghost use Rattle.tda_flow.specs.Network.{arc_count, arc_at, terms_at, with_arc, with_term, IsArcOf, IsNetTerm, AreNetTerms, IsSound};
ghost use Rattle.tda_flow.specs.Links.{AreEndsOf};
ghost use Rattle.tda_flow.specs.Turns.{turn_from, turn_number, IsLastBelow};

use crate::lanes::{Lane, terms_of};
use crate::links::{Link, Links, first_at, grow, put_first};
use std::alloc::Global;
use std::marker::Model;
use tda_io::NoMemory;

/// An arc between two nodes, with the bounds of its flow.
#[derive(Clone, Copy, Debug, PartialEq, Eq)]
pub struct Arc {
    pub from: u32,
    pub to: u32,
    pub low: u64,
    pub high: u64,
}

/// A term of an arc's cost: at the flow f it costs weight · curve(f - target).
#[derive(Clone, Copy, Debug, PartialEq, Eq)]
pub struct Term {
    pub weight: u64,
    pub target: i64,
}

/// One arc of a walk, passed backwards where `back`.
#[derive(Clone, Copy, Debug, PartialEq, Eq)]
pub struct Turn {
    pub arc: usize,
    pub back: bool,
}

/// Nodes, and arcs with their terms in the order in which they were pushed. Node 0 is the hub.
///
/// All terms stand in one list, arc by arc. The turns that begin at a node are linked, the last
/// pushed first, so that a search passes each turn once and takes no memory: `heads` has the first
/// one of each node up to the greatest that an arc names, and the links of the arcs have the next ones.
#[derive(Drop)]
pub struct Net {
    nodes: u32,
    terms: Vec<Term>,
    lanes: Vec<Lane>,
    links: Vec<Links>,
    heads: Vec<Link>,
}

impl Model for Net {
    ghost use Rattle.tda_flow.specs.Network.{Network};

    ghost Value = { Network };

    ghost use Rattle.tda_flow.specs.NetView.{network_of, IsNet};

    ghost view = { network_of };

    ghost invariant = { IsNet };
}

impl Net {
    /// A net of 1 to 65,536 nodes, with no arcs. It takes no memory.
    pub fn new(alloc: Global, nodes: u32) -> Net
        requires some { 1 ≤ nodes }
        requires few { nodes ≤ 65536 }
        ensures { result ≡ record { nodes = nodes; arcs = []; terms = [] } }
    {
        Net {
            nodes,
            terms: Vec::new(alloc),
            lanes: Vec::new(alloc),
            links: Vec::new(alloc),
            heads: Vec::new(alloc),
        }
    }

    /// How many nodes there are.
    pub fn nodes(&self) -> u32
        ensures value { result ≡ self.now.nodes }
        ensures sound { IsSound self.now }
    {
        self.nodes
    }

    /// How many arcs there are.
    pub fn arcs(&self) -> usize
        ensures value { result ≡ arc_count self.now }
        ensures sound { IsSound self.now }
    {
        self.lanes.len()
    }

    /// Arc `i`, which is in range.
    pub fn arc(&self, i: usize) -> Arc
        requires { i < arc_count self.now }
        ensures value { result ≡ arc_at self.now i }
        ensures sound { IsArcOf self.now.nodes result }
    {
        self.lanes[i].arc
    }

    /// The terms of arc `i`, which is in range, in the order in which they were pushed.
    pub fn terms(&self, i: usize) -> &[Term]
        requires { i < arc_count self.now }
        ensures value { result.now ≡ terms_at self.now i }
        ensures sound { AreNetTerms result.now }
    {
        let (start, end) = terms_of(&self.lanes, i, self.terms.len());
        &self.terms[start..end]
    }

    /// The turn pushed last of those that begin at `node`. From it `next_turn` leads to each other one
    /// exactly once: the numbers of the turns fall.
    pub fn first_turn(&self, node: u32) -> Option<Turn>
        ensures { IsLastBelow self.now node (2 * arc_count self.now) result }
    {
        first_at(&self.heads, node)
    }

    /// The turn pushed before `turn` that begins at the same node. Its arc is in range.
    pub fn next_turn(&self, turn: Turn) -> Option<Turn>
        requires { turn.arc < arc_count self.now }
        ensures { IsLastBelow self.now (turn_from self.now turn) (turn_number turn) result }
    {
        let links = &self.links[turn.arc];
        if turn.back {
            links.next_back.turn()
        } else {
            links.next_forth.turn()
        }
    }

    // The links of arc `i`, which is in range.
    pub(crate) fn links(&self, i: usize) -> &Links
        requires { i < arc_count self.now }
        ensures ends { AreEndsOf (arc_at self.now i) result.now }
        ensures sound { IsArcOf self.now.nodes (arc_at self.now i) }
    {
        &self.links[i]
    }

    /// Adds an arc without terms, where there are fewer than 2^20 arcs. Its ends are nodes of the net,
    /// and `low` ≤ `high` ≤ 2^30. After `NoMemory` the net is as it was.
    pub fn push_arc(&mut self, arc: Arc) -> Result<(), NoMemory>
        requires fits { IsArcOf self.old.nodes arc }
        requires room { arc_count self.old < 2 ^ 20 }
        ensures ok { OnOk result (self.new ≡ with_arc self.old arc) }
        ensures err { OnErr result (self.new ≡ self.old) }
    {
        grow(&mut self.heads, arc.from)?;
        grow(&mut self.heads, arc.to)?;
        self.lanes.reserve(1)?;
        self.links.reserve(1)?;
        let index = self.lanes.len() as u32;
        let next_forth = put_first(&mut self.heads, arc.from, Link::Forth(index));
        let next_back = put_first(&mut self.heads, arc.to, Link::Back(index));
        let links = Links {
            from: arc.from,
            to: arc.to,
            next_forth,
            next_back,
        };
        self.links.push(links).unwrap();
        let lane = Lane {
            arc,
            first_term: self.terms.len(),
        };
        self.lanes.push(lane).unwrap();
        Ok(())
    }

    /// Adds a term to the last arc, where an arc is there and has fewer than 8 terms. The weight is at
    /// most 2^24, the target at most 2^31 either way. After `NoMemory` the net is as it was.
    pub fn push_term(&mut self, term: Term) -> Result<(), NoMemory>
        requires some { 0 < arc_count self.old }
        requires fits { IsNetTerm term }
        requires room { length (terms_at self.old (arc_count self.old - 1)) < 8 }
        ensures ok { OnOk result (self.new ≡ with_term self.old term) }
        ensures err { OnErr result (self.new ≡ self.old) }
    {
        self.terms.push(term)?;
        Ok(())
    }
}
