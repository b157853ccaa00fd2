// Bounds of arcs, and what a search finds within them.
ghost use Rattle.std.specs.Prelude.{◌≡◌, ℕ, ◌+◌, ◌<◌, ◌≤◌, ◌^◌, length, slice_index, slice_set, IfOk, replicate, None, Some};
ghost use Rattle.tda_flow.specs.Network.{arc_count};
ghost use Rattle.tda_flow.specs.Reach.{IsSearched, WasSearched, IsFoundWalk, EndsLeastWalk, AreLasts};
ghost use Rattle.tda_flow.specs.declared.net.Turn.{Turn};
ghost use Rattle.tda_flow.specs.Tables.{space, rank_at, last_at, AreTables};

use crate::net::{Net, Turn};
use crate::search::{Mark, Room, search};
use std::alloc::Global;
use std::marker::Model;
use tda_io::NoMemory;

// A list without marks.
fn no_marks(alloc: Global, nodes: usize) -> Result<Vec<Option<Mark>>, NoMemory>
    ensures { IfOk result (λ v. v.items ≡ replicate nodes None) }
{
    let mut marks = Vec::with_capacity(alloc, nodes)?;
    for _ in 0..nodes {
        marks.push(None)?;
    }
    Ok(marks)
}

/// A low and a high number for each arc, and what the last search found at each node: its rank, which is
/// the least number of turns of a walk there, and the last turn of such a walk.
#[derive(Drop)]
pub struct Work {
    low: Vec<u64>,
    high: Vec<u64>,
    marks: Vec<Option<Mark>>,
    queue: Vec<u32>,
}

impl Model for Work {
    ghost use Rattle.tda_flow.specs.Tables.{Tables, tables_of, HasTables};

    ghost Value = { Tables };

    ghost view = { tables_of };

    ghost invariant = { HasTables };
}

impl Work {
    /// A work for nets of so many nodes and arcs. All bounds are 0, and no node has a rank.
    pub fn new(alloc: Global, nodes: u32, arcs: usize) -> Result<Work, NoMemory>
        ensures low { IfOk result (λ w. w.low ≡ replicate arcs 0) }
        ensures high { IfOk result (λ w. w.high ≡ replicate arcs 0) }
        ensures ranks { IfOk result (λ w. w.ranks ≡ replicate nodes None) }
        ensures lasts { IfOk result (λ w. w.lasts ≡ replicate nodes None) }
    {
        let low = vec![in alloc; 0; arcs]?;
        let high = vec![in alloc; 0; arcs]?;
        let marks = no_marks(alloc, nodes as usize)?;
        let queue = vec![in alloc; 0; nodes as usize]?;
        Ok(Work {
            low,
            high,
            marks,
            queue,
        })
    }

    /// Changes the bounds of one arc, which is in range: `low` ≤ `high` ≤ 2^30.
    pub fn set_bounds(&mut self, arc: usize, low: u64, high: u64)
        requires arc { arc < length self.old.low }
        requires order { low ≤ high }
        requires limit { high ≤ 2 ^ 30 }
        ensures low { self.new.low ≡ slice_set self.old.low arc low }
        ensures high { self.new.high ≡ slice_set self.old.high arc high }
        ensures ranks { self.new.ranks ≡ self.old.ranks }
        ensures lasts { self.new.lasts ≡ self.old.lasts }
    {
        self.low[arc] = low;
        self.high[arc] = high;
    }

    /// The low number of an arc, which is in range.
    pub fn low(&self, arc: usize) -> u64
        requires { arc < length self.now.low }
        ensures value { result ≡ slice_index self.now.low arc }
        ensures sound { AreTables self.now }
    {
        self.low[arc]
    }

    /// The high number of an arc, which is in range.
    pub fn high(&self, arc: usize) -> u64
        requires { arc < length self.now.low }
        ensures value { result ≡ slice_index self.now.high arc }
        ensures sound { AreTables self.now }
    {
        self.high[arc]
    }

    /// The rank of a node, which is in range: the least number of turns of a walk there. None where
    /// there is none, and before the first search.
    pub fn rank(&self, node: u32) -> Option<u32>
        requires { node < length self.now.ranks }
        ensures { result ≡ rank_at self.now.ranks node }
    {
        self.marks[node as usize].map(|mark| mark.rank)
    }

    /// The last turn of a walk to a node, which is in range, with as many turns as its rank. None where
    /// the rank is None or 0. The turn comes from a node whose rank is one less.
    pub fn last(&self, node: u32) -> Option<Turn>
        requires { node < length self.now.ranks }
        ensures { result ≡ last_at self.now.lasts node }
    {
        self.marks[node as usize].and_then(|mark| mark.last)
    }

    /// Writes the turns of a least walk to a node that the last search, on this net, gave a rank: that
    /// of the last turns, each being that of the node where it ends. The list has as many places as the
    /// rank.
    pub fn trace(&self, net: &Net, node: u32, walk: &mut [Turn])
        requires searched { WasSearched net.now (rank_at self.now.ranks) (last_at self.now.lasts) }
        requires rank { rank_at self.now.ranks node ≡ Some (length walk.old) }
        ensures walk { IsFoundWalk net.now (rank_at self.now.ranks) (last_at self.now.lasts) walk.new node }
        ensures lasts { AreLasts net.now (last_at self.now.lasts) walk.new }
    {
        let mut at = node;
        let mut left = walk.len();
        while let Some(turn) = self.last(at) {
            left -= 1;
            walk[left] = turn;
            at = turn.start(net);
        }
    }
}

/// Searches the walks from `start` within the work's bounds, for steps of `delta`.
///
/// A turn passes an arc forwards where the arc's flow + delta is at most the work's high number, and
/// backwards where the arc's flow is at least the work's low number + delta. Afterwards the work's
/// `rank` and `last` tell what was found. The flow has a number for each arc, at most 2^30; delta lies
/// from 1 to 2^30; the work was made for as many nodes and arcs as the net has.
///
/// It takes no memory. Its cost is that of the nodes and arcs together: each node that is found goes
/// through a queue once, and then each of its turns is tried once (Ahuja, Magnanti and Orlin, "Network
/// Flows", section 3.4).
pub fn reach(net: &Net, flow: &[u64], start: u32, delta: u64, work: &mut Work)
    requires start { start < net.now.nodes }
    requires flow { length flow.now ≡ arc_count net.now }
    requires flow_limit { (k : ℕ) → k < length flow.now → slice_index flow.now k ≤ 2 ^ 30 }
    requires some { 1 ≤ delta }
    requires delta { delta ≤ 2 ^ 30 }
    requires arcs { length work.old.low ≡ arc_count net.now }
    requires nodes { length work.old.ranks ≡ net.now.nodes }
    ensures searched { IsSearched (space net.now flow.now work.new delta) start (rank_at work.new.ranks) (last_at work.new.lasts) }
    ensures lasts { (v : ℕ) (t : Turn) → last_at work.new.lasts v ≡ Some t → EndsLeastWalk (space net.now flow.now work.new delta) start (rank_at work.new.ranks) v t }
    ensures low { work.new.low ≡ work.old.low }
    ensures high { work.new.high ≡ work.old.high }
    ensures nodes { length work.new.ranks ≡ length work.old.ranks }
{
    let room = Room {
        net,
        flow,
        low: &work.low,
        high: &work.high,
        delta,
    };
    search(&room, start, &mut work.marks, &mut work.queue);
}
