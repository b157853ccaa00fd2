// A search by breadth: the least numbers of turns of walks from a node.
ghost use Rattle.std.specs.Prelude.{◌≡◌, ℕ, suc, ◌+◌, ◌<◌, ◌≤◌, ◌↔◌, length, IsTrue, Some, None, replicate, is_none, count_by, slice_index};
ghost use Rattle.tda_flow.specs.Network.{arc_count};
ghost use Rattle.tda_flow.specs.Reach.{IsSearched};
ghost use Rattle.tda_flow.specs.Rooms.{space_of, IsRoom};
ghost use Rattle.tda_flow.specs.Search.{IsFound, IsNear, IsFollowed, IsMore, marked_rank, marked_last};
ghost use Rattle.tda_flow.specs.Walk.{IsUsable};
ghost use Rattle.tda_flow.specs.Turns.{turn_from, turn_to};
ghost use Rattle.tda_flow.specs.declared.net.Turn.{Turn};

use crate::net::{Net, Turn};

// What a search found at a node: the least number of turns of a walk there, and the last turn of one.
#[derive(Clone, Copy, Debug, PartialEq, Eq)]
pub(crate) struct Mark {
    pub(crate) rank: u32,
    pub(crate) last: Option<Turn>,
}

// A flow, bounds for each arc and the size of a step.
#[derive(Drop)]
pub(crate) struct Room<'a> {
    pub(crate) net: &'a Net,
    pub(crate) flow: &'a [u64],
    pub(crate) low: &'a [u64],
    pub(crate) high: &'a [u64],
    pub(crate) delta: u64,
}

// Whether a step along the turn leaves the flow within the bounds.
fn is_usable(room: &Room, turn: Turn) -> bool
    requires room { IsRoom room.now }
    requires arc { turn.arc < arc_count room.now.net.now }
    ensures { IsTrue result ↔ IsUsable (space_of room.now) turn }
{
    let k = turn.arc;
    if turn.back {
        room.low[k] + room.delta <= room.flow[k]
    } else {
        room.flow[k] + room.delta <= room.high[k]
    }
}

// Marks the end of a turn from a node of rank `level`, unless it has a mark or the turn isn't usable.
// Answers how much of the queue is filled.
fn follow(
    room: &Room,
    turn: Turn,
    level: u32,
    marks: &mut [Option<Mark>],
    queue: &mut [u32],
    filled: usize,
) -> usize
    requires room { IsRoom room.now }
    requires arc { turn.arc < arc_count room.now.net.now }
    requires marks { length marks.old ≡ room.now.net.now.nodes }
    requires queue { length queue.old ≡ room.now.net.now.nodes }
    requires found { IsFound (space_of room.now) marks.old queue.old filled }
    requires near { IsNear marks.old level }
    requires level { marked_rank marks.old (turn_from room.now.net.now turn) ≡ Some level }
    requires below { level < filled }
    ensures found { IsFound (space_of room.now) marks.new queue.new result }
    ensures near { IsNear marks.new level }
    ensures followed { IsFollowed (space_of room.now) marks.new level turn }
    ensures more { IsMore marks.old marks.new queue.old queue.new filled }
    ensures filled { filled ≤ result }
{
    let _nodes = room.net.nodes();
    let end = turn.end(room.net);
    if marks[end as usize].is_some() || !is_usable(room, turn) {
        return filled;
    }
    marks[end as usize] = Some(Mark {
        rank: level + 1,
        last: Some(turn),
    });
    queue[filled] = end;
    filled + 1
}

// Marks the ends of all turns from a node of rank `level`, where they have none and the turn is usable.
// Answers how much of the queue is filled.
fn follow_all(
    room: &Room,
    node: u32,
    level: u32,
    marks: &mut [Option<Mark>],
    queue: &mut [u32],
    filled: usize,
) -> usize
    requires room { IsRoom room.now }
    requires node { node < room.now.net.now.nodes }
    requires marks { length marks.old ≡ room.now.net.now.nodes }
    requires queue { length queue.old ≡ room.now.net.now.nodes }
    requires found { IsFound (space_of room.now) marks.old queue.old filled }
    requires near { IsNear marks.old level }
    requires level { marked_rank marks.old node ≡ Some level }
    requires below { level < filled }
    ensures found { IsFound (space_of room.now) marks.new queue.new result }
    ensures near { IsNear marks.new level }
    ensures followed { (t : Turn) → turn_from room.now.net.now t ≡ node → IsFollowed (space_of room.now) marks.new level t }
    ensures more { IsMore marks.old marks.new queue.old queue.new filled }
    ensures filled { filled ≤ result }
{
    let mut filled = filled;
    let mut next = room.net.first_turn(node);
    while let Some(turn) = next {
        filled = follow(room, turn, level, marks, queue, filled);
        next = room.net.next_turn(turn);
    }
    filled
}

// Takes all marks away.
fn clear(marks: &mut [Option<Mark>])
    ensures { marks.new ≡ replicate (length marks.old) None }
{
    for mark in marks.iter_mut() {
        *mark = None;
    }
}

// Marks each node that a walk from the start leads to. The queue needs a place for each node.
pub(crate) fn search(room: &Room, start: u32, marks: &mut [Option<Mark>], queue: &mut [u32])
    requires room { IsRoom room.now }
    requires start { start < room.now.net.now.nodes }
    requires marks { length marks.old ≡ room.now.net.now.nodes }
    requires queue { length queue.old ≡ room.now.net.now.nodes }
    ensures { IsSearched (space_of room.now) start (marked_rank marks.new) (marked_last marks.new) }
{
    clear(marks);
    marks[start as usize] = Some(Mark {
        rank: 0,
        last: None,
    });
    queue[0] = start;
    let mut filled = 1;
    let mut next = 0;
    while next < filled {
        let node = queue[next];
        let Some(mark) = marks[node as usize] else {
            unreachable!()
        };
        filled = follow_all(room, node, mark.rank, marks, queue, filled);
        next += 1;
    }
}
