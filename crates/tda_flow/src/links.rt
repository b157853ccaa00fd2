// The links between the turns that begin at a node.
//
// A search passes each arc twice and reads of it its links alone: so they are small, and stand apart
// from the bounds and terms of the arcs.
ghost use Rattle.std.specs.Prelude.{◌≡◌, ℕ, ◌<◌, ◌≤◌, OnOk, slice_set, vec_len};
ghost use Rattle.tda_flow.specs.Links.{turn_of, head_at};

use crate::net::Turn;
use tda_io::NoMemory;

// The turn over an arc one way or the other, or none.
#[derive(Clone, Copy)]
pub(crate) enum Link {
    End,
    Forth(u32),
    Back(u32),
}

impl Link {
    // The turn that the link leads to.
    pub(crate) fn turn(self) -> Option<Turn>
        ensures { result ≡ turn_of self }
    {
        match self {
            Link::End => None,
            Link::Forth(arc) => Some(Turn {
                arc: arc as usize,
                back: false,
            }),
            Link::Back(arc) => Some(Turn {
                arc: arc as usize,
                back: true,
            }),
        }
    }
}

// The ends of an arc, and for the turn over it each way the turn pushed before that begins at the
// same node.
#[derive(Clone, Copy)]
pub(crate) struct Links {
    pub(crate) from: u32,
    pub(crate) to: u32,
    pub(crate) next_forth: Link,
    pub(crate) next_back: Link,
}

// Makes room for node `node` among the heads. No head changes.
pub(crate) fn grow(heads: &mut Vec<Link>, node: u32) -> Result<(), NoMemory>
    ensures same { (v : ℕ) → head_at heads.new.items v ≡ head_at heads.old.items v }
    ensures room { OnOk result (node < vec_len heads.new) }
    ensures more { vec_len heads.old ≤ vec_len heads.new }
{
    let index = node as usize;
    if heads.len() <= index {
        heads.resize(index + 1, Link::End)?;
    }
    Ok(())
}

// Makes a link the one to the first turn at a node, and gives the one that was.
pub(crate) fn put_first(heads: &mut Vec<Link>, node: u32, link: Link) -> Link
    requires { node < vec_len heads.old }
    ensures value { turn_of result ≡ head_at heads.old.items node }
    ensures set { heads.new.items ≡ slice_set heads.old.items node link }
    ensures len { vec_len heads.new ≡ vec_len heads.old }
{
    let first = heads[node as usize];
    heads[node as usize] = link;
    first
}

// The first turn at a node.
pub(crate) fn first_at(heads: &[Link], node: u32) -> Option<Turn>
    ensures { result ≡ head_at heads.now node }
{
    match heads.get(node as usize) {
        Some(first) => first.turn(),
        None => None,
    }
}
