// Where each unit stands in the order of the file of tables.
ghost use Rattle.std.specs.Prelude.{◌≡◌, ◌+◌, ◌<◌, ◌≤◌, ◌^◌, All, length, IfOk};
ghost use Rattle.tda_prices.specs.Ranks.{ranked, AreRanks};

use std::alloc::{AllocError, Global};
use tda_spine::Spine;

// Gives these units the numbers from a first one on.
fn rank_all(ranks: &mut [u32], units: &[u32], first: u32)
    requires units { All (λ u. u < length ranks.old) units.now }
    requires room { first + length units.now ≤ 2 ^ 30 }
    ensures { ranks.new ≡ ranked ranks.old units.now first }
{
    for (index, unit) in units.iter().enumerate() {
        ranks[*unit as usize] = first + index as u32;
    }
}

/// Where each unit stands: the nation first, then the children of each unit with children, in fit order.
pub(crate) fn ranks(alloc: Global, spine: &Spine) -> Result<Vec<u32>, AllocError>
    ensures { IfOk result (λ ranks. AreRanks spine.now ranks.items) }
{
    let mut ranks = vec![in alloc; 0; spine.units() as usize]?;
    let mut next = 0;
    ranks[spine.nation() as usize] = next;
    next += 1;
    for parent in spine.parents() {
        let children = spine.children(*parent);
        rank_all(&mut ranks, children, next);
        next += children.len() as u32;
    }
    Ok(ranks)
}
