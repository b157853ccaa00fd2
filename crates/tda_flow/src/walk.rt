// Walks, and steps of flow along them.
ghost use Rattle.std.specs.Prelude.{◌≡◌, ℕ, ◌+◌, ◌<◌, ◌≤◌, ◌^◌, length, slice_index};
ghost use Rattle.tda_flow.specs.Network.{arc_count};
ghost use Rattle.tda_flow.specs.Walk.{moved, CanMove};
ghost use Rattle.tda_flow.specs.Moved.{ShiftsEnds, StaysBounded, CostsAtMost, CostsExactly};
ghost use Rattle.tda_flow.specs.Turns.{turn_from, turn_to};

use crate::net::{Net, Turn};

impl Turn {
    /// The node where the turn begins.
    pub fn start(self, net: &Net) -> u32
        requires { self.arc < arc_count net.now }
        ensures value { result ≡ turn_from net.now self }
        ensures node { result < net.now.nodes }
    {
        let _nodes = net.nodes();
        let links = net.links(self.arc);
        if self.back { links.to } else { links.from }
    }

    /// The node where the turn ends.
    pub fn end(self, net: &Net) -> u32
        requires { self.arc < arc_count net.now }
        ensures value { result ≡ turn_to net.now self }
        ensures node { result < net.now.nodes }
    {
        let _nodes = net.nodes();
        let links = net.links(self.arc);
        if self.back { links.from } else { links.to }
    }
}

/// Changes the flow by `delta` along a walk: up on each arc that is passed forwards, down on each one
/// that is passed backwards. Each turn names a flow, which stays from 0 to 2^64 - 1.
///
/// On any net with an arc for each flow, only the ends of the walk change what comes into a node less
/// what goes out of it, by `delta`; a closed walk changes nothing there. Within bounds that leave room
/// on each turn, none coming twice, the flow stays, and the cost by a convex curve rises at most by
/// the walk's; where no arc comes twice it rises by just that.
pub fn move_along(flow: &mut [u64], walk: &[Turn], delta: u64)
    requires room { CanMove delta flow.old walk.now }
    ensures flow { flow.new ≡ moved walk.now delta flow.old }
    ensures balance { ShiftsEnds walk.now delta flow.old flow.new }
    ensures bounds { StaysBounded walk.now delta flow.old flow.new }
    ensures cost { CostsAtMost walk.now delta flow.old flow.new }
    ensures same_cost { CostsExactly walk.now delta flow.old flow.new }
{
    for turn in walk {
        if turn.back {
            flow[turn.arc] -= delta;
        } else {
            flow[turn.arc] += delta;
        }
    }
}
