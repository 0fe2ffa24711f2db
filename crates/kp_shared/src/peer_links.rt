// The links of a shared node, for the threads that take of them.
ghost use Rattle.std.specs.Prelude.{◌≡◌};
ghost use Rattle.std.specs.Option.{option_copied};
ghost use Rattle.kp_shared.specs.Members.{OthersKeep, is_linked, is_there, of_member};
ghost use Rattle.kp_shared.specs.Posts.{HasSeat};
ghost use Rattle.kp_shared.specs.Sharing.{IsNodeSeatOf, Splits};

use crate::kept::Kept;
use crate::node::{NodeSeat, SharedNode};
use crate::sharing::split_link;
use kp_links::{LinkSeat, Links};

impl<K: Kept> SharedNode<K> {
    /// Lends the link to a peer. None exactly where the number is no peer's.
    #[tactic(auto, unfolding(crate::specs::Members::of_member))]
    pub fn link(&self, to: u8) -> Option<&Links<K::Mail>>
        ensures link { option_copied result ≡ of_member to self.now.links }
        ensures there { is_there result ≡ is_linked self.now.number self.now.members to }
    {
        match to {
            1 => self.links.one.as_ref(),
            2 => self.links.two.as_ref(),
            3 => self.links.three.as_ref(),
            4 => self.links.four.as_ref(),
            5 => self.links.five.as_ref(),
            6 => self.links.six.as_ref(),
            7 => self.links.seven.as_ref(),
            _ => None,
        }
    }

    /// A seat of the link to a peer, which has sent and taken nothing, for the thread that takes of the link. None exactly
    /// where the number is no peer's. It takes no memory.
    #[tactic(auto, unfolding(crate::specs::Members::of_member))]
    pub fn link_seat(&self, seat: &mut NodeSeat<K>, to: u8) -> Option<LinkSeat<K::Mail>>
        requires { IsNodeSeatOf (λ s. K.life s.kept) self.now seat.old }
        ensures seat { IsNodeSeatOf (λ s. K.life s.kept) self.now seat.new }
        ensures new { HasSeat (of_member to self.now.links) result }
        ensures there { is_there result ≡ is_linked self.now.number self.now.members to }
        ensures views { Splits (of_member to seat.old.links) (of_member to seat.new.links) result }
        ensures others { OthersKeep to seat.old.links seat.new.links }
        ensures same { (seat.new.turn ≡ seat.old.turn) × (seat.new.stop ≡ seat.old.stop) }
    {
        let seats = &mut seat.links;
        match to {
            1 => split_link(&self.links.one, &mut seats.one),
            2 => split_link(&self.links.two, &mut seats.two),
            3 => split_link(&self.links.three, &mut seats.three),
            4 => split_link(&self.links.four, &mut seats.four),
            5 => split_link(&self.links.five, &mut seats.five),
            6 => split_link(&self.links.six, &mut seats.six),
            7 => split_link(&self.links.seven, &mut seats.seven),
            _ => None,
        }
    }
}
