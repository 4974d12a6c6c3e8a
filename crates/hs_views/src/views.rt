//! Views, rounds and their leaders.
ghost use Rattle.std.specs.Prelude.{◌≡◌, ◌≤◌, ◌<◌, ◌/◌};
ghost use Rattle.hs_views.specs.Views.{leader_of};

use iss_request::NodeId;
use iss_sb::Params;

/// The round of a view: its upper 16 bits. The lower 16 bits are the turn.
pub fn round_of(view: u32) -> u16
    ensures { result ≡ view / 65536 }
{
    (view / 65536) as u16
}

/// The leader of a round: leaders rotate, beginning with the segment's leader.
pub fn leader_of(p: &Params, round: u16) -> NodeId
    requires some { 1 ≤ p.now.setup.n }
    requires few { p.now.setup.n ≤ 255 }
    ensures leader { result.0 ≡ leader_of p.now round }
    ensures node { result.0 < p.now.setup.n }
{
    let sum = p.leader.0 as u32 + round as u32;
    NodeId((sum % p.setup.n) as u8)
}
