//! Which zones the register has.
ghost use Rattle.std.specs.Prelude.{◌≡◌};
ghost use Rattle.reverse_zone.specs.Apex.{IsApex};
ghost use Rattle.reverse_zone.specs.Zone.{in_pool};

use crate::Apex;
use board::Board;

/// Whether some number of the pool has its name in the zone, by one look-up.
#[tactic(auto, using(crate::proofs::Finding::some_met))]
pub fn in_pool(board: &Board, apex: Apex) -> bool
    requires { IsApex apex }
    ensures { result ≡ in_pool board.now.register apex }
{
    board.pieces().first_met(&apex.range()).is_some()
}
