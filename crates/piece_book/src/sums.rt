ghost use Rattle.std.specs.Prelude.{◌≡◌, ◌<◌, ◌^◌};
ghost use Rattle.reg_entry.specs.Sums.{has_status, status_sum};

use crate::PieceWalk;
use reg_entry::{Piece, Status};

fn has_status(piece: &Piece, status: Status) -> bool
    ensures { result ≡ has_status status piece.now }
{
    piece.card.status == status
}

/// How many numbers the pieces of the status have.
pub(crate) fn status_sum(pieces: PieceWalk<'_>, status: Status) -> u128
    requires { status_sum pieces status < 2 ^ 128 }
    ensures { result ≡ status_sum pieces.entry status }
{
    let mut sum = 0;
    for piece in pieces {
        if has_status(&piece, status) {
            sum += piece.range.size();
        }
    }
    sum
}
