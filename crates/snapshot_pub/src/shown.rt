//! What is published.
ghost use Rattle.std.specs.Prelude.{◌≡◌};
ghost use Rattle.snapshot_pub.specs.Absorbing.{board_if_next};

use crate::put::Put;
use board::Board;
use entry_log::Front;
use left_right::Absorb;
use reg_entry::Entry;
use std::alloc::AllocError;
use std::marker::Model;

/// A board and the list of its entries.
#[derive(Drop)]
pub struct Shown {
    pub board: Board,
    pub front: Front,
}

impl Model for Shown {
    ghost use Rattle.snapshot_pub.specs.Shown.{PlainShown};

    ghost Value = { PlainShown };

    ghost view = { λ s. record { board = s.board; front = s.front } };
}

/// Takes the entry in, where it may come next.
fn take_in(board: &mut Board, e: &Entry)
    ensures { board.new ≡ board_if_next board.old e.now }
{
    if board.is_next(e) {
        board.apply(e);
    }
}

impl Absorb<Put> for Shown {
    ghost use Rattle.snapshot_pub.specs.Absorbing.{applied};

    type State = Shown;

    ghost state = { λ s. s };

    ghost applied = { applied };

    ghost never_fails = { Unit {0} };

    fn absorb_first(&mut self, operation: &Put, _other: &Shown) -> Result<(), AllocError> {
        take_in(&mut self.board, &operation.entry);
        self.front = operation.front.again();
        Ok(())
    }
}
