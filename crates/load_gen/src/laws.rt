//! Laws over what is drawn, each proved as the contract of a function that does nothing.
ghost use Rattle.std.specs.Prelude.{◌≡◌, false, nat_le};
ghost use Rattle.num_range.specs.Range.{Holds, PlainRange};
ghost use Rattle.load_gen.specs.Draw.{PlainDraw, drawn_address, kind};
ghost use Rattle.load_gen.specs.Drawn.{drawn_request};
ghost use Rattle.load_gen.specs.Opening.{private_block};

/// Each address that is drawn is one of the first range that a load receives.
pub fn drawn_addresses_are_received()
    ensures { (d : PlainDraw) → Holds private_block (drawn_address d) }
{}

/// Where a draw names no piece its request is the same whatever the piece.
pub fn delegations_name_no_piece()
    ensures { (d : PlainDraw) (piece other : PlainRange) → nat_le 5 (kind d) ≡ false → drawn_request d piece ≡ drawn_request d other }
{}
