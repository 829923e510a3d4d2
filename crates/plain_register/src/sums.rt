//! How many numbers a holder has, by walks over all pieces and subs.
ghost use Rattle.std.specs.Prelude.{◌≡◌, ◌<◌, ◌^◌, filter};
ghost use Rattle.reg_entry.specs.Pieces.{size_sum};
ghost use Rattle.reg_entry.specs.Sums.{is_held_by, is_allocated_to, lies_in_one, ranges_size, held, allocated, used};

use crate::PlainRegister;
use num_range::{Range, Space};
use reg_entry::{Piece, Status, SubCard};
use reg_laws::holdings::holdings_are_bounded;
use reg_laws::usage::use_is_bounded;

fn is_held_by(piece: &Piece, holder: u32) -> bool
    ensures { result ≡ is_held_by holder piece.now }
{
    piece.card.status.is_delegated() && piece.card.holder == Some(holder)
}

fn is_allocated_to(piece: &Piece, holder: u32) -> bool
    ensures { result ≡ is_allocated_to holder piece.now }
{
    piece.card.status == Status::Allocated && piece.card.holder == Some(holder)
}

fn held_size(pieces: &[Piece], holder: u32) -> u128
    requires { size_sum (filter (is_held_by holder) pieces.now) < 2 ^ 128 }
    ensures { result ≡ size_sum (filter (is_held_by holder) pieces.now) }
{
    let mut sum = 0;
    for piece in pieces {
        if is_held_by(piece, holder) {
            sum += piece.range.size();
        }
    }
    sum
}

fn allocated_size(pieces: &[Piece], holder: u32) -> u128
    requires { size_sum (filter (is_allocated_to holder) pieces.now) < 2 ^ 128 }
    ensures { result ≡ size_sum (filter (is_allocated_to holder) pieces.now) }
{
    let mut sum = 0;
    for piece in pieces {
        if is_allocated_to(piece, holder) {
            sum += piece.range.size();
        }
    }
    sum
}

/// The range lies inside a piece that is allocated to the holder.
fn lies_in_allocated(pieces: &[Piece], holder: u32, range: &Range) -> bool
    ensures { result ≡ lies_in_one (filter (is_allocated_to holder) pieces.now) range.now }
{
    for piece in pieces {
        if is_allocated_to(piece, holder) && range.inside(&piece.range) {
            return true;
        }
    }
    false
}

fn used_size(subs: &[(Range, SubCard)], pieces: &[Piece], holder: u32) -> u128
    requires { ranges_size (filter (λ s. lies_in_one (filter (is_allocated_to holder) pieces.now) s.0) subs.now) < 2 ^ 128 }
    ensures { result ≡ ranges_size (filter (λ s. lies_in_one (filter (is_allocated_to holder) pieces.now) s.0) subs.now) }
{
    let mut sum = 0;
    for s in subs {
        if lies_in_allocated(pieces, holder, &s.0) {
            sum += s.0.size();
        }
    }
    sum
}

impl PlainRegister {
    /// How many numbers of the space are delegated to the holder of this number.
    pub fn held(&self, holder: u32, space: Space) -> u128
        ensures { result ≡ held self.now holder space }
    {
        // A law: they are a number of the type.
        holdings_are_bounded();
        self.is_whole();
        held_size(self.pieces_in(space), holder)
    }

    /// How many of these are allocated.
    pub fn allocated(&self, holder: u32, space: Space) -> u128
        ensures { result ≡ allocated self.now holder space }
    {
        // A law: they are a number of the type.
        holdings_are_bounded();
        self.is_whole();
        allocated_size(self.pieces_in(space), holder)
    }

    /// How many of these are used: the numbers of the subs in them, whoever holds the subs.
    pub fn used(&self, holder: u32, space: Space) -> u128
        ensures { result ≡ used self.now holder space }
    {
        // Laws: they are a number of the type.
        holdings_are_bounded();
        use_is_bounded();
        self.is_whole();
        used_size(&self.subs, self.pieces_in(space), holder)
    }
}
