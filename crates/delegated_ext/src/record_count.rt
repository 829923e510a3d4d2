//! How many records there are, which the file says before any of them.
ghost use Rattle.std.specs.Prelude.{◌≡◌, ◌≤◌, ◌^◌, length};
ghost use Rattle.std.specs.List.{flat_map};
ghost use Rattle.num_range.specs.Cover.{least_cover};
ghost use Rattle.reg_entry.specs.Partition.{pieces_in};
ghost use Rattle.delegated_ext.specs.Records.{piece_records};

use cidr_cover::cover;
use cidr_cover::laws::cover_is_least;
use num_range::{Range, Space};
use piece_book::PieceBook;
use reg_entry::Piece;

/// How many blocks the least cover of the range has.
fn count_blocks(range: &Range) -> u64
    ensures count { result ≡ length (least_cover range.now) }
{
    // A law, for how many blocks there are at most.
    cover_is_least();
    cover(*range).count() as u64
}

/// How many records a piece has: one, or of IPv6 addresses one for each block of the least cover.
fn count_of_piece(piece: &Piece) -> u64
    ensures { result ≡ length (piece_records piece.now) }
{
    match piece.range.space() {
        Space::Asn => 1,
        Space::Ipv4 => 1,
        Space::Ipv6 => count_blocks(&piece.range),
    }
}

/// How many records a space has.
pub(crate) fn count_records(pieces: &PieceBook, space: Space) -> u64
    ensures count { result ≡ length (flat_map piece_records (pieces_in pieces.now.partition space)) }
    ensures bound { result ≤ 2 ^ 38 }
{
    // A law, and what every book keeps, for the bound.
    cover_is_least();
    pieces.are_pieces();
    let mut count = 0;
    for piece in pieces.walk(space) {
        count += count_of_piece(&piece);
    }
    count
}
