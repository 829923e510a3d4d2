//! The search for the block that a delegation takes.
#![tactic(auto)]

ghost use Rattle.std.specs.Prelude.{◌≡◌, ℕ, ◌+◌, ◌-◌, ◌≤◌, ◌<◌, true, IfSome};
ghost use Rattle.std.specs.Option.{option_map};
ghost use Rattle.num_range.specs.declared.space.Space.{Space};
ghost use Rattle.num_range.specs.declared.space.Space.TheVariants.{Asn};
ghost use Rattle.num_range.specs.Amount.{amount_size, has_size};
ghost use Rattle.num_range.specs.Space.{top_of};
ghost use Rattle.reg_entry.specs.Blocks.{IsLeastBlock, least_block};
ghost use Rattle.reg_entry.specs.Covers.{range_from};
ghost use Rattle.reg_entry.specs.Partition.{pieces_in};
ghost use Rattle.reg_entry.specs.Pieces.{ArePieces};
ghost use Rattle.fit_search.specs.Sought.{IsSought};

use num_range::{Range, Space};
use piece_book::{PieceBook, PieceWalk};
use reg_entry::laws::block_is_least;

/// The greatest run of AS numbers that the index tells apart from larger ones: no request asks for more at once.
const MOST_INDEXED: u128 = 1024;

/// The first of the least run of so many available AS numbers. The search goes over the pieces once.
fn least_run(pieces: PieceWalk<'_>, size: u128) -> Option<u128>
    requires valid { ArePieces Asn pieces }
    requires size { 0 < size }
    ensures { result ≡ least_block pieces.entry Asn size }
{
    for piece in pieces {
        if piece.card.status.is_available()
            && piece.range.last() - piece.range.first() >= size - 1
        {
            return Some(piece.range.first());
        }
    }
    None
}

fn least_start(pieces: &PieceBook, space: Space, size: u128) -> Option<u128>
    requires { IsSought space size }
    ensures { result ≡ least_block (pieces_in pieces.now.partition space) space size }
{
    match space {
        Space::Asn if size > MOST_INDEXED => least_run(pieces.walk(space), size),
        _ => pieces.free_blocks().least_start(space, size),
    }
}

/// Where the block that is found starts: no free block starts before it.
fn found_start(pieces: &PieceBook, space: Space, size: u128) -> Option<u128>
    requires { IsSought space size }
    ensures start { result ≡ least_block (pieces_in pieces.now.partition space) space size }
    ensures least { IsLeastBlock (pieces_in pieces.now.partition space) space size result }
    ensures within { IfSome result (λ start. start + (size - 1) ≤ top_of space) }
{
    pieces.are_pieces();
    block_is_least();
    least_start(pieces, space, size)
}

/// The least aligned block of a size, all of whose numbers are available, or nothing where there is none. It's found in the
/// index of free blocks, by one look-up for each size that an available piece has room for; a run of more than 1,024 AS
/// numbers by going over the pieces.
pub fn least_block(pieces: &PieceBook, space: Space, size: u128) -> Option<Range>
    requires { IsSought space size }
    ensures block { result ≡ option_map (λ start. range_from space start size) (least_block (pieces_in pieces.now.partition space) space size) }
    ensures least { IsLeastBlock (pieces_in pieces.now.partition space) space size (option_map (λ range. range.first) result) }
{
    let start = found_start(pieces, space, size)?;
    Some(Range::between(space, start, start + (size - 1)))
}

/// What a request may ask for at once can be looked for.
pub fn amounts_are_sought()
    ensures { (space : Space) (amount : ℕ) → has_size space amount ≡ true → IsSought space (amount_size space amount) }
{}
