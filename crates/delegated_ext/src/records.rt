//! The records of a space, appended to the body line by line.
ghost use Rattle.std.specs.Prelude.{◌≡◌, ◌++◌, ◌≤◌, ◌<◌, ◌^◌, map, OnOk};
ghost use Rattle.std.specs.List.{flat_map, AllByRecursion};
ghost use Rattle.num_range.specs.Range.{size_of};
ghost use Rattle.num_range.specs.Cover.{least_cover};
ghost use Rattle.reg_entry.specs.Days.{last_date};
ghost use Rattle.reg_entry.specs.Partition.{pieces_in};
ghost use Rattle.delegated_ext.specs.Records.{record_line, piece_records};
ghost use Rattle.delegated_ext.specs.StatisticsText.{record_text};
ghost use Rattle.delegated_ext.specs.Writable.{IsWritable};

use crate::RecordLine;
use crate::record_text::write_record;
use arrayvec::ArrayVec;
use board::Body;
use cidr_cover::cover;
use cidr_cover::laws::cover_is_exact;
use holder_book::HolderBook;
use num_range::{Range, Space};
use piece_book::PieceBook;
use reg_entry::{Card, Name, Piece};
use std::alloc::AllocError;

/// Appends the record of a range that has the card.
fn append_range(
    registry: &Name,
    holders: &HolderBook,
    card: &Card,
    range: &Range,
    body: &mut Body,
) -> Result<(), AllocError>
    requires date { card.now.day ≤ last_date }
    requires counted { size_of range.now < 2 ^ 128 }
    ensures { OnOk result (body.new ≡ body.old ++ record_text registry.now holders.now.holders (record_line card.now range.now)) }
{
    let _valid = range.first();
    let record = RecordLine::of(card, range);
    let mut line = ArrayVec::new();
    write_record(registry, holders, &record, &mut line);
    body.append(line.as_slice())
}

/// Appends the records of an IPv6 piece, one for each block of its least cover.
fn append_blocks(
    registry: &Name,
    holders: &HolderBook,
    piece: &Piece,
    body: &mut Body,
) -> Result<(), AllocError>
    requires { IsWritable piece.now }
    ensures { OnOk result (body.new ≡ body.old
        ++ flat_map (record_text registry.now holders.now.holders) (map (record_line piece.now.card) (least_cover piece.now.range))) }
{
    // A law, for the size of each block.
    cover_is_exact();
    let _valid = piece.range.first();
    for block in cover(piece.range) {
        append_range(registry, holders, &piece.card, &block, body)?;
    }
    Ok(())
}

fn append_piece(
    registry: &Name,
    holders: &HolderBook,
    piece: &Piece,
    body: &mut Body,
) -> Result<(), AllocError>
    requires { IsWritable piece.now }
    ensures { OnOk result (body.new ≡ body.old ++ flat_map (record_text registry.now holders.now.holders) (piece_records piece.now)) }
{
    match piece.range.space() {
        Space::Asn => append_range(registry, holders, &piece.card, &piece.range, body),
        Space::Ipv4 => append_range(registry, holders, &piece.card, &piece.range, body),
        Space::Ipv6 => append_blocks(registry, holders, piece, body),
    }
}

/// Appends the records of a space, rising.
pub(crate) fn append_records(
    registry: &Name,
    holders: &HolderBook,
    pieces: &PieceBook,
    space: Space,
    body: &mut Body,
) -> Result<(), AllocError>
    requires { AllByRecursion IsWritable (pieces_in pieces.now.partition space) }
    ensures { OnOk result (body.new ≡ body.old
        ++ flat_map (record_text registry.now holders.now.holders) (flat_map piece_records (pieces_in pieces.now.partition space))) }
{
    for piece in pieces.walk(space) {
        append_piece(registry, holders, &piece, body)?;
    }
    Ok(())
}
