//! How the pieces of a space change, by one walk over them into another vector: what is written there is what the definition
//! gives of each piece.
ghost use Rattle.std.specs.Prelude.{◌≡◌, ◌+◌, ◌*◌, ◌≤◌, ◌<◌, ◌++◌, ◌∷◌, true, length, vec_len, vec_capacity, option_to_list};
ghost use Rattle.std.specs.List.{flat_map};
ghost use Rattle.num_range.specs.declared.space.Space.{Space};
ghost use Rattle.reg_entry.specs.Pieces.{part_below, part_above, can_join, joined_pair, joined, laid, ArePieces};
ghost use Rattle.plain_register.specs.Parts.{AreOf};
ghost use Rattle.reg_entry.specs.Reshaping.{split_piece, split_at_number, joined_at};

use num_range::Range;
use reg_entry::{Card, Piece};

/// What a piece keeps below the range.
fn part_below(piece: &Piece, range: &Range) -> Option<Piece>
    ensures { option_to_list result ≡ part_below range.now piece.now }
{
    let (first, last) = (piece.range.first(), piece.range.last());
    if range.first() <= first {
        return None;
    }
    Some(Piece {
        range: Range::between(piece.range.space(), first, last.min(range.first() - 1)),
        card: piece.card,
    })
}

/// What a piece keeps above the range.
fn part_above(piece: &Piece, range: &Range) -> Option<Piece>
    ensures { option_to_list result ≡ part_above range.now piece.now }
{
    let (first, last) = (piece.range.first(), piece.range.last());
    if last <= range.last() {
        return None;
    }
    Some(Piece {
        range: Range::between(piece.range.space(), first.max(range.last() + 1), last),
        card: piece.card,
    })
}

fn push_part(parts: &mut Vec<Piece>, part: &Option<Piece>)
    requires room { vec_len parts.old < vec_capacity parts.old }
    ensures items { parts.new.items ≡ parts.old.items ++ option_to_list part.now }
    ensures len { vec_len parts.new ≤ vec_len parts.old + 1 }
    ensures capacity { vec_capacity parts.new ≡ vec_capacity parts.old }
{
    if let Some(piece) = part {
        parts.push_reserved(*piece);
    }
}

/// Writes what the pieces keep below the range.
fn push_below(parts: &mut Vec<Piece>, pieces: &[Piece], range: &Range)
    requires room { vec_len parts.old + length pieces.now ≤ vec_capacity parts.old }
    ensures items { parts.new.items ≡ parts.old.items ++ flat_map (part_below range.now) pieces.now }
    ensures len { vec_len parts.new ≤ vec_len parts.old + length pieces.now }
    ensures capacity { vec_capacity parts.new ≡ vec_capacity parts.old }
{
    for piece in pieces {
        push_part(parts, &part_below(piece, range));
    }
}

/// Writes what the pieces keep above the range.
fn push_above(parts: &mut Vec<Piece>, pieces: &[Piece], range: &Range)
    requires room { vec_len parts.old + length pieces.now ≤ vec_capacity parts.old }
    ensures items { parts.new.items ≡ parts.old.items ++ flat_map (part_above range.now) pieces.now }
    ensures len { vec_len parts.new ≤ vec_len parts.old + length pieces.now }
    ensures capacity { vec_capacity parts.new ≡ vec_capacity parts.old }
{
    for piece in pieces {
        push_part(parts, &part_above(piece, range));
    }
}

fn can_join(left: &Piece, right: &Piece) -> bool
    ensures test { result ≡ can_join left.now right.now }
    ensures ordered { result ≡ true → left.now.range.first ≤ right.now.range.last }
{
    let (last, first) = (left.range.last(), right.range.first());
    first > 0
        && last == first - 1
        && left.card.status.is_available()
        && right.card.status.is_available()
}

/// One piece in the place of two, with the card of the left one.
fn joined_pair(left: &Piece, right: &Piece) -> Piece
    requires space { left.now.range.space ≡ right.now.range.space }
    requires ordered { left.now.range.first ≤ right.now.range.last }
    ensures { result ≡ joined_pair left.now right.now }
{
    Piece {
        range: Range::between(left.range.space(), left.range.first(), right.range.last()),
        card: left.card,
    }
}

/// Writes the parts, each two neighbours that touch and are both available made one.
fn join_parts(pieces: &mut Vec<Piece>, parts: &[Piece])
    requires each { (space : Space) × AreOf space parts.now }
    requires room { length parts.now ≤ vec_capacity pieces.old }
    ensures items { pieces.new.items ≡ joined parts.now }
    ensures capacity { vec_capacity pieces.new ≡ vec_capacity pieces.old }
{
    pieces.clear();
    let [first, rest @ ..] = parts else {
        return;
    };
    let mut last = *first;
    for piece in rest {
        if can_join(&last, piece) {
            last = joined_pair(&last, piece);
        } else {
            pieces.push_reserved(last);
            last = *piece;
        }
    }
    pieces.push_reserved(last);
}

/// How many pieces the parts are once each two neighbours that touch and are both available were made one.
fn joined_count(parts: &[Piece]) -> usize
    requires each { (space : Space) × AreOf space parts.now }
    ensures count { result ≡ length (joined parts.now) }
    ensures bound { result ≤ length parts.now }
{
    let [first, rest @ ..] = parts else {
        return 0;
    };
    let mut last = *first;
    let mut count = 1;
    for piece in rest {
        if can_join(&last, piece) {
            last = joined_pair(&last, piece);
        } else {
            count += 1;
            last = *piece;
        }
    }
    count
}

/// Writes what is left of the pieces below the range, a piece with the range and the card, and what is left above it.
fn part(parts: &mut Vec<Piece>, pieces: &[Piece], range: &Range, card: &Card)
    requires pieces { ArePieces range.now.space pieces.now }
    requires room { 2 * length pieces.now + 1 ≤ vec_capacity parts.old }
    ensures items { parts.new.items ≡ flat_map (part_below range.now) pieces.now ++ record { range = range.now; card = card.now } ∷ flat_map (part_above range.now) pieces.now }
    ensures each { AreOf range.now.space parts.new.items }
    ensures len { vec_len parts.new ≤ 2 * length pieces.now + 1 }
    ensures capacity { vec_capacity parts.new ≡ vec_capacity parts.old }
{
    parts.clear();
    push_below(parts, pieces, range);
    parts.push_reserved(Piece {
        range: *range,
        card: *card,
    });
    push_above(parts, pieces, range);
}

/// Lays the card over the range. The parts are what is left of the pieces, before any two are joined.
pub(crate) fn lay(pieces: &mut Vec<Piece>, parts: &mut Vec<Piece>, range: &Range, card: &Card)
    requires pieces { ArePieces range.now.space pieces.old.items }
    requires parts { 2 * vec_len pieces.old + 1 ≤ vec_capacity parts.old }
    requires room { 2 * vec_len pieces.old + 1 ≤ vec_capacity pieces.old }
    ensures items { pieces.new.items ≡ laid pieces.old.items range.now card.now }
    ensures capacity { vec_capacity pieces.new ≡ vec_capacity pieces.old }
    ensures parts_capacity { vec_capacity parts.new ≡ vec_capacity parts.old }
{
    part(parts, pieces, range, card);
    join_parts(pieces, parts);
}

/// How many pieces there would be once the card was laid over the range.
pub(crate) fn laid_count(
    pieces: &[Piece],
    parts: &mut Vec<Piece>,
    range: &Range,
    card: &Card,
) -> usize
    requires pieces { ArePieces range.now.space pieces.now }
    requires parts { 2 * length pieces.now + 1 ≤ vec_capacity parts.old }
    ensures count { result ≡ length (laid pieces.now range.now card.now) }
    ensures bound { result ≤ 2 * length pieces.now + 1 }
    ensures parts_capacity { vec_capacity parts.new ≡ vec_capacity parts.old }
{
    part(parts, pieces, range, card);
    joined_count(parts)
}

/// Writes the pieces, with the one that holds the number split before it.
fn push_split(parts: &mut Vec<Piece>, pieces: &[Piece], at: u128)
    requires room { vec_len parts.old + 2 * length pieces.now ≤ vec_capacity parts.old }
    ensures items { parts.new.items ≡ parts.old.items ++ split_at_number pieces.now at }
    ensures len { vec_len parts.new ≤ vec_len parts.old + 2 * length pieces.now }
    ensures capacity { vec_capacity parts.new ≡ vec_capacity parts.old }
{
    for piece in pieces {
        push_split_piece(parts, piece, at);
    }
}

/// Writes the piece's parts before the number and from it on, or the piece where it holds no number before that one.
fn push_split_piece(parts: &mut Vec<Piece>, piece: &Piece, at: u128)
    requires room { vec_len parts.old + 2 ≤ vec_capacity parts.old }
    ensures items { parts.new.items ≡ parts.old.items ++ split_piece at piece.now }
    ensures len { vec_len parts.new ≤ vec_len parts.old + 2 }
    ensures capacity { vec_capacity parts.new ≡ vec_capacity parts.old }
{
    let (space, first, last) = (piece.range.space(), piece.range.first(), piece.range.last());
    if at <= first || last < at {
        parts.push_reserved(*piece);
        return;
    }
    parts.push_reserved(Piece {
        range: Range::between(space, first, at - 1),
        card: piece.card,
    });
    parts.push_reserved(Piece {
        range: Range::between(space, at, last),
        card: piece.card,
    });
}

/// Copies the parts.
fn copy(pieces: &mut Vec<Piece>, parts: &[Piece])
    requires room { length parts.now ≤ vec_capacity pieces.old }
    ensures items { pieces.new.items ≡ parts.now }
    ensures capacity { vec_capacity pieces.new ≡ vec_capacity pieces.old }
{
    pieces.clear();
    for piece in parts {
        pieces.push_reserved(*piece);
    }
}

/// Splits the piece that holds the number before it.
pub(crate) fn split(pieces: &mut Vec<Piece>, parts: &mut Vec<Piece>, at: u128)
    requires parts { 2 * vec_len pieces.old + 1 ≤ vec_capacity parts.old }
    requires room { 2 * vec_len pieces.old + 1 ≤ vec_capacity pieces.old }
    ensures items { pieces.new.items ≡ split_at_number pieces.old.items at }
    ensures capacity { vec_capacity pieces.new ≡ vec_capacity pieces.old }
    ensures parts_capacity { vec_capacity parts.new ≡ vec_capacity parts.old }
{
    parts.clear();
    push_split(parts, pieces, at);
    copy(pieces, parts);
}

/// How many pieces there would be once the piece that holds the number was split before it.
pub(crate) fn split_count(pieces: &[Piece], parts: &mut Vec<Piece>, at: u128) -> usize
    requires parts { 2 * length pieces.now + 1 ≤ vec_capacity parts.old }
    ensures count { result ≡ length (split_at_number pieces.now at) }
    ensures bound { result ≤ 2 * length pieces.now }
    ensures parts_capacity { vec_capacity parts.new ≡ vec_capacity parts.old }
{
    parts.clear();
    push_split(parts, pieces, at);
    parts.len()
}

/// Joins the piece that begins at the number with the one before it.
#[tactic(auto, using(crate::proofs::Neighbours::same_space, crate::proofs::Neighbours::in_order))]
pub(crate) fn join(pieces: &mut Vec<Piece>, at: u128)
    requires pieces { (space : Space) × ArePieces space pieces.old.items }
    ensures items { pieces.new.items ≡ joined_at pieces.old.items at }
    ensures capacity { vec_capacity pieces.new ≡ vec_capacity pieces.old }
{
    for i in 1..pieces.len() {
        let (left, right) = (pieces[i - 1], pieces[i]);
        if right.range.first() == at {
            pieces[i - 1] = joined_pair(&left, &right);
            pieces.remove(i);
            return;
        }
    }
}
