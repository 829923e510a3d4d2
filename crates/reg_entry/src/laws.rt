//! Laws over the definitions that the register stands on, each proved as the contract of a function that does nothing.
ghost use Rattle.std.specs.Prelude.{◌≡◌, ℕ, ◌+◌, ◌<◌, ◌≤◌, ◌&&◌, nat_le, if◌then◌else◌, List, Some, None, option_to_list};
ghost use Rattle.num_range.specs.declared.space.Space.{Space};
ghost use Rattle.num_range.specs.Range.{PlainRange, IsRange, size_of};
ghost use Rattle.reg_entry.specs.declared.card.Card.{Card};
ghost use Rattle.reg_entry.specs.declared.card.Status.TheVariants.{Available, Reserved, Quarantine, Allocated, Assigned};
ghost use Rattle.reg_entry.specs.declared.object.Key.{Key as TheKey};
ghost use Rattle.reg_entry.specs.declared.piece.Piece.{Piece};
ghost use Rattle.reg_entry.specs.Pieces.{card_at, cards_at, first_met, overlap, size_sum, laid, ArePieces, IsPoolRange, IsCard, IsLeastTaken};
ghost use Rattle.reg_entry.specs.Reshaping.{split_at_number, joined_at, IsFixedAt, CanJoinAt};
ghost use Rattle.reg_entry.specs.Days.{last_date, day_text};
ghost use Rattle.reg_entry.specs.Blocks.{least_block, IsLeastBlock};
ghost use Rattle.reg_entry.specs.Sums.{status_sum};
ghost use Rattle.reg_entry.specs.Objects.{bytes_before, key_before};
ghost use Rattle.std.specs.Ordering.{is_lt};

use crate::{Handle, Key, Label, Name};
use num_range::laws::ranges_are_in_order;

/// The pieces of a space are pieces of it still once a card was painted over one of its ranges.
pub fn painting_keeps_pieces()
    ensures { (space : Space) (ps : List Piece) (r : PlainRange) (c : Card) → ArePieces space ps → r.space ≡ space
        → IsRange r → IsPoolRange r → IsCard c → ArePieces space (laid ps r c) }
{}

/// Splitting a delegated piece leaves the pieces of a space pieces of it, and changes the card of no number, and not how
/// many there are.
pub fn splitting_keeps_pieces()
    ensures cards { (space : Space) (ps : List Piece) (at x : ℕ) → ArePieces space ps
        → card_at (split_at_number ps at) x ≡ card_at ps x }
    ensures sizes { (space : Space) (ps : List Piece) (at : ℕ) → ArePieces space ps
        → size_sum (split_at_number ps at) ≡ size_sum ps }
    ensures pieces { (space : Space) (ps : List Piece) (at : ℕ) → ArePieces space ps → IsFixedAt ps at
        → ArePieces space (split_at_number ps at) }
{}

/// Joining two delegated pieces of one card does the same.
pub fn joining_keeps_pieces()
    ensures cards { (space : Space) (ps : List Piece) (at x : ℕ) → ArePieces space ps → CanJoinAt ps at
        → card_at (joined_at ps at) x ≡ card_at ps x }
    ensures sizes { (space : Space) (ps : List Piece) (at : ℕ) → ArePieces space ps → CanJoinAt ps at
        → size_sum (joined_at ps at) ≡ size_sum ps }
    ensures pieces { (space : Space) (ps : List Piece) (at : ℕ) → ArePieces space ps → CanJoinAt ps at
        → ArePieces space (joined_at ps at) }
{}

/// The block that is computed is the least of the free ones: aligned, within its space, each of its numbers available.
pub fn block_is_least()
    ensures { (space : Space) (ps : List Piece) (size : ℕ) → ArePieces space ps → 0 < size
        → IsLeastBlock ps space size (least_block ps space size) }
{}

/// The overlap of a range with the pieces is the least of its numbers that some piece holds, and there is none only
/// where no piece holds any.
pub fn overlap_is_least()
    ensures { (space : Space) (ps : List Piece) (r : PlainRange) → ArePieces space ps → IsRange r
        → IsLeastTaken ps r (overlap ps r) }
{}

/// Painting a card gives it to each number of the range, and leaves the card of every other number as it was.
pub fn painting_changes_look_ups()
    ensures { (space : Space) (ps : List Piece) (r : PlainRange) (c : Card) (x : ℕ) → ArePieces space ps → IsRange r → IsCard c
        → card_at (laid ps r c) x ≡ (if nat_le r.first x && nat_le x r.last then Some c else card_at ps x) }
{}

/// Painting a range that meets no piece adds its numbers to those of the pieces, and painting inside one piece adds none.
pub fn painting_counts_numbers()
    ensures received { (space : Space) (ps : List Piece) (r : PlainRange) (c : Card) → ArePieces space ps → IsRange r
        → overlap ps r ≡ None → size_sum (laid ps r c) ≡ size_sum ps + size_of r }
    ensures repainted { (space : Space) (ps : List Piece) (r : PlainRange) (c : Card) (p : Piece) → ArePieces space ps → IsRange r
        → first_met ps r ≡ Some p → p.range.first ≤ r.first → r.last ≤ p.range.last
        → size_sum (laid ps r c) ≡ size_sum ps }
{}

/// No two days have one text, so that reading the text of a day gives the day.
pub fn day_texts_differ()
    ensures { (a b : ℕ) → a ≤ last_date → b ≤ last_date → day_text a ≡ day_text b → a ≡ b }
{}

/// The numbers of the five statuses are all numbers of the pieces.
pub fn statuses_add_up()
    ensures { (ps : List Piece) → status_sum ps Available + status_sum ps Reserved + status_sum ps Quarantine
        + status_sum ps Allocated + status_sum ps Assigned ≡ size_sum ps }
{}

/// Of the pieces of a space one alone holds a number, or none does: the cards of those that hold it are the number's card.
pub fn numbers_lie_in_one_piece()
    ensures { (space : Space) (ps : List Piece) (x : ℕ) → ArePieces space ps → cards_at ps x ≡ option_to_list (card_at ps x) }
{}

/// Labels and keys compare as the definitions put them in order: labels, handles and names by their bytes, keys by class,
/// then by handle or range.
pub fn keys_are_in_order()
    ensures labels { (a b : List ℕ) → is_lt (⟦<Label<24> as Ord>⟧.cmp a b) ≡ bytes_before a b }
    ensures handles { (a b : List ℕ) → is_lt (⟦<Handle as Ord>⟧.cmp a b) ≡ bytes_before a b }
    ensures names { (a b : List ℕ) → is_lt (⟦<Name as Ord>⟧.cmp a b) ≡ bytes_before a b }
    ensures keys { (a b : TheKey) → is_lt (⟦<Key as Ord>⟧.cmp a b) ≡ key_before a b }
{
    ranges_are_in_order();
}
