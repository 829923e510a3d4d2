//! Splitting and joining pieces, and what is asked of their numbers.
ghost use Rattle.std.specs.Prelude.{◌≡◌, ℕ, ◌↔◌, true, List};
ghost use Rattle.num_range.specs.declared.space.Space.{Space};
ghost use Rattle.reg_entry.specs.declared.piece.Piece.{Piece};
ghost use Rattle.num_range.specs.Range.{PlainRange};
ghost use Rattle.reg_entry.specs.Blocks.{IsFreeBlock};
ghost use Rattle.reg_entry.specs.Decision.{least_missing};
ghost use Rattle.reg_entry.specs.Next.{is_free_block};
ghost use Rattle.reg_laws.specs.Missing.{IsLeastMissing};
ghost use Rattle.reg_entry.specs.Pieces.{card_at, size_sum, ArePieces};
ghost use Rattle.reg_entry.specs.Reshaping.{split_at_number, joined_at};
ghost use Rattle.reg_entry.specs.Reshaping.{IsFixedAt, CanJoinAt};

/// A block passes the test for what a Delegate may take just where it is aligned, within its space, and each of its
/// numbers is available.
pub fn free_blocks_are_free()
    ensures { (space : Space) (ps : List Piece) (size start : ℕ) → ArePieces space ps
        → (is_free_block ps space size start ≡ true) ↔ IsFreeBlock ps space size start }
{}

/// The number that a refusal gives as outside the pool is the least of the range that no piece holds, and there is none
/// only where each lies in a piece.
pub fn missing_number_is_least()
    ensures { (space : Space) (ps : List Piece) (r : PlainRange) → ArePieces space ps
        → IsLeastMissing ps r.first r.last (least_missing ps r.first r.last) }
{}
