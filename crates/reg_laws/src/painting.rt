//! What the next entry asks of the pieces.
ghost use Rattle.std.specs.Prelude.{◌≡◌, ◌<◌, true, Some, IsSome};
ghost use Rattle.num_range.specs.Number.{PlainNumber};
ghost use Rattle.num_range.specs.Range.{PlainRange};
ghost use Rattle.reg_entry.specs.declared.card.Card.{Card};
ghost use Rattle.reg_entry.specs.declared.piece.Piece.{Piece};
ghost use Rattle.reg_entry.specs.declared.request.Request.TheVariants.{Split, Join};
ghost use Rattle.reg_entry.specs.Card.{is_delegated};
ghost use Rattle.reg_entry.specs.Entry.{PlainEntry};
ghost use Rattle.reg_entry.specs.Pieces.{IsCard, IsInOnePieceOrNone, IsPoolRange};
ghost use Rattle.reg_entry.specs.Register.{Register, register_pieces, piece_of, reshaped};
ghost use Rattle.reg_entry.specs.Next.{IsNextEntry};
ghost use Rattle.reg_entry.specs.Whole.{IsWholeRegister};
ghost use Rattle.reg_entry.specs.Reshaping.{CanJoinAt};

/// An entry that paints paints inside one piece or where there is none, in what may be pooled, and does nothing else to
/// the pieces; an available card is the plain one.
pub fn next_entries_can_be_painted()
    ensures one { (r : Register) (e : PlainEntry) (range : PlainRange) (c : Card) → IsWholeRegister r → IsNextEntry r e
        → e.cover ≡ Some range → e.card ≡ Some c → IsInOnePieceOrNone (register_pieces r range.space) range }
    ensures pooled { (r : Register) (e : PlainEntry) (range : PlainRange) (c : Card) → IsWholeRegister r → IsNextEntry r e
        → e.cover ≡ Some range → e.card ≡ Some c → IsPoolRange range }
    ensures cover { (r : Register) (e : PlainEntry) (c : Card) → IsWholeRegister r → IsNextEntry r e → e.card ≡ Some c → IsSome e.cover }
    ensures plain { (r : Register) (e : PlainEntry) (c : Card) → IsWholeRegister r → IsNextEntry r e → e.card ≡ Some c → IsCard c }
    ensures alone { (r : Register) (e : PlainEntry) (c : Card) → IsWholeRegister r → IsNextEntry r e → e.card ≡ Some c
        → reshaped e.request r.pool ≡ r.pool }
{}

/// An entry splits a delegated piece behind its first number.
pub fn next_entries_split_delegated_pieces()
    ensures { (r : Register) (e : PlainEntry) (at : PlainNumber) → IsWholeRegister r → IsNextEntry r e → e.request ≡ Split at
        → (p : Piece) × (piece_of r.pool at ≡ Some p) × (is_delegated p.card.status ≡ true) × (p.range.first < at.value) }
{}

/// An entry joins two delegated pieces of one card where the second begins.
pub fn next_entries_join_equal_pieces()
    ensures { (r : Register) (e : PlainEntry) (at : PlainNumber) → IsWholeRegister r → IsNextEntry r e → e.request ≡ Join at
        → CanJoinAt (register_pieces r at.space) at.value }
{}
