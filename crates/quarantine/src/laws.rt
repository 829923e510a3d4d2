//! What is due, in words of the book's pieces, proved as the contract of a function that does nothing.
ghost use Rattle.std.specs.Prelude.{◌≡◌, ℕ, ◌≤◌};
ghost use Rattle.std.specs.List.{Contains};
ghost use Rattle.num_range.specs.declared.space.Space.{Space};
ghost use Rattle.reg_entry.specs.declared.card.Status.TheVariants.{Quarantine};
ghost use Rattle.reg_entry.specs.declared.piece.Piece.{Piece};
ghost use Rattle.reg_entry.specs.Partition.{Partition, pieces_in};
ghost use Rattle.quarantine.specs.Due.{due_pieces};

/// A piece is due just where some space of the pool has it, it is in quarantine and its last day there isn't behind the
/// given day.
pub fn due_pieces_are_quarantined()
    ensures pooled { (pool : Partition) (day : ℕ) (p : Piece) → Contains (due_pieces pool day) p
        → (space : Space) × Contains (pieces_in pool space) p }
    ensures ended { (pool : Partition) (day : ℕ) (p : Piece) → Contains (due_pieces pool day) p
        → (p.card.status ≡ Quarantine) × (p.card.until ≤ day) }
    ensures all { (pool : Partition) (day : ℕ) (space : Space) (p : Piece) → Contains (pieces_in pool space) p
        → p.card.status ≡ Quarantine → p.card.until ≤ day → Contains (due_pieces pool day) p }
{}
