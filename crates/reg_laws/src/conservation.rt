//! Conservation: across every legal list of entries the pieces stay those of their spaces, each number has the card of
//! the last entry that painted it, and the sizes add up to what was received.
ghost use Rattle.std.specs.Prelude.{◌≡◌, ℕ, List};
ghost use Rattle.num_range.specs.declared.space.Space.{Space};
ghost use Rattle.num_range.specs.Number.{PlainNumber};
ghost use Rattle.reg_entry.specs.declared.rooms.Rooms.{Rooms};
ghost use Rattle.reg_entry.specs.Entry.{PlainEntry};
ghost use Rattle.reg_entry.specs.Pieces.{size_sum};
ghost use Rattle.reg_entry.specs.Partition.{IsPartition};
ghost use Rattle.reg_entry.specs.Entries.{last_card, received_size};
ghost use Rattle.reg_entry.specs.Register.{register_after, register_pieces, card_of};
ghost use Rattle.reg_entry.specs.Next.{IsLegal};

/// After every legal list of entries each number has the card of the last entry that painted it, and none where none
/// did; and the pieces of each space have just as many numbers as were received.
pub fn legal_entries_conserve()
    ensures pieces { (rooms : Rooms) (es : List PlainEntry) → IsLegal rooms es → IsPartition (register_after rooms es).pool }
    ensures cards { (rooms : Rooms) (es : List PlainEntry) (n : PlainNumber) → IsLegal rooms es
        → card_of (register_after rooms es).pool n ≡ last_card es n }
    ensures sizes { (rooms : Rooms) (es : List PlainEntry) (space : Space) → IsLegal rooms es
        → size_sum (register_pieces (register_after rooms es) space) ≡ received_size es space }
{}
