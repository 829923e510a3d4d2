//! What holds of every register that a legal list of entries gives, and goes on with the next entry.
ghost use Rattle.std.specs.Prelude.{◌≡◌, ◌+◌, ◌++◌, ◌∷◌, [], true, false, List, length, option_to_list};
ghost use Rattle.std.specs.Option.{is_some, option_or};
ghost use Rattle.num_range.specs.declared.space.Space.{Space};
ghost use Rattle.num_range.specs.Number.{PlainNumber};
ghost use Rattle.reg_entry.specs.declared.rooms.Rooms.{Rooms};
ghost use Rattle.reg_entry.specs.Entry.{PlainEntry};
ghost use Rattle.reg_entry.specs.Entries.{covers, last_card, painted_card, received_range, received_size, is_received, size_within, first_day_of, last_day_of};
ghost use Rattle.reg_entry.specs.Request.{is_reshaping};
ghost use Rattle.reg_entry.specs.Pieces.{cards_at, size_sum};
ghost use Rattle.reg_entry.specs.Register.{Register, after_entry, after_entries, register_after, empty_register, register_pieces, card_of};
ghost use Rattle.reg_entry.specs.Next.{IsNextEntry, IsLegalFrom, IsLegal};
ghost use Rattle.reg_entry.specs.Whole.{IsWholeRegister};
ghost use Rattle.reg_laws.specs.Reached.{IsRegisterOf, IsReached};

/// The empty register is reached, and from every register that is reached each entry that may come next leads to one: it
/// is the register of the entries before it and this one.
pub fn entries_reach_registers()
    ensures more { (r : Register) (es : List PlainEntry) (e : PlainEntry) → IsRegisterOf r es → IsNextEntry r e
        → IsRegisterOf (after_entry r e) (es ++ e ∷ []) }
    ensures empty { (rooms : Rooms) → IsReached (empty_register rooms) }
    ensures next { (r : Register) (e : PlainEntry) → IsReached r → IsNextEntry r e → IsReached (after_entry r e) }
{}

/// A legal list that is gone on with legally is a legal list, and its register is the one that the rest gives from there on;
/// every legal list has a register.
pub fn legal_entries_go_on()
    ensures legal { (r : Register) (es fs : List PlainEntry) → IsLegalFrom r es → IsLegalFrom (after_entries r es) fs
        → IsLegalFrom r (es ++ fs) }
    ensures register { (r : Register) (es fs : List PlainEntry) → after_entries r (es ++ fs) ≡ after_entries (after_entries r es) fs }
    ensures of { (rooms : Rooms) (es : List PlainEntry) → IsLegal rooms es → IsRegisterOf (register_after rooms es) es }
{}

/// Every register that is reached is whole.
pub fn reached_registers_are_whole()
    ensures { (r : Register) → IsReached r → IsWholeRegister r }
{}

/// In the register of a legal list of entries each number has the card of the last entry that painted it, and none where
/// none did: it lies in just one piece, of that card, or in none. The numbers that some entry painted are those that were
/// received, and the pieces of each space have just as many numbers as were received.
pub fn reached_registers_conserve()
    ensures cards { (r : Register) (es : List PlainEntry) (n : PlainNumber) → IsRegisterOf r es
        → card_of r.pool n ≡ last_card es n }
    ensures once { (r : Register) (es : List PlainEntry) (n : PlainNumber) → IsRegisterOf r es
        → cards_at (register_pieces r n.space) n.value ≡ option_to_list (last_card es n) }
    ensures pooled { (r : Register) (es : List PlainEntry) (n : PlainNumber) → IsRegisterOf r es
        → is_some (last_card es n) ≡ is_received es n }
    ensures sizes { (r : Register) (es : List PlainEntry) (space : Space) → IsRegisterOf r es
        → size_sum (register_pieces r space) ≡ received_size es space }
{}

/// The register of a list of entries counts them, and has the days of the first and the last of them, or 0 where there is
/// none.
pub fn reached_registers_count()
    ensures entries { (r : Register) (es : List PlainEntry) → IsRegisterOf r es → r.entries ≡ length es }
    ensures first_day { (r : Register) (es : List PlainEntry) → IsRegisterOf r es → r.first_day ≡ first_day_of es }
    ensures last_day { (r : Register) (es : List PlainEntry) → IsRegisterOf r es → r.last_day ≡ last_day_of es }
{}

/// One entry more changes the last card of numbers inside its cover alone, and that of no number where it cuts or joins
/// pieces.
pub fn last_cards_change_inside_covers()
    ensures outside { (es : List PlainEntry) (e : PlainEntry) (n : PlainNumber) → covers e.cover n ≡ false
        → last_card (es ++ e ∷ []) n ≡ last_card es n }
    ensures reshaped { (r : Register) (es : List PlainEntry) (e : PlainEntry) (n : PlainNumber) → IsNextEntry r e
        → is_reshaping e.request ≡ true → last_card (es ++ e ∷ []) n ≡ last_card es n }
{}

/// The next entry gives its card to the numbers that it paints, and leaves the card of every other number as it was; it
/// adds the numbers that it receives.
pub fn next_entries_conserve()
    ensures cards { (r : Register) (e : PlainEntry) (n : PlainNumber) → IsWholeRegister r → IsNextEntry r e
        → card_of (after_entry r e).pool n ≡ option_or (painted_card e n) (card_of r.pool n) }
    ensures sizes { (r : Register) (e : PlainEntry) (space : Space) → IsWholeRegister r → IsNextEntry r e
        → size_sum (register_pieces (after_entry r e) space)
        ≡ size_sum (register_pieces r space) + size_within space (received_range e.request) }
{}
