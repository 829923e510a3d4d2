//! What each holder holds, and how the next entry changes it.
ghost use Rattle.std.specs.Prelude.{◌≡◌, ℕ, ◌+◌, ◌^◌, ◌<◌, ◌≤◌, None, Some, length};
ghost use Rattle.num_range.specs.declared.space.Space.{Space};
ghost use Rattle.num_range.specs.Range.{PlainRange};
ghost use Rattle.reg_entry.specs.declared.card.Card.{Card};
ghost use Rattle.reg_entry.specs.Entry.{PlainEntry};
ghost use Rattle.reg_entry.specs.Covers.{first_number};
ghost use Rattle.reg_entry.specs.Register.{Register, after_entry, card_of};
ghost use Rattle.reg_entry.specs.Sums.{held, allocated};
ghost use Rattle.reg_entry.specs.Next.{IsNextEntry};
ghost use Rattle.reg_entry.specs.Whole.{IsWholeRegister};
ghost use Rattle.reg_entry.specs.Holdings.{held_by, allocated_by, held_by_card, allocated_by_card};

/// An entry that paints a card takes the numbers of its cover from the holder of the card that they had, and gives them
/// to the holder of the new one; no other entry changes what a holder holds.
pub fn next_entries_change_holdings()
    ensures held { (r : Register) (e : PlainEntry) (range : PlainRange) (c : Card) (holder : ℕ) (space : Space)
        → IsWholeRegister r → IsNextEntry r e → e.cover ≡ Some range → e.card ≡ Some c
        → held (after_entry r e) holder space + held_by holder space range (card_of r.pool (first_number range))
        ≡ held r holder space + held_by_card holder space range c }
    ensures allocated { (r : Register) (e : PlainEntry) (range : PlainRange) (c : Card) (holder : ℕ) (space : Space)
        → IsWholeRegister r → IsNextEntry r e → e.cover ≡ Some range → e.card ≡ Some c
        → allocated (after_entry r e) holder space + allocated_by holder space range (card_of r.pool (first_number range))
        ≡ allocated r holder space + allocated_by_card holder space range c }
    ensures same_held { (r : Register) (e : PlainEntry) (holder : ℕ) (space : Space)
        → IsWholeRegister r → IsNextEntry r e → e.card ≡ None → held (after_entry r e) holder space ≡ held r holder space }
    ensures same_allocated { (r : Register) (e : PlainEntry) (holder : ℕ) (space : Space)
        → IsWholeRegister r → IsNextEntry r e → e.card ≡ None → allocated (after_entry r e) holder space ≡ allocated r holder space }
{}

/// What an entry takes from a holder the holder has.
pub fn next_entries_take_what_is_held()
    ensures held { (r : Register) (e : PlainEntry) (range : PlainRange) (c : Card) (holder : ℕ) (space : Space)
        → IsWholeRegister r → IsNextEntry r e → e.cover ≡ Some range → e.card ≡ Some c
        → held_by holder space range (card_of r.pool (first_number range)) ≤ held r holder space }
    ensures allocated { (r : Register) (e : PlainEntry) (range : PlainRange) (c : Card) (holder : ℕ) (space : Space)
        → IsWholeRegister r → IsNextEntry r e → e.cover ≡ Some range → e.card ≡ Some c
        → allocated_by holder space range (card_of r.pool (first_number range)) ≤ allocated r holder space }
{}

/// No holder holds more than there is, allocated numbers are held, and a number under which there is no holder holds
/// nothing.
pub fn holdings_are_bounded()
    ensures bound { (r : Register) (holder : ℕ) (space : Space) → IsWholeRegister r → held r holder space < 2 ^ 127 }
    ensures part { (r : Register) (holder : ℕ) (space : Space) → allocated r holder space ≤ held r holder space }
    ensures nobody { (r : Register) (holder : ℕ) (space : Space) → IsWholeRegister r → length r.holders ≤ holder
        → held r holder space ≡ 0 }
{}
