//! How much of what is allocated to a holder is used, and how the next entry changes it.
ghost use Rattle.std.specs.Prelude.{◌≡◌, ℕ, ◌+◌, ◌≤◌, true, List, None, Some};
ghost use Rattle.num_range.specs.declared.space.Space.{Space};
ghost use Rattle.num_range.specs.Range.{PlainRange};
ghost use Rattle.reg_entry.specs.declared.card.Card.{Card};
ghost use Rattle.reg_entry.specs.declared.request.Request.TheVariants.{SubAssign, SubReturn};
ghost use Rattle.reg_entry.specs.Entry.{PlainEntry};
ghost use Rattle.reg_entry.specs.Covers.{first_number};
ghost use Rattle.reg_entry.specs.Register.{Register, after_entry, card_of};
ghost use Rattle.reg_entry.specs.Sums.{held, allocated, used};
ghost use Rattle.reg_entry.specs.Next.{IsNextEntry};
ghost use Rattle.reg_entry.specs.Whole.{IsWholeRegister};
ghost use Rattle.reg_entry.specs.Holdings.{allocated_by};
ghost use Rattle.reg_laws.specs.Nobodys.{is_of_nobodys};
ghost use Rattle.reg_laws.specs.Use.{used_by, used_by_card};

/// An entry that paints a card takes the subs inside its cover from the holder to whom the numbers were allocated, and
/// gives them to the one to whom the new card allocates them; a sub counts for the holder of the piece that it lies in
/// once it is there, and no more once it is returned; no other entry changes what is used.
pub fn next_entries_change_use()
    ensures painted { (r : Register) (e : PlainEntry) (range : PlainRange) (c : Card) (holder : ℕ) (space : Space)
        → IsWholeRegister r → IsNextEntry r e → e.cover ≡ Some range → e.card ≡ Some c
        → used (after_entry r e) holder space + used_by r.subs holder space range (card_of r.pool (first_number range))
        ≡ used r holder space + used_by_card r.subs holder space range c }
    ensures assigned { (r : Register) (e : PlainEntry) (range : PlainRange) (handle : List ℕ) (holder : ℕ) (space : Space)
        → IsWholeRegister r → IsNextEntry r e → e.request ≡ SubAssign range handle
        → used (after_entry r e) holder space
        ≡ used r holder space + allocated_by holder space range (card_of r.pool (first_number range)) }
    ensures returned { (r : Register) (e : PlainEntry) (range : PlainRange) (holder : ℕ) (space : Space)
        → IsWholeRegister r → IsNextEntry r e → e.request ≡ SubReturn range
        → used (after_entry r e) holder space + allocated_by holder space range (card_of r.pool (first_number range))
        ≡ used r holder space }
    ensures same { (r : Register) (e : PlainEntry) (holder : ℕ) (space : Space)
        → IsWholeRegister r → IsNextEntry r e → e.card ≡ None → (after_entry r e).subs ≡ r.subs
        → used (after_entry r e) holder space ≡ used r holder space }
{}

/// What an entry takes from what is used is used.
pub fn next_entries_take_what_is_used()
    ensures painted { (r : Register) (e : PlainEntry) (range : PlainRange) (c : Card) (holder : ℕ) (space : Space)
        → IsWholeRegister r → IsNextEntry r e → e.cover ≡ Some range → e.card ≡ Some c
        → used_by r.subs holder space range (card_of r.pool (first_number range)) ≤ used r holder space }
    ensures returned { (r : Register) (e : PlainEntry) (range : PlainRange) (holder : ℕ) (space : Space)
        → IsWholeRegister r → IsNextEntry r e → e.request ≡ SubReturn range
        → allocated_by holder space range (card_of r.pool (first_number range)) ≤ used r holder space }
{}

/// No more is used than is allocated.
pub fn use_is_bounded()
    ensures part { (r : Register) (holder : ℕ) (space : Space) → IsWholeRegister r → used r holder space ≤ allocated r holder space }
{}

/// Numbers that are received, reserved, unreserved or released are no holder's, before and after: no holder holds more or less
/// for it, nor has more or less allocated or used.
pub fn nobodys_numbers_change_no_holdings()
    ensures held { (r : Register) (e : PlainEntry) (holder : ℕ) (space : Space)
        → IsWholeRegister r → IsNextEntry r e → is_of_nobodys e.request ≡ true → held (after_entry r e) holder space ≡ held r holder space }
    ensures allocated { (r : Register) (e : PlainEntry) (holder : ℕ) (space : Space)
        → IsWholeRegister r → IsNextEntry r e → is_of_nobodys e.request ≡ true → allocated (after_entry r e) holder space ≡ allocated r holder space }
    ensures used { (r : Register) (e : PlainEntry) (holder : ℕ) (space : Space)
        → IsWholeRegister r → IsNextEntry r e → is_of_nobodys e.request ≡ true → used (after_entry r e) holder space ≡ used r holder space }
{}
