//! What the next entry asks of the sub-assignments.
ghost use Rattle.std.specs.Prelude.{◌≡◌, ℕ, ◌<◌, List, [], None, Some, IsSome, length};
ghost use Rattle.std.specs.Option.{IsSomeAnd};
ghost use Rattle.num_range.specs.Number.{PlainNumber};
ghost use Rattle.num_range.specs.Range.{PlainRange};
ghost use Rattle.reg_entry.specs.declared.card.Status.TheVariants.{Allocated};
ghost use Rattle.reg_entry.specs.declared.request.Request.TheVariants.{SubAssign, SubReturn, Return, Split};
ghost use Rattle.reg_entry.specs.Entry.{PlainEntry};
ghost use Rattle.reg_entry.specs.Holders.{holder_number};
ghost use Rattle.reg_entry.specs.Pieces.{IsPoolRange};
ghost use Rattle.reg_entry.specs.Ranges.{first_meeting, value_of_range, ranges_inside};
ghost use Rattle.reg_entry.specs.Register.{Register, card_of};
ghost use Rattle.reg_entry.specs.Covers.{first_number};
ghost use Rattle.reg_entry.specs.Decision.{straddling};
ghost use Rattle.reg_entry.specs.Next.{IsNextEntry};
ghost use Rattle.reg_entry.specs.Whole.{IsWholeRegister};

/// A range is sub-assigned where no sub has a number of it, there is room for one more and its holder is known; a sub that
/// is taken back is there. Both cover the range, which lies in an allocated piece. No sub is cut by a split, and none lies
/// in a range that is returned.
pub fn next_entries_fit_subs()
    ensures free { (r : Register) (e : PlainEntry) (range : PlainRange) (handle : List ℕ) → IsNextEntry r e
        → e.request ≡ SubAssign range handle → first_meeting r.subs range ≡ None }
    ensures room { (r : Register) (e : PlainEntry) (range : PlainRange) (handle : List ℕ) → IsNextEntry r e
        → e.request ≡ SubAssign range handle → length r.subs < r.rooms.subs }
    ensures known { (r : Register) (e : PlainEntry) (range : PlainRange) (handle : List ℕ) → IsNextEntry r e
        → e.request ≡ SubAssign range handle → IsSome (holder_number r.holders handle) }
    ensures there { (r : Register) (e : PlainEntry) (range : PlainRange) → IsNextEntry r e → e.request ≡ SubReturn range
        → IsSome (value_of_range r.subs range) }
    ensures unstraddled { (r : Register) (e : PlainEntry) (at : PlainNumber) → IsNextEntry r e → e.request ≡ Split at
        → straddling r.subs at ≡ None }
    ensures empty { (r : Register) (e : PlainEntry) (range : PlainRange) (handle : List ℕ) → IsNextEntry r e
        → e.request ≡ Return range handle → ranges_inside r.subs range ≡ [] }
    ensures cover { (r : Register) (e : PlainEntry) (range : PlainRange) (handle : List ℕ) → IsNextEntry r e
        → e.request ≡ SubAssign range handle → e.cover ≡ Some range }
    ensures returned_cover { (r : Register) (e : PlainEntry) (range : PlainRange) → IsNextEntry r e → e.request ≡ SubReturn range
        → e.cover ≡ Some range }
    ensures allocated { (r : Register) (e : PlainEntry) (range : PlainRange) (handle : List ℕ) → IsWholeRegister r
        → IsNextEntry r e → e.request ≡ SubAssign range handle
        → IsSomeAnd (card_of r.pool (first_number range)) (λ c. c.status ≡ Allocated) }
    ensures returned_allocated { (r : Register) (e : PlainEntry) (range : PlainRange) → IsWholeRegister r → IsNextEntry r e
        → e.request ≡ SubReturn range → IsSomeAnd (card_of r.pool (first_number range)) (λ c. c.status ≡ Allocated) }
    ensures pooled { (r : Register) (e : PlainEntry) (range : PlainRange) (handle : List ℕ) → IsWholeRegister r
        → IsNextEntry r e → e.request ≡ SubAssign range handle → IsPoolRange range }
    ensures returned_pooled { (r : Register) (e : PlainEntry) (range : PlainRange) → IsWholeRegister r → IsNextEntry r e
        → e.request ≡ SubReturn range → IsPoolRange range }
{}
