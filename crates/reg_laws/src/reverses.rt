//! What the next entry asks of the reverse entries.
ghost use Rattle.std.specs.Prelude.{◌≡◌, ℕ, ◌<◌, true, false, not, List, None, Some, IsSome, filter, length};
ghost use Rattle.std.specs.List.{AllByRecursion};
ghost use Rattle.num_range.specs.Range.{PlainRange};
ghost use Rattle.reg_entry.specs.declared.request.Request.TheVariants.{Return, SetReverse, ClearReverse};
ghost use Rattle.reg_entry.specs.Entry.{PlainEntry};
ghost use Rattle.reg_entry.specs.Ranges.{same_range, lies_inside, ranges_meet, first_meeting, value_of_range};
ghost use Rattle.reg_entry.specs.Register.{Register};
ghost use Rattle.reg_entry.specs.Next.{IsNextEntry};
ghost use Rattle.reg_entry.specs.Whole.{IsWholeRegister};

/// A range is given name servers where it has some, or no reverse entry has a number of it and there is room for one more;
/// a reverse entry that is taken out is there. Those that have a number of a range that is returned lie inside it.
pub fn next_entries_fit_reverses()
    ensures free { (r : Register) (e : PlainEntry) (range : PlainRange) (servers : List (List ℕ)) → IsNextEntry r e
        → e.request ≡ SetReverse range servers → value_of_range r.reverses range ≡ None → first_meeting r.reverses range ≡ None }
    ensures room { (r : Register) (e : PlainEntry) (range : PlainRange) (servers : List (List ℕ)) → IsNextEntry r e
        → e.request ≡ SetReverse range servers → value_of_range r.reverses range ≡ None → length r.reverses < r.rooms.reverse }
    ensures there { (r : Register) (e : PlainEntry) (range : PlainRange) → IsNextEntry r e → e.request ≡ ClearReverse range
        → IsSome (value_of_range r.reverses range) }
    ensures unstraddled { (r : Register) (e : PlainEntry) (range : PlainRange) (handle : List ℕ) → IsWholeRegister r
        → IsNextEntry r e → e.request ≡ Return range handle
        → AllByRecursion (λ s. ranges_meet s.0 range ≡ true → lies_inside s.0 range ≡ true) r.reverses }
{}

/// Whether a reverse entry of another range has a number of this one shows at the first that has one: where that is the
/// range's own there is no other, and else it is the first of the others.
pub fn other_reverse_is_looked_up()
    ensures none { (r : Register) (range : PlainRange) → first_meeting r.reverses range ≡ None
        → first_meeting (filter (λ s. not (same_range s.0 range)) r.reverses) range ≡ None }
    ensures own { (r : Register) (range : PlainRange) (s : PlainRange × List (List ℕ)) → IsWholeRegister r
        → first_meeting r.reverses range ≡ Some s → same_range s.0 range ≡ true
        → first_meeting (filter (λ s. not (same_range s.0 range)) r.reverses) range ≡ None }
    ensures other { (r : Register) (range : PlainRange) (s : PlainRange × List (List ℕ)) → first_meeting r.reverses range ≡ Some s
        → same_range s.0 range ≡ false → first_meeting (filter (λ s. not (same_range s.0 range)) r.reverses) range ≡ Some s }
{}
