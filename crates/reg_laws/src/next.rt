//! What the decision accepts may come next.
ghost use Rattle.std.specs.Prelude.{◌≡◌, ℕ, ◌≤◌, true, List};
ghost use Rattle.reg_entry.specs.declared.request.Request.{Request};
ghost use Rattle.reg_entry.specs.Request.{is_request};
ghost use Rattle.reg_entry.specs.Policy.{PlainPolicy, IsPolicy};
ghost use Rattle.reg_entry.specs.Partition.{IsPartition};
ghost use Rattle.reg_entry.specs.Days.{last_date};
ghost use Rattle.reg_entry.specs.Register.{Register};
ghost use Rattle.reg_entry.specs.Decision.{decision, IfAccepted};
ghost use Rattle.reg_entry.specs.Covers.{cover_for, card_for, IsLeastCover};
ghost use Rattle.reg_entry.specs.Entry.{PlainEntry};
ghost use Rattle.reg_entry.specs.Next.{start_of, until_of, IsNextEntry};

/// Each entry that the decision gives may come next, whatever the policy says, and where it delegates numbers it covers the
/// least free block of their size.
pub fn accepted_may_come_next()
    ensures next { (r : Register) (p : PlainPolicy) (day : ℕ) (who : List ℕ) (request : Request) → IsPartition r.pool
        → r.last_day ≤ last_date → IsPolicy p → is_request request ≡ true
        → IfAccepted (decision r p day who request) (IsNextEntry r) }
    ensures least { (r : Register) (p : PlainPolicy) (day : ℕ) (who : List ℕ) (request : Request) → IsPartition r.pool
        → r.last_day ≤ last_date → IsPolicy p → is_request request ≡ true
        → IfAccepted (decision r p day who request) (λ e. IsLeastCover r e.request e.cover) }
{}

/// The next entry covers what its request says, with its own block where it delegates one, and paints the card that its
/// request says, with its own until.
pub fn next_entries_have_covers_and_cards()
    ensures cover { (r : Register) (e : PlainEntry) → IsNextEntry r e → e.cover ≡ cover_for r e.request (start_of e.cover) }
    ensures card { (r : Register) (e : PlainEntry) → IsNextEntry r e → e.card ≡ card_for r e.request e.day (until_of e.card) }
{}
