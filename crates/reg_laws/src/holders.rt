//! What the next entry knows of holders.
ghost use Rattle.std.specs.Prelude.{◌≡◌, ℕ, ◌<◌, true, None, Some, IsSome, length};
ghost use Rattle.reg_entry.specs.declared.card.Card.{Card};
ghost use Rattle.reg_entry.specs.declared.holder.Holder.{Holder};
ghost use Rattle.reg_entry.specs.declared.request.Request.TheVariants.{AddHolder, EditHolder};
ghost use Rattle.reg_entry.specs.Entry.{PlainEntry};
ghost use Rattle.reg_entry.specs.Holders.{holder_number};
ghost use Rattle.reg_entry.specs.Register.{Register};
ghost use Rattle.reg_entry.specs.Next.{IsNextEntry};
ghost use Rattle.reg_entry.specs.Whole.{IsWholeRegister};
ghost use Rattle.reg_entry.specs.Holdings.{gives_held};

/// A holder is added under a new handle and where there is room; the holder that is edited is there, and so is the one
/// who is given numbers.
pub fn next_entries_know_holders()
    ensures new { (r : Register) (e : PlainEntry) (holder : Holder) → IsNextEntry r e → e.request ≡ AddHolder holder
        → holder_number r.holders holder.handle ≡ None }
    ensures room { (r : Register) (e : PlainEntry) (holder : Holder) → IsNextEntry r e → e.request ≡ AddHolder holder
        → length r.holders < r.rooms.holders }
    ensures edited { (r : Register) (e : PlainEntry) (holder : Holder) → IsNextEntry r e → e.request ≡ EditHolder holder
        → IsSome (holder_number r.holders holder.handle) }
    ensures given { (r : Register) (e : PlainEntry) (c : Card) (holder : ℕ) → IsWholeRegister r → IsNextEntry r e
        → e.card ≡ Some c → gives_held holder c ≡ true → holder < length r.holders }
{}
