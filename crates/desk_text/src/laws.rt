//! What the desk can write, proved as the contract of a function that does nothing.
ghost use Rattle.std.specs.Prelude.{ℕ, List};
ghost use Rattle.reg_entry.specs.declared.request.Request.{Request as TheRequest};
ghost use Rattle.reg_entry.specs.Decision.{decision};
ghost use Rattle.reg_entry.specs.Policy.{PlainPolicy};
ghost use Rattle.reg_entry.specs.Register.{Register};
ghost use Rattle.reg_entry.specs.Whole.{IsWholeRegister};
ghost use Rattle.desk_text.specs.ReplyText.{ReplyHasDate};

/// The day that a refusal tells is that of a piece, and so a date where the register is whole.
pub fn replies_have_dates()
    ensures { (r : Register) (p : PlainPolicy) (day : ℕ) (who : List ℕ) (request : TheRequest) → IsWholeRegister r
        → ReplyHasDate (decision r p day who request) }
{}
