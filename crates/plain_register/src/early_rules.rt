//! Whether the register knows what a request speaks of, and it may be asked of it.
ghost use Rattle.std.specs.Prelude.{◌≡◌, ℕ, List};
ghost use Rattle.reg_entry.specs.declared.request.Request.TheVariants.{SubAssign, Return, Transfer, Split, Join, SetReverse};
ghost use Rattle.reg_entry.specs.Decision.{first_of, early_rules};

use crate::PlainRegister;
use crate::conditions::begins_space;
use crate::pooled::outside_unicast;
use num_range::{Number, Range};
use reg_entry::{Handle, Refusal, Request, Status};

impl PlainRegister {
    fn sub_assign_refusal(&self, range: &Range, handle: &Handle) -> Option<Refusal>
        ensures { result ≡ first_of (early_rules self.now (SubAssign range.now handle.now)) }
    {
        self.outside_pool(range)
            .or_else(|| self.not_in_one_piece(range))
            .or_else(|| self.not_of_status(range.first_number(), Status::Allocated))
            .or_else(|| self.unknown_holder(handle))
            .or_else(|| self.meets_sub(range))
    }

    fn return_refusal(&self, range: &Range, handle: &Handle) -> Option<Refusal>
        ensures { result ≡ first_of (early_rules self.now (Return range.now handle.now)) }
    {
        self.outside_pool(range)
            .or_else(|| self.not_one_piece(range))
            .or_else(|| self.not_delegated(range.first_number()))
            .or_else(|| self.unknown_holder(handle))
            .or_else(|| self.not_holder(range, handle))
    }

    fn transfer_refusal(&self, range: &Range, from: &Handle, to: &Handle) -> Option<Refusal>
        ensures { result ≡ first_of (early_rules self.now (Transfer range.now from.now to.now)) }
    {
        self.outside_pool(range)
            .or_else(|| self.not_one_piece(range))
            .or_else(|| self.not_delegated(range.first_number()))
            .or_else(|| self.unknown_holder(from))
            .or_else(|| self.unknown_holder(to))
            .or_else(|| self.not_holder(range, from))
    }

    fn split_refusal(&self, at: Number) -> Option<Refusal>
        ensures { result ≡ first_of (early_rules self.now (Split at)) }
    {
        self.number_outside_pool(at)
            .or_else(|| self.begins_a_piece(at))
            .or_else(|| self.not_delegated(at))
    }

    fn join_refusal(&self, at: Number) -> Option<Refusal>
        ensures { result ≡ first_of (early_rules self.now (Join at)) }
    {
        begins_space(at)
            .or_else(|| self.number_outside_pool(at))
            .or_else(|| self.number_outside_pool(at.before()))
            .or_else(|| self.begins_no_piece(at))
            .or_else(|| self.not_delegated(at))
            .or_else(|| self.cards_differ(at))
    }

    /// Which servers they are has no part in it.
    fn set_reverse_refusal(&self, range: &Range) -> Option<Refusal>
        ensures { (servers : List (List ℕ)) → result ≡ first_of (early_rules self.now (SetReverse range.now servers)) }
    {
        self.outside_pool(range)
            .or_else(|| self.not_in_one_piece(range))
            .or_else(|| self.not_delegated(range.first_number()))
            .or_else(|| self.meets_reverse(range))
    }

    /// Why the register can't do what is asked for, whatever the day and whatever the policy says, or nothing.
    pub fn early_refusal(&self, request: &Request) -> Option<Refusal>
        ensures { result ≡ first_of (early_rules self.now request.now) }
    {
        match request {
            Request::Receive { range } => outside_unicast(range).or_else(|| self.already_pooled(
                range,
            )),
            Request::AddHolder { holder } => self.handle_taken(&holder.handle),
            Request::EditHolder { holder } => self.unknown_holder(&holder.handle),
            Request::Delegate { handle, .. } => self.unknown_holder(handle),
            Request::Reserve { range } => self
                .outside_pool(range)
                .or_else(|| self.not_in_one_piece(range))
                .or_else(|| self.not_available(range.first_number())),
            Request::Unreserve { range } => self
                .outside_pool(range)
                .or_else(|| self.not_one_piece(range))
                .or_else(|| self.not_of_status(range.first_number(), Status::Reserved)),
            Request::SubAssign { range, handle } => self.sub_assign_refusal(range, handle),
            Request::SubReturn { range } => self.no_sub(range),
            Request::Return { range, handle } => self.return_refusal(range, handle),
            Request::Release { range } => self
                .outside_pool(range)
                .or_else(|| self.not_one_piece(range))
                .or_else(|| self.not_of_status(range.first_number(), Status::Quarantine)),
            Request::Split { at } => self.split_refusal(*at),
            Request::Join { at } => self.join_refusal(*at),
            Request::Transfer { range, from, to } => self.transfer_refusal(range, from, to),
            Request::SetReverse { range, .. } => self.set_reverse_refusal(range),
            Request::ClearReverse { range } => self.no_reverse(range),
        }
    }
}
