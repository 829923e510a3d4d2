//! Holders in the order of their numbers, each with the day on which its fields were last given.
ghost use Rattle.std.specs.Prelude.{◌≡◌, ◌<◌, ◌^◌, length, IfSome, vec_capacity};
ghost use Rattle.reg_entry.specs.Holders.{has_handle, holder_number, holder_named, edited_holder};

use reg_entry::{Handle, Holder};

fn has_handle(member: &(Holder, u32), handle: &Handle) -> bool
    ensures { result ≡ has_handle handle.now member.now }
{
    member.0.handle == *handle
}

/// The number of the holder with this handle.
#[tactic(auto, using(crate::proofs::Places::position_found, crate::proofs::Places::position_nowhere))]
pub(crate) fn holder_number(holders: &[(Holder, u32)], handle: &Handle) -> Option<u32>
    requires { length holders.now < 2 ^ 32 }
    ensures number { result ≡ holder_number holders.now handle.now }
    ensures within { IfSome result (λ number. number < length holders.now) }
{
    for i in 0..holders.len() {
        if has_handle(&holders[i], handle) {
            return Some(i as u32);
        }
    }
    None
}

/// The holder with this handle.
pub(crate) fn holder_named(holders: &[(Holder, u32)], handle: &Handle) -> Option<Holder>
    ensures { result ≡ holder_named holders.now handle.now }
{
    for m in holders {
        if has_handle(m, handle) {
            return Some(m.0);
        }
    }
    None
}

/// Gives the holder of this handle other fields.
pub(crate) fn edit(holders: &mut Vec<(Holder, u32)>, holder: &Holder, day: u32)
    ensures items { holders.new.items ≡ edited_holder holders.old.items holder.now day }
    ensures capacity { vec_capacity holders.new ≡ vec_capacity holders.old }
{
    for i in 0..holders.len() {
        if has_handle(&holders[i], &holder.handle) {
            holders[i] = (*holder, day);
        }
    }
}
