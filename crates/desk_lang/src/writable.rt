//! Which requests have a text that is read again: all whose amount can be asked for.
ghost use Rattle.reg_entry.specs.Request.{IsSizedRequest};
ghost use Rattle.desk_lang.specs.Writable.{AreWritableHosts, IsWritableHolder, IsWritable};

use reg_entry::{Holder, Host, Request};

fn has_forms(holder: &Holder)
    ensures { IsWritableHolder holder.now }
{
    let _ = holder.handle.bytes();
    let _ = holder.cc.bytes();
    let _ = holder.name.bytes();
    let _ = holder.email.bytes();
}

fn have_forms(hosts: &[Host])
    ensures { AreWritableHosts hosts.now }
{
    for host in hosts {
        let _ = host.bytes();
    }
}

/// Tells callers that the request's parts are of their forms, as their types keep them, so that its text is read again
/// as the request where its amount can be asked for.
pub fn is_writable(r: &Request)
    ensures { IsSizedRequest r.now → IsWritable r.now }
{
    match r {
        Request::Receive { range }
        | Request::Reserve { range }
        | Request::Unreserve { range }
        | Request::SubReturn { range }
        | Request::Release { range }
        | Request::ClearReverse { range } => {
            let _ = range.first();
        }
        Request::AddHolder { holder } | Request::EditHolder { holder } => has_forms(holder),
        Request::Delegate { handle, .. } => {
            let _ = handle.bytes();
        }
        Request::SubAssign { range, handle } | Request::Return { range, handle } => {
            let _ = range.first();
            let _ = handle.bytes();
        }
        Request::Split { at } | Request::Join { at } => {
            let _ = at.value();
        }
        Request::Transfer { range, from, to } => {
            let _ = range.first();
            let _ = from.bytes();
            let _ = to.bytes();
        }
        Request::SetReverse { range, servers } => {
            let _ = range.first();
            have_forms(servers.hosts());
        }
    }
}
