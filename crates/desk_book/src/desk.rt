//! The book behind a lock.
ghost use Rattle.std.specs.Prelude.{◌≡◌, ◌≤◌, ◌<◌, true, false, length, List, IfOk, IfErr};
ghost use mathlib.Core.List.{IsPrefix};
ghost use Rattle.reg_entry.specs.Entry.{PlainEntry};
ghost use Rattle.reg_entry.specs.Decision.{IfAccepted};
ghost use Rattle.reg_entry.specs.Next.{IsLegal};
ghost use Rattle.desk_text.specs.ReplyText.{ReplyHasDate};
ghost use Rattle.reader_edge.specs.Refusals.{raised};
ghost use Rattle.desk_book.specs.Faults.{is_shut, entered_by};
ghost use Rattle.desk_book.specs.Desk.{IsAnsweredOn, IsReplyAt, IsEntered};

use crate::locked::Locked;
use crate::{Book, DeskFault, Naming};
use policy_table::Policy;
use reg_entry::{Name, Reply, Request};
use snapshot_pub::Pass;
use std::sync::{Mutex, Wait};

/// A book of the snapshots that are named, behind a lock. Threads share it.
pub struct Desk<N: Naming, R: Wait + Drop> {
    lock: Mutex<Locked<N, R>>,
}

impl<N: Naming, R: Wait + Drop> Desk<N, R> {
    /// Puts the book behind a lock.
    pub fn new(book: Book, rt: R) -> Desk<N, R>
        requires named { (book.book ≡ N.book) × (book.rooms ≡ N.rooms) }
    {
        Desk {
            lock: Mutex::new(Locked::new(book, rt)),
        }
    }

    /// Takes the book out again. It takes no memory.
    pub fn end(self) -> Book
        ensures named { (result.book ≡ N.book) × (result.rooms ≡ N.rooms) }
    {
        let Desk { lock } = self;
        lock.into_inner().into_book()
    }

    /// Submits the request to the book, under the lock, and says how many entries there are then. Before it is decided the
    /// pass has seen all entries, and once it is answered the one that it became too. What the pass has seen begins with what
    /// it had seen before, also after a fault.
    pub fn submit<W: Wait>(
        &self,
        rt: &W,
        pass: &mut Pass,
        policy: &Policy,
        day: u32,
        who: &Name,
        request: &Request,
    ) -> Result<(Reply, u64), DeskFault>
        requires named { (pass.old.book ≡ N.book) × (pass.old.rooms ≡ N.rooms) }
        ensures answer { IfOk result (λ r. (es : List PlainEntry)
            × IsAnsweredOn pass.old.rooms policy.now day who.now request.now pass.old.entries r.0 r.1 pass.new.entries es) }
        ensures reply { IfOk result (λ r. IsReplyAt pass.old.rooms policy.now day who.now request.now pass.new.entries r.0 r.1) }
        ensures number { IfOk result (λ r. (length pass.old.entries ≤ r.1) × (r.1 ≤ length pass.new.entries)) }
        ensures accepted { IfOk result (λ r. IfAccepted r.0 (λ e. length pass.old.entries < r.1)) }
        ensures date { IfOk result (λ r. ReplyHasDate r.0) }
        ensures entered { IfErr result (λ fault. IsEntered pass.old.rooms policy.now day who.now request.now pass.old.entries (entered_by fault)) }
        ensures seen { IsPrefix pass.old.entries pass.new.entries }
        ensures legal { IsLegal pass.new.rooms pass.new.entries }
        ensures shut { is_shut result ≡ true → pass.new.shuts ≡ raised pass.old.shuts }
        ensures open { is_shut result ≡ false → pass.new.shuts ≡ pass.old.shuts }
        ensures same { (pass.new.book ≡ pass.old.book) × (pass.new.rooms ≡ pass.old.rooms) }
    {
        self.lock
            .lock(rt)
            .submit(rt, pass, policy, day, who, request)
    }
}
