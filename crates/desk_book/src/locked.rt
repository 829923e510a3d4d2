//! What lies behind the lock.
ghost use Rattle.std.specs.Prelude.{◌≡◌, true, false, None, IfOk, IfErr, IfSome, OnOk};
ghost use mathlib.Core.List.{IsPrefix};
ghost use Rattle.reg_entry.specs.Register.{register_after};
ghost use Rattle.reg_entry.specs.Decision.{decision};
ghost use Rattle.reg_entry.specs.Next.{IsLegal};
ghost use Rattle.desk_text.specs.ReplyText.{ReplyHasDate};
ghost use Rattle.reader_edge.specs.Refusals.{raised};
ghost use Rattle.desk_book.specs.Book.{IsLeftAt};
ghost use Rattle.desk_book.specs.Faults.{is_shut, is_shut_fault, entered_by, entered_by_submit};
ghost use Rattle.desk_book.specs.Reply.{with_reply, number_of};
ghost use Rattle.desk_book.specs.Desk.{IsAnsweredOn};

use crate::{Book, DeskFault, Naming, SubmitFault};
use policy_table::Policy;
use reg_entry::{Name, Reply, Request};
use snapshot_pub::{Pass, Shut};
use std::marker::PhantomData;
use std::sync::Wait;

/// A book of the snapshots that are named, and what it waits by when it is dropped.
pub(crate) struct Locked<N: Naming, R: Wait + Drop> {
    book: Book,
    rt: R,
    of: PhantomData<N>,
    ghost named: { (book.book ≡ N.book) × (book.rooms ≡ N.rooms) },
}

impl<N: Naming, R: Wait + Drop> Drop for Locked<N, R> {
    fn drop(self) {
        let Locked { book, rt, of: _ } = self;
        book.close(&rt);
    }
}

/// Settles the book, and lets the pass learn what is published then, until the pass has seen just that.
fn settle_for<R: Wait>(book: &mut Book, rt: &R, pass: &mut Pass) -> Result<(), DeskFault>
    requires named { pass.old.book ≡ book.old.book }
    ensures settled { OnOk result (book.new.published ≡ book.new.entries) }
    ensures all { OnOk result (pass.new.entries ≡ book.old.entries) }
    ensures fault { IfErr result (λ fault. entered_by fault ≡ None) }
    ensures published { is_shut result ≡ true → book.new.published ≡ book.new.entries }
    ensures entries { book.new.entries ≡ book.old.entries }
    ensures seen { IsPrefix pass.old.entries pass.new.entries }
    ensures legal { IsLegal pass.new.rooms pass.new.entries }
    ensures shut { is_shut result ≡ true → pass.new.shuts ≡ raised pass.old.shuts }
    ensures open { is_shut result ≡ false → pass.new.shuts ≡ pass.old.shuts }
    ensures same { (pass.new.book ≡ pass.old.book) × (pass.new.rooms ≡ pass.old.rooms) }
    ensures same_book { (book.new.book ≡ book.old.book) × (book.new.rooms ≡ book.old.rooms) }
{
    // What the pass keeps.
    pass.is_legal();
    for _ in rt.forever() {
        let told = match book.settle(rt) {
            Ok(told) => told,
            Err(_) => return Err(DeskFault::NoMemory { entered: None }),
        };
        let entries = told.entries();
        match pass.learn(told) {
            Ok(()) => {}
            Err(Shut) => return Err(DeskFault::Shut { entered: None }),
        }
        if pass.entries() == entries {
            return Ok(());
        }
    }
    unreachable!()
}

/// What a desk says of a book's fault.
fn told_at_desk(fault: SubmitFault) -> DeskFault
    ensures entered { entered_by result ≡ entered_by_submit fault }
    ensures open { is_shut_fault result ≡ false }
{
    match fault {
        SubmitFault::NoMemory { entered } => DeskFault::NoMemory { entered },
    }
}

impl<N: Naming, R: Wait + Drop> Locked<N, R> {
    pub(crate) fn new(book: Book, rt: R) -> Locked<N, R>
        requires named { (book.book ≡ N.book) × (book.rooms ≡ N.rooms) }
    {
        Locked {
            book,
            rt,
            of: PhantomData,
        }
    }

    /// Settles, submits, and lets the pass learn what is published before and after.
    pub(crate) fn submit<W: Wait>(
        &mut self,
        rt: &W,
        pass: &mut Pass,
        policy: &Policy,
        day: u32,
        who: &Name,
        request: &Request,
    ) -> Result<(Reply, u64), DeskFault>
        requires named { (pass.old.book ≡ N.book) × (pass.old.rooms ≡ N.rooms) }
        ensures answer { IfOk result (λ r. IsAnsweredOn N.rooms policy.now day who.now request.now pass.old.entries r.0 r.1 pass.new.entries self.old.book.entries) }
        ensures entries { IfOk result (λ r. (self.new.book.entries ≡ with_reply self.old.book.entries r.0) × (self.new.book.published ≡ self.new.book.entries)) }
        ensures date { IfOk result (λ r. ReplyHasDate r.0) }
        ensures fault { IfErr result (λ fault. IsLeftAt (entered_by fault) (decision (register_after N.rooms self.old.book.entries) policy.now day who.now request.now) self.old.book.entries self.new.book.entries) }
        ensures entered { IfErr result (λ fault. IfSome (entered_by fault) (λ number. IsPrefix pass.old.entries self.old.book.entries)) }
        ensures published { is_shut result ≡ true → self.new.book.published ≡ self.new.book.entries }
        ensures seen { IsPrefix pass.old.entries pass.new.entries }
        ensures legal { IsLegal pass.new.rooms pass.new.entries }
        ensures shut { is_shut result ≡ true → pass.new.shuts ≡ raised pass.old.shuts }
        ensures open { is_shut result ≡ false → pass.new.shuts ≡ pass.old.shuts }
        ensures same { (pass.new.book ≡ pass.old.book) × (pass.new.rooms ≡ pass.old.rooms) }
    {
        match settle_for(&mut self.book, rt, pass) {
            Ok(()) => {}
            Err(fault) => return Err(fault),
        }
        match self.book.submit(rt, policy, day, who, request) {
            Ok((reply, published)) => {
                let number = published.entries();
                match pass.learn(published) {
                    Ok(()) => Ok((reply, number)),
                    Err(Shut) => Err(DeskFault::Shut {
                        entered: entered(&reply, number),
                    }),
                }
            }
            Err(fault) => Err(told_at_desk(fault)),
        }
    }

    pub(crate) fn into_book(self) -> Book
        ensures named { (result.book ≡ N.book) × (result.rooms ≡ N.rooms) }
    {
        let Locked { book, rt: _, of: _ } = self;
        book
    }
}

/// The number of the entry, where the request was accepted.
fn entered(reply: &Reply, number: u64) -> Option<u64>
    ensures { result ≡ number_of reply.now number }
{
    match reply {
        Reply::Accepted(_) => Some(number),
        Reply::Refused(_) => None,
    }
}
